//! What a version has, with all records that its segments have by now.
ghost use Rattle.std.specs.Prelude.{◌≡◌, ◌<◌, true, length, map, IfOk};
ghost use Rattle.std.specs.List.{All};
ghost use Rattle.std.specs.Arc.{arc_value};
ghost use Rattle.hybrid_view.specs.Live.{IsLived};
ghost use Rattle.bit_rows.specs.Segments.{kept_at};
ghost use Rattle.bit_rows.specs.Seen.{IsSmall};
ghost use Rattle.hybrid_store.specs.Whole.{whole_piece, whole_lived, AreThere, AreWhole};

use bit_rows::KeptSegments;
use hybrid_view::{LivePart, LiveRelation};
use std::alloc::{AllocError, Global};

// Does a part have all records of its segment?
fn is_whole(part: &LivePart, kept: &KeptSegments) -> bool
    requires { part.now.segment < length kept.now.all }
    ensures { result ≡ true → length part.now.rows.records
        ≡ length (kept_at kept.now.all part.now.segment).rows.records }
{
    let records = kept.as_slice()[part.segment() as usize].records();
    part.slots() == records.len()
}

/// Do all parts have all records of their segments?
pub fn are_whole(live: &LiveRelation, kept: &KeptSegments) -> bool
    requires { AreThere kept.now.all live.now.pieces }
    ensures { result ≡ true → AreWhole kept.now.all live.now.pieces }
{
    for index in 0..live.parts() {
        if !is_whole(live.part(index), kept) {
            return false;
        }
    }
    true
}

// A part with all records of its segment.
fn part_whole(part: &LivePart, kept: &KeptSegments) -> Result<LivePart, AllocError>
    requires { part.now.segment < length kept.now.all }
    ensures part { IfOk result (λ p. p ≡ whole_piece kept.now.all part.now) }
    ensures small { IfOk result IsSmall }
{
    let records = kept.as_slice()[part.segment() as usize].share()?;
    let _count = records.len();
    let part = part.with_records(records)?;
    Ok(part)
}

// All parts of a relation.
fn parts_whole(
    alloc: Global,
    live: &LiveRelation,
    kept: &KeptSegments,
) -> Result<Vec<LivePart>, AllocError>
    requires { AreThere kept.now.all live.now.pieces }
    ensures parts { IfOk result (λ v. v.items ≡ map (whole_piece kept.now.all) live.now.pieces) }
    ensures small { IfOk result (λ v. All IsSmall v.items) }
{
    let mut parts = Vec::with_capacity(alloc, live.parts() as usize)?;
    for index in 0..live.parts() {
        let part = part_whole(live.part(index), kept)?;
        parts.push(part)?;
    }
    Ok(parts)
}

/// What there is of a relation, with all records of its segments. The index is shared.
pub fn relation_whole(
    alloc: Global,
    live: &LiveRelation,
    kept: &KeptSegments,
) -> Result<LiveRelation, AllocError>
    requires there { AreThere kept.now.all live.now.pieces }
    requires lived { IsLived (whole_lived kept.now.all live.now) }
    ensures whole { IfOk result (λ l. l ≡ whole_lived kept.now.all live.now) }
    ensures small { IfOk result (λ l. All IsSmall l.pieces) }
{
    let parts = parts_whole(alloc, live, kept)?;
    let whole = live.with_parts(alloc, parts)?;
    Ok(whole)
}
