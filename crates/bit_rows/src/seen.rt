//! What a version of a branch has of a relation, by the histories of its rows.
ghost use Rattle.std.specs.Prelude.{◌≡◌, ℕ, ◌<◌, ◌^◌, ◌-◌, ◌++◌, ◌∷◌, [], cond, length, IfOk, OnOk};
ghost use Rattle.hybrid_view.specs.Live.{IsLived};
ghost use Rattle.std.specs.List.{All};
ghost use Rattle.bit_rows.specs.Rows.{kept_row_at};
ghost use Rattle.hybrid_view.specs.Spots.{spots_of_pieces};
ghost use Rattle.bit_rows.specs.Seen.{is_begun, piece_of_row, pieces_seen, lived_seen, AreCovered, IsThere, IsSmall};

use crate::kept::KeptSegments;
use crate::rows::BitRows;
use hybrid_view::{LivePart, LiveRelation};
use std::alloc::{AllocError, Global};
use std::sync::Arc;

// The part of a row at a position.
fn part_seen(
    alloc: Global,
    rows: &BitRows,
    kept: &KeptSegments,
    position: u32,
    index: usize,
) -> Result<LivePart, AllocError>
    requires few { position < 2 ^ 32 - 1 }
    requires index { index < length rows.now }
    requires there { IsThere kept.now.all position (kept_row_at rows.now index) }
    ensures part { IfOk result
        (λ p. p ≡ piece_of_row kept.now.all position (kept_row_at rows.now index)) }
    ensures small { IfOk result IsSmall }
{
    let row = rows.row(index);
    let bits = row.deltas().at((position + 1).saturating_sub(row.from()))?;
    let bits = Arc::new(alloc, bits)?;
    let records = kept.as_slice()[row.segment() as usize].share()?;
    let _count = records.len();
    Ok(LivePart::of(row.segment(), records, bits))
}

// Puts the part of a row at a position behind others, if the row has begun by then.
fn push_seen(
    alloc: Global,
    rows: &BitRows,
    kept: &KeptSegments,
    position: u32,
    index: usize,
    parts: &mut Vec<LivePart>,
) -> Result<(), AllocError>
    requires few { position < 2 ^ 32 - 1 }
    requires index { index < length rows.now }
    requires there { IsThere kept.now.all position (kept_row_at rows.now index) }
    ensures parts { OnOk result (parts.new.items ≡ parts.old.items
        ++ cond (is_begun position (kept_row_at rows.now index))
        (piece_of_row kept.now.all position (kept_row_at rows.now index) ∷ []) []) }
    ensures small { OnOk result (All IsSmall parts.old.items → All IsSmall parts.new.items) }
{
    if rows.row(index).from() <= position {
        let part = part_seen(alloc, rows, kept, position, index)?;
        parts.push(part)?;
    }
    Ok(())
}

// The parts of the rows that have begun by a position.
fn parts_seen(
    alloc: Global,
    rows: &BitRows,
    kept: &KeptSegments,
    position: u32,
) -> Result<Vec<LivePart>, AllocError>
    requires few { position < 2 ^ 32 - 1 }
    requires there { (i : ℕ) → i < length rows.now
        → IsThere kept.now.all position (kept_row_at rows.now i) }
    ensures parts { IfOk result (λ v. v.items ≡ pieces_seen kept.now.all position rows.now) }
    ensures small { IfOk result (λ v. All IsSmall v.items) }
{
    let mut parts = Vec::new(alloc);
    for index in 0..rows.len() {
        push_seen(alloc, rows, kept, position, index, &mut parts)?;
    }
    Ok(parts)
}

// How many records of parts are live.
#[tactic(auto, using(crate::proofs::CountLemmas::counted_begun, crate::proofs::CountLemmas::counted_first, crate::proofs::CountLemmas::counted_last))]
fn live_count(parts: &[LivePart]) -> u32
    requires covered { AreCovered parts.now }
    requires few { length (spots_of_pieces parts.now) < 2 ^ 32 }
    ensures { result ≡ length (spots_of_pieces parts.now) }
{
    let mut count = 0;
    for part in parts {
        count += part.bits().count();
    }
    count
}

/// What the version at a position has of a relation, by those rows of its branch that have begun by then. All
/// records of the segments are shared, and no index is made.
pub fn relation_seen(
    alloc: Global,
    rows: &BitRows,
    kept: &KeptSegments,
    position: u32,
) -> Result<LiveRelation, AllocError>
    requires few { position < 2 ^ 32 - 1 }
    requires there { (i : ℕ) → i < length rows.now
        → IsThere kept.now.all position (kept_row_at rows.now i) }
    requires lived { IsLived (lived_seen kept.now.all position rows.now) }
    requires keys { (lived_seen kept.now.all position rows.now).count < 2 ^ 32 }
    ensures seen { IfOk result (λ l. l ≡ lived_seen kept.now.all position rows.now) }
    ensures small { IfOk result (λ l. All IsSmall l.pieces) }
{
    let parts = parts_seen(alloc, rows, kept, position)?;
    let count = live_count(&parts);
    Ok(LiveRelation::of_parts(parts, count))
}
