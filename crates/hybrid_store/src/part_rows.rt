//! The rows and the segments of parts, as a store keeps them.
ghost use Rattle.std.specs.Prelude.{◌≡◌, ℕ, ◌+◌, ◌<◌, ◌≤◌, ◌++◌, ◌∷◌, [], reverse, set, map, length, IfOk, OnOk};
ghost use Rattle.std.specs.List.{range_with_len};
ghost use Rattle.std.proofs.Common.{get_or};
ghost use Rattle.bit_rows.specs.Rows.{shortest_row};
ghost use Rattle.bit_rows.specs.Segments.{list_at, no_list, most_segments};
ghost use Rattle.hybrid_store.specs.Parts.{parts_of, no_segment_part};
ghost use Rattle.hybrid_store.specs.Assembled.{rows_among, rows_kept_from, rows_of_parts, with_part, AreLists};

use crate::parts::{RowPart, SegmentPart, SegmentParts};
use bit_rows::{BitRow, BitRows, KeptSegments};
use std::alloc::{AllocError, Global};
use std::sync::Arc;

// Puts a row behind others, if it is of the branch.
fn push_row(
    alloc: Global,
    rows: &mut Vec<BitRow>,
    segment: u32,
    part: &RowPart,
    branch: u32,
) -> Result<(), AllocError>
    ensures { OnOk result
        (rows.new.items ≡ rows.old.items ++ rows_among branch segment (part.now ∷ [])) }
{
    if part.branch == branch {
        let row = BitRow::of(alloc, segment, part.from, &part.deltas)?;
        rows.push(row)?;
    }
    Ok(())
}

// Puts the rows of a branch among those of a segment behind others.
fn push_rows(
    alloc: Global,
    rows: &mut Vec<BitRow>,
    segment: u32,
    parts: &[RowPart],
    branch: u32,
) -> Result<(), AllocError>
    ensures { OnOk result (rows.new.items ≡ rows.old.items ++ rows_among branch segment parts.now) }
{
    for part in parts {
        push_row(alloc, rows, segment, part, branch)?;
    }
    Ok(())
}

// The same for the next segment of a relation, if it is one of it. Then tells the number behind.
fn push_part(
    alloc: Global,
    rows: &mut Vec<BitRow>,
    number: u32,
    part: &SegmentPart,
    branch: u32,
    relation: u8,
) -> Result<u32, AllocError>
    requires { number < 2048 }
    ensures rows { OnOk result (rows.new.items
        ≡ rows.old.items ++ rows_kept_from branch number (parts_of relation (part.now ∷ []))) }
    ensures next { IfOk result (λ n. n ≡ number + length (parts_of relation (part.now ∷ []))) }
{
    if part.relation != relation {
        return Ok(number);
    }
    push_rows(alloc, rows, number, part.rows.as_slice(), branch)?;
    Ok(number + 1)
}

/// The rows of a branch in a relation.
pub(crate) fn rows_of(
    alloc: Global,
    segments: &[SegmentPart],
    branch: u32,
    relation: u8,
) -> Result<BitRows, AllocError>
    requires { length (parts_of relation segments.now) < most_segments }
    ensures { IfOk result (λ rows. rows ≡ rows_of_parts segments.now branch relation) }
{
    let mut rows = Vec::new(alloc);
    let mut number = 0;
    for part in segments {
        number = push_part(alloc, &mut rows, number, part, branch, relation)?;
    }
    Ok(BitRows::of(rows))
}

/// The same in so many relations.
pub(crate) fn all_rows_of(
    alloc: Global,
    segments: &[SegmentPart],
    branch: u32,
    width: u8,
) -> Result<Vec<BitRows>, AllocError>
    requires { (r : ℕ) → r < width → length (parts_of r segments.now) < most_segments }
    ensures { IfOk result (λ v. v.items
        ≡ map (λ r. rows_of_parts segments.now branch r) (range_with_len 0 width)) }
{
    let mut all = Vec::new(alloc);
    for relation in 0..width {
        let rows = rows_of(alloc, segments, branch, relation)?;
        all.push(rows)?;
    }
    Ok(all)
}

// So many relations without segments, with room for all that there can be.
fn no_lists(alloc: Global, width: u8) -> Result<Vec<KeptSegments>, AllocError>
    ensures { IfOk result (λ v. AreLists width [] v.items) }
{
    let mut lists = Vec::new(alloc);
    for relation in 0..width {
        let _relation = relation;
        lists.push(KeptSegments::with_room(alloc)?)?;
    }
    Ok(lists)
}

// Puts a segment behind those of its relation.
fn put_part(
    alloc: Global,
    lists: &mut Vec<KeptSegments>,
    part: SegmentPart,
) -> Result<(), AllocError>
    requires there { part.relation < length lists.old.items }
    requires room { length (list_at lists.old.items part.relation)
        < (get_or lists.old.items part.relation no_list).room }
    ensures { OnOk result (lists.new.items ≡ set lists.old.items part.relation
        (with_part (get_or lists.old.items part.relation no_list) part)) }
{
    let SegmentPart {
        relation,
        head,
        records,
        rows: _,
    } = part;
    let records = Arc::new(alloc, records)?;
    lists[relation as usize].push(head, records);
    Ok(())
}

/// The items from the last one to the first, so that each can be moved out of the list in order.
pub(crate) fn reversed<T>(items: Vec<T>) -> Vec<T>
    ensures { result.items ≡ reverse items.items }
{
    let mut all = items;
    all.as_mut_slice().reverse();
    all
}

/// The segments of so many relations.
pub(crate) fn lists_of(
    alloc: Global,
    width: u8,
    segments: SegmentParts,
) -> Result<Vec<KeptSegments>, AllocError>
    requires there { (i : ℕ) → i < length segments
        → (get_or segments i no_segment_part).relation < width }
    requires few { (r : ℕ) → r < width → length (parts_of r segments) < most_segments }
    ensures { IfOk result (λ v. AreLists width segments v.items) }
{
    let mut lists = no_lists(alloc, width)?;
    let mut rest = reversed(segments.into_vec());
    while let Some(part) = rest.pop() {
        put_part(alloc, &mut lists, part)?;
    }
    Ok(lists)
}
