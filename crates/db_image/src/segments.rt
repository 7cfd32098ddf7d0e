//! The segments of a layout, from those of an image.
ghost use Rattle.std.specs.Prelude.{◌≡◌, ◌-◌, ◌++◌, map, Some, IfOk, OnOk};
ghost use Rattle.std.specs.List.{All};
ghost use Rattle.db_image.specs.Parts.{head_part, segment_with, Fits};

use crate::rows::rows_of;
use db_value::Widths;
use hybrid_store::SegmentPart;
use image_text::SegmentPart as SegmentRead;
use std::alloc::{AllocError, Global};

// The branch that a number tells.
#[tactic(auto, using(crate::proofs::HeadNumbers::head_none, crate::proofs::HeadNumbers::head_some))]
fn head_of(head: u32) -> Option<u32>
    ensures { result ≡ head_part head }
{
    if head == 0 {
        return None;
    }
    Some(head - 1)
}

/// A segment of a relation, for records of these widths.
pub fn segment_of(
    alloc: Global,
    relation: u8,
    widths: &Widths,
    part: &SegmentRead,
) -> Result<SegmentPart, AllocError>
    requires { Fits widths.now part.now }
    ensures { IfOk result (λ made. made ≡ segment_with relation widths.now part.now) }
{
    let records = part.records.as_segment(alloc, widths)?;
    let rows = rows_of(alloc, part.rows.as_slice(), part.records.len())?;
    Ok(SegmentPart {
        relation,
        head: head_of(part.head),
        records,
        rows,
    })
}

/// Puts the segments of a relation after those of others.
pub fn put_segments(
    alloc: Global,
    made: &mut Vec<SegmentPart>,
    relation: u8,
    widths: &Widths,
    parts: &[SegmentRead],
) -> Result<(), AllocError>
    requires { All (Fits widths.now) parts.now }
    ensures { OnOk result (made.new.items
        ≡ made.old.items ++ map (segment_with relation widths.now) parts.now) }
{
    for part in parts {
        made.push(segment_of(alloc, relation, widths, part)?)?;
    }
    Ok(())
}
