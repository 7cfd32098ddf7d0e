//! The rows that a new branch begins.
ghost use Rattle.std.specs.Prelude.{◌≡◌, cond, map, IfOk};
ghost use Rattle.bit_rows.specs.Rows.{begun_row};

use crate::rows::{BitRow, BitRows};
use hybrid_view::LiveRelation;
use std::alloc::{AllocError, Global};

/// The rows that a new branch begins of the parts that it has, one for each.
pub fn rows_begun(alloc: Global, live: &LiveRelation) -> Result<BitRows, AllocError>
    ensures { IfOk result (λ rows. rows ≡ map begun_row live.now.pieces) }
{
    let mut rows = Vec::new(alloc);
    for index in 0..live.parts() {
        let part = live.part(index);
        let row = BitRow::begin(alloc, part.segment(), 0, part.bits())?;
        rows.push(row)?;
    }
    Ok(BitRows::of(rows))
}

/// How many heads come before that of a new branch: one of its origin, if it is of the last version there.
pub fn more_of(at_head: bool) -> u32
    ensures { result ≡ cond at_head 1 0 }
{
    if at_head { 1 } else { 0 }
}
