//! The rows of a layout's segment, from those of an image.
ghost use Rattle.std.specs.Prelude.{◌≡◌, ◌-◌, ◌^◌, ◌<◌, ◌∷◌, ◌++◌, [], length, map, IfOk, OnOk};
ghost use Rattle.std.specs.List.{All};
ghost use Rattle.db_image.specs.Parts.{bits_of, row_part, IsShort};

use crate::deltas::delta_of;
use commit_history::History;
use db_value::ListOf;
use hybrid_store::{RowPart, RowParts};
use image_text::{Delta as DeltaRead, RowPart as RowRead};
use std::alloc::{AllocError, Global};

// Puts a delta after those of a history.
fn put_delta(
    alloc: Global,
    history: &mut History,
    delta: &DeltaRead,
    size: u32,
) -> Result<(), AllocError>
    requires { length history.old < 2 ^ 32 - 1 }
    ensures { OnOk result (history.new ≡ history.old ++ bits_of size delta.now ∷ []) }
{
    let made = delta_of(alloc, delta, size)?;
    let next = history.ready_delta(made)?;
    history.push(next);
    Ok(())
}

/// The history of deltas over so many records.
pub fn history_of(alloc: Global, deltas: &[DeltaRead], size: u32) -> Result<History, AllocError>
    requires { length deltas.now < 2 ^ 32 - 1 }
    ensures { IfOk result (λ history. history ≡ map (bits_of size) deltas.now) }
{
    let mut history = History::new(alloc);
    for delta in deltas {
        put_delta(alloc, &mut history, delta, size)?;
    }
    Ok(history)
}

/// A row over so many records.
pub fn row_of(alloc: Global, row: &RowRead, size: u32) -> Result<RowPart, AllocError>
    requires { IsShort row.now }
    ensures { IfOk result (λ part. part ≡ row_part size row.now) }
{
    let deltas = history_of(alloc, row.deltas.as_slice(), size)?;
    Ok(RowPart {
        branch: row.branch,
        from: row.from,
        deltas,
    })
}

/// The rows over so many records.
pub fn rows_of(alloc: Global, rows: &[RowRead], size: u32) -> Result<RowParts, AllocError>
    requires { All IsShort rows.now }
    ensures { IfOk result (λ parts. parts ≡ map (row_part size) rows.now) }
{
    let mut parts = Vec::with_capacity(alloc, rows.len())?;
    for row in rows {
        parts.push(row_of(alloc, row, size)?)?;
    }
    Ok(ListOf::of(parts))
}
