//! Records that another version lacks or has changed.
ghost use Rattle.std.specs.Prelude.{◌≡◌, ◌+◌, ◌++◌, ◌∷◌, ◌<◌, ◌≤◌, [], length, map, IfOk, OnOk};
ghost use Rattle.db_store.specs.Table.{relation_at, rows_of};
ghost use Rattle.db_store.specs.Rows.{marked, slots_of};
ghost use Rattle.version_join.specs.Join.{unlike, minus_of};

use crate::look::find_record;
use db_store::{View, list_all};
use db_value::{Record, Records, Rows, Steps};
use std::alloc::{AllocError, Global};
use std::sync::ledger::Ledger;

// The record behind others, if the relation lacks it or has changed it. The other record is one to
// read into.
fn keep_unlike<V: View, L: Ledger>(
    kept: &mut Records,
    row: &Record,
    right: &V,
    relation: u8,
    other: &mut Record,
    steps: &mut Steps<L>,
) -> Result<(), AllocError>
    requires { relation < length (V.table right.now) }
    ensures kept { OnOk result (kept.new
        ≡ kept.old ++ unlike (row.now ∷ []) (relation_at (V.table right.now) relation)) }
    ensures cost { steps.new ≤ steps.old + 1 }
{
    if !find_record(right, relation, row.key, other, steps) {
        return Ok(kept.push(row)?);
    }
    let same = row.fields == other.fields;
    if same {
        return Ok(());
    }
    Ok(kept.push(row)?)
}

// The rows that a relation lacks or has changed, as rows of the one view.
fn all_unlike<V: View, L: Ledger>(
    alloc: Global,
    rows: &Records,
    right: &V,
    relation: u8,
    steps: &mut Steps<L>,
) -> Result<Rows, AllocError>
    requires { relation < length (V.table right.now) }
    ensures rows { IfOk result (λ kept.
        kept ≡ map marked (unlike rows.now (relation_at (V.table right.now) relation))) }
    ensures cost { steps.new ≤ steps.old + length rows.now }
{
    let mut row = Record::blank();
    let mut other = Record::blank();
    let mut kept = Records::new(alloc);
    for at in 0..rows.len() {
        rows.read(at, &mut row);
        keep_unlike(&mut kept, &row, right, relation, &mut other, steps)?;
    }
    Ok(Rows::alone(alloc, kept)?)
}

/// The records of a relation of the left view whose record in the right one is absent or different,
/// by key, as rows of the one view. The steps are at most the slots of the left view and one for
/// each of its records.
pub fn minus<V: View, W: View, L: Ledger>(
    alloc: Global,
    left: &V,
    right: &W,
    r: u8,
    steps: &mut Steps<L>,
) -> Result<Rows, AllocError>
    requires left { r < length (V.table left.now) }
    requires right { r < length (W.table right.now) }
    ensures rows { IfOk result (λ rows.
        rows ≡ map marked (minus_of (V.table left.now) (W.table right.now) r)) }
    ensures cost { steps.new ≤ steps.old + slots_of (V.parts_of left.now r) + length
        (rows_of (relation_at (V.table left.now) r)) }
{
    let rows = list_all(alloc, left, r, steps)?;
    let kept = all_unlike(alloc, &rows, right, r, steps)?;
    Ok(kept)
}
