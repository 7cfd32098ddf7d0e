//! Pairs of records with one key.
ghost use Rattle.std.specs.Prelude.{◌≡◌, ◌+◌, ◌<◌, ◌≤◌, ◌++◌, length, OnOk, IfOk};
ghost use Rattle.std.specs.FinMap as finite;
ghost use Rattle.db_value.specs.Pairs.{paired};
ghost use Rattle.db_value.specs.Pred.{pred_holds};
ghost use Rattle.db_store.specs.Table.{relation_at};
ghost use Rattle.db_store.specs.Rows.{rows_where, slots_of};
ghost use Rattle.version_join.specs.Join.{pair_with, pairs_of, join_of};

use crate::look::find_record;
use db_store::{View, list_rows};
use db_value::{Pairs, Pred, Record, Records, Steps};
use std::alloc::{AllocError, Global};
use std::sync::ledger::Ledger;

// A pair more, if the relation has the record's key. The other record is one to read into.
fn keep_pair<V: View, L: Ledger>(
    lefts: &mut Records,
    rights: &mut Records,
    row: &Record,
    view: &V,
    relation: u8,
    other: &mut Record,
    steps: &mut Steps<L>,
) -> Result<(), AllocError>
    requires relation { relation < length (V.table view.now) }
    requires even { length rights.old ≡ length lefts.old }
    ensures even { OnOk result (length rights.new ≡ length lefts.new) }
    ensures pairs { OnOk result (paired lefts.new rights.new ≡ paired lefts.old rights.old
        ++ pair_with row.now (finite.get (relation_at (V.table view.now) relation) row.now.key)) }
    ensures cost { steps.new ≤ steps.old + 1 }
{
    if !find_record(view, relation, row.key, other, steps) {
        return Ok(());
    }
    lefts.push(row)?;
    Ok(rights.push(other)?)
}

// The pairs of rows with the records of a relation.
fn pair_rows<V: View, L: Ledger>(
    alloc: Global,
    rows: &Records,
    right: &V,
    relation: u8,
    steps: &mut Steps<L>,
) -> Result<Pairs, AllocError>
    requires { relation < length (V.table right.now) }
    ensures pairs { IfOk result (λ pairs.
        pairs ≡ pairs_of rows.now (relation_at (V.table right.now) relation)) }
    ensures cost { steps.new ≤ steps.old + length rows.now }
{
    let mut row = Record::blank();
    let mut other = Record::blank();
    let mut lefts = Records::new(alloc);
    let mut rights = Records::new(alloc);
    for at in 0..rows.len() {
        rows.read(at, &mut row);
        keep_pair(
            &mut lefts,
            &mut rights,
            &row,
            right,
            relation,
            &mut other,
            steps,
        )?;
    }
    Ok(Pairs::of(alloc, lefts, rights)?)
}

/// The records of relation `r` of the left view for which a condition holds, each beside the record
/// with its key of relation `s` of the right view, where there is one; by key. The steps are at most
/// the slots of the left view and one for each of these records.
pub fn join<V: View, W: View, L: Ledger>(
    alloc: Global,
    left: &V,
    r: u8,
    pred: &Pred,
    right: &W,
    s: u8,
    steps: &mut Steps<L>,
) -> Result<Pairs, AllocError>
    requires left { r < length (V.table left.now) }
    requires right { s < length (W.table right.now) }
    ensures pairs { IfOk result (λ pairs.
        pairs ≡ join_of (pred_holds pred.now) (V.table left.now) r (W.table right.now) s) }
    ensures cost { steps.new ≤ steps.old + slots_of (V.parts_of left.now r) + length
        (rows_where (pred_holds pred.now) r (V.table left.now)) }
{
    let rows = list_rows(alloc, left, r, pred, steps)?;
    let pairs = pair_rows(alloc, &rows, right, s, steps)?;
    Ok(pairs)
}
