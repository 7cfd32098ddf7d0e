//! Scans of one view and of several.
ghost use Rattle.std.specs.Prelude.{◌≡◌, ◌+◌, ◌-◌, ◌<◌, ◌≤◌, ◌++◌, length, map, take, drop, OnOk, IfOk};
ghost use Rattle.std.specs.List.{All, AllByRecursion};
ghost use Rattle.std.specs.List.Sorted.{IsPermutation, IsSorted};
ghost use Rattle.db_value.specs.Pred.{pred_holds};
ghost use Rattle.db_store.specs.Rows.{rows_where, marked, slots_of};
ghost use Rattle.multi_scan.specs.Agree.{AllAgree};
ghost use Rattle.multi_scan.specs.Found.{joined, run_length, positions_of, Ascends, Climbs, HasPositions, AreInOrder};
ghost use Rattle.multi_scan.specs.Places.{shown};
ghost use Rattle.multi_scan.specs.Multi.{multi};
ghost use Rattle.multi_scan.specs.Cost.{slots_of_distinct};

use crate::found::FoundRows;
use crate::places::{by_id, list_places};
use crate::slots::{copied, gather};
use db_store::{View, list_rows};
use db_value::{Positions, Pred, Record, Records, Rows, Steps};
use std::alloc::{AllocError, Global};
use std::sync::ledger::Ledger;

// Up to which place rows are this one. The other record is one to read into.
fn run_end(found: &FoundRows, from: usize, row: &Record, other: &mut Record) -> usize
    requires { from ≤ length found.now }
    ensures value { result - from ≡ run_length row.now (drop from found.now) }
    ensures from { from ≤ result }
    ensures within { result ≤ length found.now }
{
    let len = found.len();
    for at in from..len {
        found.read(at, other);
        let same = *other == *row;
        if !same {
            return at;
        }
    }
    len
}

fn push_positions(all: &mut Vec<u32>, positions: &Positions) -> Result<(), AllocError>
    ensures items { OnOk result (all.new.items ≡ all.old.items ++ positions.now) }
    ensures some { OnOk result (0 < length positions.now) }
{
    let (first, others) = positions.parts();
    all.push(first)?;
    all.extend_from_slice(others)?;
    Ok(())
}

// The positions of the rows from a place up to another one.
fn collect(all: &mut Vec<u32>, found: &FoundRows, from: usize, to: usize) -> Result<(), AllocError>
    requires from { from ≤ to }
    requires within { to ≤ length found.now }
    ensures { OnOk result
        (all.new.items ≡ positions_of (take (to - from) (drop from found.now))) }
{
    all.clear();
    for at in from..to {
        push_positions(all, found.positions(at))?;
    }
    Ok(())
}

fn sort(all: &mut Vec<u32>)
    ensures permutation { IsPermutation all.old.items all.new.items }
    ensures sorted { Climbs all.new.items }
{
    all.sort_unstable();
}

// The positions of the rows from a place up to another one, ascending.
fn ascending(
    alloc: Global,
    all: &mut Vec<u32>,
    found: &FoundRows,
    from: usize,
    to: usize,
) -> Result<Positions, AllocError>
    requires some { from < to }
    requires within { to ≤ length found.now }
    requires each { AllByRecursion HasPositions found.now }
    ensures { IfOk result
        (Ascends (positions_of (take (to - from) (drop from found.now)))) }
{
    collect(all, found, from, to)?;
    sort(all);
    let [least, others @ ..] = all.as_slice() else {
        unreachable!();
    };
    Ok(Positions::of(*least, copied(alloc, others)?))
}

// Neighbours with one row become that row, with the positions of all.
fn join(alloc: Global, found: &FoundRows) -> Result<Rows, AllocError>
    requires { AllByRecursion HasPositions found.now }
    ensures { IfOk result (λ rows. AreInOrder (joined found.now) rows) }
{
    let mut rows = Records::with_room(alloc, found.len(), 0)?;
    let mut marks = Vec::with_capacity(alloc, found.len())?;
    let mut row = Record::blank();
    let mut other = Record::blank();
    let mut all = Vec::new(alloc);
    let mut at = 0;
    'runs: while at < found.len() {
        found.read(at, &mut row);
        let to = run_end(found, at + 1, &row, &mut other);
        let positions = ascending(alloc, &mut all, found, at, to)?;
        rows.push(&row)?;
        marks.push(positions)?;
        at = to;
    }
    let joined = Rows::marked(alloc, rows, marks)?;
    Ok(joined)
}

/// The records of a relation for which a condition holds, by key, as rows of the one view.
pub fn list<V: View, L: Ledger>(
    alloc: Global,
    view: &V,
    relation: u8,
    pred: &Pred,
    steps: &mut Steps<L>,
) -> Result<Rows, AllocError>
    requires { relation < length (V.table view.now) }
    ensures rows { IfOk result (λ rows.
        rows ≡ map marked (rows_where (pred_holds pred.now) relation (V.table view.now))) }
    ensures cost { steps.new ≤ steps.old + slots_of (V.parts_of view.now relation) }
{
    let rows = list_rows(alloc, view, relation, pred, steps)?;
    let all = Rows::alone(alloc, rows)?;
    Ok(all)
}

/// The records of a relation in several views for which a condition holds: each pair of key and
/// fields once, by key and then by fields, with the positions of the views that have it. More than
/// 2^32 views are answered as want of memory.
pub fn scan<V: View, L: Ledger>(
    alloc: Global,
    views: &[V],
    relation: u8,
    pred: &Pred,
    steps: &mut Steps<L>,
) -> Result<Rows, AllocError>
    requires relation { All (λ v. relation < length (V.table v)) views.now }
    requires agree { AllAgree (shown V.parts_of relation views.now) }
    ensures rows { IfOk result (λ rows.
        rows ≡ multi (pred_holds pred.now) relation (map V.table views.now)) }
    ensures cost { steps.new
        ≤ steps.old + slots_of_distinct (shown V.parts_of relation views.now) }
{
    let places = by_id(list_places(alloc, views, relation)?);
    let mut found = gather(alloc, views, relation, pred, &places, steps)?;
    found.sort();
    let rows = join(alloc, &found)?;
    Ok(rows)
}
