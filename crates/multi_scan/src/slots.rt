//! What views have, slot by slot. A part that several views share is read once.
ghost use Rattle.std.specs.Prelude.{◌≡◌, ◌+◌, ◌<◌, ◌≤◌, ◌++◌, length, map, Some, OnOk, IfOk};
ghost use Rattle.std.specs.List.{All, AllByRecursion};
ghost use Rattle.db_value.specs.Pred.{pred_holds};
ghost use Rattle.db_store.specs.Parts.{records_in};
ghost use Rattle.db_store.specs.Rows.{slots_of};
ghost use Rattle.multi_scan.specs.Agree.{AllAgree};
ghost use Rattle.multi_scan.specs.Found.{AreSame, HasPositions, spread};
ghost use Rattle.multi_scan.specs.Places.{shown, part_of, slot_of, IsPlace, AreListed, HasSlot, ShowsRecords, live_at, row_where, kept_at, found_shared, found_at_places};
ghost use Rattle.multi_scan.specs.Cost.{distinct_parts};

use crate::found::FoundRows;
use crate::places::{Place, count_id};
use db_store::{Spot, View};
use db_value::{Positions, Pred, Record, Steps};
use std::alloc::{AllocError, Global};
use std::sync::ledger::Ledger;

// The positions of those places at which a slot is live.
fn find_live<V: View>(
    views: &[V],
    relation: u8,
    places: &[Place],
    slot: u32,
    live: &mut Vec<u32>,
) -> Result<(), AllocError>
    requires relation { All (λ v. relation < length (V.table v)) views.now }
    requires slot { All (HasSlot (shown V.parts_of relation views.now) slot) places.now }
    ensures { OnOk result (live.new.items
        ≡ live_at (shown V.parts_of relation views.now) slot places.now) }
{
    live.clear();
    for place in places {
        let view = &views[place.position as usize];
        if view.live(relation, place.index, slot) {
            live.push(place.position)?;
        }
    }
    Ok(())
}

// Reads the record in a slot, and tells if the condition holds of it.
fn read_slot<V: View, L: Ledger>(
    views: &[V],
    relation: u8,
    pred: &Pred,
    place: &Place,
    slot: u32,
    into: &mut Record,
    steps: &mut Steps<L>,
) -> bool
    requires relation { All (λ v. relation < length (V.table v)) views.now }
    requires slot { HasSlot (shown V.parts_of relation views.now) slot place.now }
    ensures row { into.new ≡ (slot_of (part_of (shown V.parts_of relation views.now) place.now)
        slot).0 }
    ensures holds { result ≡ pred_holds pred.now into.new }
    ensures cost { steps.new ≤ steps.old + 1 }
{
    let view = &views[place.position as usize];
    let spot = Spot {
        part: place.index,
        slot,
    };
    view.read(relation, spot, into, steps);
    pred.holds(into)
}

/// Positions in memory of their own, exactly as much as they take.
pub fn copied(alloc: Global, positions: &[u32]) -> Result<Vec<u32>, AllocError>
    ensures { IfOk result (λ all. all.items ≡ positions.now) }
{
    let mut all = Vec::with_capacity(alloc, positions.len())?;
    all.extend_from_slice(positions)?;
    Ok(all)
}

// A row more, if a view has it.
fn keep(alloc: Global, found: &mut FoundRows, live: &[u32], row: &Record) -> Result<(), AllocError>
    ensures { OnOk result (found.new ≡ found.old ++ kept_at live.now (Some row.now)) }
{
    let [first, others @ ..] = live else {
        return Ok(());
    };
    let positions = Positions::of(*first, copied(alloc, others)?);
    Ok(found.push(row, positions)?)
}

// A slot of a part that is shown at places, one of which is read.
fn gather_slot<V: View, L: Ledger>(
    alloc: Global,
    views: &[V],
    relation: u8,
    pred: &Pred,
    first: &Place,
    places: &[Place],
    slot: u32,
    live: &mut Vec<u32>,
    row: &mut Record,
    found: &mut FoundRows,
    steps: &mut Steps<L>,
) -> Result<(), AllocError>
    requires relation { All (λ v. relation < length (V.table v)) views.now }
    requires first { HasSlot (shown V.parts_of relation views.now) slot first.now }
    requires slot { All (HasSlot (shown V.parts_of relation views.now) slot) places.now }
    ensures found { OnOk result (found.new ≡ found.old
        ++ kept_at (live_at (shown V.parts_of relation views.now) slot places.now)
        (row_where (pred_holds pred.now)
        (slot_of (part_of (shown V.parts_of relation views.now) first.now) slot).0)) }
    ensures cost { steps.new ≤ steps.old + 1 }
{
    find_live(views, relation, places, slot, live)?;
    if live.is_empty() {
        return Ok(());
    }
    if !read_slot(views, relation, pred, first, slot, row, steps) {
        return Ok(());
    }
    keep(alloc, found, live, row)
}

// A part that is shown at places.
fn gather_part<V: View, L: Ledger>(
    alloc: Global,
    views: &[V],
    relation: u8,
    pred: &Pred,
    first: &Place,
    places: &[Place],
    live: &mut Vec<u32>,
    row: &mut Record,
    found: &mut FoundRows,
    steps: &mut Steps<L>,
) -> Result<(), AllocError>
    requires relation { All (λ v. relation < length (V.table v)) views.now }
    requires first { IsPlace (shown V.parts_of relation views.now) first.now }
    requires records { All (ShowsRecords (shown V.parts_of relation views.now)
        (records_in (part_of (shown V.parts_of relation views.now) first.now))) places.now }
    ensures found { OnOk result (found.new ≡ found.old
        ++ found_shared (pred_holds pred.now) (shown V.parts_of relation views.now)
        (part_of (shown V.parts_of relation views.now) first.now) places.now
        (length (part_of (shown V.parts_of relation views.now) first.now).slots)) }
    ensures cost { steps.new ≤ steps.old
        + length (part_of (shown V.parts_of relation views.now) first.now).slots }
{
    let view = &views[first.position as usize];
    let info = view.part(relation, first.index);
    for slot in 0..info.slots {
        gather_slot(
            alloc, views, relation, pred, first, places, slot, live, row, found, steps,
        )?;
    }
    Ok(())
}

/// The live records at places for which a condition holds, each with the positions of the views
/// that have it in one slot.
pub fn gather<V: View, L: Ledger>(
    alloc: Global,
    views: &[V],
    relation: u8,
    pred: &Pred,
    places: &[Place],
    steps: &mut Steps<L>,
) -> Result<FoundRows, AllocError>
    requires relation { All (λ v. relation < length (V.table v)) views.now }
    requires agree { AllAgree (shown V.parts_of relation views.now) }
    requires places { AreListed (shown V.parts_of relation views.now) places.now }
    ensures positions { IfOk result (λ found. AllByRecursion HasPositions found) }
    ensures found { IfOk result (λ found. AreSame (spread found) (found_at_places
        (pred_holds pred.now) (shown V.parts_of relation views.now) places.now)) }
    ensures cost { steps.new ≤ steps.old + slots_of (distinct_parts
        (map (part_of (shown V.parts_of relation views.now)) places.now)) }
{
    let mut found = FoundRows::new(alloc);
    let mut row = Record::blank();
    let mut live = Vec::new(alloc);
    let mut rest = places;
    while let [first, ..] = rest {
        let (run, more) = rest.split_at(count_id(first.id, rest));
        gather_part(
            alloc, views, relation, pred, first, run, &mut live, &mut row, &mut found, steps,
        )?;
        rest = more;
    }
    Ok(found)
}
