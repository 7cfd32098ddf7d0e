//! Commits: the room that they need, and adding them.
ghost use Rattle.std.specs.Prelude.{◌≡◌, ℕ, ◌<◌, ◌≤◌, ◌+◌, length, map, OnOk, OnErr};
ghost use Rattle.std.specs.Arc.{arc_value};
ghost use Rattle.std.specs.List.{All, AllZip};
ghost use Rattle.std.proofs.Common.{get_or};
ghost use Rattle.bit_rows.specs.Kept.{kept_rows};
ghost use Rattle.bit_rows.specs.Segments.{no_list, list_at, with_records};
ghost use Rattle.hybrid_store.specs.Ready.{no_own};
ghost use Rattle.hybrid_store.specs.Stored.{head_number, HasHead, HasRoom, Widens};

use crate::heads::head_of_rows;
use crate::store::HybridStore;
use bit_rows::{HybridLane, KeptSegments};
use segment::Segment;
use std::alloc::AllocError;
use std::sync::Arc;
use store_catalogue::reserve_versions;

/// More versions than can be numbered.
const MOST_NUMBERS: usize = 0x1_0000_0000;

fn reserve_all(lanes: &mut [HybridLane], more: usize) -> Result<(), AllocError>
    ensures widened { AllZip Widens lanes.old lanes.new }
    ensures room { OnOk result (All (HasRoom more) lanes.new) }
{
    for lane in lanes {
        lane.reserve(more)?;
    }
    Ok(())
}

// Gives the heads of a branch these records.
pub(crate) fn put_records(
    segments: &mut Vec<KeptSegments>,
    lane: &HybridLane,
    branch: u32,
    mut records: Vec<Arc<Segment>>,
)
    requires few { length segments.old.items ≤ 8 }
    requires count { length records.items ≡ length segments.old.items }
    requires rows { length lane.now.rows ≡ length segments.old.items }
    requires heads { (r : ℕ) → r < length segments.old.items
        → HasHead branch (list_at segments.old.items r) (kept_rows lane.now r) }
    ensures count { length segments.new.items ≡ length segments.old.items }
    ensures each { (r : ℕ) → r < length segments.old.items
        → get_or segments.new.items r no_list
        ≡ with_records (get_or segments.old.items r no_list)
        (head_number segments.old.items branch r) (get_or (map arc_value records.items) r no_own) }
{
    while let Some(own) = records.pop() {
        let relation = records.len();
        let head = head_of_rows(lane.rows(relation as u8), &segments[relation], branch);
        segments[relation].put(head, own);
    }
}

impl HybridStore {
    ghost use Rattle.hybrid_store.specs.Store.{state_of, spare_of};

    // Makes room for one version more on every branch.
    pub(crate) fn raise(&mut self) -> Result<(), AllocError>
        ensures raised { OnOk result (spare_of self.new ≡ spare_of self.old + 1) }
        ensures spare { OnErr result (spare_of self.new ≡ spare_of self.old) }
        ensures state { state_of self.new ≡ state_of self.old }
    {
        let spare = self.spare + 1;
        if self.order.len() + spare >= MOST_NUMBERS {
            return Err(AllocError);
        }
        self.order.reserve(spare)?;
        reserve_versions(&mut self.graph, spare as u32)?;
        match reserve_all(&mut self.lanes, spare) {
            Ok(()) => {}
            Err(stop) => return Err(stop),
        }
        self.spare = spare;
        Ok(())
    }
}
