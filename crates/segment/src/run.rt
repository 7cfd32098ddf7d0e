//! Runs of slots, in the order of their keys.
ghost use Rattle.std.specs.Prelude.{◌≡◌, ◌≤◌, ◌++◌, ◌∷◌, [], ℕ, List, length, map, IfOk};
ghost use Rattle.std.specs.Arc.{arc_value};
ghost use Rattle.std.specs.List.Sorted.{IsNonDecreasingBy};
ghost use Rattle.db_value.specs.declared.record.Record.{Record};
ghost use Rattle.segment.specs.Slots.{rank};

use crate::slot::{KeyedSlot, search};
use std::alloc::AllocError;
use std::sync::Arc;

/// A run has slots that follow one another, from one on, with their keys. They ascend by key, and then by slot.
#[derive(Drop)]
pub(crate) struct Run {
    pub(crate) from: u32,
    pub(crate) slots: Vec<KeyedSlot>,
    ghost ascends: { IsNonDecreasingBy rank slots.items },
}

impl Run {
    ghost use Rattle.segment.specs.Keys.{AreOf, AreRuns, IsLastIn};
    ghost use Rattle.segment.specs.declared.run.Run.{Run};

    // The run of these slots.
    fn of(from: u32, mut slots: Vec<KeyedSlot>) -> Result<Run, AllocError>
        ensures from { IfOk result (λ run. run.from ≡ from) }
        ensures slots { IfOk result (λ run. (records : List Record) (to : ℕ)
            → AreOf records from to slots.items → AreOf records from to run.slots.items) }
    {
        // The slots are a few ascending lists one after another, and this sort merges such lists.
        slots.sort_by_key(|keyed| keyed.rank())?;
        Ok(Run { from, slots })
    }

    /// One run of slots from one on, in any order, and of all runs before them.
    pub(crate) fn joined(
        runs: &[Arc<Run>],
        from: u32,
        mut slots: Vec<KeyedSlot>,
    ) -> Result<Run, AllocError>
        ensures { IfOk result (λ run. (records : List Record) (to : ℕ) (older : List Run)
            → AreOf records from to slots.items
            → AreRuns records (map arc_value runs.now ++ older) from
            → AreRuns records (run ∷ older) to) }
    {
        let mut start = from;
        for run in runs {
            slots.extend_from_slice(&run.slots)?;
            start = run.from;
        }
        let run = Run::of(start, slots)?;
        Ok(run)
    }

    /// Its greatest slot below a bound with a key, if there is one.
    pub(crate) fn last_below(&self, key: u64, bound: u32) -> Option<u32>
        ensures { (records : List Record) (to : ℕ)
            → AreOf records self.now.from to self.now.slots.items
            → IsLastIn records self.now.from to key bound result }
    {
        if self.from >= bound {
            return None;
        }
        search(self.slots.as_slice(), key, bound)
    }
}
