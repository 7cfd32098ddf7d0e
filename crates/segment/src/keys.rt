//! The slots in which the records with a key stand.
ghost use Rattle.std.specs.Prelude.{◌≡◌, ◌≤◌, ◌++◌, ◌∷◌, [], ℕ, List, length, take, IfOk, OnOk};
ghost use Rattle.db_value.specs.declared.record.Record.{Record};

use crate::block::share;
use crate::run::Run;
use crate::slot::{KeyedSlot, look_through};
use std::alloc::{AllocError, Global};
use std::sync::Arc;

/// So many slots make a run. To look fewer through takes no longer than a search in the runs.
const RUN_SLOTS: usize = 64;

/// Runs are links to runs, the last slots first.
#[derive(Drop)]
pub(crate) struct Runs {
    items: Vec<Arc<Run>>,
}

/// They tell the last slot with a key below another slot. The newest slots, from one on, are in no
/// run yet.
#[derive(Drop)]
pub(crate) struct KeySlots {
    runs: Arc<Runs>,
    from: u32,
    newest: Vec<KeyedSlot>,
}

// How many of the runs, the last ones first, are no longer than so many slots and the runs after it.
fn count_to_join(runs: &[Arc<Run>], slots: usize) -> usize
    ensures { result ≤ length runs.now }
{
    let mut size = slots;
    let mut count = 0;
    for run in runs {
        if run.slots.len() > size {
            return count;
        }
        size = size.saturating_add(run.slots.len());
        count += 1;
    }
    count
}

impl KeySlots {
    ghost use Rattle.segment.specs.Keys.{AreOf, AreRuns, AreSlots, IsLastIn, LacksKey, last_slot, runs_of};

    /// Those of no records.
    pub(crate) fn new(alloc: Global) -> Result<KeySlots, AllocError>
        ensures { IfOk result (λ keys. AreSlots keys []) }
    {
        let items = Vec::new(alloc);
        Ok(KeySlots {
            runs: Arc::new(alloc, Runs { items })?,
            from: 0,
            newest: Vec::new(alloc),
        })
    }

    /// The same ones, which share all runs with these.
    pub(crate) fn duplicate(&self) -> Result<KeySlots, AllocError>
        ensures { IfOk result (λ keys. (records : List Record)
            → AreSlots self.now records → AreSlots keys records) }
    {
        Ok(KeySlots {
            runs: Arc::try_clone(&self.runs)?,
            from: self.from,
            newest: Vec::from_slice(*self.newest.allocator(), &self.newest)?,
        })
    }

    /// The same ones with room for so many more.
    pub(crate) fn with_room(&self, alloc: Global, more: usize) -> Result<KeySlots, AllocError>
        ensures { IfOk result (λ keys. (records : List Record)
            → AreSlots self.now records → AreSlots keys records) }
    {
        let room = self.newest.len().saturating_add(more);
        let mut newest = Vec::with_capacity(alloc, room)?;
        newest.extend_from_slice(&self.newest)?;
        Ok(KeySlots {
            runs: Arc::try_clone(&self.runs)?,
            from: self.from,
            newest,
        })
    }

    /// Puts the slot of a further record after them.
    pub(crate) fn push(&mut self, key: u64, slot: u32) -> Result<(), AllocError>
        ensures { OnOk result ((records : List Record) (row : Record)
            → length records ≡ slot → row.key ≡ key
            → AreSlots self.old records → AreSlots self.new (records ++ row ∷ [])) }
    {
        self.newest.push(KeyedSlot { key, slot })?;
        Ok(())
    }

    // One run of the newest slots and of all runs that are no longer, and the other runs.
    fn with_run(
        &self,
        alloc: Global,
        newest: Vec<KeyedSlot>,
        to: u32,
    ) -> Result<KeySlots, AllocError>
        ensures { IfOk result (λ keys. (records : List Record) → length records ≡ to
            → AreOf records self.now.from to newest.items
            → AreRuns records (runs_of self.now) self.now.from
            → AreSlots keys records) }
    {
        let runs = self.runs.items.as_slice();
        let (near, far) = runs.split_at(count_to_join(runs, newest.len()));
        let run = Run::joined(near, self.from, newest)?;
        let mut items = Vec::with_capacity(alloc, far.len() + 1)?;
        items.push(Arc::new(alloc, run)?)?;
        share(&mut items, far)?;
        Ok(KeySlots {
            runs: Arc::new(alloc, Runs { items })?,
            from: to,
            newest: Vec::new(alloc),
        })
    }

    /// The same ones of so many records. The newest are a run, if they are many.
    pub(crate) fn settled(mut self, alloc: Global, len: u32) -> Result<KeySlots, AllocError>
        ensures { IfOk result (λ keys. (records : List Record) → length records ≡ len
            → AreSlots self records → AreSlots keys records) }
    {
        if self.newest.len() < RUN_SLOTS {
            return Ok(self);
        }
        let newest = std::mem::replace(&mut self.newest, Vec::new(alloc));
        self.with_run(alloc, newest, len)
    }

    // The greatest slot below a bound with a key, of the newest.
    fn last_of_newest(&self, key: u64, bound: u32) -> Option<u32>
        ensures { (records : List Record) (to : ℕ)
            → AreOf records self.now.from to self.now.newest.items
            → IsLastIn records self.now.from to key bound result }
    {
        if self.from >= bound {
            return None;
        }
        look_through(self.newest.as_slice(), key, bound)
    }

    // The greatest slot below a bound with a key, if none of the newest is one.
    fn last_in_runs(&self, key: u64, bound: u32) -> Option<u32>
        ensures { (records : List Record) → bound ≤ length records
            → AreRuns records (runs_of self.now) self.now.from
            → LacksKey records key self.now.from bound
            → result ≡ last_slot (take bound records) key }
    {
        for run in self.runs.items.as_slice() {
            if let Some(slot) = run.last_below(key, bound) {
                return Some(slot);
            }
        }
        None
    }

    /// The greatest slot below a bound whose record has a key, if there is one.
    pub(crate) fn last_below(&self, key: u64, bound: u32) -> Option<u32>
        ensures { (records : List Record) → bound ≤ length records → AreSlots self.now records
            → result ≡ last_slot (take bound records) key }
    {
        match self.last_of_newest(key, bound) {
            None => self.last_in_runs(key, bound),
            Some(slot) => Some(slot),
        }
    }
}
