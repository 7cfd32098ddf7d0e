//! The calls of an index of the places of keys, over one of all keys below a size, which is a power of two.

use crate::row::{Kind, Row};
use crate::timing::{Round, time};
use anyhow::Result;
use key_index::{KeyIndex, SpotChange, SpotChanges};
use std::alloc::{AllocError, Global};
use std::rt::Clock;

// How many changes a batch has.
const BATCH: u32 = 1_024;

// Odd, so that each key comes once.
const STEP: u32 = 2_654_435_761;

#[derive(Drop)]
struct Full {
    kind: Kind,
    calls: u32,
    size: u32,
    index: KeyIndex,
}

// The key that comes at a turn, in a scattered order.
fn scattered(turn: u32, size: u32) -> u32 {
    turn.wrapping_mul(STEP) & size.wrapping_sub(1)
}

// The slot that a key has, and 1 more, so that a key that has none adds nothing.
fn slot_of(index: &KeyIndex, key: u32) -> u64 {
    match index.find(u64::from(key)) {
        Some((_, slot)) => u64::from(slot) + 1,
        None => 0,
    }
}

// The index after the changes of a batch, at keys that ascend.
fn after_batch(index: &KeyIndex, alloc: Global, batch: u32) -> Result<KeyIndex, AllocError> {
    let mut items = Vec::with_capacity(alloc, BATCH as usize)?;
    for turn in 0..BATCH {
        let slot = batch.wrapping_mul(BATCH).wrapping_add(turn);
        let key = u64::from(slot);
        let place = Some((7, slot));
        items.push(SpotChange { key, place })?;
    }
    index.with_changes(&SpotChanges::of(items))
}

fn ascending(alloc: Global, size: u32) -> Result<KeyIndex, AllocError> {
    let mut index = KeyIndex::new(alloc);
    for batch in 0..size / BATCH {
        index = after_batch(&index, alloc, batch)?;
    }
    Ok(index)
}

// The slot of a key that gets another place in an index of its own.
fn change_once(index: &KeyIndex, alloc: Global, key: u32, slot: u32) -> Result<u64, AllocError> {
    let place = Some((8, slot));
    let items = vec![in alloc;
        SpotChange {
            key: u64::from(key),
            place
        },
    ]?;
    let changed = index.with_changes(&SpotChanges::of(items))?;
    Ok(slot_of(&changed, key))
}

fn call(full: &Full, alloc: Global, turn: u32) -> Result<u64, AllocError> {
    let key = scattered(turn, full.size);
    match full.kind {
        Kind::Change => change_once(&full.index, alloc, key, turn),
        _ => Ok(slot_of(&full.index, key)),
    }
}

fn call_often(full: &Full, alloc: Global) -> Result<u64, AllocError> {
    let mut sum = 0u64;
    for turn in 0..full.calls {
        sum = sum.wrapping_add(call(full, alloc, turn)?);
    }
    Ok(sum)
}

impl Round for Full {
    fn make(&mut self, alloc: Global) -> Result<u64, AllocError> {
        match self.kind {
            Kind::Ascending => {
                self.index = ascending(alloc, self.size)?;
                Ok(slot_of(&self.index, self.size.wrapping_sub(1)))
            }
            _ => call_often(self, alloc),
        }
    }
}

/// Times ascending changes from no key on, or changes and searches of single keys.
pub fn time_indexes<R: Clock + Print + AllocGlobal>(rt: &R, row: &Row, rounds: u32) -> Result<()> {
    let mut full = Full {
        kind: row.kind,
        calls: row.calls,
        size: row.size,
        index: ascending(rt.alloc(), row.size)?,
    };
    time(rt, row, rounds, &mut full)
}
