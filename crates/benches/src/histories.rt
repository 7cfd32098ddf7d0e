//! The calls of a history, of so many deltas over a bitmap of 262,144 places.

use crate::row::Row;
use crate::timing::{Round, Timing, time};
use anyhow::Result;
use commit_history::{Delta, History};
use std::alloc::{AllocError, Global};
use std::rt::Clock;

const PLACES: u32 = 262_144;

#[derive(Drop)]
struct Whole {
    calls: u32,
    history: History,
}

fn next_random(x: u32) -> u32 {
    let x = x ^ x << 13;
    let x = x ^ x >> 17;
    x ^ x << 5
}

// A delta of two places anywhere, the lesser first.
fn scattered(alloc: Global, left: u32, right: u32) -> Result<Delta, AllocError> {
    let (a, b) = (left % PLACES, right % PLACES);
    Delta::of_places(alloc, PLACES, &[a.min(b), a.max(b)])
}

fn push(history: &mut History, delta: Delta) -> Result<(), AllocError> {
    if u32::MAX - 1 <= history.len() {
        return Err(AllocError);
    }
    let next = history.ready_delta(delta)?;
    history.push(next);
    Ok(())
}

fn grow(history: &mut History, alloc: Global, size: u32) -> Result<(), AllocError> {
    let mut x = 2_463_534_242;
    for _ in 0..size {
        let left = next_random(x);
        x = next_random(left);
        push(history, scattered(alloc, left, x)?)?;
    }
    Ok(())
}

fn count_at_end(history: &History) -> Result<u64, AllocError> {
    let bits = history.at(history.len())?;
    Ok(u64::from(bits.count()))
}

impl Round for Whole {
    fn make(&mut self, _alloc: Global) -> Result<u64, AllocError> {
        let mut sum = 0u64;
        for _ in 0..self.calls {
            sum = sum.wrapping_add(count_at_end(&self.history)?);
        }
        Ok(sum)
    }
}

/// Times the growth of a history.
pub fn time_pushes<R: Clock + Print + AllocGlobal>(rt: &R, row: &Row, rounds: u32) -> Result<()> {
    let mut timing = Timing::new();
    for _ in 0..rounds {
        let mut history = History::new(rt.alloc());
        timing.begin(rt);
        grow(&mut history, rt.alloc(), row.size)?;
        timing.end(rt);
        timing.count(u64::from(history.len()));
    }
    timing.print(rt, row)
}

/// Times the bitmap after all commits of a history.
pub fn time_ats<R: Clock + Print + AllocGlobal>(rt: &R, row: &Row, rounds: u32) -> Result<()> {
    let mut history = History::new(rt.alloc());
    grow(&mut history, rt.alloc(), row.size)?;
    let calls = row.calls;
    time(rt, row, rounds, &mut Whole { calls, history })
}
