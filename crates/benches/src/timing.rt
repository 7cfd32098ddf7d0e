//! The least time of a round.

use crate::row::Row;
use anyhow::{Result, ensure};
use std::alloc::{AllocError, Global};
use std::io;
use std::rt::Clock;
use std::time::{Duration, Instant};

/// What is timed as a whole.
pub trait Round {
    /// Makes the calls of a round, and tells a sum over their answers, so that none of them can be left out.
    fn make(&mut self, alloc: Global) -> Result<u64, AllocError>;
}

/// The least time of some rounds of calls, and a sum over all their answers. It keeps whether the clock
/// failed, and tells it instead of a time.
#[derive(Drop)]
pub struct Timing {
    start: Option<Instant>,
    failed: bool,
    nanoseconds: u64,
    sum: u64,
}

impl Timing {
    pub fn new() -> Timing {
        Timing {
            start: None,
            failed: false,
            nanoseconds: u64::MAX,
            sum: 0,
        }
    }

    /// Begins a round.
    pub fn begin<R: Clock>(&mut self, rt: &R) {
        self.start = Instant::now(rt).ok();
    }

    fn add(&mut self, took: Duration) {
        let nanoseconds = u64::try_from(took.as_nanos()).unwrap_or(u64::MAX);
        self.nanoseconds = self.nanoseconds.min(nanoseconds);
    }

    /// Ends a round.
    pub fn end<R: Clock>(&mut self, rt: &R) {
        let Some(start) = self.start else {
            self.failed = true;
            return;
        };
        match start.elapsed(rt) {
            Ok(took) => self.add(took),
            Err(_) => self.failed = true,
        }
    }

    /// Counts what a round's calls answered.
    pub fn count(&mut self, answers: u64) {
        self.sum = self.sum.wrapping_add(answers);
    }

    fn print_line<R: Print + AllocGlobal>(&self, rt: &R, row: &Row) -> io::Result<()> {
        let tenths = u128::from(self.nanoseconds) * 10 / u128::from(row.calls.max(1));
        let (whole, tenth) = (tenths / 10, tenths % 10);
        let (work, size, unit, sum) = (row.work, row.size, row.unit, self.sum);
        println!(rt; "{work} {size} {unit}: {whole}.{tenth} ns a call, sum {sum}")
    }

    /// Tells the time of one of the calls that a round made.
    pub fn print<R: Print + AllocGlobal>(&self, rt: &R, row: &Row) -> Result<()> {
        ensure!(!self.failed, "the clock failed");
        self.print_line(rt, row)?;
        Ok(())
    }
}

/// Times so many rounds, and tells the least time of a call.
pub fn time<T: Round, R: Clock + Print + AllocGlobal>(
    rt: &R,
    row: &Row,
    rounds: u32,
    round: &mut T,
) -> Result<()> {
    let mut timing = Timing::new();
    for _ in 0..rounds {
        timing.begin(rt);
        let sum = round.make(rt.alloc())?;
        timing.end(rt);
        timing.count(sum);
    }
    timing.print(rt, row)
}
