//! Sessions on threads, on two files in memory. The expected replies are written by hand.
use crate::asserts::{holds, is_status};
use crate::calls::{SCHEMA, files_of, run, run_open};
use db_memdev::MemDisk;
use db_outside::Gate;
use decibel_main::Status;
use generations::Pair;
use std::alloc::Global;
use std::process::Abort;
use std::sync::Wait;
use std::sync::atomic::{AtomicU64, Ordering};
use std::test::Fail;
use std::thread;
use std::thread::Threads;

// How many turns a gate waits: each is one look at an atomic, and then the thread lets others go on.
const TURNS: u64 = 10_000_000;

/// A gate that tells before which line each of two sessions stands. It holds session 1 before its second
/// line until session 2 stands before its second one, and session 2 before its third line until session
/// 1 stands before its third one. Sections that run one after another never come through it.
#[derive(Drop)]
struct Beside {
    first: AtomicU64,
    second: AtomicU64,
    lines: AtomicU64,
    missed: AtomicU64,
}

impl Beside {
    fn new() -> Beside {
        Beside {
            first: AtomicU64::new(0),
            second: AtomicU64::new(0),
            lines: AtomicU64::new(0),
            missed: AtomicU64::new(0),
        }
    }

    // Waits until the other session stands before the line with this number, or a later one.
    fn wait(&self, other: &AtomicU64, line: u64) {
        for _ in 0..TURNS {
            if other.load(Ordering::SeqCst) >= line {
                return;
            }
            thread::yield_now();
        }
        self.missed.store(1, Ordering::SeqCst);
    }

    // Both sessions came through it, up to their last lines, which have the numbers 5 and 6.
    fn was_passed(&self, rt: &impl Abort) {
        let missed = self.missed.load(Ordering::SeqCst);
        holds(
            rt,
            "no section waits for a line that never comes",
            missed == 0,
        );
        let first = self.first.load(Ordering::SeqCst);
        holds(rt, "session 1 stood before its last line", first == 5);
        let second = self.second.load(Ordering::SeqCst);
        holds(rt, "session 2 stood before its last line", second == 6);
        let lines = self.lines.load(Ordering::SeqCst);
        holds(rt, "each line came to the gate", lines == 6);
    }
}

// The sessions' lines have the numbers 1, 3 and 5, and 2, 4 and 6.
impl Gate for Beside {
    fn before(&self, session: u32, line: u64) {
        self.lines.fetch_add(1, Ordering::SeqCst);
        if session == 1 {
            self.first.store(line, Ordering::SeqCst);
            if line == 3 {
                self.wait(&self.second, 4);
            }
        } else {
            self.second.store(line, Ordering::SeqCst);
            if line == 6 {
                self.wait(&self.first, 5);
            }
        }
    }
}

const BESIDE: &str = "1 begin\n2 begin\n1 get items 1\n2 get items 1\n1 commit\n2 commit\n";

fn is_line_end(byte: &u8) -> bool {
    *byte == b'\n'
}

// How often the line stands in the text?
fn times(text: &[u8], line: &[u8]) -> u64 {
    let mut count = 0u64;
    for part in text.split(is_line_end) {
        if part == line {
            count = count.saturating_add(1);
        }
    }
    count
}

fn new_files<R: Threads + Wait + Sync>(rt: &R, alloc: Global) -> Result<Pair<MemDisk>, Fail> {
    let empty = files_of(alloc, b"", &[])?;
    Ok(run_open(rt, alloc, "create", SCHEMA, empty)?.ended.disks)
}

#[test]
fn runs_sections_beside_each_other(rt: HostRuntime) -> Result<(), Fail> {
    let gate = Beside::new();
    let disks = new_files(&rt, rt.alloc())?;
    let ran = run(&rt, rt.alloc(), "sessions", BESIDE, disks, &gate)?;
    is_status(&rt, "sessions", ran.ended.status, Status::Done);
    let oks = times(ran.sink.bytes(), b"ok");
    holds(&rt, "both begin and commit", oks == 4);
    gate.was_passed(&rt);
    Ok(())
}
