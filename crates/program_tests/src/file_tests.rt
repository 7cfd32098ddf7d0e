//! A dataset on two files in memory, of which each call of the first one fails in turn. The expected
//! replies are written by hand.
use crate::asserts::{holds, holds_at, is_status};
use crate::calls::{MORE_THAN_ANY, Ran, SCHEMA, files_of, run_open};
use db_memdev::{Fill, MemDisk};
use decibel_main::{Finish, Status};
use generations::Pair;
use std::alloc::Global;
use std::process::Abort;
use std::sync::Wait;
use std::test::Fail;
use std::thread::Threads;

const TWO_ROWS: &str = "1 insert items 1 1 1\n1 insert items 2 2 2\n";

const BOTH_STORED: &str =
    "> 1 insert items 1 1 1\nok master@1\n> 1 insert items 2 2 2\nok master@2\n";

const FIRST_FAILED: &str =
    "> 1 insert items 1 1 1\nrefused 19 fault disk\n> 1 insert items 2 2 2\nok master@1\n";

const SECOND_FAILED: &str =
    "> 1 insert items 1 1 1\nok master@1\n> 1 insert items 2 2 2\nrefused 19 fault disk\n";

const NO_ROW: &str = "> 1 scan items\nrows 0\n";

const FIRST_ROW: &str = "> 1 scan items\nrow 1 1 1\nrows 1\n";

const SECOND_ROW: &str = "> 1 scan items\nrow 2 2 2\nrows 1\n";

const BOTH_ROWS: &str = "> 1 scan items\nrow 1 1 1\nrow 2 2 2\nrows 2\n";

/// How two lines may end of which a call fails or none: how often the first line failed and the second
/// one, what was written, and which rows a crash after them leaves. Those that were acknowledged are
/// there, and if the last line failed, its row may be there too, but not by the bytes that were
/// synced.
struct End {
    failed: (u64, u64),
    status: Status,
    output: &'static str,
    by_old_bytes: &'static str,
    by_new_bytes: [&'static str; 2],
}

#[rattlefmt::skip]
const ENDS: [End; 4] = [
    End { failed: (0, 0), status: Status::DiskFault, output: "",            by_old_bytes: NO_ROW,     by_new_bytes: [NO_ROW, NO_ROW] },
    End { failed: (1, 0), status: Status::DiskFault, output: FIRST_FAILED,  by_old_bytes: SECOND_ROW, by_new_bytes: [SECOND_ROW, SECOND_ROW] },
    End { failed: (0, 1), status: Status::DiskFault, output: SECOND_FAILED, by_old_bytes: FIRST_ROW,  by_new_bytes: [FIRST_ROW, BOTH_ROWS] },
    End { failed: (0, 0), status: Status::Done,      output: BOTH_STORED,   by_old_bytes: BOTH_ROWS,  by_new_bytes: [BOTH_ROWS, BOTH_ROWS] },
];

// What a scan answers after a crash now, which leaves bytes so where nothing was synced.
fn rows_after<R: Threads + Wait + Sync>(
    rt: &R,
    alloc: Global,
    disk: &MemDisk,
    fill: Fill,
) -> Result<Ran, Fail> {
    let stopped = disk.stop(MORE_THAN_ANY, fill)?;
    let files = files_of(alloc, stopped.bytes(), &[])?;
    run_open(rt, alloc, "script", "1 scan items\n", files)
}

// A crash leaves the rows of one of two answers.
fn leaves<R: Abort + Threads + Wait + Sync>(
    rt: &R,
    alloc: Global,
    disk: &MemDisk,
    fill: Fill,
    call: u64,
    rows: [&str; 2],
) -> Result<(), Fail> {
    let ran = rows_after(rt, alloc, disk, fill)?;
    let told = ran.sink.bytes();
    let [one, other] = rows;
    let is_left = told == one.as_bytes() || told == other.as_bytes();
    holds_at(rt, "the rows after a crash", call, is_left);
    Ok(())
}

// The files of `create`, of which the first one fails at a call.
fn created<R: Abort + Threads + Wait + Sync>(
    rt: &R,
    alloc: Global,
    call: u64,
    status: Status,
) -> Result<Pair<MemDisk>, Fail> {
    let empty = files_of(alloc, b"", &[call])?;
    let ran = run_open(rt, alloc, "create", SCHEMA, empty)?;
    holds_at(rt, "create", call, ran.ended.status == status);
    Ok(ran.ended.disks)
}

// Two lines of which this call failed ended so, and a crash leaves that.
fn is_kept<R: Abort + Threads + Wait + Sync>(
    rt: &R,
    alloc: Global,
    call: u64,
    ended: &Finish<MemDisk>,
    end: &End,
) -> Result<(), Fail> {
    is_status(rt, end.output, ended.status, end.status);
    let (disk, rows) = (&ended.disks.first, end.by_old_bytes);
    leaves(rt, alloc, disk, Fill::Old, call, [rows, rows])?;
    leaves(rt, alloc, disk, Fill::New, call, end.by_new_bytes)
}

// How often each of two lines failed, by what they wrote.
fn kept<R: Abort + Threads + Wait + Sync>(
    rt: &R,
    alloc: Global,
    call: u64,
    ran: &Ran,
) -> Result<(u64, u64), Fail> {
    for end in &ENDS {
        if ran.sink.bytes() == end.output.as_bytes() {
            is_kept(rt, alloc, call, &ran.ended, end)?;
            return Ok(end.failed);
        }
    }
    Err("another output".into())
}

// The last call of the first file: `create` makes six, opening it makes six, and each line four.
const LAST_CALL: u64 = 20;

// How often each of two lines fails if this call does. Each fault is told, one of opening the files too.
fn two_lines<R: Abort + Threads + Wait + Sync>(
    rt: &R,
    alloc: Global,
    call: u64,
) -> Result<(u64, u64), Fail> {
    let disks = created(rt, alloc, call, Status::Done)?;
    let ran = run_open(rt, alloc, "script", TWO_ROWS, disks)?;
    let is_told = ran.ended.status != Status::Done;
    holds_at(rt, "a fault is told", call, is_told == (call <= LAST_CALL));
    kept(rt, alloc, call, &ran)
}

// The first calls of the file are those of `create`, and then those that open it. Each line makes four:
// it writes its record and then its gate, and syncs each.
#[test]
fn keeps_what_was_acknowledged_if_a_call_fails(rt: HostRuntime) -> Result<(), Fail> {
    for call in 1..=6u64 {
        created(&rt, rt.alloc(), call, Status::DiskFault)?;
    }
    let mut failed = (0u64, 0u64);
    for call in 7..40u64 {
        let (first, second) = two_lines(&rt, rt.alloc(), call)?;
        failed = (
            failed.0.saturating_add(first),
            failed.1.saturating_add(second),
        );
    }
    holds(&rt, "each line fails at its four calls", failed == (4, 4));
    Ok(())
}
