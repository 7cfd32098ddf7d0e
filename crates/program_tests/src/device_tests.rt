//! Calls whose source or sink fails, and whose disks would fail if they were called. The expected replies
//! are written by hand.
use crate::asserts::{holds, is_status};
use crate::calls::{MORE_THAN_ANY, SCHEMA, call};
use db_memdev::{MemDisk, MemSink, MemSource};
use db_outside::OpenGate;
use decibel_main::Status;
use generations::Pair;
use std::alloc::Global;
use std::process::Abort;
use std::sync::Wait;
use std::test::Fail;
use std::thread::Threads;

const TWO_LINES: &str =
    "relation items a b\nend\n1 insert items 18446744073709551615 -9223372036854775808 9223372036854775807\n1 scan items\n";

const FIRST_REPLY: &str =
    "> 1 insert items 18446744073709551615 -9223372036854775808 9223372036854775807\nok master@1\n";

const LOADED: &str = "lines 8\nok 6\nrefused 2\nbranches 1\nrows 5\n";

/// A call: its words and its input, which calls of its devices fail, for how many bytes the sink has
/// room, how it ends and what it writes.
struct Call {
    name: &'static str,
    words: &'static [&'static str],
    input: &'static str,
    takes: &'static [u64],
    puts: &'static [u64],
    room: u64,
    status: Status,
    output: &'static str,
}

const TRY: &[&str] = &["try"];

const LOAD: &[&str] = &["load", "8"];

const ANY: u64 = MORE_THAN_ANY;

#[rattlefmt::skip]
const CALLS: [Call; 9] = [
    Call { name: "the first read fails",      words: TRY,  input: TWO_LINES, takes: &[1], puts: &[],  room: ANY, status: Status::ReadFault,  output: "" },
    Call { name: "the read of the end fails", words: TRY,  input: TWO_LINES, takes: &[2], puts: &[],  room: ANY, status: Status::ReadFault,  output: "" },
    Call { name: "the first write fails",     words: TRY,  input: TWO_LINES, takes: &[],  puts: &[1], room: ANY, status: Status::WriteFault, output: "" },
    Call { name: "the second write fails",    words: TRY,  input: TWO_LINES, takes: &[],  puts: &[2], room: ANY, status: Status::WriteFault, output: FIRST_REPLY },
    Call { name: "room for one reply",        words: TRY,  input: TWO_LINES, takes: &[],  puts: &[],  room: 100, status: Status::WriteFault, output: FIRST_REPLY },
    Call { name: "nothing to write",          words: TRY,  input: SCHEMA,    takes: &[],  puts: &[1], room: ANY, status: Status::Done,       output: "" },
    Call { name: "no read of a load",         words: LOAD, input: TWO_LINES, takes: &[1], puts: &[],  room: ANY, status: Status::Done,       output: LOADED },
    Call { name: "the write of a load fails", words: LOAD, input: TWO_LINES, takes: &[1], puts: &[1], room: ANY, status: Status::WriteFault, output: "" },
    Call { name: "no room for a load",        words: LOAD, input: TWO_LINES, takes: &[1], puts: &[],  room: 4,   status: Status::WriteFault, output: "" },
];

// Two disks of which each call fails.
fn no_disks(alloc: Global) -> Result<Pair<MemDisk>, Fail> {
    let second = MemDisk::of(alloc, b"", &[], 0, 0)?;
    Ok(Pair {
        first: MemDisk::of(alloc, b"", &[], 0, 0)?,
        second,
    })
}

fn ends<R: Abort + Threads + Wait + Sync>(rt: &R, alloc: Global, row: &Call) -> Result<(), Fail> {
    let mut source = MemSource::of(alloc, row.input.as_bytes(), row.takes)?;
    let mut sink = MemSink::of(alloc, row.puts, row.room)?;
    let disks = no_disks(alloc)?;
    let (source, out) = (&mut source, &mut sink);
    let ended = call(rt, alloc, row.words, source, out, disks, &OpenGate)?;
    is_status(rt, row.name, ended.status, row.status);
    holds(rt, row.name, sink.bytes() == row.output.as_bytes());
    Ok(())
}

#[test]
fn ends_with_the_status_of_the_cause(rt: HostRuntime) -> Result<(), Fail> {
    for row in &CALLS {
        ends(&rt, rt.alloc(), row)?;
    }
    Ok(())
}
