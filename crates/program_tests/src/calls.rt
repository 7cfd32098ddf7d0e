//! Calls of the program on devices in memory.
use db_memdev::{MemDisk, MemSink, MemSource};
use db_outside::{Gate, OpenGate};
use decibel_main::{Finish, decibel};
use generations::Pair;
use std::alloc::Global;
use std::sync::Wait;
use std::test::Fail;
use std::thread::Threads;

/// More calls and bytes than any test has.
pub const MORE_THAN_ANY: u64 = 100_000;

/// A schema of one relation.
pub const SCHEMA: &str = "relation items a b\nend\n";

/// How a call ended, with the files then, and what it wrote.
#[derive(Drop)]
pub struct Ran {
    pub ended: Finish<MemDisk>,
    pub sink: MemSink,
}

/// A file in memory with these bytes, of which some calls fail.
pub fn file_of(alloc: Global, bytes: &[u8], failing: &[u64]) -> Result<MemDisk, Fail> {
    Ok(MemDisk::of(alloc, bytes, failing, MORE_THAN_ANY, MORE_THAN_ANY)?)
}

/// A file with these bytes, of which some calls fail, beside an empty one.
pub fn files_of(alloc: Global, bytes: &[u8], failing: &[u64]) -> Result<Pair<MemDisk>, Fail> {
    let second = file_of(alloc, b"", &[])?;
    Ok(Pair {
        first: file_of(alloc, bytes, failing)?,
        second,
    })
}

fn words_of(alloc: Global, words: &[&str]) -> Result<Vec<String>, Fail> {
    let mut all = Vec::new(alloc);
    for word in words {
        all.push(String::from_str(alloc, word)?)?;
    }
    Ok(all)
}

/// A call of the program with these words. No clause says what it did, so that a test's proof needs
/// to know nothing of it.
pub fn call<R: Threads + Wait + Sync, G: Gate + Sync>(
    rt: &R,
    alloc: Global,
    words: &[&str],
    source: &mut MemSource,
    sink: &mut MemSink,
    disks: Pair<MemDisk>,
    gate: &G,
) -> Result<Finish<MemDisk>, Fail> {
    let words = words_of(alloc, words)?;
    Ok(decibel(rt, alloc, &words, source, sink, disks, gate))
}

/// A command on these files, with an input and a sink that don't fail.
pub fn run<R: Threads + Wait + Sync, G: Gate + Sync>(
    rt: &R,
    alloc: Global,
    word: &str,
    input: &str,
    disks: Pair<MemDisk>,
    gate: &G,
) -> Result<Ran, Fail> {
    let mut source = MemSource::of(alloc, input.as_bytes(), &[])?;
    let mut sink = MemSink::of(alloc, &[], MORE_THAN_ANY)?;
    let words = [word, "base"];
    let ended = call(rt, alloc, &words, &mut source, &mut sink, disks, gate)?;
    Ok(Ran { ended, sink })
}

/// A command on these files with the gate that is always open.
pub fn run_open<R: Threads + Wait + Sync>(
    rt: &R,
    alloc: Global,
    word: &str,
    input: &str,
    disks: Pair<MemDisk>,
) -> Result<Ran, Fail> {
    run(rt, alloc, word, input, disks, &OpenGate)
}
