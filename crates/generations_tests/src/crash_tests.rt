//! A crash at each call of making a dataset, of appends and of checkpoints, and after calls that
//! failed. What is left was worked out by hand.
use crate::asserts::{holds, holds_at_calls};
use crate::files::{BOTH, ONE, TWO, Told, batch_of, created, file_to, stored, told_of};
use db_memdev::{Fill, MemDisk};
use entry_codec::Log;
use generations::{Dataset, DatasetStore, OpenStop, Pair, reopen};
use std::alloc::Global;
use std::process::Abort;
use std::test::Fail;

/// A call of the log.
enum Call {
    /// A batch of this body.
    Append(&'static [u8]),
    /// The image of the store of the file with the records in front of this place.
    Checkpoint(usize),
}

/// The calls of both disks at a crash, and what is left if pending ranges are as the last sync left
/// them, if they are as written, and if each of their bytes is 1, which opens a gate. None is no dataset.
struct Crash {
    first: u64,
    second: u64,
    old: Option<Told>,
    new: Option<Told>,
    ones: Option<Told>,
}

/// A new dataset on disks of which these calls fail, the calls of the log with whether each succeeds,
/// where the dataset is then (its generation, the file that counts, and the place of its gate), how
/// often its disks failed, and crashes.
struct Run {
    name: &'static str,
    first: &'static [u64],
    second: &'static [u64],
    calls: &'static [(Call, bool)],
    at: (u64, u8, u64),
    faults: u64,
    crashes: &'static [Crash],
}

// No dataset; a new one; one with `ONE`, with `TWO` behind it, and with `BOTH` alone.
const NO: Option<Told> = None;

const NEW: Option<Told> = Some((1, 0, 126, 0, 0));

const WITH_ONE: Option<Told> = Some((1, 0, 199, 1, 1));

const WITH_TWO: Option<Told> = Some((1, 0, 272, 2, 2));

const WITH_BOTH: Option<Told> = Some((1, 0, 235, 2, 2));

// The images of a dataset after one entry, after two of them, and after these and `BOTH`; and the second of
// them with the record of `BOTH` behind it.
const AT_ONE: Option<Told> = Some((2, 1, 4243, 0, 1));

const AT_TWO: Option<Told> = Some((2, 1, 4264, 0, 2));

const AT_TWO_BOTH: Option<Told> = Some((2, 1, 4373, 2, 4));

const AT_FOUR: Option<Told> = Some((3, 0, 4306, 0, 4));

// An append is the write of a record, a sync, the opening of its gate, and a sync. A checkpoint closes
// the other file's gate and syncs, and then it is the same with an image.
#[rattlefmt::skip]
const WHOLE: Run = Run {
    name: "no call fails",
    first: &[],
    second: &[],
    calls: &[(Call::Append(&ONE), true), (Call::Append(&TWO), true), (Call::Checkpoint(272), true), (Call::Append(&BOTH), true), (Call::Checkpoint(381), true)],
    at: (3, 0, 4306),
    faults: 0,
    crashes: &[
        Crash { first: 0,  second: 0,  old: NO,          new: NO,          ones: NO },
        Crash { first: 1,  second: 1,  old: NO,          new: NO,          ones: NO },
        Crash { first: 2,  second: 2,  old: NO,          new: NO,          ones: NO },
        Crash { first: 3,  second: 2,  old: NO,          new: NO,          ones: NO },
        Crash { first: 4,  second: 2,  old: NO,          new: NO,          ones: NO },
        Crash { first: 5,  second: 2,  old: NO,          new: NEW,         ones: NEW },
        Crash { first: 6,  second: 2,  old: NEW,         new: NEW,         ones: NEW },
        Crash { first: 7,  second: 2,  old: NEW,         new: NEW,         ones: NEW },
        Crash { first: 8,  second: 2,  old: NEW,         new: NEW,         ones: NEW },
        Crash { first: 9,  second: 2,  old: NEW,         new: WITH_ONE,    ones: WITH_ONE },
        Crash { first: 10, second: 2,  old: WITH_ONE,    new: WITH_ONE,    ones: WITH_ONE },
        Crash { first: 11, second: 2,  old: WITH_ONE,    new: WITH_ONE,    ones: WITH_ONE },
        Crash { first: 12, second: 2,  old: WITH_ONE,    new: WITH_ONE,    ones: WITH_ONE },
        Crash { first: 13, second: 2,  old: WITH_ONE,    new: WITH_TWO,    ones: WITH_TWO },
        Crash { first: 14, second: 2,  old: WITH_TWO,    new: WITH_TWO,    ones: WITH_TWO },
        Crash { first: 14, second: 3,  old: WITH_TWO,    new: WITH_TWO,    ones: WITH_TWO },
        Crash { first: 14, second: 4,  old: WITH_TWO,    new: WITH_TWO,    ones: WITH_TWO },
        Crash { first: 14, second: 5,  old: WITH_TWO,    new: WITH_TWO,    ones: WITH_TWO },
        Crash { first: 14, second: 6,  old: WITH_TWO,    new: WITH_TWO,    ones: WITH_TWO },
        Crash { first: 14, second: 7,  old: WITH_TWO,    new: AT_TWO,      ones: AT_TWO },
        Crash { first: 14, second: 8,  old: AT_TWO,      new: AT_TWO,      ones: AT_TWO },
        Crash { first: 14, second: 9,  old: AT_TWO,      new: AT_TWO,      ones: AT_TWO },
        Crash { first: 14, second: 10, old: AT_TWO,      new: AT_TWO,      ones: AT_TWO },
        Crash { first: 14, second: 11, old: AT_TWO,      new: AT_TWO_BOTH, ones: AT_TWO_BOTH },
        Crash { first: 14, second: 12, old: AT_TWO_BOTH, new: AT_TWO_BOTH, ones: AT_TWO_BOTH },
        Crash { first: 15, second: 12, old: AT_TWO_BOTH, new: AT_TWO_BOTH, ones: AT_TWO_BOTH },
        Crash { first: 16, second: 12, old: AT_TWO_BOTH, new: AT_TWO_BOTH, ones: AT_TWO_BOTH },
        Crash { first: 17, second: 12, old: AT_TWO_BOTH, new: AT_TWO_BOTH, ones: AT_TWO_BOTH },
        Crash { first: 18, second: 12, old: AT_TWO_BOTH, new: AT_TWO_BOTH, ones: AT_TWO_BOTH },
        Crash { first: 19, second: 12, old: AT_TWO_BOTH, new: AT_FOUR,     ones: AT_FOUR },
        Crash { first: 20, second: 12, old: AT_FOUR,     new: AT_FOUR,     ones: AT_FOUR },
        Crash { first: 99, second: 99, old: AT_FOUR,     new: AT_FOUR,     ones: AT_FOUR },
    ],
};

// The first append fails: at the write of its record, which leaves its gate surely closed; and at each
// later call. A gate that may be open is closed and synced before the next append. If that one fails too,
// a crash may show the batch whose record was begun last, and no other.
#[rattlefmt::skip]
const FAILED_APPENDS: [Run; 6] = [
    Run {
        name: "the write of a record fails",
        first: &[7],
        second: &[],
        calls: &[(Call::Append(&ONE), false), (Call::Append(&BOTH), true)],
        at: (1, 0, 235),
        faults: 1,
        crashes: &[
            Crash { first: 7,  second: 2, old: NEW,       new: NEW,       ones: NEW },
            Crash { first: 8,  second: 2, old: NEW,       new: NEW,       ones: NEW },
            Crash { first: 9,  second: 2, old: NEW,       new: NEW,       ones: NEW },
            Crash { first: 10, second: 2, old: NEW,       new: WITH_BOTH, ones: WITH_BOTH },
            Crash { first: 11, second: 2, old: WITH_BOTH, new: WITH_BOTH, ones: WITH_BOTH },
        ],
    },
    Run {
        name: "the sync of a record fails",
        first: &[8],
        second: &[],
        calls: &[(Call::Append(&ONE), false), (Call::Append(&BOTH), true)],
        at: (1, 0, 235),
        faults: 1,
        crashes: &[
            Crash { first: 8,  second: 2, old: NEW,       new: NEW,       ones: NEW },
            Crash { first: 9,  second: 2, old: NEW,       new: NEW,       ones: NEW },
            Crash { first: 10, second: 2, old: NEW,       new: NEW,       ones: NEW },
            Crash { first: 11, second: 2, old: NEW,       new: WITH_BOTH, ones: WITH_BOTH },
            Crash { first: 12, second: 2, old: WITH_BOTH, new: WITH_BOTH, ones: WITH_BOTH },
        ],
    },
    Run {
        name: "the opening of a record's gate fails",
        first: &[9],
        second: &[],
        calls: &[(Call::Append(&ONE), false), (Call::Append(&BOTH), true)],
        at: (1, 0, 235),
        faults: 1,
        crashes: &[
            Crash { first: 9,  second: 2, old: NEW,       new: NEW,       ones: WITH_ONE },
            Crash { first: 10, second: 2, old: NEW,       new: NEW,       ones: WITH_ONE },
            Crash { first: 11, second: 2, old: NEW,       new: NEW,       ones: NEW },
            Crash { first: 12, second: 2, old: NEW,       new: NEW,       ones: NEW },
            Crash { first: 13, second: 2, old: NEW,       new: NEW,       ones: NEW },
            Crash { first: 14, second: 2, old: NEW,       new: WITH_BOTH, ones: WITH_BOTH },
            Crash { first: 15, second: 2, old: WITH_BOTH, new: WITH_BOTH, ones: WITH_BOTH },
        ],
    },
    Run {
        name: "the sync of a record's gate fails",
        first: &[10],
        second: &[],
        calls: &[(Call::Append(&ONE), false), (Call::Append(&BOTH), true)],
        at: (1, 0, 235),
        faults: 1,
        crashes: &[
            Crash { first: 10, second: 2, old: NEW,       new: WITH_ONE,  ones: WITH_ONE },
            Crash { first: 11, second: 2, old: NEW,       new: NEW,       ones: WITH_ONE },
            Crash { first: 12, second: 2, old: NEW,       new: NEW,       ones: NEW },
            Crash { first: 13, second: 2, old: NEW,       new: NEW,       ones: NEW },
            Crash { first: 14, second: 2, old: NEW,       new: NEW,       ones: NEW },
            Crash { first: 15, second: 2, old: NEW,       new: WITH_BOTH, ones: WITH_BOTH },
            Crash { first: 16, second: 2, old: WITH_BOTH, new: WITH_BOTH, ones: WITH_BOTH },
        ],
    },
    Run {
        name: "the syncs of two records' gates fail",
        first: &[10, 16],
        second: &[],
        calls: &[(Call::Append(&ONE), false), (Call::Append(&BOTH), false)],
        at: (1, 0, 126),
        faults: 2,
        crashes: &[
            Crash { first: 10, second: 2, old: NEW,       new: WITH_ONE,  ones: WITH_ONE },
            Crash { first: 12, second: 2, old: NEW,       new: NEW,       ones: NEW },
            Crash { first: 14, second: 2, old: NEW,       new: NEW,       ones: NEW },
            Crash { first: 15, second: 2, old: NEW,       new: WITH_BOTH, ones: WITH_BOTH },
            Crash { first: 16, second: 2, old: NEW,       new: WITH_BOTH, ones: WITH_BOTH },
        ],
    },
    Run {
        name: "the closing of a failed record's gate fails",
        first: &[10, 12],
        second: &[],
        calls: &[(Call::Append(&ONE), false), (Call::Append(&BOTH), false)],
        at: (1, 0, 126),
        faults: 2,
        crashes: &[
            Crash { first: 10, second: 2, old: NEW,       new: WITH_ONE,  ones: WITH_ONE },
            Crash { first: 11, second: 2, old: NEW,       new: NEW,       ones: WITH_ONE },
            Crash { first: 12, second: 2, old: NEW,       new: NEW,       ones: WITH_ONE },
        ],
    },
];

// A checkpoint fails: at the write of its image, which leaves the other file's gate surely closed; and at
// the sync behind the opening of that gate, which is closed and synced before the next append.
#[rattlefmt::skip]
const FAILED_CHECKPOINTS: [Run; 2] = [
    Run {
        name: "the write of an image fails",
        first: &[],
        second: &[5],
        calls: &[(Call::Append(&ONE), true), (Call::Checkpoint(199), false), (Call::Append(&TWO), true)],
        at: (1, 0, 272),
        faults: 1,
        crashes: &[
            Crash { first: 10, second: 5, old: WITH_ONE, new: WITH_ONE, ones: WITH_ONE },
            Crash { first: 13, second: 5, old: WITH_ONE, new: WITH_TWO, ones: WITH_TWO },
            Crash { first: 14, second: 5, old: WITH_TWO, new: WITH_TWO, ones: WITH_TWO },
        ],
    },
    Run {
        name: "the sync of an image's gate fails",
        first: &[],
        second: &[8],
        calls: &[(Call::Append(&ONE), true), (Call::Checkpoint(199), false), (Call::Append(&TWO), true)],
        at: (1, 0, 272),
        faults: 1,
        crashes: &[
            Crash { first: 10, second: 7,  old: WITH_ONE, new: AT_ONE,   ones: AT_ONE },
            Crash { first: 10, second: 8,  old: WITH_ONE, new: AT_ONE,   ones: AT_ONE },
            Crash { first: 10, second: 9,  old: WITH_ONE, new: WITH_ONE, ones: AT_ONE },
            Crash { first: 10, second: 10, old: WITH_ONE, new: WITH_ONE, ones: WITH_ONE },
            Crash { first: 11, second: 10, old: WITH_ONE, new: WITH_ONE, ones: WITH_ONE },
            Crash { first: 12, second: 10, old: WITH_ONE, new: WITH_ONE, ones: WITH_ONE },
            Crash { first: 13, second: 10, old: WITH_ONE, new: WITH_TWO, ones: WITH_TWO },
            Crash { first: 14, second: 10, old: WITH_TWO, new: WITH_TWO, ones: WITH_TWO },
        ],
    },
];

fn appends<L: Log<DatasetStore>>(alloc: Global, log: &mut L, body: &[u8]) -> bool {
    match batch_of(alloc, body) {
        None => false,
        Some(batch) => log.append(&batch).is_ok(),
    }
}

fn checkpoints<L: Log<DatasetStore>>(alloc: Global, log: &mut L, place: usize) -> bool {
    match stored(alloc, place) {
        None => false,
        Some(store) => log.checkpoint(&store).is_ok(),
    }
}

// Does each call end as it should?
fn are_done<L: Log<DatasetStore>>(alloc: Global, log: &mut L, calls: &[(Call, bool)]) -> bool {
    for (call, is_done) in calls {
        let found = match call {
            Call::Append(body) => appends(alloc, log, body),
            Call::Checkpoint(place) => checkpoints(alloc, log, *place),
        };
        if found != *is_done {
            return false;
        }
    }
    true
}

fn is_at(dataset: &Dataset<MemDisk>, run: &Run) -> bool {
    (dataset.generation(), dataset.counted(), dataset.place()) == run.at
        && dataset.fault_count() == run.faults
}

// The disks of a run, if it went as it should.
fn ran(alloc: Global, run: &Run) -> Option<Pair<MemDisk>> {
    let mut dataset = created(alloc, run.first, run.second)?;
    if are_done(alloc, &mut dataset, run.calls) && is_at(&dataset, run) {
        return Some(dataset.into_disks());
    }
    None
}

// Is this what a crash leaves, if pending ranges are filled so?
fn leaves(
    alloc: Global,
    disks: &Pair<MemDisk>,
    crash: &Crash,
    fill: Fill,
    left: &Option<Told>,
) -> bool {
    let Ok(first) = disks.first.stop(crash.first, fill) else {
        return false;
    };
    let Ok(second) = disks.second.stop(crash.second, fill) else {
        return false;
    };
    match reopen(alloc, Pair { first, second }) {
        Ok((dataset, store)) => *left == Some(told_of(&dataset, &store)),
        Err((OpenStop::NotDataset, _)) => left.is_none(),
        Err(_) => false,
    }
}

// Bytes other than 1 open no gate, so they leave what the last sync did.
fn leaves_all(alloc: Global, disks: &Pair<MemDisk>, crash: &Crash) -> bool {
    leaves(alloc, disks, crash, Fill::Old, &crash.old)
        && leaves(alloc, disks, crash, Fill::New, &crash.new)
        && leaves(alloc, disks, crash, Fill::Byte(0), &crash.old)
        && leaves(alloc, disks, crash, Fill::Byte(1), &crash.ones)
        && leaves(alloc, disks, crash, Fill::Byte(7), &crash.old)
}

fn all_leave(rt: &impl Abort, alloc: Global, disks: &Pair<MemDisk>, run: &Run) {
    for crash in run.crashes {
        let is_so = leaves_all(alloc, disks, crash);
        holds_at_calls(rt, run.name, crash.first, crash.second, is_so);
    }
}

// It goes as it should, and each crash leaves what it should.
fn goes(rt: &impl Abort, alloc: Global, run: &Run) {
    match ran(alloc, run) {
        None => holds(rt, run.name, false),
        Some(disks) => all_leave(rt, alloc, &disks, run),
    }
}

#[test]
fn stops_at_each_call_by_the_table(rt: HostRuntime) {
    goes(&rt, rt.alloc(), &WHOLE);
}

#[test]
fn closes_the_gate_of_a_failed_append_first(rt: HostRuntime) {
    for run in &FAILED_APPENDS {
        goes(&rt, rt.alloc(), run);
    }
}

#[test]
fn closes_the_gate_of_a_failed_checkpoint_first(rt: HostRuntime) {
    for run in &FAILED_CHECKPOINTS {
        goes(&rt, rt.alloc(), run);
    }
}

// The first file once both entries were appended, before the second checkpoint writes over it.
fn written(alloc: Global) -> Option<MemDisk> {
    let disks = ran(alloc, &WHOLE)?;
    disks.first.stop(14, Fill::Old).ok()
}

#[test]
fn writes_a_file_by_hand(rt: HostRuntime) -> Result<(), Fail> {
    let disk = written(rt.alloc()).ok_or("no file")?;
    let file = file_to(rt.alloc(), 272).ok_or("no bytes")?;
    holds(&rt, "the bytes", disk.bytes() == file.as_slice());
    Ok(())
}
