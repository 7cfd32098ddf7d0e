//! A script with a checkpoint, on two files in memory of which each call fails in turn; and of each such
//! run what a crash leaves, at each call of each file with each fill. The expected rows are written by
//! hand.
use crate::asserts::holds;
use db_core::Core;
use db_memdev::{Fill, MemDisk, MemSink};
use db_store::Store;
use db_value::Schema;
use entry_codec::Log;
use generations::{OpenStop, Pair, create, reopen};
use script_run::run_script;
use std::alloc::Global;
use std::process::Abort;
use std::test::Fail;

const MORE_THAN_ANY: u64 = 100_000;

// More calls than a run makes on one of the files.
const MOST_CALLS: u64 = 24;

// Of each file how many runs there are, up to the first one in which no call of it fails, and how many
// pairs of files are opened after a crash.
const TRIED: [(&str, u64, u64, u64); 2] = [("file 0", 0, 11, 159), ("file 1", 1, 14, 359)];

const SCRIPT: &[u8] = b"1 insert items 1 1 1\n1 checkpoint\n1 insert items 2 2 2\n";

// What is asked after a crash: the rows, and whether a line more is stored.
const QUESTION: &[u8] = b"1 scan items\n1 insert items 9 9 9\n";

const NO_ROW: &[u8] = b"> 1 scan items\nrows 0\n> 1 insert items 9 9 9\nok master@1\n";

const FIRST_ROW: &[u8] =
    b"> 1 scan items\nrow 1 1 1\nrows 1\n> 1 insert items 9 9 9\nok master@2\n";

const SECOND_ROW: &[u8] =
    b"> 1 scan items\nrow 2 2 2\nrows 1\n> 1 insert items 9 9 9\nok master@2\n";

const BOTH_ROWS: &[u8] =
    b"> 1 scan items\nrow 1 1 1\nrow 2 2 2\nrows 2\n> 1 insert items 9 9 9\nok master@3\n";

// What lines wrote, and the files then.
#[derive(Drop)]
struct Ran {
    output: Vec<u8>,
    disks: Pair<MemDisk>,
}

// A file in memory with these bytes, of which this call fails. The first call has the number 1.
fn file_of(alloc: Global, bytes: &[u8], call: u64) -> Result<MemDisk, Fail> {
    let disk = MemDisk::of(alloc, bytes, &[call], MORE_THAN_ANY, MORE_THAN_ANY)?;
    Ok(disk)
}

fn files_of(
    alloc: Global,
    first: &[u8],
    second: &[u8],
    calls: (u64, u64),
) -> Result<Pair<MemDisk>, Fail> {
    let first = file_of(alloc, first, calls.0)?;
    let second = file_of(alloc, second, calls.1)?;
    Ok(Pair { first, second })
}

// The bytes of the first file of a new dataset.
fn new_bytes(alloc: Global) -> Result<Vec<u8>, Fail> {
    let (schema, _) = Schema::read(alloc, b"relation items a b\nend\n")?;
    match create(alloc, files_of(alloc, b"", b"", (0, 0))?, &schema) {
        Err(_) => Err("not made".into()),
        Ok(dataset) => Ok(Vec::from_slice(alloc, dataset.into_disks().first.bytes())?),
    }
}

// What lines write, and the log.
fn run_on<St: Store, J: Log<St>>(
    alloc: Global,
    store: St,
    log: J,
    script: &[u8],
) -> Result<(Vec<u8>, J), Fail> {
    let Ok(mut core) = Core::new(alloc, store, log) else {
        return Err("no core".into());
    };
    let mut sink = MemSink::of(alloc, &[], MORE_THAN_ANY)?;
    let ended = run_script(&mut core, script, &mut sink);
    let (_, log) = core.into_parts();
    if ended.is_err() {
        return Err("not run".into());
    }
    Ok((Vec::from_slice(alloc, sink.bytes())?, log))
}

// A script on two files. Nothing is written if a disk fails while they are opened.
fn run(alloc: Global, disks: Pair<MemDisk>, script: &[u8]) -> Result<Ran, Fail> {
    match reopen(alloc, disks) {
        Err((OpenStop::DiskFault, disks)) => Ok(Ran {
            output: Vec::new(alloc),
            disks,
        }),
        Err(_) => Err("not opened".into()),
        Ok((dataset, store)) => {
            let (output, dataset) = run_on(alloc, store, dataset, script)?;
            Ok(Ran {
                output,
                disks: dataset.into_disks(),
            })
        }
    }
}

// Were the rows acknowledged, the first one and the second one?
fn acknowledged(output: &[u8]) -> (bool, bool) {
    let first = output.starts_with(b"> 1 insert items 1 1 1\nok master@1\n");
    let second = output.ends_with(b"> 1 insert items 2 2 2\nok master@2\n")
        || output.ends_with(b"> 1 insert items 2 2 2\nok master@1\n");
    (first, second)
}

// May this be answered after a crash while the script ran? A row whose line failed may be there.
fn may_show(answer: &[u8], stored: (bool, bool)) -> bool {
    match stored {
        (true, _) => answer == NO_ROW || answer == FIRST_ROW || answer == BOTH_ROWS,
        (false, _) => answer == NO_ROW || answer == FIRST_ROW || answer == SECOND_ROW,
    }
}

// May it be answered after a crash behind it? Each acknowledged row is there, and at most the one of
// the line that failed last.
fn may_end(answer: &[u8], stored: (bool, bool)) -> bool {
    match stored {
        (false, false) => answer == NO_ROW,
        (true, false) => answer == FIRST_ROW || answer == BOTH_ROWS,
        (false, true) => answer == SECOND_ROW,
        (true, true) => answer == BOTH_ROWS,
    }
}

// What is answered on files with these bytes.
fn answer_on(alloc: Global, first: &[u8], second: &[u8]) -> Result<Vec<u8>, Fail> {
    let ran = run(alloc, files_of(alloc, first, second, (0, 0))?, QUESTION)?;
    Ok(ran.output)
}

// What a crash leaves of a file at a call with a fill, if that isn't in the list.
fn leave(
    alloc: Global,
    disk: &MemDisk,
    call: u64,
    fill: Fill,
    all: &mut Vec<Vec<u8>>,
) -> Result<(), Fail> {
    let stopped = disk.stop(call, fill)?;
    let bytes = Vec::from_slice(alloc, stopped.bytes())?;
    if !all.contains(&bytes) {
        all.push(bytes)?;
    }
    Ok(())
}

// What a crash leaves of a file: at each call with each fill, each once.
fn left_of(alloc: Global, disk: &MemDisk) -> Result<Vec<Vec<u8>>, Fail> {
    let mut all: Vec<Vec<u8>> = Vec::new(alloc);
    for call in 0..=MOST_CALLS {
        leave(alloc, disk, call, Fill::Old, &mut all)?;
        leave(alloc, disk, call, Fill::New, &mut all)?;
        leave(alloc, disk, call, Fill::Byte(1), &mut all)?;
    }
    Ok(all)
}

// A crash while the script ran left these bytes of both files.
fn crash_with(
    rt: &impl Abort,
    alloc: Global,
    first: &[u8],
    second: &[u8],
    stored: (bool, bool),
) -> Result<(), Fail> {
    let answer = answer_on(alloc, first, second)?;
    holds(rt, "a crash while it ran", may_show(&answer, stored));
    Ok(())
}

// Each of the first files with each of the second, counted.
fn crash_pairs(
    rt: &impl Abort,
    alloc: Global,
    firsts: &[Vec<u8>],
    seconds: &[Vec<u8>],
    stored: (bool, bool),
    tried: &mut u64,
) -> Result<(), Fail> {
    for first in firsts {
        for second in seconds {
            crash_with(rt, alloc, first, second, stored)?;
            *tried = tried.saturating_add(1);
        }
    }
    Ok(())
}

// A crash behind the script, and one of each file at each call.
fn crash(rt: &impl Abort, alloc: Global, ran: &Ran, tried: &mut u64) -> Result<(), Fail> {
    let stored = acknowledged(&ran.output);
    let (one, two) = (&ran.disks.first, &ran.disks.second);
    let answer = answer_on(alloc, one.bytes(), two.bytes())?;
    holds(rt, "at the end", may_end(&answer, stored));
    let firsts = left_of(alloc, one)?;
    let seconds = left_of(alloc, two)?;
    crash_pairs(rt, alloc, &firsts, &seconds, stored, tried)
}

// Was no call of a file failed? At most one line is told that the disk failed.
fn is_whole(rt: &impl Abort, output: &[u8]) -> bool {
    let failed = output
        .split(|b| *b == b'\n')
        .filter(|line| **line == *b"refused 19 fault disk".as_slice())
        .count();
    holds(rt, "at most one line failed", failed <= 1);
    let whole = failed == 0 && !output.is_empty();
    holds(
        rt,
        "all is acknowledged",
        !whole || acknowledged(output) == (true, true),
    );
    whole
}

// The script on files of which a call fails. Was the call behind the last one of the file?
fn fail_at(
    rt: &impl Abort,
    alloc: Global,
    new: &[u8],
    file: u64,
    call: u64,
    tried: &mut u64,
) -> Result<bool, Fail> {
    let calls = if file == 0 { (call, 0) } else { (0, call) };
    let ran = run(alloc, files_of(alloc, new, b"", calls)?, SCRIPT)?;
    crash(rt, alloc, &ran, tried)?;
    Ok(is_whole(rt, &ran.output))
}

// Each call of a file fails in turn, until a run makes fewer. Tells how many runs there were.
fn fail_each(
    rt: &impl Abort,
    alloc: Global,
    new: &[u8],
    file: u64,
    tried: &mut u64,
) -> Result<u64, Fail> {
    for call in 1..MOST_CALLS {
        if fail_at(rt, alloc, new, file, call, tried)? {
            return Ok(call);
        }
    }
    Err("each run failed".into())
}

#[test]
fn keeps_acknowledged_rows_beside_a_checkpoint(rt: HostRuntime) -> Result<(), Fail> {
    let new = new_bytes(rt.alloc())?;
    for (name, file, runs, pairs) in &TRIED {
        let mut tried = 0u64;
        let ran = fail_each(&rt, rt.alloc(), &new, *file, &mut tried)?;
        println!(rt; "{name}: {ran} runs, {tried} pairs of files after a crash")?;
        holds(&rt, name, ran == *runs && tried == *pairs);
    }
    Ok(())
}
