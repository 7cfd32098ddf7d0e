//! Batches of one body of 36 bytes, appended to the journal of a file.
ghost use Rattle.std.specs.Prelude.{◌≡◌, []};

use crate::bodies::batch_of;
use crate::row::{Kind, Row};
use crate::timing::Timing;
use anyhow::{Result, bail};
use db_outside::{Batch, Disk, Failed};
use db_realdev::{Access, RealDisk};
use gate_journal::Journal;
use std::fs::File;
use std::rt::{Clock, Files};

const BODY: &[u8; 36] = b"a body of an entry: thirty-six bytes";

fn row_of(calls: u32) -> Row {
    Row {
        kind: Kind::Append,
        work: "gate_journal append",
        size: 36,
        unit: "bytes",
        calls,
    }
}

// A journal without records, on a file that is there or is made.
fn begin(disk: &mut RealDisk) -> Result<Journal, Failed> {
    disk.write_at(0, &[0])?;
    disk.sync()?;
    Ok(Journal { at: 0, clean: true })
}

// Appends a batch, after the repair that a failed append asks for.
fn append_once(journal: &mut Journal, disk: &mut RealDisk, batch: &Batch) -> Result<(), Failed>
    requires { batch.now ≡ [] → ⊥ }
{
    if !journal.clean {
        journal.repair(disk)?;
    }
    journal.append(disk, batch)
}

fn append_often(
    journal: &mut Journal,
    disk: &mut RealDisk,
    batch: &Batch,
    calls: u32,
) -> Result<(), Failed>
    requires { batch.now ≡ [] → ⊥ }
{
    for _ in 0..calls {
        append_once(journal, disk, batch)?;
    }
    Ok(())
}

// The sum is over the places behind the rounds.
fn append_rounds<R: Clock>(
    rt: &R,
    disk: &mut RealDisk,
    batch: &Batch,
    calls: u32,
    rounds: u32,
) -> Result<Timing, Failed>
    requires { batch.now ≡ [] → ⊥ }
{
    let mut journal = begin(disk)?;
    let mut timing = Timing::new();
    for _ in 0..rounds {
        timing.begin(rt);
        append_often(&mut journal, disk, batch, calls)?;
        timing.end(rt);
        timing.count(journal.at);
    }
    Ok(timing)
}

/// Times appends of one batch again and again to the journal of a file.
pub fn time_appends<R: Clock + Files<File = File> + Print + AllocGlobal>(
    rt: &R,
    path: &str,
    calls: u32,
    rounds: u32,
) -> Result<()> {
    let batch = batch_of(rt.alloc(), BODY.as_slice())?;
    let mut disk = RealDisk::open(rt, path, Access::Create);
    match append_rounds(rt, &mut disk, &batch, calls, rounds) {
        Ok(timing) => timing.print(rt, &row_of(calls)),
        Err(_) => bail!("a call of the file failed"),
    }
}
