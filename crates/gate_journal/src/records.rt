//! All records of a disk.
ghost use Rattle.std.specs.Prelude.{◌≡◌, ◌+◌, ◌^◌, ◌≤◌, ◌<◌, List, ℕ, Option, Some, true, length, take, drop, IfOk, OnOk, OnErr, IsErrOf};
ghost use Rattle.db_outside.specs.Device.{Faulted, IfTold};
ghost use Rattle.db_outside.specs.Disk.{IsAllOnDisk};
ghost use Rattle.db_outside.specs.Record.{most_body};
ghost use Rattle.gate_journal.specs.Found.{IsSuch, EndsWithin, JudgedBy, IsBodyAt, HasSize, told_by, EndsBy, reading_of, SaysClean, EndsShut};
ghost use Rattle.gate_journal.specs.Reading.{Reading, size_in, records_from};
ghost use Rattle.gate_journal.specs.Reads.{OnlyReads};

use crate::bodies::{Bodies, Body};
use crate::cause::Cause;
use crate::place::Journal;
use crate::reading::{ReadStop, array_at, bytes_at, length_of};
use db_outside::{Disk, MOST_BODY};
use sha2::{Digest, Sha256};
use std::alloc::Global;

// The bytes of a record in front of its body: its length and its digest.
const HEAD: u64 = 36;

/// Where reading ended.
#[derive(Drop)]
pub enum JournalEnd {
    /// At a closed gate, where the next record goes.
    Closed { journal: Journal },
    /// At the first damage of a record or a gate's place.
    Damaged { at: u64, cause: Cause },
}

// What stands behind an open gate.
#[derive(Drop)]
pub enum Behind {
    Short,
    Unsound,
    Whole { body: Body },
}

// What stands at a gate's place.
#[derive(Drop)]
pub enum Found {
    Closed,
    Damaged { cause: Cause },
    Open { body: Body },
}

// The length that stands behind a gate.
fn size_at<D: Disk>(disk: &mut D, at: u64) -> Result<u32, ReadStop>
    requires { IfTold (D.seen disk.old) (λ s. at + 4 ≤ length s) }
    ensures told { IfOk result (λ n. IfTold (D.seen disk.old) (λ s. n ≡ size_in (drop at s))) }
    ensures reads { OnlyReads D.faults D.writes D.seen D.image D.moment D.since disk.old disk.new }
    ensures cause { IsErrOf result ReadStop.DiskFault → Faulted D.faults disk.old disk.new }
    ensures still { OnOk result (D.faults disk.new ≡ D.faults disk.old) }
{
    let size: [u8; 4] = array_at(disk, at)?;
    Ok(u32::from_le_bytes(size))
}

// Has a body this digest?
fn judged(body: Vec<u8>, digest: &[u8; 32]) -> Behind
    ensures sound { JudgedBy result digest.now body.items }
{
    if Sha256::digest(body.as_slice()) == *digest {
        Behind::Whole {
            body: Body { bytes: body },
        }
    } else {
        Behind::Unsound
    }
}

// The digest at a place and the body of so many bytes behind it.
fn body_at<D: Disk>(alloc: Global, disk: &mut D, at: u64, size: usize) -> Result<Behind, ReadStop>
    requires inside { IfTold (D.seen disk.old) (λ s. at + 32 + size ≤ length s) }
    requires fits { at + 32 + size < 2 ^ 64 }
    ensures told { IfOk result (λ b. IfTold (D.seen disk.old) (λ s. IsBodyAt b at size s)) }
    ensures long { IfOk result (λ b. HasSize b size) }
    ensures reads { OnlyReads D.faults D.writes D.seen D.image D.moment D.since disk.old disk.new }
    ensures cause { IsErrOf result ReadStop.DiskFault → Faulted D.faults disk.old disk.new }
    ensures still { OnOk result (D.faults disk.new ≡ D.faults disk.old) }
{
    let digest: [u8; 32] = array_at(disk, at)?;
    let body = bytes_at(alloc, disk, at + 32, size)?;
    Ok(judged(body, &digest))
}

// The record behind an open gate: the place behind the gate, and how many bytes the file has there.
fn record_at<D: Disk>(alloc: Global, disk: &mut D, at: u64, left: u64) -> Result<Behind, ReadStop>
    requires left { IfTold (D.seen disk.old) (λ s. at + left ≡ length s) }
    requires fits { at + left < 2 ^ 64 }
    ensures told { IfOk result (λ b. IfTold (D.seen disk.old) (λ s. IsSuch b (drop at s))) }
    ensures within { IfOk result (λ b. EndsWithin b left) }
    ensures reads { OnlyReads D.faults D.writes D.seen D.image D.moment D.since disk.old disk.new }
    ensures cause { IsErrOf result ReadStop.DiskFault → Faulted D.faults disk.old disk.new }
    ensures still { OnOk result (D.faults disk.new ≡ D.faults disk.old) }
{
    if left < HEAD {
        return Ok(Behind::Short);
    }
    let size = size_at(disk, at)?;
    if size == 0 || size as usize > MOST_BODY || size as u64 > left - HEAD {
        return Ok(Behind::Short);
    }
    let behind = body_at(alloc, disk, at + 4, size as usize)?;
    Ok(behind)
}

// What stands at a gate's place, in a file of this length.
fn found_at<D: Disk>(alloc: Global, disk: &mut D, at: u64, len: u64) -> Result<Found, ReadStop>
    requires there { at < len }
    requires told { IfTold (D.seen disk.old) (λ s. len ≡ length s) }
    ensures told { IfOk result
        (λ f. IfTold (D.seen disk.old) (λ s. records_from at s ≡ told_by f at s)) }
    ensures within { IfOk result (λ f. EndsBy f at len) }
    ensures reads { OnlyReads D.faults D.writes D.seen D.image D.moment D.since disk.old disk.new }
    ensures cause { IsErrOf result ReadStop.DiskFault → Faulted D.faults disk.old disk.new }
    ensures still { OnOk result (D.faults disk.new ≡ D.faults disk.old) }
{
    let gate: [u8; 1] = array_at(disk, at)?;
    if gate[0] != 1 {
        return Ok(Found::Closed);
    }
    match record_at(alloc, disk, at + 1, len - at - 1)? {
        Behind::Short => Ok(Found::Damaged {
            cause: Cause::Length,
        }),
        Behind::Unsound => Ok(Found::Damaged {
            cause: Cause::Digest,
        }),
        Behind::Whole { body } => Ok(Found::Open { body }),
    }
}

/// All open records from a place on, up to the first closed gate or the first damage of a record or
/// a gate's place. It writes nothing.
pub fn read_all<D: Disk>(
    alloc: Global,
    disk: &mut D,
    from: u64,
) -> Result<(Bodies, JournalEnd), ReadStop>
    ensures told { IfOk result (λ r. IfTold (D.seen disk.old) (λ s.
        records_from from s ≡ reading_of r.0 r.1)) }
    ensures clean { IfOk result (λ r. SaysClean r.1) }
    ensures shut { IsAllOnDisk (D.seen disk.old) (D.image disk.old) →
        IfOk result (λ r. EndsShut (D.image disk.new) r.1) }
    ensures reads { OnlyReads D.faults D.writes D.seen D.image D.moment D.since disk.old disk.new }
    ensures cause { IsErrOf result ReadStop.DiskFault → Faulted D.faults disk.old disk.new }
    ensures still { OnOk result (D.faults disk.new ≡ D.faults disk.old) }
{
    let len = match length_of(disk) {
        Ok(len) => len,
        Err(_) => return Err(ReadStop::DiskFault),
    };
    let mut items: Vec<Body> = Vec::new(alloc);
    let mut at = from;
    'records: while at < len {
        match found_at(alloc, disk, at, len)? {
            Found::Closed => {
                let journal = Journal { at, clean: true };
                return Ok((Bodies { items }, JournalEnd::Closed { journal }));
            }
            Found::Damaged { cause } => {
                return Ok((Bodies { items }, JournalEnd::Damaged { at, cause }));
            }
            Found::Open { body } => {
                at += 37 + body.bytes.len() as u64;
                if items.push(body).is_err() {
                    return Err(ReadStop::Memory);
                }
            }
        }
    }
    Ok((
        Bodies { items },
        JournalEnd::Damaged {
            at,
            cause: Cause::Length,
        },
    ))
}
