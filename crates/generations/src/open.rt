//! One file, opened.
ghost use Rattle.std.specs.Prelude.{◌≡◌, ◌+◌, ◌≤◌, ◌<◌, List, ℕ, Some, None, IfOk, OnOk, IsErrOf};
ghost use Rattle.db_outside.specs.Device.{Faulted};
ghost use Rattle.gate_journal.specs.Reads.{OnlyReads};
ghost use Rattle.generations.specs.Headers.{IsHeaderOf};
ghost use Rattle.generations.specs.Openings.{IsImageBy, IsImageIn, EndsImage, IsReplayed, IsOpened, IsCleanOpened};
ghost use Rattle.gate_journal.specs.Found.{end_of, SaysClean};
ghost use Rattle.generations.specs.Stored.{state_in};

use crate::header::{HEADER, Header};
use crate::replay::{Replayed, take_bodies};
use crate::store::DatasetStore;
use db_image::decode;
use db_outside::Disk;
use gate_journal::{Body, Cause, Journal, JournalEnd, ReadStop, bytes_at, read_all};
use image_parts::ImageStop;
use sha2::{Digest, Sha256};
use std::alloc::{AllocError, Global};

/// The last generation.
pub const MOST_GENERATION: u64 = 9_223_372_036_854_775_808;

// What stands in the place of the image.
pub enum ImageFound {
    Damaged { at: u64, cause: Cause },
    Whole { store: DatasetStore },
}

// What these bytes are, which the header says are the image.
fn judged(alloc: Global, header: &Header, image: &[u8]) -> Result<ImageFound, AllocError>
    ensures { IfOk result (λ f. IsImageBy f header.now image.now) }
{
    if Sha256::digest(image) != header.digest {
        return Ok(ImageFound::Damaged {
            at: 25,
            cause: Cause::Digest,
        });
    }
    match decode(alloc, image, header.format) {
        Err(ImageStop::Memory) => Err(AllocError),
        Err(ImageStop::NotAnImage { at }) => Ok(ImageFound::Damaged {
            at: HEADER + at,
            cause: Cause::Grammar,
        }),
        Ok(store) => Ok(ImageFound::Whole { store }),
    }
}

// The image of a file with this header.
fn image_at<D: Disk>(alloc: Global, disk: &mut D, header: &Header) -> Result<ImageFound, ReadStop>
    requires long { HEADER ≤ header.now.len }
    requires says { (s : List ℕ) → D.seen disk.old ≡ Some s → IsHeaderOf (Some header.now) s }
    ensures told { IfOk result (λ f. (s : List ℕ) → D.seen disk.old ≡ Some s → IsImageIn f s) }
    ensures within { IfOk result (λ f. EndsImage f header.now) }
    ensures reads { OnlyReads D.faults D.writes D.seen D.image D.moment D.since disk.old disk.new }
    ensures cause { IsErrOf result ReadStop.DiskFault → Faulted D.faults disk.old disk.new }
    ensures still { OnOk result (D.faults disk.new ≡ D.faults disk.old) }
{
    if header.generation == 0 {
        return Ok(ImageFound::Damaged {
            at: 9,
            cause: Cause::Grammar,
        });
    }
    if header.generation > MOST_GENERATION {
        return Ok(ImageFound::Damaged {
            at: 9,
            cause: Cause::Grammar,
        });
    }
    if header.image > header.len - HEADER {
        return Ok(ImageFound::Damaged {
            at: 17,
            cause: Cause::Length,
        });
    }
    let image = bytes_at(alloc, disk, HEADER, header.image as usize)?;
    match judged(alloc, header, &image) {
        Ok(found) => Ok(found),
        Err(_) => Err(ReadStop::Memory),
    }
}

// A file, opened.
pub enum Opened {
    Damaged {
        at: u64,
        cause: Cause,
    },
    Whole {
        journal: Journal,
        store: DatasetStore,
        entries: u64,
    },
}

// The store of an image and the entries of bodies, and where the journal ended.
fn replayed(
    alloc: Global,
    store: DatasetStore,
    from: u64,
    bodies: &[Body],
    end: JournalEnd,
) -> Result<Opened, AllocError>
    ensures told { IfOk result (λ o. IsReplayed o (state_in store) from bodies.now (end_of end)) }
    ensures clean { SaysClean end → IfOk result (λ o. IsCleanOpened o) }
{
    let mut store = store;
    match take_bodies(alloc, &mut store, from, bodies)? {
        Replayed::Damaged { at, cause } => Ok(Opened::Damaged { at, cause }),
        Replayed::All { entries } => match end {
            JournalEnd::Damaged { at, cause } => Ok(Opened::Damaged { at, cause }),
            JournalEnd::Closed { journal } => Ok(Opened::Whole {
                journal,
                store,
                entries,
            }),
        },
    }
}

/// Opens a file with this header.
pub fn open_file<D: Disk>(alloc: Global, disk: &mut D, header: &Header) -> Result<Opened, ReadStop>
    requires long { HEADER ≤ header.now.len }
    requires says { (s : List ℕ) → D.seen disk.old ≡ Some s → IsHeaderOf (Some header.now) s }
    ensures told { IfOk result (λ o. (s : List ℕ) → D.seen disk.old ≡ Some s → IsOpened o s) }
    ensures clean { IfOk result (λ o. IsCleanOpened o) }
    ensures reads { OnlyReads D.faults D.writes D.seen D.image D.moment D.since disk.old disk.new }
    ensures cause { IsErrOf result ReadStop.DiskFault → Faulted D.faults disk.old disk.new }
    ensures still { OnOk result (D.faults disk.new ≡ D.faults disk.old) }
{
    match image_at(alloc, disk, header)? {
        ImageFound::Damaged { at, cause } => Ok(Opened::Damaged { at, cause }),
        ImageFound::Whole { store } => {
            let from = HEADER + header.image;
            let (bodies, end) = read_all(alloc, disk, from)?;
            match replayed(alloc, store, from, bodies.as_slice(), end) {
                Ok(opened) => Ok(opened),
                Err(_) => Err(ReadStop::Memory),
            }
        }
    }
}
