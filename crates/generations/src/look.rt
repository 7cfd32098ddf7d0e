//! Two files, looked at.
ghost use Rattle.std.specs.Prelude.{◌≡◌, ◌⊎◌, ◌≤◌, List, ℕ, Option, Some, IfOk, IfErr, OnOk, IfSome, IsErrOf};
ghost use Rattle.generations.specs.Files.{number_of};
ghost use Rattle.generations.specs.Headers.{IsHeaderOf};
ghost use Rattle.generations.specs.Openings.{IsOpened, IsCleanOpened};
ghost use Rattle.generations.specs.Pairs.{disk_of, IfTold, AreAllOnDisk, RoseInOne, NoneRose, BothOnlyRead};
ghost use Rattle.generations.specs.Looks.{IsPicked, SaysPicked, IsLooked, IsClean, IsOpenStop, IsByBytes};

use crate::header::{HEADER, Header, header_of};
use crate::open::{Opened, open_file};
use crate::pair::{Pair, sync_both};
use crate::pick::pick;
use crate::store::DatasetStore;
use db_outside::Disk;
use gate_journal::{Cause, Journal, ReadStop};
use std::alloc::Global;
use thiserror::Error;

/// Why two files weren't opened.
#[derive(Clone, Copy, Debug, PartialEq, Eq, Error)]
pub enum OpenStop {
    /// 1: neither file has a header.
    #[error("not a dataset")]
    NotDataset,
    /// 2: the file that counts is damaged at a place.
    #[error("damaged file {file} at {at}")]
    Damaged { file: u8, at: u64, cause: Cause },
    /// 3: a disk failed.
    #[error("disk fault")]
    DiskFault,
    /// 4: want of memory.
    #[error("want of memory")]
    Memory,
}

/// What two files have.
pub struct Looked {
    pub second: bool,
    pub generation: u64,
    pub journal: Journal,
    pub store: DatasetStore,
    pub entries: u64,
}

fn stop_of(stop: ReadStop) -> OpenStop
    ensures fault { result ≡ OpenStop.DiskFault → stop ≡ ReadStop.DiskFault }
    ensures reading { (result ≡ OpenStop.DiskFault) ⊎ (result ≡ OpenStop.Memory) }
{
    match stop {
        ReadStop::DiskFault => OpenStop::DiskFault,
        ReadStop::Memory => OpenStop::Memory,
    }
}

fn number(second: bool) -> u8
    ensures { result ≡ number_of second }
{
    if second { 1 } else { 0 }
}

// Which of two files counts, and its header.
fn picked<D: Disk>(disks: &mut Pair<D>) -> Result<Option<(bool, Header)>, ReadStop>
    ensures told { IfOk result (λ o. IfTold D.Disk disks.old (IsPicked o)) }
    ensures says { IfOk result (λ o. SaysPicked D.Disk disks.old o) }
    ensures long { IfOk result (λ o. IfSome o (λ p. HEADER ≤ p.1.len)) }
    ensures reads { BothOnlyRead D.Disk disks.old disks.new }
    ensures cause { IsErrOf result ReadStop.DiskFault → RoseInOne D.Disk disks.old disks.new }
    ensures still { OnOk result (NoneRose D.Disk disks.old disks.new) }
{
    let a = header_of(&mut disks.first)?;
    let b = header_of(&mut disks.second)?;
    Ok(pick(&a, &b))
}

// Opens the first file or the second one.
fn open_one<D: Disk>(
    alloc: Global,
    disks: &mut Pair<D>,
    second: bool,
    header: &Header,
) -> Result<Opened, ReadStop>
    requires long { HEADER ≤ header.now.len }
    requires says { (s : List ℕ) → D.seen (disk_of second disks.old) ≡ Some s →
        IsHeaderOf (Some header.now) s }
    ensures told { IfOk result (λ o.
        (s : List ℕ) → D.seen (disk_of second disks.old) ≡ Some s → IsOpened o s) }
    ensures clean { IfOk result (λ o. IsCleanOpened o) }
    ensures reads { BothOnlyRead D.Disk disks.old disks.new }
    ensures cause { IsErrOf result ReadStop.DiskFault → RoseInOne D.Disk disks.old disks.new }
    ensures still { OnOk result (NoneRose D.Disk disks.old disks.new) }
{
    if second {
        return open_file(alloc, &mut disks.second, header);
    }
    open_file(alloc, &mut disks.first, header)
}

/// What two files have, by the one of them that counts. It writes nothing.
pub fn look<D: Disk>(alloc: Global, disks: &mut Pair<D>) -> Result<Looked, OpenStop>
    ensures told { IfOk result (λ l. IfTold D.Disk disks.old (IsLooked l)) }
    ensures clean { IfOk result (λ l. IsClean D.Disk disks.new l) }
    ensures durable { OnOk result (AreAllOnDisk D.Disk disks.new) }

    ensures stop { IfErr result (λ e. IfTold D.Disk disks.old (IsOpenStop e)) }
    ensures cause { IsErrOf result OpenStop.DiskFault → RoseInOne D.Disk disks.old disks.new }
    ensures still { OnOk result (NoneRose D.Disk disks.old disks.new) }
    ensures judged { IfErr result (λ e. IsByBytes e → NoneRose D.Disk disks.old disks.new) }
    ensures reads { BothOnlyRead D.Disk disks.old disks.new }
{
    match sync_both(disks) {
        Ok(()) => {}
        Err(_) => return Err(OpenStop::DiskFault),
    }
    let (second, header) = match picked(disks) {
        Ok(None) => return Err(OpenStop::NotDataset),
        Ok(Some(found)) => found,
        Err(stop) => return Err(stop_of(stop)),
    };
    match open_one(alloc, disks, second, &header) {
        Err(stop) => Err(stop_of(stop)),
        Ok(Opened::Damaged { at, cause }) => Err(OpenStop::Damaged {
            file: number(second),
            at,
            cause,
        }),
        Ok(
            Opened::Whole {
                journal,
                store,
                entries,
            },
        ) => Ok(Looked {
            second,
            generation: header.generation,
            journal,
            store,
            entries,
        }),
    }
}
