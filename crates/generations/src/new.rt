//! A new dataset.
ghost use Rattle.std.specs.Prelude.{◌≡◌, ◌+◌, ◌≤◌, ◌<◌, ◌^◌, ◌∷◌, ◌++◌, [], List, ℕ, Some, None, true, false, length, IfOk, IfErr, OnOk, OnErr};
ghost use Rattle.db_outside.specs.Device.{Rose};
ghost use Rattle.db_outside.specs.Disk.{IsAllOnDisk, InAll, Begins};
ghost use Rattle.gate_journal.specs.Reads.{OnlyReads};
ghost use Rattle.generations.specs.Created.{AreEmpty, IsEmptyBy, AreEmptyBy, IsCreateStop, StopsCreating, IsNew};
ghost use Rattle.generations.specs.Written.{behind_gate};
ghost use Rattle.generations.specs.declared.other_gate.OtherGate.TheVariants.{Low};
ghost use Rattle.generations.specs.Datasets.{KeepsIn, pair_in};
ghost use Rattle.generations.specs.Fronts.{Keeps};
ghost use Rattle.new_image.specs.Schemas.{IsDeclared};
ghost use Rattle.new_image.specs.Image.{image_of};
ghost use Rattle.generations.specs.NewState.{new_state};
ghost use Rattle.generations.specs.Pairs.{IfTold, RoseInOne, NoneRose, BothOnlyRead};

use crate::beside::Beside;
use crate::bytes::new_bytes;
use crate::dataset::Dataset;
use crate::file::File;
use crate::other_gate::OtherGate;
use crate::pair::{Pair, sync_both};
use db_outside::{Disk, Failed};
use db_value::Schema;
use gate_journal::{Journal, length_of, set_gate, stage};
use new_image::image_bytes;
use std::alloc::{AllocError, Global};
use thiserror::Error;

/// Why no dataset was made.
#[derive(Clone, Copy, Debug, PartialEq, Eq, Error)]
pub enum CreateStop {
    /// 1: a file isn't empty.
    #[error("already there")]
    AlreadyThere,
    /// 2: a disk failed.
    #[error("disk fault")]
    DiskFault,
    /// 3: want of memory.
    #[error("want of memory")]
    Memory,
}

// The bytes of a new dataset's file, and where its first record goes.
fn new_file(alloc: Global, schema: &Schema) -> Result<(Vec<u8>, Journal), AllocError>
    ensures bytes { IfOk result (λ r.
        r.0.items ≡ 0 ∷ (behind_gate 1 (image_of schema.now) ++ 0 ∷ [])) }
    ensures few { IfOk result (λ r. length (image_of schema.now) < 2 ^ 64) }
    ensures at { IfOk result (λ r. r.1.at ≡ 57 + length (image_of schema.now)) }
    ensures clean { IfOk result (λ r. r.1.clean ≡ true) }
{
    let image = image_bytes(alloc, schema.relations())?;
    let file = new_bytes(alloc, &image)?;
    Ok(file)
}

// Is a file empty? The length alone is asked for.
fn is_empty<D: Disk>(disk: &mut D) -> Result<bool, Failed>
    ensures empty { IsAllOnDisk (D.seen disk.old) (D.image disk.old) →
        IfOk result (λ empty. empty ≡ true → InAll (D.image disk.new) (λ c. c ≡ [])) }
    ensures told { IfOk result (λ empty.
        (s : List ℕ) → D.seen disk.old ≡ Some s → IsEmptyBy empty s) }
    ensures reads { OnlyReads D.faults D.writes D.seen D.image D.moment D.since disk.old disk.new }
    ensures cause { OnErr result (Rose (D.faults disk.old) (D.faults disk.new)) }
    ensures still { OnOk result (D.faults disk.new ≡ D.faults disk.old) }
{
    let len = length_of(disk)?;
    Ok(len == 0)
}

// Are both files empty, once what was written to them is on the disks?
fn are_empty<D: Disk>(disks: &mut Pair<D>) -> Result<bool, Failed>
    ensures first { IfOk result (λ empty.
        empty ≡ true → InAll (D.image disks.new.first) (λ c. c ≡ [])) }
    ensures second { IfOk result (λ empty.
        empty ≡ true → InAll (D.image disks.new.second) (λ c. c ≡ [])) }
    ensures told { IfOk result (λ empty. IfTold D.Disk disks.old (AreEmptyBy empty)) }
    ensures reads { BothOnlyRead D.Disk disks.old disks.new }
    ensures cause { OnErr result (RoseInOne D.Disk disks.old disks.new) }
    ensures still { OnOk result (NoneRose D.Disk disks.old disks.new) }
{
    sync_both(disks)?;
    let first = is_empty(&mut disks.first)?;
    let second = is_empty(&mut disks.second)?;
    Ok(first && second)
}

// Writes the bytes behind a closed gate, and then opens it.
fn make_file<D: Disk>(disk: &mut D, bytes: &[u8]) -> Result<(), Failed>
    requires { 0 < length bytes.now }
    ensures opened { OnOk result ((back : List ℕ) →
        bytes.now ≡ 0 ∷ back → InAll (D.image disk.new) (Begins (1 ∷ back))) }
    ensures later { D.faults disk.old ≤ D.faults disk.new }
    ensures cause { OnErr result (Rose (D.faults disk.old) (D.faults disk.new)) }
    ensures still { OnOk result (D.faults disk.new ≡ D.faults disk.old) }
    ensures wrote { OnErr result (Rose (D.writes disk.old) (D.writes disk.new)) }
{
    stage(disk, 0, bytes)?;
    set_gate(disk, 0, 1)?;
    Ok(())
}

// Makes a new dataset on two empty files.
fn made<D: Disk>(alloc: Global, disks: &mut Pair<D>, schema: &Schema) -> Result<Journal, CreateStop>
    requires { IsDeclared schema.now }
    ensures kept { IfOk result (λ j. Keeps false 1 j.at j.clean Low
        (D.image disks.new.first) (D.image disks.new.second) (new_state schema.now) [] None) }
    ensures place { IfOk result (λ j. j.at ≡ 57 + length (image_of schema.now)) }
    ensures empty { OnOk result (IfTold D.Disk disks.old AreEmpty) }
    ensures still { OnOk result (NoneRose D.Disk disks.old disks.new) }

    ensures stop { IfErr result (λ e. IfTold D.Disk disks.old (IsCreateStop e)) }
    ensures left { IfErr result (λ e. StopsCreating D.Disk e disks.old disks.new) }
{
    match are_empty(disks) {
        Ok(true) => {}
        Ok(false) => return Err(CreateStop::AlreadyThere),
        Err(_) => return Err(CreateStop::DiskFault),
    }
    let (bytes, journal) = match new_file(alloc, schema) {
        Ok(file) => file,
        Err(_) => return Err(CreateStop::Memory),
    };
    match make_file(&mut disks.first, &bytes) {
        Ok(()) => Ok(journal),
        Err(_) => Err(CreateStop::DiskFault),
    }
}

/// Makes a new dataset of a schema that was read from a text, on two empty files. It gives both
/// disks back if it stops.
pub fn create<D: Disk>(
    alloc: Global,
    disks: Pair<D>,
    schema: &Schema,
) -> Result<Dataset<D>, (CreateStop, Pair<D>)>
    requires { IsDeclared schema.now }
    ensures kept { IfOk result (λ d. KeepsIn d (new_state schema.now) [] None) }
    ensures new { IfOk result (λ d. IsNew d schema.now) }
    ensures empty { OnOk result (IfTold D.Disk disks AreEmpty) }
    ensures still { IfOk result (λ d. NoneRose D.Disk disks (pair_in d)) }

    ensures stop { IfErr result (λ e. IfTold D.Disk disks (IsCreateStop e.0)) }
    ensures left { IfErr result (λ e. StopsCreating D.Disk e.0 disks e.1) }
{
    let mut disks = disks;
    match made(alloc, &mut disks, schema) {
        Err(stop) => Err((stop, disks)),
        Ok(journal) => {
            let Pair { first, second } = disks;
            Ok(Dataset {
                file: File {
                    disk: first,
                    journal,
                },
                beside: Beside {
                    disk: second,
                    gate: OtherGate::Low,
                },
                alloc,
                second: false,
                generation: 1,
                entries_read: 0,
            })
        }
    }
}
