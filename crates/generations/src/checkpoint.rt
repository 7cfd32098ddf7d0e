//! How an image is written into the file that doesn't count, which counts then.
ghost use Rattle.std.specs.Prelude.{◌≡◌, ◌≤◌, ◌<◌, ◌-◌, ◌^◌, ◌∷◌, ◌++◌, [], List, ℕ, Option, true, length, OnOk, OnErr};
ghost use Rattle.db_value.specs.declared.entry.Entry.{Entry as LoggedEntry};
ghost use Rattle.db_store.specs.State.{State};
ghost use Rattle.db_outside.specs.Device.{CountsFaults};
ghost use Rattle.db_outside.specs.Disk.{InAll};
ghost use Rattle.image_text.specs.declared.image.Format.TheVariants.{Two};
ghost use Rattle.db_image.specs.Stores.{IsImageOf};
ghost use Rattle.gate_journal.specs.Gate.{IsShut};
ghost use Rattle.entry_codec.specs.Logs.{Checkpoints, KeepsOrOwes, Renews, CountsStops, last_generation};
ghost use Rattle.generations.specs.declared.other_gate.OtherGate.TheVariants.{Low};
ghost use Rattle.generations.specs.Asides.{IsNextFile};
ghost use Rattle.generations.specs.Datasets.{KeepsIn, OwesIn, generation_in, faults_of, counts_in, moment_in, OpensSinceIn, Turns};

use crate::beside::Beside;
use crate::bytes::next_bytes;
use crate::dataset::Dataset;
use crate::file::File;
use crate::open::MOST_GENERATION;
use crate::other_gate::OtherGate;
use db_outside::{Disk, Failed};
use entry_codec::CheckpointStop;
use gate_journal::Journal;

// The two disks change places.
fn trade<D: Disk>(file: &mut File<D>, beside: &mut Beside<D>, journal: Journal)
    requires clean { journal.clean ≡ true }
    requires shut { InAll (D.image beside.old.disk) (IsShut journal.at) }
    ensures disk { file.new.disk ≡ beside.old.disk }
    ensures journal { file.new.journal ≡ journal }
    ensures beside { beside.new.disk ≡ file.old.disk }
    ensures gate { beside.new.gate ≡ Low }
{
    std::mem::swap(&mut file.disk, &mut beside.disk);
    file.journal = journal;
    beside.gate = OtherGate::Low;
}

impl<D: Disk> Dataset<D> {
    // The file that didn't count counts from now on, with this journal.
    fn turn(&mut self, journal: Journal)
        requires clean { journal.clean ≡ true }
        requires shut { InAll (D.image self.old.beside.disk) (IsShut journal.at) }
        requires more { self.old.generation < 2 ^ 64 - 1 }
        ensures { Turns self.old self.new journal }
    {
        trade(&mut self.file, &mut self.beside, journal);
        self.second = !self.second;
        self.generation += 1;
    }

    // Writes the bytes of the next file, and has it count.
    fn write_next(&mut self, bytes: &[u8], journal: Journal) -> Result<(), Failed>
        requires clean { journal.clean ≡ true }
        requires ends { (back : List ℕ) × (bytes.now ≡ back ++ 0 ∷ [])
            × (journal.at ≡ length bytes.now) }
        requires more { self.old.generation < last_generation }
        ensures kept { (s : State) (es : List LoggedEntry) (f : Option (List ℕ)) →
            IsNextFile (generation_in self.old) s bytes.now →
            KeepsOrOwes KeepsIn OwesIn self.old s es f →
            Checkpoints KeepsIn OwesIn generation_in moment_in OpensSinceIn self.old self.new result
            s es f }
        ensures renewed { Renews generation_in moment_in counts_in self.old self.new result }
        ensures faults { CountsFaults faults_of self.old self.new result }
    {
        self.beside.write_next(bytes)?;
        self.turn(journal);
        Ok(())
    }

    // At the last generation there is no next one: closes the gate of the journal alone.
    fn checkpoint_last(&mut self) -> Result<(), Failed>
        requires { last_generation ≤ self.old.generation }
        ensures kept { (s : State) (es : List LoggedEntry) (f : Option (List ℕ)) →
            KeepsOrOwes KeepsIn OwesIn self.old s es f →
            Checkpoints KeepsIn OwesIn generation_in moment_in OpensSinceIn self.old self.new result
            s es f }
        ensures renewed { Renews generation_in moment_in counts_in self.old self.new result }
        ensures faults { CountsFaults faults_of self.old self.new result }
    {
        self.file.make_clean()?;
        Ok(())
    }

    /// Writes an image into the file that doesn't count, which counts then, if the bytes are an image of
    /// the state. It takes memory before it calls a disk.
    pub fn checkpoint_bytes(&mut self, image: &[u8]) -> Result<(), CheckpointStop>
        ensures kept { (s : State) (es : List LoggedEntry) (f : Option (List ℕ)) →
            IsImageOf Two image.now s →
            KeepsOrOwes KeepsIn OwesIn self.old s es f →
            Checkpoints KeepsIn OwesIn generation_in moment_in OpensSinceIn self.old self.new result
            s es f }
        ensures renewed { Renews generation_in moment_in counts_in self.old self.new result }
        ensures faults { CountsStops faults_of self.old self.new result }
    {
        if self.generation >= MOST_GENERATION {
            return match self.checkpoint_last() {
                Ok(()) => Ok(()),
                Err(_) => Err(CheckpointStop::DiskFault),
            };
        }
        let (bytes, journal) = match next_bytes(self.alloc, self.generation + 1, image) {
            Ok(file) => file,
            Err(_) => return Err(CheckpointStop::Memory),
        };
        match self.write_next(&bytes, journal) {
            Ok(()) => Ok(()),
            Err(_) => Err(CheckpointStop::DiskFault),
        }
    }
}
