//! How a file takes one record more.
ghost use Rattle.std.specs.Prelude.{◌≡◌, ◌⊎◌, ◌≤◌, [], List, ℕ, Option, None, Some, true, OnOk, OnErr};
ghost use Rattle.db_outside.specs.Device.{CountsFaults};
ghost use Rattle.db_outside.specs.Disk.{LeavesOnly};
ghost use Rattle.generations.specs.Ends.{with_record, MayEnd, EndsInOneOf};
ghost use Rattle.generations.specs.KeptFile.{IsKeptIn};

use crate::file::File;
use db_outside::{Batch, Disk, Failed};

impl<D: Disk> File<D> {
    /// Closes the gate of a record whose append failed there.
    pub fn make_clean(&mut self) -> Result<(), Failed>
        ensures any_moment { (a : List ℕ) (f : Option (List ℕ)) → IsKeptIn self.old a f →
            LeavesOnly D.moment D.since self.old.disk self.new.disk (MayEnd a f) }
        ensures done { OnOk result ((a : List ℕ) (f : Option (List ℕ)) → IsKeptIn self.old a f →
            IsKeptIn self.new a None) }
        ensures clean { OnOk result (self.new.journal.clean ≡ true) }
        ensures failed { OnErr result ((a : List ℕ) (f : Option (List ℕ)) → IsKeptIn self.old a f →
            IsKeptIn self.new a f) }
        ensures time { D.moment self.old.disk ≤ D.moment self.new.disk }
        ensures faults { CountsFaults D.faults self.old.disk self.new.disk result }
    {
        if self.journal.clean {
            return Ok(());
        }
        self.journal.repair(&mut self.disk)?;
        Ok(())
    }

    /// Writes a batch. A crash at any moment leaves the acknowledged records, with the one whose
    /// append failed before it, with this one, or with neither.
    pub fn append(&mut self, batch: &Batch) -> Result<(), Failed>
        requires { batch.now ≡ [] → ⊥ }
        ensures any_moment { (a : List ℕ) (f : Option (List ℕ)) → IsKeptIn self.old a f →
            LeavesOnly D.moment D.since self.old.disk self.new.disk (EndsInOneOf a f batch.now) }
        ensures done { OnOk result ((a : List ℕ) (f : Option (List ℕ)) → IsKeptIn self.old a f →
            IsKeptIn self.new (with_record a batch.now) None) }
        ensures failed { OnErr result ((a : List ℕ) (f : Option (List ℕ)) → IsKeptIn self.old a f →
            (g : Option (List ℕ)) × ((g ≡ None) ⊎ (g ≡ f) ⊎ (g ≡ Some batch.now))
            × IsKeptIn self.new a g) }
        ensures time { D.moment self.old.disk ≤ D.moment self.new.disk }
        ensures faults { CountsFaults D.faults self.old.disk self.new.disk result }
    {
        self.make_clean()?;
        self.journal.append(&mut self.disk, batch)?;
        Ok(())
    }
}
