//! How the file that doesn't count takes a header and an image, and begins to count.
ghost use Rattle.std.specs.Prelude.{◌≡◌, ◌≤◌, ◌+◌, ◌<◌, ◌∷◌, ◌++◌, [], List, ℕ, Bool, true, false, length, IfOk, OnOk, OnErr};
ghost use Rattle.db_store.specs.State.{State};
ghost use Rattle.db_outside.specs.Device.{CountsFaults, Faulted, IfTold};
ghost use Rattle.db_outside.specs.Disk.{InAll};
ghost use Rattle.gate_journal.specs.Gate.{IsOpen};
ghost use Rattle.gate_journal.specs.Reads.{OnlyReads};
ghost use Rattle.generations.specs.Asides.{IsGateOf, IsNextFile, is_owed, is_unread, is_shut};
ghost use Rattle.generations.specs.BesideKeeps.{StandsIn, KeepsBeside};

use crate::beside::Beside;
use crate::other_gate::{OtherGate, gate_after};
use db_outside::{Disk, Failed};
use gate_journal::{close_first, length_of, publish};

// What a file says of its gate: it is closed, or it may be open, since it is or the file is empty.
fn first_gate<D: Disk>(disk: &mut D) -> Result<OtherGate, Failed>
    ensures told { IfOk result (λ gate. IfTold (D.seen disk.old) (IsGateOf gate)) }
    ensures read { IfOk result (λ gate. (is_unread gate ≡ false) × (is_owed gate ≡ false)) }
    ensures reads { OnlyReads D.faults D.writes D.seen D.image D.moment D.since disk.old disk.new }
    ensures cause { OnErr result (Faulted D.faults disk.old disk.new) }
    ensures still { OnOk result (D.faults disk.new ≡ D.faults disk.old) }
{
    let len = length_of(disk)?;
    if len == 0 {
        return Ok(OtherGate::Low);
    }
    let mut first = [0u8; 1];
    disk.read_at(0, &mut first)?;
    if first[0] == 1 {
        return Ok(OtherGate::Low);
    }
    Ok(OtherGate::Shut)
}

impl<D: Disk> Beside<D> {
    // Reads what isn't known of the gate.
    fn look(&mut self) -> Result<(), Failed>
        ensures stands { (second : Bool) (g : ℕ) (s : State) → StandsIn self.old second g s →
            KeepsBeside self.old self.new second g s }
        ensures looked { OnOk result (is_unread self.new.gate ≡ false) }
        ensures owed { is_owed self.new.gate ≡ is_owed self.old.gate }
        ensures time { D.moment self.old.disk ≤ D.moment self.new.disk }
        ensures faults { CountsFaults D.faults self.old.disk self.new.disk result }
    {
        if !self.gate.is_unread() {
            return Ok(());
        }
        let gate = first_gate(&mut self.disk)?;
        self.gate = gate;
        Ok(())
    }

    // Closes the gate where it isn't surely closed.
    fn close(&mut self) -> Result<(), Failed>
        requires { is_unread self.old.gate ≡ false }
        ensures stands { (second : Bool) (g : ℕ) (s : State) → StandsIn self.old second g s →
            KeepsBeside self.old self.new second g s }
        ensures closed { OnOk result (is_shut self.new.gate ≡ true) }
        ensures failed { OnErr result (self.new.gate ≡ self.old.gate) }
        ensures time { D.moment self.old.disk ≤ D.moment self.new.disk }
        ensures faults { CountsFaults D.faults self.old.disk self.new.disk result }
    {
        if self.gate.is_shut() {
            return Ok(());
        }
        close_first(&mut self.disk)?;
        self.gate = OtherGate::Shut;
        Ok(())
    }

    /// Closes the gate where a checkpoint may have left it open.
    pub fn close_owed(&mut self) -> Result<(), Failed>
        ensures stands { (second : Bool) (g : ℕ) (s : State) → StandsIn self.old second g s →
            KeepsBeside self.old self.new second g s }
        ensures same { is_owed self.old.gate ≡ false → self.new ≡ self.old }
        ensures closed { OnOk result (is_owed self.new.gate ≡ false) }
        ensures failed { OnErr result (is_owed self.old.gate ≡ true) }
        ensures time { D.moment self.old.disk ≤ D.moment self.new.disk }
        ensures faults { CountsFaults D.faults self.old.disk self.new.disk result }
    {
        if !self.gate.is_owed() {
            return Ok(());
        }
        self.close()
    }

    // Writes a file behind the closed gate, and opens it.
    fn fill(&mut self, bytes: &[u8]) -> Result<(), Failed>
        requires { is_shut self.old.gate ≡ true }
        ensures stands { (second : Bool) (g : ℕ) (s : State) → StandsIn self.old second g s →
            IsNextFile g s bytes.now → KeepsBeside self.old self.new second g s }
        ensures opened { OnOk result (InAll (D.image self.new.disk) (IsOpen 0 bytes.now)) }
        ensures time { D.moment self.old.disk ≤ D.moment self.new.disk }
        ensures faults { CountsFaults D.faults self.old.disk self.new.disk result }
    {
        let mut shut = true;
        let done = publish(&mut self.disk, 0, bytes, &mut shut);
        self.gate = gate_after(shut);
        done
    }

    /// Writes a file behind the gate, which is closed first where it isn't surely closed, and opens it.
    /// A crash at any moment leaves a file that doesn't count, or that whole one.
    pub fn write_next(&mut self, bytes: &[u8]) -> Result<(), Failed>
        ensures stands { (second : Bool) (g : ℕ) (s : State) → StandsIn self.old second g s →
            IsNextFile g s bytes.now → KeepsBeside self.old self.new second g s }
        ensures opened { OnOk result (InAll (D.image self.new.disk) (IsOpen 0 bytes.now)) }
        ensures time { D.moment self.old.disk ≤ D.moment self.new.disk }
        ensures faults { CountsFaults D.faults self.old.disk self.new.disk result }
    {
        self.look()?;
        self.close()?;
        self.fill(bytes)
    }
}
