//! The file that doesn't count.
ghost use Rattle.std.specs.Prelude.{◌≡◌};
ghost use Rattle.db_outside.specs.Disk.{InAll, IsAllOnDisk};
ghost use Rattle.gate_journal.specs.Gate.{IsShut};
ghost use Rattle.generations.specs.declared.other_gate.OtherGate.TheVariants.{Unread, Shut};

use crate::other_gate::OtherGate;
use db_outside::Disk;

/// The file that doesn't count, and what is known of its gate.
#[derive(Drop)]
pub struct Beside<D: Disk> {
    pub disk: D,
    pub gate: OtherGate,
    // If its gate is what a read tells, each image is. If it is surely closed, it is in each image.
    pub ghost unread: { gate ≡ Unread → IsAllOnDisk (D.seen disk) (D.image disk) },
    pub ghost shut: { gate ≡ Shut → InAll (D.image disk) (IsShut 0) },
}
