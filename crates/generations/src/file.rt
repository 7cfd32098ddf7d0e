//! The file that counts, and its journal.
ghost use Rattle.std.specs.Prelude.{◌≡◌, ◌<◌, true, false, length};
ghost use Rattle.db_outside.specs.Disk.{InAll};
ghost use Rattle.gate_journal.specs.Gate.{IsShut};

use db_outside::Disk;
use gate_journal::Journal;

/// A file whose records a journal goes on with.
#[derive(Drop)]
pub struct File<D: Disk> {
    pub disk: D,
    pub journal: Journal,
    // If the journal is clean, its gate is shut in every image. If not, the gate's byte is there.
    pub ghost shut: { journal.clean ≡ true → InAll (D.image disk) (IsShut journal.at) },
    pub ghost there: { journal.clean ≡ false → InAll (D.image disk) (λ c. journal.at < length c) },
}
