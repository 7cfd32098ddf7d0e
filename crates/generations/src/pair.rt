//! The two files of a dataset.
ghost use Rattle.std.specs.Prelude.{OnOk, OnErr};
ghost use Rattle.generations.specs.Pairs.{AreAllOnDisk, RoseInOne, NoneRose, BothOnlyRead};

use db_outside::{Disk, Failed};
use gate_journal::sync_all;

/// The two files of a dataset.
#[derive(Drop)]
pub struct Pair<D: Disk> {
    pub first: D,
    pub second: D,
}

/// Has on both disks what a read gives.
pub fn sync_both<D: Disk>(disks: &mut Pair<D>) -> Result<(), Failed>
    ensures durable { OnOk result (AreAllOnDisk D.Disk disks.new) }
    ensures reads { BothOnlyRead D.Disk disks.old disks.new }
    ensures cause { OnErr result (RoseInOne D.Disk disks.old disks.new) }
    ensures still { OnOk result (NoneRose D.Disk disks.old disks.new) }
{
    sync_all(&mut disks.first)?;
    sync_all(&mut disks.second)?;
    Ok(())
}
