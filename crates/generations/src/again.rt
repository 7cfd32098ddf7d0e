//! A dataset, opened again.
ghost use Rattle.std.specs.Prelude.{◌≡◌, true, IfOk, IfErr};
ghost use Rattle.db_outside.specs.Disk.{InAll};
ghost use Rattle.gate_journal.specs.Gate.{IsShut};
ghost use Rattle.generations.specs.Datasets.{pair_in};
ghost use Rattle.generations.specs.declared.other_gate.OtherGate.TheVariants.{Unread};
ghost use Rattle.generations.specs.Looks.{IsOpenStop};
ghost use Rattle.generations.specs.Pairs.{disk_of, moments_of, IfTold, AreAllOnDisk, NoneRose, BothOnlyRead};
ghost use Rattle.generations.specs.Reopens.{Reopens, StaysQuiet, StopsOpening};

use crate::beside::Beside;
use crate::dataset::Dataset;
use crate::file::File;
use crate::look::{Looked, OpenStop, look};
use crate::other_gate::OtherGate;
use crate::pair::Pair;
use crate::store::DatasetStore;
use db_outside::Disk;
use gate_journal::Journal;
use std::alloc::Global;

// The dataset of these parts.
fn assembled<D: Disk>(
    alloc: Global,
    disks: Pair<D>,
    second: bool,
    generation: u64,
    journal: Journal,
    entries_read: u64,
) -> Dataset<D>
    requires clean { journal.clean ≡ true }
    requires shut { InAll (D.image (disk_of second disks)) (IsShut journal.at) }
    requires durable { AreAllOnDisk D.Disk disks }
    ensures disks { pair_in result ≡ disks }
    ensures told { (result.second ≡ second) × (result.generation ≡ generation)
        × (result.entries_read ≡ entries_read) }
    ensures gates { (result.file.journal ≡ journal) × (result.beside.gate ≡ Unread) }
{
    let Pair {
        first,
        second: other,
    } = disks;
    if second {
        return Dataset {
            file: File {
                disk: other,
                journal,
            },
            beside: Beside {
                disk: first,
                gate: OtherGate::Unread,
            },
            alloc,
            second,
            generation,
            entries_read,
        };
    }
    Dataset {
        file: File {
            disk: first,
            journal,
        },
        beside: Beside {
            disk: other,
            gate: OtherGate::Unread,
        },
        alloc,
        second,
        generation,
        entries_read,
    }
}

/// Opens two files. It writes nothing, and gives both disks back if it stops.
pub fn reopen<D: Disk>(
    alloc: Global,
    disks: Pair<D>,
) -> Result<(Dataset<D>, DatasetStore), (OpenStop, Pair<D>)>
    ensures opens { IfOk result (λ r. IfTold D.Disk disks (Reopens r.0 r.1)) }
    ensures reads { IfOk result (λ r. BothOnlyRead D.Disk disks (pair_in r.0)) }
    ensures durable { IfOk result (λ r. AreAllOnDisk D.Disk (pair_in r.0)) }
    ensures still { IfOk result (λ r. NoneRose D.Disk disks (pair_in r.0)) }
    ensures quiet { IfOk result (λ r. AreAllOnDisk D.Disk disks →
        IfTold D.Disk disks (StaysQuiet (moments_of D.Disk disks) r.0)) }

    ensures stop { IfErr result (λ e. IfTold D.Disk disks (IsOpenStop e.0)) }
    ensures left { IfErr result (λ e. StopsOpening D.Disk e.0 disks e.1) }
{
    let mut disks = disks;
    match look(alloc, &mut disks) {
        Err(stop) => Err((stop, disks)),
        Ok(looked) => {
            let Looked {
                second,
                generation,
                journal,
                store,
                entries,
            } = looked;
            let dataset = assembled(alloc, disks, second, generation, journal, entries);
            Ok((dataset, store))
        }
    }
}
