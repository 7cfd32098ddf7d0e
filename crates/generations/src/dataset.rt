//! A dataset in two files.
ghost use Rattle.std.specs.Prelude.{◌≡◌};
ghost use Rattle.generations.specs.Datasets.{pair_in, generation_in, entries_read_in, counted_in, place_in};

use crate::beside::Beside;
use crate::file::File;
use crate::pair::Pair;
use crate::store::DatasetStore;
use db_image::encode;
use db_outside::{Batch, Disk, Failed};
use entry_codec::{CheckpointStop, Log};
use std::alloc::Global;

/// A dataset in two files, of which one counts.
#[derive(Drop)]
pub struct Dataset<D: Disk> {
    pub(crate) alloc: Global,
    pub(crate) file: File<D>,
    pub(crate) beside: Beside<D>,
    pub(crate) second: bool,
    pub(crate) generation: u64,
    pub(crate) entries_read: u64,
}

impl<D: Disk> Dataset<D> {
    /// The two files.
    pub fn into_disks(self) -> Pair<D>
        ensures { result ≡ pair_in self }
    {
        let Dataset {
            alloc: _,
            file,
            beside,
            second,
            generation: _,
            entries_read: _,
        } = self;
        let File { disk, journal: _ } = file;
        let Beside {
            disk: beside,
            gate: _,
        } = beside;
        if second {
            return Pair {
                first: beside,
                second: disk,
            };
        }
        Pair {
            first: disk,
            second: beside,
        }
    }

    /// The number of its image, which is 1 after the dataset was made.
    pub fn generation(&self) -> u64
        ensures { result ≡ generation_in self.now }
    {
        self.generation
    }

    /// How many entries were read from records when it was opened.
    pub fn entries_read(&self) -> u64
        ensures { result ≡ entries_read_in self.now }
    {
        self.entries_read
    }

    /// The number of the file that counts, 0 or 1.
    pub fn counted(&self) -> u8
        ensures { result ≡ counted_in self.now }
    {
        if self.second { 1 } else { 0 }
    }

    /// The place of the gate behind the last record.
    pub fn place(&self) -> u64
        ensures { result ≡ place_in self.now }
    {
        self.file.journal.at
    }
}

/// A dataset keeps all that a log may keep. Its count of faults is that of both disks.
impl<D: Disk + Drop> Log<DatasetStore> for Dataset<D> {
    ghost use Rattle.std.specs.Prelude.{◌≡◌, ◌+◌, true, false};
    ghost use Rattle.db_outside.specs.Count.{counted};
    ghost use Rattle.generations.specs.Datasets.{pair_in, generation_in, KeepsIn, OwesIn, faults_of, counts_in, moment_in, OpensNowIn, OpensSinceIn, QuietIn};
    ghost use Rattle.generations.specs.LogLaws.{kept_gives, owed_gives, counts_both};

    ghost faults = { λ l. faults_of l };

    ghost counts = { λ l. counts_in l };

    ghost Keeps = { λ l s es f. KeepsIn l s es f };

    ghost Owes = { λ l s es f. OwesIn l s es f };

    ghost generation = { λ l. generation_in l };

    ghost moment = { λ l. moment_in l };

    ghost opens_now = { λ l o. OpensNowIn l o };

    ghost opens_since = { λ l t o. OpensSinceIn l t o };

    ghost Quiet = { λ l t. QuietIn l t };

    fn stores_nothing(&self) -> bool {
        false
    }

    fn append(&mut self, batch: &Batch) -> Result<(), Failed> {
        self.beside.close_owed()?;
        self.file.append(batch)?;
        Ok(())
    }

    fn checkpoint(&mut self, store: &DatasetStore) -> Result<(), CheckpointStop> {
        match encode(self.alloc, store) {
            Err(_) => Err(CheckpointStop::Memory),
            Ok(image) => self.checkpoint_bytes(image.as_slice()),
        }
    }

    fn fault_count(&self) -> u64 {
        self.file
            .disk
            .fault_count()
            .saturating_add(self.beside.disk.fault_count())
    }

    ghost kept_opens = { λ l s es f keeps o opens. kept_gives D.image l.second l.generation l.file.journal.at l.file.journal.clean l.file.disk l.beside.disk s es f keeps o opens };

    ghost owes_opens = { λ l s es f owes o opens. owed_gives D.image true l.second l.generation l.file.journal.at l.file.journal.clean l.file.disk l.beside.disk s es f owes o opens };

    ghost counts_now = { λ l t o le opens. counts_both (D.image (pair_in l).first) (D.image (pair_in l).second) (D.since (pair_in l).first t.0) (D.since (pair_in l).second t.1) o (λ c now. D.Disk.counts_now (pair_in l).first t.0 c le.0 now) (λ c now. D.Disk.counts_now (pair_in l).second t.1 c le.1 now) opens };

    ghost only_now = { λ l o opens. counts_both (D.since (pair_in l).first (moment_in l).0) (D.since (pair_in l).second (moment_in l).1) (D.image (pair_in l).first) (D.image (pair_in l).second) o (λ c now. D.Disk.only_now (pair_in l).first c now) (λ c now. D.Disk.only_now (pair_in l).second c now) opens };
}
