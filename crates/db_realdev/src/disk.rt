//! A file as a disk.
ghost use Rattle.std.specs.Prelude.{◌≡◌, ◌≤◌, true, false};
ghost use Rattle.db_outside.specs.Disk.{RoseBy};

use crate::file::{Access, Found, find};
use crate::handle::Handle;
use db_outside::{Disk, Failed};
use std::fs::File;
use std::rt::Files;

/// A disk is over one file, whose lock it has as long as it is there.
///
/// A missing file is an empty disk whose writes fail. A file that can't be opened, or whose lock
/// another process has, is a disk whose calls fail. Once a sync has failed, writes and syncs fail:
/// the system may have forgotten what it could not write.
#[derive(Drop)]
pub struct RealDisk {
    handle: Handle,
    faults: u64,
    calls: u64,
    writes: u64,
}

fn over(found: Found) -> RealDisk {
    RealDisk {
        handle: Handle::on(found),
        faults: 0,
        calls: 0,
        writes: 0,
    }
}

impl RealDisk {
    /// The disk over the file at a path.
    pub fn open<R: Files<File = File>>(files: &R, path: &str, access: Access) -> RealDisk {
        over(find(files, path, access))
    }

    /// An empty disk whose writes fail.
    pub fn missing() -> RealDisk {
        over(Found::Missing)
    }
}

// A call more, and a fault more where it failed.
fn raised(count: u64, more: bool) -> u64
    ensures later { count ≤ result }
    ensures rose { more ≡ true → RoseBy 1 count result }
    ensures stays { more ≡ false → result ≡ count }
{
    if more { count.saturating_add(1) } else { count }
}

impl Disk for RealDisk {
    ghost use Rattle.std.specs.Prelude.{None};

    ghost faults = { λ d. d.faults };

    ghost calls = { λ d. d.calls };

    ghost writes = { λ d. d.writes };

    ghost seen = { λ _. None };

    ghost image = { λ _ _. ⊥ };

    ghost moment = { λ _. 0 };

    ghost since = { λ _ _ _. ⊥ };

    ghost counts_now = { λ d t c le now. now };

    ghost only_now = { λ d c had. had };

    ghost as_it_reads = { λ d s is. absurd (cc is) };

    fn len(&mut self) -> Result<u64, Failed> {
        let told = self.handle.length();
        self.calls = raised(self.calls, true);
        self.faults = raised(self.faults, told.is_err());
        told
    }

    fn read_at(&mut self, at: u64, into: &mut [u8]) -> Result<(), Failed> {
        let done = self.handle.read(at, into);
        self.calls = raised(self.calls, true);
        self.faults = raised(self.faults, done.is_err());
        done
    }

    fn write_at(&mut self, at: u64, bytes: &[u8]) -> Result<(), Failed> {
        let done = self.handle.write(at, bytes);
        self.calls = raised(self.calls, true);
        self.writes = raised(self.writes, true);
        self.faults = raised(self.faults, done.is_err());
        done
    }

    fn sync(&mut self) -> Result<(), Failed> {
        let done = self.handle.settle();
        self.calls = raised(self.calls, true);
        self.faults = raised(self.faults, done.is_err());
        done
    }

    fn fault_count(&self) -> u64 {
        self.faults
    }
}
