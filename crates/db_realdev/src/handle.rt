//! A file that is open, missing or refused, with its reads, writes and syncs.
ghost use Rattle.std.specs.Prelude.{◌≡◌, ◌+◌, ◌-◌, ◌^◌, ◌≤◌, length, OnOk};

use crate::file::Found;
use db_outside::Failed;
use std::fs::File;
use std::os::unix::fs::FileExt;

/// A handle is on a file with its lock, or on none.
#[derive(Drop)]
pub struct Handle {
    found: Found,
    longer: bool,
    lost: bool,
}

impl Handle {
    /// A handle before its first call.
    pub fn on(found: Found) -> Handle {
        Handle {
            found,
            longer: false,
            lost: false,
        }
    }

    /// The length of the file.
    pub fn length(&self) -> Result<u64, Failed> {
        match &self.found {
            Found::There { file, .. } => match file.metadata() {
                Ok(metadata) => Ok(metadata.len()),
                Err(_) => Err(Failed),
            },
            Found::Missing => Ok(0),
            Found::Refused => Err(Failed),
        }
    }

    /// Reads as many bytes as there is room for.
    pub fn read(&self, at: u64, into: &mut [u8]) -> Result<(), Failed> {
        match &self.found {
            Found::There { file, .. } => match file.read_exact_at(into, at) {
                Ok(()) => Ok(()),
                Err(_) => Err(Failed),
            },
            Found::Missing if into.is_empty() => Ok(()),
            Found::Missing | Found::Refused => Err(Failed),
        }
    }

    /// Writes all the bytes. A write that failed may have written a part of them.
    pub fn write(&mut self, at: u64, bytes: &[u8]) -> Result<(), Failed>
        ensures end { OnOk result (at + length bytes.now ≤ 2 ^ 64 - 1) }
    {
        let Some(end) = at.checked_add(bytes.len() as u64) else {
            return Err(Failed);
        };
        if self.lost {
            return Err(Failed);
        }
        match &mut self.found {
            Found::There { file, len } => {
                if *len < end {
                    *len = end;
                    self.longer = true;
                }
                if file.write_all_at(bytes, at).is_err() {
                    // How much of it stands isn't known: the next write counts as one past the end.
                    *len = 0;
                    return Err(Failed);
                }
                Ok(())
            }
            Found::Missing | Found::Refused => Err(Failed),
        }
    }

    /// Has on the disk what a read gives. Once it has failed, it and writes fail: the system may have
    /// forgotten what it could not write.
    pub fn settle(&mut self) -> Result<(), Failed> {
        if self.lost {
            return Err(Failed);
        }
        match &self.found {
            Found::There { file, .. } => {
                // Where no write made the file longer, its data are enough: all bytes and the length are then
                // on the disk as a read gives them, and only the file's times may not be.
                let done = if self.longer {
                    file.sync_all()
                } else {
                    file.sync_data()
                };
                if done.is_err() {
                    self.lost = true;
                    return Err(Failed);
                }
                self.longer = false;
                Ok(())
            }
            Found::Missing => Ok(()),
            Found::Refused => Err(Failed),
        }
    }
}
