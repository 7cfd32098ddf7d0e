//! How a file is opened, locked and made.
use std::fs::{File, OpenOptions, metadata};
use std::io;
use std::io::ErrorKind;
use std::rt::Files;

/// What a command does with a file.
#[derive(Clone, Copy)]
pub enum Access {
    /// It reads the file. Others may read it too.
    Read,
    /// It reads and writes the file, and nobody else does either.
    Write,
    /// As `Write`, and a missing file is made.
    Create,
}

/// What there is at a path.
#[derive(Drop)]
pub enum Found {
    /// A file with so many bytes, locked.
    There { file: File, len: u64 },
    /// No file.
    Missing,
    /// A file that can't be opened, or whose lock another process has, or no regular file.
    Refused,
}

// The folder of a path, as a path.
fn folder_of(path: &str) -> &str {
    match path.rsplit_once('/') {
        None => ".",
        Some(("", _)) => "/",
        Some((folder, _)) => folder,
    }
}

// Makes a file. Its name is on the disk once its folder is synced.
fn make<R: Files<File = File>>(files: &R, path: &str) -> io::Result<File> {
    let file = File::create_new(files, path)?;
    File::open(files, folder_of(path))?.sync_all()?;
    Ok(file)
}

fn open<R: Files<File = File>>(files: &R, path: &str, access: Access) -> io::Result<File> {
    let writes = access != Access::Read;
    let opened = OpenOptions::new()
        .read(true)
        .write(writes)
        .open(files, path);
    match opened {
        Ok(file) => Ok(file),
        Err(error) => {
            if access == Access::Create && error.kind() == ErrorKind::NotFound {
                return make(files, path);
            }
            Err(error)
        }
    }
}

// The file with its lock, and its length then.
fn locked(file: File, access: Access) -> Found {
    let lock = match access {
        Access::Read => file.try_lock_shared(),
        Access::Write | Access::Create => file.try_lock(),
    };
    if lock.is_err() {
        return Found::Refused;
    }
    match file.metadata() {
        Ok(metadata) => {
            let len = metadata.len();
            Found::There { file, len }
        }
        Err(_) => Found::Refused,
    }
}

// Is something there that is no regular file? Opening a pipe would wait for its other end.
fn is_no_file<R: Files<File = File>>(files: &R, path: &str) -> bool {
    match metadata(files, path) {
        Ok(found) => !found.is_file(),
        Err(_) => false,
    }
}

/// Opens the file at a path and takes its lock, without waiting for it. Only a regular file is opened.
pub fn find<R: Files<File = File>>(files: &R, path: &str, access: Access) -> Found {
    if is_no_file(files, path) {
        return Found::Refused;
    }
    match open(files, path, access) {
        Ok(file) => locked(file, access),
        Err(error) => {
            if error.kind() == ErrorKind::NotFound {
                return Found::Missing;
            }
            Found::Refused
        }
    }
}
