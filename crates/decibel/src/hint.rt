//! What somebody at a terminal is told below the status, where its text is short.
use crate::{access_of, files_of, paths_of};
use db_outside::OpenGate;
use db_realdev::{Access, RealSink, RealSource};
use decibel_main::{Command, Status, command_of, decibel};
use std::alloc::AllocError;
use std::fs::{File, OpenOptions, metadata};
use std::io;
use std::rt::Files;
use std::sync::Wait;
use std::thread::Threads;

const FORMS: &str =
    "try, create BASE, script BASE, sessions BASE, import BASE RELATION, export BASE RELATION VERSION, check BASE, load N (1 to 20000)";

// What keeps a command from the file at a path.
fn trouble_of<R: Files<File = File> + AllocGlobal>(
    rt: &R,
    path: &str,
    access: Access,
) -> Result<Option<String>, AllocError> {
    let Ok(found) = metadata(rt, path) else {
        return Ok(None);
    };
    if !found.is_file() {
        return Ok(Some(format!(in rt.alloc(); "{path} is no regular file")?));
    }
    let writes = access != Access::Read;
    let opened = OpenOptions::new().read(true).write(writes).open(rt, path);
    let Ok(file) = opened else {
        return Ok(Some(format!(in rt.alloc(); "{path} can't be opened")?));
    };
    let lock = if writes {
        file.try_lock()
    } else {
        file.try_lock_shared()
    };
    if lock.is_err() {
        let text = format!(in rt.alloc();
            "another program has locked {path}: try again when it has ended"
        )?;
        return Ok(Some(text));
    }
    Ok(None)
}

// What is wrong with the files of a base, as far as it is seen from outside.
fn of_files<R: Files<File = File> + AllocGlobal>(
    rt: &R,
    base: &str,
    access: Access,
) -> Result<Option<String>, AllocError> {
    let (first, second) = paths_of(rt, base)?;
    if metadata(rt, first.as_str()).is_err() && metadata(rt, second.as_str()).is_err() {
        let text = format!(in rt.alloc();
            "there is no {first} and no {second}: create BASE makes them"
        )?;
        return Ok(Some(text));
    }
    match trouble_of(rt, first.as_str(), access)? {
        Some(text) => Ok(Some(text)),
        None => trouble_of(rt, second.as_str(), access),
    }
}

// How the relation's rows in master would be exported. They go nowhere.
fn export_ends<R: Files<File = File> + AllocGlobal + Threads + Wait + Sync>(
    rt: &R,
    base: &str,
    relation: &str,
) -> Result<Status, AllocError> {
    let mut words = Vec::new(rt.alloc());
    words.push(format!(in rt.alloc(); "export")?)?;
    words.push(format!(in rt.alloc(); "{base}")?)?;
    words.push(format!(in rt.alloc(); "{relation}")?)?;
    words.push(format!(in rt.alloc(); "master")?)?;
    let mut source = RealSource::new(io::empty());
    let mut sink = RealSink::new(io::sink());
    let disks = files_of(rt, base, Access::Read)?;
    let ended = decibel(
        rt,
        rt.alloc(),
        &words,
        &mut source,
        &mut sink,
        disks,
        &OpenGate,
    );
    Ok(ended.status)
}

// What bad line 0 means.
fn of_names<R: Files<File = File> + AllocGlobal + Threads + Wait + Sync>(
    rt: &R,
    words: &[String],
) -> Result<Option<String>, AllocError> {
    let (Some(base), Some(relation)) = (words.get(1), words.get(2)) else {
        return Ok(None);
    };
    let Some(version) = words.get(3) else {
        return Ok(Some(format!(in rt.alloc(); "there is no relation {relation}")?));
    };
    match export_ends(rt, base.as_str(), relation.as_str())? {
        Status::Done => Ok(Some(format!(in rt.alloc(); "there is no version {version}")?)),
        Status::BadLine { line: 0 } => {
            Ok(Some(format!(in rt.alloc(); "there is no relation {relation}")?))
        }
        _ => Ok(None),
    }
}

/// What to do after a call with these words, if its status is short of that. The files were let go.
pub fn hint_for<R: Files<File = File> + AllocGlobal + Threads + Wait + Sync>(
    rt: &R,
    words: &[String],
    status: Status,
) -> Result<Option<String>, AllocError> {
    match status {
        Status::Usage => Ok(Some(format!(in rt.alloc(); "{FORMS}")?)),
        Status::NotDataset | Status::DiskFault => match (command_of(words), words.get(1)) {
            (Some(command), Some(base)) => match access_of(command) {
                Some(access) => of_files(rt, base.as_str(), access),
                None => Ok(None),
            },
            _ => Ok(None),
        },
        Status::BadLine { line: 0 } => of_names(rt, words),
        _ => Ok(None),
    }
}
