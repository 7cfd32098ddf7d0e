//! The devices of the system: standard input, standard output, and a file as a disk.
//!
//! The layers above rely on one statement: a device answers `Failed` only where its count of faults
//! rose in that call. The devices tell nothing of bytes, since what a file or a terminal gives or
//! takes is outside of what is proved. That a file keeps the model of a disk is a premise.
//!
//! | file | has |
//! |---|---|
//! | `src/streams.rt` | a reader as a source, and a writer as a sink |
//! | `src/file.rt` | how a file is opened, locked and made |
//! | `src/handle.rt` | reads, writes and syncs of a file |
//! | `src/disk.rt` | a file as a disk, with its counts |
#![tactic(auto)]

mod disk;
mod file;
mod handle;
mod streams;

pub use disk::RealDisk;
pub use file::Access;
pub use streams::{RealSink, RealSource};
