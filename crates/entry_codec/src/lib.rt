//! The bytes of entries, and where entries are logged.
//!
//! The layers above rely on two statements. An entry is read exactly where bytes begin with its one
//! spelling, and no spelling is a proper front of another (`CodecLaws` in `specs/Laws.antt`). A log tells
//! how often it has failed, and fails only where this count rose.
//!
//! | file | has |
//! |---|---|
//! | `specs/Spelling.antt` | the bytes of an entry |
//! | `specs/Grammar.antt` | how an entry is read from the front of bytes |
//! | `specs/Wide.antt` | the fields of a change in a commit that has a text |
//! | `src/write.rt`, `src/read.rt` | both ways as code |
//! | `src/wide_write.rt`, `src/wide_read.rt` | the same of fields |
//! | `specs/Logs.antt`, `src/log.rt`, `src/stop.rt` | a log, and the one that stores nothing |
#![tactic(auto)]

mod laws;
mod log;
mod read;
mod stop;
mod wide_read;
mod wide_write;
mod write;

pub use laws::{codec_laws, fitting_law};
pub use log::{Log, NoLog};
pub use read::{EntryStop, decode};
pub use stop::CheckpointStop;
pub use write::{EntryBytes, encode};
