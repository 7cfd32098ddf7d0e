//! What the program does with its words, on any source, sink and pair of disks.
//!
//! One contract tells it: that of `decibel` in `src/top.rt`, whose words are in `specs/Top.antt`. The
//! program `decibel` calls it on the devices of the system.
//!
//! | file | has |
//! |---|---|
//! | `specs/Words.antt`, `src/command.rt` | the words of each command |
//! | `specs/Top.antt`, `specs/Ends.antt` | what a call does, and how it ends |
//! | `src/top.rt`, `src/status.rt` | the top call, and how it ends |
//! | `specs/Output.antt`, `src/in_memory.rt` | `try` |
//! | `specs/Creates.antt`, `src/create.rt`, `src/lines_after.rt` | `create` |
//! | `specs/Scripts.antt`, `src/script.rt` | `script` |
//! | `specs/Sessions.antt`, `src/sessions.rt`, `src/spelling.rt` | `sessions` |
//! | `specs/Checks.antt`, `src/check.rt`, `src/check_text.rt` | `check` |
//! | `specs/Loads.antt`, `src/load.rt` | `load` |
//! | `specs/Imports.antt`, `src/import.rt` | `import` |
//! | `specs/Exports.antt`, `src/export.rt` | `export` |
//! | `specs/Images.antt` | what opening after a crash gives |
//! | `src/memory.rt` | how memory that was given back serves again |
#![tactic(auto)]

mod check;
mod check_text;
mod command;
mod create;
mod export;
mod import;
mod in_memory;
mod lines_after;
mod load;
mod memory;
mod script;
mod sessions;
mod spelling;
mod status;
mod told;
mod top;

pub use command::{Command, command_of};
pub use status::{Finish, Status};
pub use top::decibel;
