//! A load script from a number: the schema of one relation, lines of four sessions, and a scan of all
//! heads. Equal numbers give equal scripts.
//!
//! The layer above relies on one statement, the clause of `script_of`: the bytes are those that
//! `specs/Script.antt` gives for the number.
//!
//! | file | has |
//! |---|---|
//! | `specs/Script.antt` | what is drawn for each line, the line, and the whole script |
//! | `src/script.rt` | how the script is written |
#![tactic(auto)]

mod script;

pub use script::{ScriptBytes, script_of};
