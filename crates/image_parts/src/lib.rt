//! The image of a dataset: its parts, read from bytes with every rule, and written as bytes.
//!
//! The layer above relies on one statement: bytes are read as the image that the grammar makes of
//! them, or the place of the first fault is told (`Decodes` in `specs/Whole.antt`). What is read is
//! spelled by just these bytes.
//!
//! | file | has |
//! |---|---|
//! | `specs/Whole.antt` | the rules over the whole, and what bytes are an image |
//! | `src/whole.rt` | how the rules over the whole are tried |
//! | `src/words.rt` | how the set bits of a word are found |
//! | `src/keys.rt` | how the rule on distinct keys is tried |
//! | `src/writing.rt` | how an image is written |
//! | `src/decoding.rt` | how bytes are read as an image |
#![tactic(auto)]

mod decoding;
mod keys;
mod laws;
mod whole;
mod words;
mod writing;

pub use decoding::{ImageStop, decode};
pub use writing::encode;
