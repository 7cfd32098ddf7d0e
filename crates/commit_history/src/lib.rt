//! The history of a bitmap: what each commit changed in it, and the bitmap after each of them.
//!
//! The layer above relies on one statement, `combined` in `specs/Combined.antt`: the bitmap after `n`
//! commits is the exclusive or of the first `n` deltas, as long as the longest of them.
//!
//! | file | has |
//! |---|---|
//! | `specs/Combined.antt` | the exclusive or of lists of truth values |
//! | `specs/Runs.antt` | composites of full runs, and what a delta is for a history |
//! | `specs/Sparse.antt` | which list some words stand for, or some places |
//! | `src/delta.rt` | a delta, kept by its words that are not zero |
//! | `src/level.rt` | a list of deltas that grows without taking memory |
//! | `src/history.rt` | the history |
#![tactic(auto)]

mod delta;
mod history;
mod level;

pub use delta::Delta;
pub use history::{History, NextDelta};
