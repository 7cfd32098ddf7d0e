//! The table of locks: which session has which need granted, on the catalogue and on each branch.
//!
//! The layer above relies on one statement, the clauses of `Locks::ask`: a request is held exactly
//! where another session's row conflicts with it, by the least such lock and its least session, and
//! else its needs are added. `row_laws` says what the words of these clauses mean.
//!
//! | file | has |
//! |---|---|
//! | `specs/Rows.antt` | rows, conflicts, and who holds a lock |
//! | `specs/Grants.antt` | what a grant and a release make of the rows |
//! | `specs/Answer.antt` | the answer to a request |
//! | `specs/Laws.antt`, `src/laws.rt` | what `holder`, `added` and `without` say row by row |
//! | `specs/Kept.antt` | how the rows are kept, by lock |
//! | `src/need.rt` | a need, and a list of them |
//! | `src/locks.rt` | the table |
//! | `src/blocks.rt` | all locks, in blocks |
//! | `src/lock.rt` | the rows of one lock |
#![tactic(auto)]

mod blocks;
mod laws;
mod lock;
mod locks;
mod need;

pub use laws::row_laws;
pub use locks::{Ask, Locks};
pub use need::{LOCKS, Need, Needs};
