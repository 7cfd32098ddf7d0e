//! Which sessions wait for which: the wants of statements, and open transactions by their age.
//!
//! The layer above relies on one statement, the clauses of `Waits::ask`: a session whose wants
//! conflict with those of an older transaction is lost, otherwise it waits for the least session whose
//! wants conflict, which is younger, and otherwise its wants are granted. So no chain of waits comes
//! back to its start (`Waits::keeps`). What a statement wants covers what it needs of the lock table
//! (`cover_laws`).
//!
//! | file | has |
//! |---|---|
//! | `specs/Wants.antt`, `src/stmt_wants.rt` | what a statement wants |
//! | `specs/Conflict.antt`, `src/conflict.rt` | wants that conflict, and the order of locks |
//! | `specs/Waiting.antt`, `src/grant.rt` | the table: open transactions, grants and waits |
//! | `specs/Turns.antt`, `src/loss.rt` | what a session is told that asks |
//! | `specs/Kept.antt` | what every table keeps, and that there is no circle |
//! | `specs/Covers.antt`, `specs/Laws.antt`, `src/laws.rt` | wants beside needs, and laws of the words above |
//! | `src/want.rt` | a want, and a list of them |
//! | `src/waits.rt`, `src/sessions.rt` | the table's calls |
#![tactic(auto)]

mod conflict;
mod grant;
mod laws;
mod loss;
mod sessions;
mod stmt_wants;
mod waits;
mod want;

pub use laws::{cover_laws, wait_laws};
pub use stmt_wants::wants;
pub use waits::{Turn, Waits};
pub use want::{WaitLock, Want, Wants};
