//! What a statement can be refused for before any lock is asked, and which locks it needs.
//!
//! The layers above rely on two statements: `know` gives the refusal that `specs/Early.antt` defines
//! by the schema and the transaction alone, or else what the statement's names stand for, and
//! `needs_of` gives the needs that `specs/Needs.antt` defines by the dataset.
//!
//! | file | has |
//! |---|---|
//! | `specs/Columns.antt`, `src/columns.rt` | relations and columns by name, and new values by column |
//! | `specs/Misfits.antt`, `src/misfits.rt` | values that have no place in their columns |
//! | `specs/Early.antt`, `src/early.rt` | refusals that look at no lock |
//! | `specs/Known.antt`, `src/known.rt` | what is known of a line: its refusal, or what its names stand for |
//! | `specs/Needs.antt`, `src/needs.rt` | what a line needs of the lock table |
#![tactic(auto)]

mod columns;
mod early;
mod known;
mod misfits;
mod needs;

pub use columns::{SetColumns, columns_of, sets_of};
pub use known::{Known, know};
pub use needs::needs_of;
