//! One transaction over a store and its log: what it is granted, what it answers, and what its end stores.
//!
//! The layer above relies on two contracts, which know no lock table and no other session. `go_on` and
//! `own` answer a statement as `step_over` of `branch_tx` says over the head of its branch, for whoever
//! has the needs of the statement. `carry_out` stores an entry in the log before it is added, or has the
//! log write an image.
//!
//! | file | has |
//! |---|---|
//! | `specs/Ends.antt` | where transactions begin and end |
//! | `specs/Keeps.antt` | what a transaction keeps of a dataset, for a session that has its needs |
//! | `specs/Statements.antt` | what statements do over the head of a branch |
//! | `specs/Stored.antt`, `src/stored.rt` | what a line asks of the log, and what the log does for it |
//! | `src/granting.rt` | what a transaction is granted from the store |
//! | `src/inside.rt`, `src/outside.rt` | statements in an open transaction, and those on their own |
#![tactic(auto)]

mod granting;
mod inside;
mod outside;
mod stored;

pub use granting::{grant_or_back, open_tx};
pub use inside::go_on;
pub use outside::{USUAL_ROOM, branch_of, end, own};
pub use stored::{Answer, LogCall, Plan, carry_out, save, told_if, unmarked};
