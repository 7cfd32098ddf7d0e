//! Entries that wait for the log, so that those offered at the same time are written by one append.
//!
//! The layer above relies on one statement: a ticket tells the batch of its entry, and to settle it
//! writes that batch once, with all entries that were offered meanwhile (`specs/Queue.antt`).
//!
//! | file | has |
//! |---|---|
//! | `specs/Queue.antt` | the batch that waits, tickets, and what became of earlier batches |
//! | `specs/Appends.antt` | what an append does to a log |
//! | `src/queue.rt` | a queue |
#![tactic(auto)]

mod queue;

pub use queue::{FlushQueue, Ticket};
