//! The text that answers a line: its echo, and the lines of its reply.
//!
//! The layer above relies on one statement, the clause of `write_reply` and of `add_reply`: the bytes
//! are those that `specs/Reply.antt` gives for the line and the reply.
//!
//! | file | has |
//! |---|---|
//! | `specs/Piece.antt`, `src/writer.rt` | numbers, names, fields and records |
//! | `specs/Rows.antt`, `src/rows.rt` | rows with the versions that have them, and pairs |
//! | `specs/Report.antt`, `src/report.rt` | the lines of a log, of a graph and of the segments |
//! | `specs/Refusal.antt`, `src/refusal.rt` | the number and the text of each refusal |
//! | `specs/Reply.antt`, `src/reply.rt` | the echo and the reply |
#![tactic(auto)]

mod refusal;
mod reply;
mod report;
mod rows;
mod writer;

pub use reply::{ReplyBytes, add_reply, write_reply};
pub use writer::Writer;
