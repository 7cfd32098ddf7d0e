//! The note of a list that threads share: one word, the length of the list. Who holds a pass knows a beginning of the list, and which of
//! its lines were entered with the pass; the pen, of which a note has one, issues passes and writes lines. A line may be left with the
//! pen, which keeps it for the pass's number until it is written.
//!
//! The layer above relies on one statement, `Kept` in `specs/Rule.antt`: every pass has seen a beginning of the pen's list, its own lines
//! after that beginning are just those that the pen owes to its number, and the line that it left is kept by the pen or is the one owed.
//!
//! | file | has |
//! |---|---|
//! | `specs/Shown.antt` | a note, a pen and a pass as callers see them, and what each call makes of them |
//! | `specs/Places.antt` | which lines are a number's own, what is owed to it, and which line is kept for it |
//! | `specs/Views.antt` | what each step makes of what the pen and a pass know |
//! | `specs/Rule.antt` | the rule that all steps keep, and what a step tells |
//! | `src/note.rt` | the note, its pen and its passes |
//! | `src/view.rt` | what a pen and a pass know |
//! | `src/law.rt` | the kinds of step |
#![tactic(auto)]

mod law;
mod note;
mod view;

pub use note::{Note, Pass, Pen};
