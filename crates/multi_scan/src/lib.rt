//! Scans of versions: the rows of one relation in several tables, by value.
//!
//! The layers above rely on one statement: a scan gives `multi` of `specs/Multi.antt`, the union of
//! the tables' rows, whatever parts the views show and in whatever order their slots come.
//!
//! | file | has |
//! |---|---|
//! | `specs/Multi.antt` | the rows of several tables |
//! | `specs/Agree.antt` | parts of equal id have the same records |
//! | `specs/Cost.antt` | how many slots the distinct parts of views have |
//! | `specs/Places.antt`, `src/places.rt` | where views show parts |
//! | `specs/Found.antt` | rows as they are found, and joined |
//! | `specs/Kept.antt`, `src/found.rt` | the rows that a scan found, as records and where they stand |
//! | `src/slots.rt` | the live records of views for which a condition holds, part by part |
//! | `specs/Laws.antt`, `src/laws.rt` | what a scan of one table is |
//! | `src/scans.rt` | what was found, in order, each row once |
#![tactic(auto)]

mod found;
pub mod laws;
mod places;
mod scans;
mod slots;

pub use scans::{list, scan};
