//! Segments: lists of records that grow at their end, on pages that several segments share.
//!
//! The layer above relies on one statement: a `Segment` is the list of its records, and `extended`
//! gives the list with further records after its own. That full pages are shared shows in no clause. It also
//! tells the last slot with a key, and the slot before another with the same key.
//!
//! ```text
//! segment -> blocks -> block of 64 links -> pages, all full
//!         -> at most 64 links of its own -> pages, all full but the last
//!         -> runs, each of slots that follow one another, by their keys; each is longer than all later ones
//!         -> fewer than 64 slots of its own after them, with their keys
//! ```
//!
//! | file | has |
//! |---|---|
//! | `specs/Pages.antt` | which records pages have, and when pages are full |
//! | `specs/Keys.antt` | the slots in which the records with a key stand, and the runs that tell them |
//! | `specs/Slots.antt` | the order in which a run has its slots, for the private functions |
//! | `specs/Tails.antt` | the records of a segment that is being made, for the private functions |
//! | `src/block.rt` | links to pages, and blocks of them |
//! | `src/slot.rt` | a slot with its key, and searches among such slots |
//! | `src/run.rt` | one run |
//! | `src/keys.rt` | the runs, and the slots that are in none yet |
//! | `src/tail.rt` | the end of a segment that is being made |
//! | `src/segment.rt` | the segment |
//! | `src/longer.rt` | a segment that gets further records |
#![tactic(auto)]

mod block;
mod keys;
mod longer;
mod run;
mod segment;
mod slot;
mod tail;

pub use longer::LongerSegment;
pub use segment::Segment;
