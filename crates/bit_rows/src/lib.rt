//! What a store of segments keeps: the segments of each relation, and branches with their rows of bits.
//!
//! A row has, for a segment of a branch, the history of its bits. The layer above relies on `BitRows::push`,
//! which adds to each row the delta that is ready for it, and on `next_deltas`, which makes these ready. A
//! delta is the shortest bitmap of its slots (`specs/Short.antt`).
//!
//! | file | has |
//! |---|---|
//! | `specs/Rows.antt`, `src/rows.rt` | rows of bits |
//! | `specs/Differences.antt`, `src/changed.rt` | what a commit changes of them |
//! | `src/begun.rt`, `src/more.rt` | the rows of a new branch, and the row of another head |
//! | `specs/Kept.antt`, `src/lane.rt` | a branch: its versions, its rows, and what its last version has |
//! | `specs/Segments.antt`, `src/kept.rt` | the segments of a relation |
#![tactic(auto)]

mod begun;
mod changed;
mod kept;
mod lane;
mod more;
mod rows;
mod seen;
mod told;

pub use begun::{more_of, rows_begun};
pub use changed::{next_deltas, spots_of};
pub use kept::{KeptSegment, KeptSegments, same_lists};
pub use lane::HybridLane;
pub use more::MoreRows;
pub use rows::{BitRow, BitRows, NextDeltas};
pub use seen::relation_seen;
pub use told::layout_lines;
