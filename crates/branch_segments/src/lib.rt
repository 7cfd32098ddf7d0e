//! Which branches have which segments: a row of bits for each branch.
//!
//! The layer above relies on one statement: a mark sets one bit, and the segments of some branches are
//! those with a set bit in one of their rows, in ascending order (`specs/Marks.antt`).
//!
//! | file | has |
//! |---|---|
//! | `specs/Marks.antt` | what a contract sees of the rows |
//! | `src/ids.rt` | lists of numbers of segments and branches |
//! | `src/bitmaps.rt` | bitmaps in a list, for the private functions |
//! | `src/rows.rt` | the rows |
#![tactic(auto)]

mod bitmaps;
mod ids;
mod rows;

pub use ids::{BranchIds, Ids, SegmentIds};
pub use rows::BranchSegments;
