//! What a version has of a dataset whose records stand in segments: for each relation the segments with
//! bits, and for the last version of a branch an index of its keys. All of it is shared with other versions.
//!
//! The layer above relies on `HybridView`, which is a `View` of `db_store`, and on what a commit, a new
//! branch and a new head make of a `LiveRelation` (`Next` and `Shows` in `specs/RowPlaces.antt`).
//!
//! | file | has |
//! |---|---|
//! | `specs/Live.antt` | pieces of segments with bits, and what holds of those of a relation |
//! | `specs/LiveRules.antt` | their live records are those of the table |
//! | `specs/RowPlaces.antt`, `specs/Struck.antt` | how pieces show the rows of a layout, and what a commit makes of them |
//! | `specs/Spots.antt`, `src/spots.rt` | the places of live records, and an index that is made anew of them |
//! | `specs/Deltas.antt` | the slots that a bitmap stands for |
//! | `src/part.rt`, `src/live.rt`, `src/view.rt` | a part, what there is of a relation, and the view |
//! | `src/commit.rt`, `src/puts.rt` | the bits of a commit, and the records that it puts into a relation |
//! | `src/touched.rt` | what changes touch of a relation |
#![tactic(auto)]

mod commit;
mod live;
mod part;
mod puts;
mod spots;
mod touched;
mod view;

pub use commit::{cleared, difference, put_bits, strikes};
pub use live::LiveRelation;
pub use part::LivePart;
pub use puts::PutRows;
pub use touched::TouchedKeys;
pub use view::{HybridView, LiveTable};
