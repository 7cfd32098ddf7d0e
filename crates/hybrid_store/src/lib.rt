//! A store that keeps a dataset as a layout: records in segments that branches share, and for each
//! branch rows of bits over them.
//!
//! The layer above relies on two facts: `HybridStore` is a `Store` of `db_store`, and its state is the layout
//! that it keeps (`state_of` in `specs/Store.antt`), which begins as the new one.
//!
//! | file | has |
//! |---|---|
//! | `specs/Lanes.antt`, `specs/Store.antt` | what it keeps, and the layout of it |
//! | `specs/Stored.antt` | what holds of what it keeps |
//! | `src/store.rt`, `src/new.rt` | the store, and a new one |
//! | `specs/Ready.antt`, `src/commit.rt`, `src/install.rt` | a commit that is made ready, and the room that it needs |
//! | `specs/ReadyRules.antt`, `specs/LastsRules.antt` | it serves on after commits on other branches |
//! | `specs/Begun.antt`, `specs/ReadyBranch.antt`, `src/prepare_branch.rt`, `src/install_branch.rt` | a new branch that is made ready |
//! | `specs/Sees.antt`, `src/view.rt` | the views of versions, and the parts that they show |
//! | `specs/Whole.antt`, `src/whole.rt` | views with all records that their segments have |
//! | `specs/Readers.antt`, `src/readers.rt` | what the layout has, part by part |
//! | `specs/Parts.antt`, `src/parts.rt` | the parts of a layout, and the layout that they stand for |
//! | `src/assemble.rt` | a store of parts |
//! | `specs/Assembled.antt`, `src/part_rows.rt`, `src/part_lanes.rt`, `src/bare.rt` | its segments, and its branches with their rows |
//! | `specs/PartLines.antt`, `src/part_lines.rt` | its names, and the graph of its versions |
//! | `src/heads.rt` | the head of a branch |
//! | `src/same.rt` | the branches of a second store of the same state |
#![tactic(auto)]

mod assemble;
mod bare;
mod begin;
mod commit;
mod heads;
mod install;
mod install_branch;
mod made;
mod new;
mod part_lanes;
mod part_lines;
mod part_rows;
mod parts;
mod prepare_branch;
mod readers;
mod same;
mod store;
mod view;
mod whole;

pub use commit::HybridPrepared;
pub use install_branch::HybridPreparedBranch;
pub use made::MadeVersion;
pub use parts::{
    BranchPart, BranchParts, LayoutParts, MadeVersions, RowPart, RowParts, SegmentPart,
    SegmentParts,
};
pub use store::HybridStore;
