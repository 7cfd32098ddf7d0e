//! The three-way merge of versions, by key and field.
//!
//! The layers above rely on two statements: `merge3` is the merge of one key, and `merge_tables`
//! gives the changes that make the merge of left, or the least conflict. `specs/Merge.antt` defines
//! both over values.
//!
//! | file | has |
//! |---|---|
//! | `specs/Merge.antt` | the merge of a field, of a key, of tables |
//! | `specs/Rows.antt` | the merge of records that have one key |
//! | `specs/Walk.antt` | the merge of lists of records by key |
//! | `specs/Turns.antt`, `specs/Shared.antt` | parts of three views in turn, and records without those that all share |
//! | `src/merged.rt`, `src/stop.rt` | what a merge says of one key, and why tables aren't merged |
//! | `src/one_key.rt` | the merge of three records |
//! | `src/turns.rt`, `src/sides.rt`, `src/unshared.rt` | the records of three views without those that all share |
//! | `src/walk.rt`, `src/tables.rt` | three lists of records walked side by side, relation by relation |
#![tactic(auto)]

mod merged;
mod one_key;
mod sides;
mod stop;
mod tables;
mod turns;
mod unshared;
mod walk;

pub use merged::Merged;
pub use one_key::merge3;
pub use stop::MergeStop;
pub use tables::merge_tables;
