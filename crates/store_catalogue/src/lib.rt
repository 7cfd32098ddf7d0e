//! What every store keeps beside its tables: its branches by name, and its versions by number with
//! their graph. And the test whether an entry fits.
//!
//! The stores rely on `BranchNames` for names, on the functions of `numbers.rt` for the order made and
//! its graph, and on those of `fit.rt` for what `db_store` says of entries that fit.
//!
//! | file | has |
//! |---|---|
//! | `src/names.rt`, `specs/ByName.antt` | the numbers of branches, by name |
//! | `src/numbers.rt`, `specs/Numbers.antt` | the versions by number, and their graph |
//! | `src/fit.rt`, `specs/Entries.antt` | what an entry has, and the tests of its changes |
//! | `src/keyed.rt` | what a table must tell to be tested |
//! | `specs/Apart.antt` | a commit on another branch leaves whether a commit fits |
#![tactic(auto)]

mod fit;
mod keyed;
mod names;
mod numbers;

pub use fit::{
    branch_of, changes_fit, changes_of, is_within, makes_version, name_of, origin_of, recount,
    second_of,
};
pub use keyed::KeyedTable;
pub use names::BranchNames;
pub use numbers::{add_version, new_graph, number_in, reserve_versions};
