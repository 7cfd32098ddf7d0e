//! Questions to two versions: the records of one that have a record with their key in the other, and
//! those that have none or another one.
//!
//! The layers above rely on one statement: `join` and `minus` give `join_of` and `minus_of` of
//! `specs/Join.antt`, which look at the tables of the two views alone.
//!
//! | file | has |
//! |---|---|
//! | `specs/Join.antt` | joins and differences of tables |
//! | `src/look.rt` | the fields at a key of a view |
//! | `src/joins.rt` | pairs of records with one key |
//! | `src/differences.rt` | records that the other version lacks or has changed |
#![tactic(auto)]

mod differences;
mod joins;
mod look;

pub use differences::minus;
pub use joins::join;
pub use look::find_record;
