//! Transactions: what the statements of one transaction do, alone on the versions that they read.
//!
//! The definitions stand in `specs/`. `specs/Alone.antt` runs the lines of one transaction on a whole
//! private table; the layers above cite it. A `Tx` keeps changes over a view of its branch instead,
//! and answers what the definition answers.
//!
//! | file | has |
//! |---|---|
//! | `specs/Keeping.antt` | how a working table is kept: as a private table, and as changes over one |
//! | `specs/Found.antt` | where a transaction finds the versions that it names |
//! | `specs/Act.antt` | statements that read or change records |
//! | `specs/Merging.antt`, `src/merge.rt` | merges |
//! | `specs/Alone.antt` | one transaction alone |
//! | `specs/Granted.antt` | a granted transaction by itself |
//! | `specs/Shown.antt`, `specs/SeenFrom.antt` | what views show, and where what a transaction sees comes from |
//! | `specs/Lending.antt` | the names under which versions were lent, and a map that finds them |
//! | `specs/Covers.antt` | which statements a granted transaction answers by itself |
//! | `specs/Frame.antt` | a transaction's replies and needs, which entries of others leave |
//! | `specs/Laws.antt`, `src/laws.rt` | laws, each the contract of a function that does nothing |
//! | `src/tx.rt` | the granted transaction |
//! | `src/act.rt`, `src/questions.rt` | the statements that it answers, and its questions to versions |
//! | `src/lent.rt`, `src/key.rt` | the versions that were lent to it, and names of versions in an order |
//! | `src/covers.rt` | which statements it answers by itself |
//! | `src/look.rt`, `src/ask.rt` | reading in a view, and questions to views |
//! | `src/apart.rt` | whether a working table's own part can be told by its id |
//! | `src/refuse.rt` | refusals |
#![tactic(auto)]

mod act;
mod apart;
mod ask;
mod covers;
mod key;
pub mod laws;
mod lent;
mod look;
mod merge;
mod questions;
mod refuse;
mod tx;

pub use ask::plain_names;
pub use tx::{Mark, Tx};
