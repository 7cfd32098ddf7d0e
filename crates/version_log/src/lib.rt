//! Versions of a store by name, and reports of which versions there are.
//!
//! The layers above rely on one statement: a name is found, and a log is told, as the definitions of
//! `specs/` say of the store's dataset.
//!
//! | file | has |
//! |---|---|
//! | `specs/Log.antt` | the log of a branch |
//! | `specs/Graph.antt` | the graph: the logs of all branches |
//! | `src/find.rt` | versions by name |
//! | `src/log.rt`, `src/all_logs.rt` | the log of a branch, and of every branch |
#![tactic(auto)]

mod all_logs;
mod find;
mod log;

pub use all_logs::graph;
pub use find::find_version;
pub use log::log_branch;
