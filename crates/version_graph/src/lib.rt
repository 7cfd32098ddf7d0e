//! The graph of versions: which version was made from which, and what two versions have in common.
//!
//! The layer above relies on one statement, `IsLastCommon` in `specs/Ancestors.antt`: of the
//! versions that are ancestors of both, `Graph::common` gives the one made last.
//!
//! | file | has |
//! |---|---|
//! | `specs/Ancestors.antt` | parents, ancestors, and the last common one |
//! | `specs/LastCommon.antt` | the same as a function |
//! | `specs/Laws.antt`, `src/laws.rt` | what reaching says when a graph grows |
//! | `specs/Parents.antt`, `specs/Marked.antt` | how a graph keeps its versions, and a walk its marks |
//! | `src/graph.rt` | the graph, and its questions |
//! | `src/parents.rt` | the parents of one version |
//! | `src/walk.rt` | the walk from two versions to their ancestors |
//! | `src/marks.rt` | the marks of the walk |
#![tactic(auto)]

mod graph;
mod laws;
mod marks;
mod parents;
mod walk;

pub use graph::Graph;
pub use laws::ancestor_laws;
