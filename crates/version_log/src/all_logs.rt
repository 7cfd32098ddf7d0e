//! The graph of a store.
ghost use Rattle.std.specs.Prelude.{◌≡◌, IfOk};
ghost use Rattle.db_store.specs.State.{dataset_of};
ghost use Rattle.version_log.specs.Graph.{graph_of};

use crate::log::push_log;
use db_store::Store;
use db_value::{Reply, SharedList};
use std::alloc::{AllocError, Global};

/// The reply to `graph`.
pub fn graph<St: Store>(alloc: Global, store: &St) -> Result<Reply, AllocError>
    ensures { IfOk result (λ r. r ≡ graph_of (dataset_of (St.state store.now))) }
{
    let mut lines = Vec::new(alloc);
    for branch in 0..store.branches() {
        push_log(store, branch, &mut lines)?;
    }
    Ok(Reply::Versions {
        lines: SharedList::of(alloc, lines)?,
        whole: true,
    })
}
