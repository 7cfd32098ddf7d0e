//! The versions by number, and their graph.
ghost use Rattle.std.specs.Prelude.{◌≡◌, ◌+◌, ◌<◌, ◌≤◌, ◌^◌, ◌++◌, ◌∷◌, [], length, IfOk, IfSome, OnOk};
ghost use Rattle.db_store.specs.Order.{same_place, number_in, Stands, StandOnce};
ghost use Rattle.store_catalogue.specs.Numbers.{list_if};

use db_value::VersionPlace;
use std::alloc::{AllocError, Global};
use version_graph::Graph;

fn is_place(a: &VersionPlace, b: &VersionPlace) -> bool
    ensures { result ≡ same_place a.now b.now }
{
    a.branch == b.branch && a.position == b.position
}

/// The number of the version that was made at a place. The search goes down from the last version:
/// parents stand near it.
pub fn number_in(order: &[VersionPlace], at: VersionPlace) -> u32
    requires few { length order.now < 2 ^ 32 }
    requires once { StandOnce order.now }
    requires stands { Stands order.now at }
    ensures { result ≡ number_in order.now at }
{
    let mut number = order.len();
    'below: while number > 0 {
        number -= 1;
        if is_place(&order[number], &at) {
            return number as u32;
        }
    }
    unreachable!()
}

/// The graph of the root alone.
pub fn new_graph(alloc: Global) -> Result<Graph, AllocError>
    ensures versions { IfOk result (λ g. g.versions ≡ [] ∷ []) }
    ensures spare { IfOk result (λ g. g.spare ≡ 0) }
{
    let mut graph = Graph::new(alloc);
    graph.reserve(1)?;
    graph.add(&[]);
    Ok(graph)
}

/// Makes room for so many versions.
pub fn reserve_versions(graph: &mut Graph, spare: u32) -> Result<(), AllocError>
    requires { length graph.old.versions + spare < 2 ^ 32 }
    ensures versions { graph.new.versions ≡ graph.old.versions }
    ensures kept { graph.old.spare ≤ graph.new.spare }
    ensures ok { OnOk result (spare ≤ graph.new.spare) }
{
    let ready = graph.spare();
    if ready >= spare {
        return Ok(());
    }
    graph.reserve(spare - ready)
}

/// Adds a version with one parent or two. It takes no memory.
pub fn add_version(graph: &mut Graph, first: u32, second: Option<u32>)
    requires spare { 0 < graph.old.spare }
    requires first { first < length graph.old.versions }
    requires second { IfSome second (λ n. n < length graph.old.versions) }
    ensures versions { graph.new.versions ≡ graph.old.versions ++ (first ∷ list_if second) ∷ [] }
    ensures spare { graph.new.spare + 1 ≡ graph.old.spare }
{
    match second {
        None => graph.add(&[first]),
        Some(second) => graph.add(&[first, second]),
    };
}
