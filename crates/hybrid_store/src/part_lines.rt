//! The names of branches that parts give, and the graph of their versions.
ghost use Rattle.std.specs.Prelude.{◌≡◌, ◌<◌, ◌≤◌, ◌-◌, ◌+◌, ◌^◌, ◌++◌, ◌∷◌, [], All, Some, None, length, take, IfOk, IfSome, OnOk};
ghost use Rattle.std.specs.FinMap.{len};
ghost use Rattle.std.proofs.Common.{get_or};
ghost use Rattle.db_store.specs.Dataset.{root};
ghost use Rattle.db_store.specs.Fits.{most_branches};
ghost use Rattle.db_store.specs.Order.{number_in, numbers_if, StandOnce};
ghost use Rattle.store_catalogue.specs.ByName.{AreNumbers};
ghost use Rattle.store_catalogue.specs.Numbers.{list_if};
ghost use Rattle.bit_rows.specs.Kept.{no_kept};
ghost use Rattle.hybrid_store.specs.PartLines.{named_of, AreNamed, proper_in, proper_if_in, second_in, parents_in, IsPlaceIn, CanLine, AreLined};

use crate::store::MOST_BRANCHES;
use bit_rows::HybridLane;
use db_value::VersionPlace;
use std::alloc::{AllocError, Global};
use store_catalogue::{BranchNames, add_version, new_graph, number_in, reserve_versions};
use version_graph::Graph;

/// The branches by name.
pub(crate) fn names_of(alloc: Global, lanes: &[HybridLane]) -> Result<BranchNames, AllocError>
    requires few { length lanes.now ≤ most_branches }
    requires apart { AreNamed lanes.now }
    ensures numbers { IfOk result (λ n. AreNumbers n.numbers (named_of lanes.now)) }
    ensures count { IfOk result (λ n. len n.numbers ≡ length lanes.now) }
    ensures room { IfOk result (λ n. most_branches ≤ n.room) }
{
    let mut names = BranchNames::with_room(alloc, MOST_BRANCHES)?;
    for index in 0..lanes.len() {
        names.add(lanes[index].name(), index as u32);
    }
    Ok(names)
}

// Where the version at a place was made.
fn proper_of(lanes: &[HybridLane], at: VersionPlace) -> VersionPlace
    requires { at.branch < length lanes.now }
    ensures { result ≡ proper_in lanes.now at }
{
    if at.position == 0 {
        lanes[at.branch as usize].base()
    } else {
        at
    }
}

// The number of a version that was made before another one. The search goes down from that one: parents stand
// near it.
#[tactic(auto, using(crate::proofs::PartLines::front_once, crate::proofs::PartLines::front_stands, crate::proofs::PartLines::front_number))]
fn number_before(order: &[VersionPlace], index: usize, at: VersionPlace) -> u32
    requires index { index ≤ length order.now }
    requires few { length order.now < 2 ^ 32 }
    requires once { StandOnce order.now }
    requires before { number_in order.now at < index }
    ensures { result ≡ number_in order.now at }
{
    number_in(&order[..index], at)
}

// The same, if there is a version.
fn number_before_if(
    lanes: &[HybridLane],
    order: &[VersionPlace],
    index: usize,
    at: Option<VersionPlace>,
) -> Option<u32>
    requires index { index ≤ length order.now }
    requires few { length order.now < 2 ^ 32 }
    requires once { StandOnce order.now }
    requires there { IfSome at (λ p. p.branch < length lanes.now) }
    requires before { All (λ p. p < index) (numbers_if order.now (proper_if_in lanes.now at)) }
    ensures { list_if result ≡ numbers_if order.now (proper_if_in lanes.now at) }
{
    match at {
        None => None,
        Some(at) => Some(number_before(order, index, proper_of(lanes, at))),
    }
}

// Adds the version that stands at a place of the order made to the graph of those before it.
fn add_next(graph: &mut Graph, lanes: &[HybridLane], order: &[VersionPlace], index: usize)
    requires can { CanLine lanes.now order.now }
    requires index { (0 < index) × (index < length order.now) }
    requires count { length graph.old.versions ≡ index }
    requires room { 0 < graph.old.spare }
    ensures versions { graph.new.versions
        ≡ graph.old.versions ++ parents_in lanes.now order.now (get_or order.now index root) ∷ [] }
    ensures room { graph.new.spare + 1 ≡ graph.old.spare }
{
    let at = order[index];
    let before = VersionPlace {
        branch: at.branch,
        position: at.position - 1,
    };
    let second = lanes[at.branch as usize].second(at.position as usize);
    let first = number_before(order, index, proper_of(lanes, before));
    let other = number_before_if(lanes, order, index, second);
    add_version(graph, first, other);
}

/// The graph of the versions, in the order made.
pub(crate) fn graph_of(
    alloc: Global,
    lanes: &[HybridLane],
    order: &[VersionPlace],
) -> Result<Graph, AllocError>
    requires { CanLine lanes.now order.now }
    ensures { IfOk result (λ g. AreLined lanes.now order.now (length order.now) g.versions) }
{
    let mut graph = new_graph(alloc)?;
    reserve_versions(&mut graph, (order.len() - 1) as u32)?;
    for index in 1..order.len() {
        add_next(&mut graph, lanes, order, index);
    }
    Ok(graph)
}
