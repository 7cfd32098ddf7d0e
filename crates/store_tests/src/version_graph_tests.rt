//! Graphs of versions with parents as if at random, against a set of ancestors for each version.
ghost use Rattle.std.specs.Prelude.{◌≡◌, ◌<◌, ◌≤◌, ◌+◌, length};

use crate::asserts::holds;
use std::alloc::{AllocError, Global};
use std::process::Abort;
use std::test::Fail;
use version_graph::Graph;

/// The ancestors of each of 64 versions, as bits of a word.
type Sets = [u64; 64];

// An earlier version, by a seed.
fn parent_of(seed: u32, version: u32) -> u32
    requires { 0 < version }
    ensures { result < version }
{
    (seed.wrapping_add(version).wrapping_mul(2_654_435_761) >> 7) % version
}

// A version more, with one parent or two, and the set of its ancestors.
fn grow(graph: &mut Graph, sets: &mut Sets, seed: u32, version: u32)
    requires some { 0 < version }
    requires few { version < 64 }
    requires next { length graph.old.versions ≡ version }
    requires spare { 0 < graph.old.spare }
    ensures next { length graph.new.versions ≡ version + 1 }
    ensures spare { graph.new.spare + 1 ≡ graph.old.spare }
{
    let first = parent_of(seed, version);
    let second = parent_of(seed.wrapping_mul(7), version);
    let mut set = 1 << version | sets[first as usize];
    if version % 3 == 0 {
        graph.add(&[first]);
    } else {
        graph.add(&[first, second]);
        set |= sets[second as usize];
    }
    sets[version as usize] = set;
}

fn fill(graph: &mut Graph, sets: &mut Sets, seed: u32)
    requires root { length graph.old.versions ≡ 1 }
    requires spare { graph.old.spare ≡ 63 }
    ensures { length graph.new.versions ≡ 64 }
{
    for version in 1..64u32 {
        grow(graph, sets, seed, version);
    }
}

// Are ancestors and the last common one of two versions told as by their sets?
fn is_told(graph: &Graph, sets: &Sets, a: u32, b: u32) -> Result<bool, AllocError>
    requires versions { length graph.now.versions ≡ 64 }
    requires a { a < 64 }
    requires b { b < 64 }
{
    let (left, right) = (sets[a as usize], sets[b as usize]);
    if graph.is_ancestor(a, b)? != (right >> a & 1 == 1) {
        return Ok(false);
    }
    if !graph.is_ancestor(0, a)? {
        return Ok(false);
    }
    if !graph.is_ancestor(0, b)? {
        return Ok(false);
    }
    Ok(graph.common(a, b)? == 63u32.wrapping_sub((left & right).leading_zeros()))
}

fn are_told(graph: &Graph, sets: &Sets) -> Result<bool, AllocError>
    requires { length graph.now.versions ≡ 64 }
{
    for pair in 0..4096u32 {
        if !is_told(graph, sets, pair / 64, pair % 64)? {
            return Ok(false);
        }
    }
    Ok(true)
}

fn tells(rt: &impl Abort, alloc: Global, seed: u32) -> Result<(), AllocError> {
    let mut graph = Graph::new(alloc);
    graph.reserve(64)?;
    graph.add(&[]);
    let mut sets = [1; 64];
    fill(&mut graph, &mut sets, seed);
    holds(rt, "each pair", are_told(&graph, &sets)?);
    Ok(())
}

#[test]
fn tells_ancestors_as_their_sets_do(rt: HostRuntime) -> Result<(), Fail> {
    for seed in 0..10 {
        tells(&rt, rt.alloc(), seed)?;
    }
    Ok(())
}
