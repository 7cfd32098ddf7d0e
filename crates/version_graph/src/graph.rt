//! The graph of versions, and its questions.
ghost use Rattle.std.specs.Prelude.{◌≡◌, ◌↔◌, ◌+◌, ◌-◌, ◌<◌, ◌≤◌, ◌^◌, [], ◌∷◌, ◌++◌, length, All, IsTrue, IfOk, OnOk, OnErr};
ghost use Rattle.version_graph.specs.Ancestors.{Reaches, AllEarlier, IsLastCommon};
ghost use Rattle.version_graph.specs.LastCommon.{last_common};

use crate::parents::{Parents, parents_from};
use crate::walk::last_common_from;
use std::alloc::{AllocError, Global};
use std::marker::Model;

/// A graph of versions is a list of them, numbered from 0 in the order made, each with up to two
/// parents that were made before it.
#[derive(Drop)]
pub struct Graph {
    versions: Vec<Parents>,
    spare: u32,
}

impl Model for Graph {
    ghost use Rattle.std.specs.Prelude.{map, vec_capacity};
    ghost use Rattle.version_graph.specs.Ancestors.{Lineage};
    ghost use Rattle.version_graph.specs.Parents.{list_of, IsKept};

    ghost Value = { Lineage };

    ghost view = { λ g. record { versions = map list_of g.versions.items; spare = g.spare } };

    ghost invariant = { λ g. IsKept g.versions.items g.spare (vec_capacity g.versions) };
}

impl Graph {
    /// A graph with no version.
    pub fn new(alloc: Global) -> Graph
        ensures versions { result.versions ≡ [] }
        ensures spare { result.spare ≡ 0 }
    {
        Graph {
            versions: Vec::new(alloc),
            spare: 0,
        }
    }

    /// Makes room for `more` versions beside those that are spare.
    pub fn reserve(&mut self, more: u32) -> Result<(), AllocError>
        requires { length self.old.versions + self.old.spare + more < 2 ^ 32 }
        ensures ok { OnOk result (self.new ≡ record self.old { spare = self.old.spare + more }) }
        ensures err { OnErr result (self.new ≡ self.old) }
    {
        self.versions.reserve(self.spare as usize + more as usize)?;
        self.spare += more;
        Ok(())
    }

    /// For how many versions more there is room.
    pub fn spare(&self) -> u32
        ensures spare { result ≡ self.now.spare }
        ensures few { length self.now.versions + result < 2 ^ 32 }
    {
        self.spare
    }

    /// Adds a version with these parents, and gives its number. It uses up one of those that are
    /// spare, and takes no memory.
    pub fn add(&mut self, parents: &[u32]) -> u32
        requires few { length parents.now ≤ 2 }
        requires earlier { All (λ parent. parent < length self.old.versions) parents.now }
        requires spare { 0 < self.old.spare }
        ensures number { result ≡ length self.old.versions }
        ensures versions { self.new.versions ≡ self.old.versions ++ parents.now ∷ [] }
        ensures spare { self.new.spare + 1 ≡ self.old.spare }
        ensures earlier { AllEarlier self.new.versions }
    {
        let number = self.versions.len() as u32;
        self.versions.push_reserved(parents_from(parents));
        self.spare -= 1;
        number
    }

    /// Of the versions that are ancestors of both, the one made last. Its time and its memory are
    /// those of the versions from the answer to the higher of the two.
    pub fn common(&self, a: u32, b: u32) -> Result<u32, AllocError>
        requires a_there { a < length self.now.versions }
        requires b_there { b < length self.now.versions }
        requires a_descends { Reaches self.now.versions a 0 }
        requires b_descends { Reaches self.now.versions b 0 }
        ensures common { IfOk result (IsLastCommon self.now.versions a b) }
        ensures number { IfOk result (λ c. c ≡ last_common self.now.versions a b) }
    {
        let alloc = *self.versions.allocator();
        let high = a.max(b);
        let mut low = a.min(b);
        loop {
            if let Some(last) = last_common_from(alloc, self.versions.as_slice(), a, b, low)? {
                return Ok(last);
            }
            // Twice as many versions each time, so all walks together visit at most three times
            // the versions from the answer on.
            low = low.saturating_sub(high - low + 1);
        }
    }

    /// Whether a version is an ancestor of another, or that version itself. Its time and its memory
    /// are those of the versions between the two.
    pub fn is_ancestor(&self, a: u32, b: u32) -> Result<bool, AllocError>
        requires a_there { a < length self.now.versions }
        requires b_there { b < length self.now.versions }
        ensures { IfOk result (λ is. IsTrue is ↔ Reaches self.now.versions b a) }
    {
        let alloc = *self.versions.allocator();
        if a > b {
            return Ok(false);
        }
        let found = last_common_from(alloc, self.versions.as_slice(), a, b, a)?;
        Ok(found.is_some())
    }

    /// An equal graph with a memory of its own, and no room to spare.
    pub fn duplicate(&self) -> Result<Graph, AllocError>
        ensures { IfOk result (λ copy. copy ≡ record self.now { spare = 0 }) }
    {
        Ok(Graph {
            versions: Vec::from_slice(*self.versions.allocator(), self.versions.as_slice())?,
            spare: 0,
        })
    }
}
