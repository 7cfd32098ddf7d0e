//! The branches of a store by name.
ghost use Rattle.std.specs.Prelude.{◌≡◌, ◌<◌, ◌≤◌, map, length, IfOk, None, true, false, T};
ghost use Rattle.std.specs.Ordering.{is_gt};
ghost use Rattle.std.specs.List.Sorted.{IsPartitionPoint};
ghost use Rattle.std.specs.FinMap as finite;
ghost use Rattle.store_catalogue.specs.ByName.{name_cmp, entry_of};

use db_value::Name;
use std::alloc::{AllocError, Global};
use std::marker::Model;

// The name of a branch, and its number.
#[derive(Clone, Copy)]
struct NamedBranch {
    name: Name,
    branch: u32,
}

/// The numbers of branches by name, in the order of the names, with room for more. To find one takes
/// steps in the logarithm of how many there are.
#[derive(Drop)]
pub struct BranchNames {
    sorted: Vec<NamedBranch>,
}

impl Model for BranchNames {
    ghost use Rattle.std.specs.Prelude.{map, T, vec_capacity};
    ghost use Rattle.std.specs.FinMap as finite;
    ghost use Rattle.store_catalogue.specs.ByName.{KeptNames, names_code, name_cmp, entry_of};

    ghost Value = { KeptNames };

    ghost coded = { names_code };

    ghost view = { λ n. record { numbers = finite.from_sorted (map entry_of n.sorted.items); room = vec_capacity n.sorted } };

    ghost invariant = { λ n. T (finite.is_sorted name_cmp (map entry_of n.sorted.items)) };
}

// Is the first name greater?
fn is_after(name: &Name, other: &Name) -> bool
    ensures { result ≡ is_gt (name_cmp name.now other.now) }
{
    name.as_bytes().cmp(other.as_bytes()).is_gt()
}

// How many at the front have lesser names.
fn below(sorted: &[NamedBranch], name: &Name) -> usize
    requires { T (finite.is_sorted name_cmp (map entry_of sorted.now)) }
    ensures within { result ≤ length sorted.now }
    ensures parted { IsPartitionPoint (λ n. is_gt (name_cmp name.now n.name) ≡ true)
        (λ n. is_gt (name_cmp name.now n.name) ≡ false) sorted.now result }
{
    sorted.partition_point(|named| is_after(name, &named.name))
}

// The number of the branch with a name.
fn number_among(sorted: &[NamedBranch], name: &Name) -> Option<u32>
    requires { T (finite.is_sorted name_cmp (map entry_of sorted.now)) }
    ensures { result ≡ finite.find name_cmp name.now (map entry_of sorted.now) }
{
    let at = below(sorted, name);
    if at >= sorted.len() {
        return None;
    }
    let next = &sorted[at];
    if next.name == *name {
        return Some(next.branch);
    }
    None
}

impl BranchNames {
    /// No names, with room for so many.
    pub fn with_room(alloc: Global, room: usize) -> Result<BranchNames, AllocError>
        ensures numbers { IfOk result (λ n. n.numbers ≡ finite.empty) }
        ensures room { IfOk result (λ n. room ≤ n.room) }
    {
        let sorted = Vec::with_capacity(alloc, room)?;
        Ok(BranchNames { sorted })
    }

    /// The same names, with room for so many in all.
    pub fn duplicate(&self, alloc: Global, room: usize) -> Result<BranchNames, AllocError>
        ensures numbers { IfOk result (λ n. n.numbers ≡ self.now.numbers) }
        ensures room { IfOk result (λ n. room ≤ n.room) }
    {
        let mut sorted = Vec::with_capacity(alloc, room)?;
        sorted.extend_from_slice(&self.sorted)?;
        Ok(BranchNames { sorted })
    }

    /// The number of the branch with a name.
    pub fn number(&self, name: &Name) -> Option<u32>
        ensures { result ≡ finite.get self.now.numbers name.now }
    {
        number_among(&self.sorted, name)
    }

    /// Adds a branch under a new name. It takes no memory.
    pub fn add(&mut self, name: Name, branch: u32)
        requires room { finite.len self.old.numbers < self.old.room }
        requires new { finite.get self.old.numbers name ≡ None }
        ensures { self.new
            ≡ record self.old { numbers = finite.insert self.old.numbers name branch } }
    {
        let at = below(&self.sorted, &name);
        // There is room, so it doesn't fail.
        let _ = self.sorted.insert(at, NamedBranch { name, branch });
    }
}
