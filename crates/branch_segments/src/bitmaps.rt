//! The bitmaps of all branches.
ghost use Rattle.std.specs.Prelude.{◌≡◌, ℕ, ◌<◌, ◌≤◌, [], set, slice_set, true, length, OnOk, IfOk};
ghost use Rattle.std.specs.List.{All};
ghost use Rattle.plain_bits.specs.Truth.{bit_of};
ghost use Rattle.std.proofs.Common.{get_or};
ghost use Rattle.branch_segments.specs.Marks.{SameRows};

use plain_bits::Bits;
use std::alloc::{AllocError, Global};
use std::marker::Model;

/// Bitmaps in a list.
#[derive(Drop)]
pub(crate) struct Bitmaps {
    alloc: Global,
    rows: Vec<Bits>,
}

impl Model for Bitmaps {
    ghost use Rattle.std.specs.Prelude.{List, Bool};
    ghost use Rattle.std.specs.Coded.{coded_list, coded_bool};

    ghost Value = { List (List Bool) };

    ghost view = { λ b. b.rows.items };
}

// Lengthens each bitmap to so many places.
fn grow_all(rows: &mut Vec<Bits>, n: u32) -> Result<(), AllocError>
    ensures same { SameRows rows.old.items rows.new.items }
    ensures count { length rows.new.items ≡ length rows.old.items }
    ensures wide { (m : ℕ) → All (λ row. m ≤ length row) rows.old.items
        → All (λ row. m ≤ length row) rows.new.items }
    ensures long { OnOk result (All (λ row. n ≤ length row) rows.new.items) }
{
    for at in 0..rows.len() {
        rows[at].grow(n)?;
    }
    Ok(())
}

// Puts rows of falses after the others, up to so many.
fn push_rows(alloc: Global, rows: &mut Vec<Bits>, count: usize, n: u32) -> Result<(), AllocError>
    requires { All (λ row. n ≤ length row) rows.old.items }
    ensures same { SameRows rows.old.items rows.new.items }
    ensures long { All (λ row. n ≤ length row) rows.new.items }
    ensures count { OnOk result (count ≤ length rows.new.items) }
    ensures kept { length rows.old.items ≤ length rows.new.items }
{
    for _at in rows.len()..count {
        let mut row = Bits::new(alloc);
        row.grow(n)?;
        rows.push(row)?;
    }
    Ok(())
}

// Bitmaps of their own with the same places.
fn copies(alloc: Global, rows: &[Bits]) -> Result<Vec<Bits>, AllocError>
    ensures { IfOk result (λ copies. copies.items ≡ rows.now) }
{
    let mut copies = Vec::new(alloc);
    for row in rows {
        copies.push(row.duplicate()?)?;
    }
    Ok(copies)
}

impl Bitmaps {
    pub(crate) fn new(alloc: Global) -> Bitmaps
        ensures { result ≡ [] }
    {
        Bitmaps {
            alloc,
            rows: Vec::new(alloc),
        }
    }

    // Lengthens each bitmap to so many places.
    pub(crate) fn grow(&mut self, n: u32) -> Result<(), AllocError>
        ensures same { SameRows self.old self.new }
        ensures count { length self.new ≡ length self.old }
        ensures wide { (m : ℕ) → All (λ row. m ≤ length row) self.old
            → All (λ row. m ≤ length row) self.new }
        ensures long { OnOk result (All (λ row. n ≤ length row) self.new) }
    {
        grow_all(&mut self.rows, n)
    }

    // Puts bitmaps of falses after the others, up to so many.
    pub(crate) fn push(&mut self, count: usize, n: u32) -> Result<(), AllocError>
        requires { All (λ row. n ≤ length row) self.old }
        ensures same { SameRows self.old self.new }
        ensures long { All (λ row. n ≤ length row) self.new }
        ensures count { OnOk result (count ≤ length self.new) }
        ensures kept { length self.old ≤ length self.new }
    {
        push_rows(self.alloc, &mut self.rows, count, n)
    }

    pub(crate) fn set(&mut self, branch: usize, place: u32)
        requires branch { branch < length self.old }
        requires place { place < length (get_or self.old branch []) }
        ensures { self.new
            ≡ set self.old branch (slice_set (get_or self.old branch []) place true) }
    {
        self.rows[branch].set(place);
    }

    // Bitmaps of their own with the same places.
    pub(crate) fn duplicate(&self) -> Result<Bitmaps, AllocError>
        ensures { IfOk result (λ copy. copy ≡ self.now) }
    {
        let rows = copies(self.alloc, &self.rows)?;
        Ok(Bitmaps {
            alloc: self.alloc,
            rows,
        })
    }

    pub(crate) fn has(&self, branch: usize, place: u32) -> bool
        ensures { result ≡ bit_of (get_or self.now branch []) place }
    {
        match self.rows.get(branch) {
            None => false,
            Some(row) => place < row.len() && row.get(place),
        }
    }
}
