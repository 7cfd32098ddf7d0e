//! A branch: its versions, its rows of bits, and what its last version has.
ghost use Rattle.std.specs.Prelude.{◌≡◌, ◌≤◌, ◌<◌, ◌+◌, ◌∷◌, ◌++◌, [], ℕ, length, vec_capacity, IfOk, OnOk, None};
ghost use Rattle.std.specs.Arc.{arc_value};
ghost use Rattle.std.proofs.Common.{get_or};
ghost use Rattle.commit_history.specs.Runs.{next_of};
ghost use Rattle.bit_rows.specs.Rows.{kept_row_at, next_at, pushed_row};
ghost use Rattle.bit_rows.specs.Kept.{kept_rows, nexts_at, more_at, AreReady, ArePushed};

use crate::more::MoreRows;
use crate::rows::{BitRows, NextDeltas};
use db_value::{Name, VersionPlace};
use hybrid_view::{HybridView, LiveTable};
use std::alloc::{AllocError, Global};
use std::marker::Model;

/// A branch: its versions by their second parents, the rows of each relation, and what its last
/// version has.
#[derive(Drop)]
pub struct HybridLane {
    name: Name,
    origin: VersionPlace,
    base: VersionPlace,
    seconds: Vec<Option<VersionPlace>>,
    rows: Vec<BitRows>,
    head: HybridView,
}

impl Model for HybridLane {
    ghost use Rattle.std.specs.Prelude.{vec_capacity};
    ghost use Rattle.std.specs.Arc.{arc_value};
    ghost use Rattle.bit_rows.specs.Kept.{KeptLane, lane_code};

    ghost Value = { KeptLane };

    ghost coded = { lane_code };

    ghost view = { λ l. record { name = l.name; origin = l.origin; base = l.base; seconds = l.seconds.items; rows = l.rows.items; head = arc_value l.head.table; room = vec_capacity l.seconds } };
}

// Adds to each row of the relations the delta that is ready for it.
fn push_all(rows: &mut Vec<BitRows>, mut deltas: Vec<NextDeltas>)
    requires count { length deltas.items ≡ length rows.old.items }
    requires counts { (r : ℕ) → r < length rows.old.items
        → length (nexts_at deltas.items r) ≡ length (get_or rows.old.items r []) }
    requires ready { (r i : ℕ) → r < length rows.old.items → i < length (get_or rows.old.items r [])
        → next_at (nexts_at deltas.items r) i
        ≡ next_of (kept_row_at (get_or rows.old.items r []) i).deltas
        (next_at (nexts_at deltas.items r) i).delta.item }
    ensures count { length rows.new.items ≡ length rows.old.items }
    ensures counts { (r : ℕ) → r < length rows.old.items
        → length (get_or rows.new.items r []) ≡ length (get_or rows.old.items r []) }
    ensures each { (r i : ℕ) → r < length rows.old.items → i < length (get_or rows.old.items r [])
        → kept_row_at (get_or rows.new.items r []) i
        ≡ pushed_row (kept_row_at (get_or rows.old.items r []) i)
        (next_at (nexts_at deltas.items r) i) }
{
    while let Some(nexts) = deltas.pop() {
        let relation = deltas.len();
        rows[relation].push(nexts);
    }
}

// Adds to the rows of each relation one more.
fn add_rows(rows: &mut Vec<BitRows>, mut more: Vec<MoreRows>)
    requires count { length more.items ≡ length rows.old.items }
    requires room { (r : ℕ) → r < length rows.old.items
        → length (get_or rows.old.items r []) < (more_at more.items r).room }
    ensures count { length rows.new.items ≡ length rows.old.items }
    ensures each { (r : ℕ) → r < length rows.old.items
        → get_or rows.new.items r []
        ≡ get_or rows.old.items r [] ++ (more_at more.items r).row ∷ [] }
{
    while let Some(next) = more.pop() {
        let relation = more.len();
        rows[relation].add(next);
    }
}

impl HybridLane {
    /// A branch with its version at position 0.
    pub fn begin(
        alloc: Global,
        name: Name,
        origin: VersionPlace,
        base: VersionPlace,
        rows: Vec<BitRows>,
        head: HybridView,
    ) -> Result<HybridLane, AllocError>
        ensures lane { IfOk result
            (λ l. l ≡ record {
              name = name;
              origin = origin;
              base = base;
              seconds = None ∷ [];
              rows = rows.items;
              head = arc_value head.table;
              room = l.room;
            }) }
        ensures room { IfOk result (λ l. 1 ≤ l.room) }
    {
        let mut seconds = Vec::new(alloc);
        seconds.push(None)?;
        Ok(HybridLane::of(name, origin, base, seconds, rows, head))
    }

    /// A branch with these versions, by their second parents. It takes no memory.
    pub fn of(
        name: Name,
        origin: VersionPlace,
        base: VersionPlace,
        seconds: Vec<Option<VersionPlace>>,
        rows: Vec<BitRows>,
        head: HybridView,
    ) -> HybridLane
        ensures { result ≡ record {
          name = name;
          origin = origin;
          base = base;
          seconds = seconds.items;
          rows = rows.items;
          head = arc_value head.table;
          room = vec_capacity seconds;
        } }
    {
        HybridLane {
            name,
            origin,
            base,
            seconds,
            rows,
            head,
        }
    }

    /// Its name.
    pub fn name(&self) -> Name
        ensures { result ≡ self.now.name }
    {
        self.name
    }

    /// The place from which it was made.
    pub fn origin(&self) -> VersionPlace
        ensures { result ≡ self.now.origin }
    {
        self.origin
    }

    /// The version that stands at position 0, by where it was made.
    pub fn base(&self) -> VersionPlace
        ensures { result ≡ self.now.base }
    {
        self.base
    }

    /// How many versions it has.
    pub fn count(&self) -> usize
        ensures { result ≡ length self.now.seconds }
    {
        self.seconds.len()
    }

    /// The second parent of the version at a position.
    pub fn second(&self, position: usize) -> Option<VersionPlace>
        requires { position < length self.now.seconds }
        ensures { result ≡ get_or self.now.seconds position None }
    {
        self.seconds[position]
    }

    /// The rows of a relation.
    pub fn rows(&self, relation: u8) -> &BitRows
        requires { relation < length self.now.rows }
        ensures { result.now ≡ kept_rows self.now relation }
    {
        &self.rows[relation as usize]
    }

    /// What its last version has.
    pub fn head(&self) -> &LiveTable
        ensures { result.now ≡ self.now.head }
    {
        self.head.table()
    }

    /// The view of its last version.
    pub fn view(&self) -> &HybridView
        ensures { arc_value result.now.table ≡ self.now.head }
    {
        &self.head
    }

    /// Makes room for so many versions more.
    pub fn reserve(&mut self, more: usize) -> Result<(), AllocError>
        ensures lane { self.new ≡ record self.old { room = self.new.room } }
        ensures kept { self.old.room ≤ self.new.room }
        ensures room { OnOk result (length self.new.seconds + more ≤ self.new.room) }
    {
        self.seconds.reserve(more)
    }

    /// Adds a version: its second parent, what is ready for the rows, and what it has. It takes no memory.
    pub fn push(&mut self, second: Option<VersionPlace>, deltas: Vec<NextDeltas>, head: HybridView)
        requires room { length self.old.seconds < self.old.room }
        requires ready { AreReady self.old.rows deltas.items }
        ensures lane { self.new ≡ record self.old {
          seconds = self.old.seconds ++ second ∷ [];
          rows = self.new.rows;
          head = arc_value head.table;
        } }
        ensures pushed { ArePushed self.old.rows deltas.items self.new.rows }
    {
        push_all(&mut self.rows, deltas);
        self.seconds.push_reserved(second);
        self.head = head;
    }

    /// Gives it another head: a row more in each relation, and what its last version has with it. It takes no
    /// memory.
    pub fn turn(&mut self, more: Vec<MoreRows>, head: HybridView)
        requires count { length more.items ≡ length self.old.rows }
        requires room { (r : ℕ) → r < length self.old.rows
            → length (kept_rows self.old r) < (more_at more.items r).room }
        ensures lane { self.new ≡ record self.old
            { rows = self.new.rows; head = arc_value head.table } }
        ensures count { length self.new.rows ≡ length self.old.rows }
        ensures each { (r : ℕ) → r < length self.old.rows
            → kept_rows self.new r ≡ kept_rows self.old r ++ (more_at more.items r).row ∷ [] }
    {
        add_rows(&mut self.rows, more);
        self.head = head;
    }

    /// The same branch, with rows of its own. What its last version has is shared.
    pub fn duplicate(&self, alloc: Global) -> Result<HybridLane, AllocError>
        ensures lane { IfOk result (λ l. l ≡ record self.now { room = l.room }) }
        ensures room { IfOk result (λ l. length self.now.seconds ≤ l.room) }
    {
        let seconds = Vec::from_slice(alloc, self.seconds.as_slice())?;
        let rows = same_rows(alloc, &self.rows)?;
        Ok(HybridLane {
            name: self.name,
            origin: self.origin,
            base: self.base,
            seconds,
            rows,
            head: self.head.share()?,
        })
    }
}

// The same rows with histories of their own.
fn same_rows(alloc: Global, rows: &[BitRows]) -> Result<Vec<BitRows>, AllocError>
    ensures { IfOk result (λ v. v.items ≡ rows.now) }
{
    let mut all = Vec::with_capacity(alloc, rows.len())?;
    for of_relation in rows {
        all.push(of_relation.duplicate(alloc)?)?;
    }
    Ok(all)
}
