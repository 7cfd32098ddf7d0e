//! The versions of a store, as views.
ghost use Rattle.std.specs.Prelude.{◌≡◌, ℕ, ◌<◌, true, length, IfOk};
ghost use Rattle.std.specs.Arc.{arc_value};
ghost use Rattle.db_store.specs.Dataset.{IsMade};
ghost use Rattle.db_store.specs.LayoutGrowth.{is_last};
ghost use Rattle.hybrid_view.specs.Live.{lived_at, parts_in};

use crate::store::HybridStore;
use crate::whole::{are_whole, relation_whole};
use bit_rows::relation_seen;
use db_value::VersionPlace;
use hybrid_view::{HybridView, LiveTable};
use std::alloc::AllocError;
use std::sync::Arc;

impl HybridStore {
    ghost use Rattle.hybrid_store.specs.Store.{layout_of, dataset_in};
    ghost use Rattle.hybrid_store.specs.Sees.{Sees, parts_at};
    ghost use Rattle.hybrid_store.specs.Whole.{ShowsWhole};

    // Is the made place the last one of its branch?
    pub(crate) fn is_last(&self, at: VersionPlace) -> bool
        requires { IsMade (dataset_in self.now) at }
        ensures { result ≡ is_last (layout_of self.now) at }
    {
        at.position as usize == self.lane(at.branch).count() - 1
    }

    // What the version at a made place has, by the rows of its branch.
    fn table_seen(&self, at: VersionPlace) -> Result<LiveTable, AllocError>
        requires { IsMade (dataset_in self.now) at }
        ensures { IfOk result (λ t. Sees self.now at t) }
    {
        let mut relations = Vec::new(self.alloc);
        for relation in 0..self.width() {
            let rows = self.lane(at.branch).rows(relation);
            let kept = self.list(relation);
            let live = relation_seen(self.alloc, rows, kept, at.position)?;
            let shared = Arc::new(self.alloc, live)?;
            relations.push(shared)?;
        }
        Ok(LiveTable::of(relations))
    }

    // What the version at a made place has. For the last version of a branch it is one link, and may lack records
    // that another branch appended to its head since, of which this branch has none.
    pub(crate) fn seen_at(&self, at: VersionPlace) -> Result<HybridView, AllocError>
        requires { IsMade (dataset_in self.now) at }
        ensures { IfOk result (λ v. Sees self.now at (arc_value v.table)) }
    {
        if self.is_last(at) {
            let view = self.lane(at.branch).view().share()?;
            return Ok(view);
        }
        let table = self.table_seen(at)?;
        let shared = Arc::new(self.alloc, table)?;
        Ok(HybridView::of(shared))
    }

    // Does what a version has show all records of its segments?
    fn shows_whole(&self, at: VersionPlace, table: &LiveTable) -> bool
        requires made { IsMade (dataset_in self.now) at }
        requires seen { Sees self.now at table.now }
        ensures { result ≡ true → ShowsWhole self.now table.now }
    {
        for relation in 0..self.width() {
            let live = table.relation(relation);
            let kept = self.list(relation);
            if !are_whole(live, kept) {
                return false;
            }
        }
        true
    }

    // The same with all records of its segments.
    fn table_whole(&self, at: VersionPlace, table: &LiveTable) -> Result<LiveTable, AllocError>
        requires made { IsMade (dataset_in self.now) at }
        requires seen { Sees self.now at table.now }
        ensures seen { IfOk result (λ t. Sees self.now at t) }
        ensures whole { IfOk result (λ t. ShowsWhole self.now t) }
    {
        let mut relations = Vec::new(self.alloc);
        for relation in 0..self.width() {
            let old = table.relation(relation);
            let kept = self.list(relation);
            let live = relation_whole(self.alloc, old, kept)?;
            let shared = Arc::new(self.alloc, live)?;
            relations.push(shared)?;
        }
        Ok(LiveTable::of(relations))
    }

    /// The view of the version at a made place. In each relation it shows, by ascending number, the
    /// segments of the branch's rows that begin at the position or before it, each with all records
    /// that it has by now. For the last version of a branch it is one link, unless another branch
    /// appended to a segment of it since.
    pub fn view_at(&self, at: VersionPlace) -> Result<HybridView, AllocError>
        requires { IsMade (dataset_in self.now) at }
        ensures seen { IfOk result (λ v. Sees self.now at (arc_value v.table)) }
        ensures parts { IfOk result (λ v. (r : ℕ) → r < length self.now.schema
            → parts_in (lived_at (arc_value v.table) r) ≡ parts_at (layout_of self.now) at r) }
    {
        let view = self.seen_at(at)?;
        if self.shows_whole(at, view.table()) {
            return Ok(view);
        }
        let table = self.table_whole(at, view.table())?;
        let shared = Arc::new(self.alloc, table)?;
        Ok(HybridView::of(shared))
    }
}
