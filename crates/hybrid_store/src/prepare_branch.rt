//! A new branch that is made ready.
ghost use Rattle.std.specs.Prelude.{◌≡◌, true, map, IfOk};
ghost use Rattle.std.specs.Arc.{arc_value};
ghost use Rattle.std.proofs.Common.{get_or};
ghost use Rattle.db_value.specs.declared.entry.Entry.TheVariants.{Branch as NewBranch};
ghost use Rattle.db_store.specs.Fits.{fits};
ghost use Rattle.db_store.specs.LayoutGrowth.{is_last};
ghost use Rattle.bit_rows.specs.Kept.{no_kept};
ghost use Rattle.hybrid_store.specs.New.{AreEmpty};
ghost use Rattle.hybrid_store.specs.ReadyBranch.{IsBegunOf, IsTurnedOf, IsTurnedIf};
ghost use Rattle.hybrid_store.specs.Stored.{IsSeen};

use crate::install_branch::{HybridPreparedBranch, Turned};
use crate::new::new_heads;
use crate::store::HybridStore;
use bit_rows::{HybridLane, more_of};
use db_value::{Name, VersionPlace};
use hybrid_view::HybridView;
use segment::Segment;
use std::alloc::AllocError;
use std::sync::Arc;

impl HybridStore {
    ghost use Rattle.hybrid_store.specs.Store.{layout_of, dataset_in, state_of};
    ghost use Rattle.hybrid_store.specs.Prepared.{PreparesBranch};

    // A new branch of a version that a view shows, with these heads.
    fn lane_begun(
        &self,
        name: Name,
        origin: VersionPlace,
        view: &HybridView,
        at_head: bool,
        heads: &[Arc<Segment>],
    ) -> Result<HybridLane, AllocError>
        requires fits { fits (dataset_in self.now) (NewBranch name origin) ≡ true }
        requires last { at_head ≡ is_last (layout_of self.now) origin }
        requires seen { IsSeen self.now.schema self.now.segments.items
            (get_or self.now.lanes.items origin.branch no_kept) origin.position
            (arc_value view.now.table) }
        requires heads { AreEmpty self.now.schema (map arc_value heads.now) }
        ensures { IfOk result (λ k.
            IsBegunOf (layout_of self.now) name origin k (map arc_value heads.now)) }
    {
        let mut rows = Vec::new(self.alloc);
        let table = self.table_begun(view.table(), more_of(at_head), heads, &mut rows)?;
        table.told();
        let head = HybridView::of(Arc::new(self.alloc, table)?);
        let base = self.made_at(origin);
        let lane = HybridLane::begin(self.alloc, name, origin, base, rows, head)?;
        Ok(lane)
    }

    // Another head for the branch whose last version a new branch begins with.
    fn turned_of(&self, name: Name, origin: VersionPlace) -> Result<Turned, AllocError>
        requires fits { fits (dataset_in self.now) (NewBranch name origin) ≡ true }
        requires last { is_last (layout_of self.now) origin ≡ true }
        ensures { IfOk result (λ t. IsTurnedOf (layout_of self.now) origin t) }
    {
        let heads = new_heads(self.alloc, self.schema.relations())?;
        let mut more = Vec::new(self.alloc);
        let table = self.table_turned(origin.branch, &heads, &mut more)?;
        table.told();
        let head = HybridView::of(Arc::new(self.alloc, table)?);
        Ok(Turned { more, head, heads })
    }

    // The same, if it is the last version.
    fn turned_if(
        &self,
        name: Name,
        origin: VersionPlace,
        at_head: bool,
    ) -> Result<Option<Turned>, AllocError>
        requires fits { fits (dataset_in self.now) (NewBranch name origin) ≡ true }
        requires last { at_head ≡ is_last (layout_of self.now) origin }
        ensures { IfOk result (λ t.
            IsTurnedIf (is_last (layout_of self.now) origin) (layout_of self.now) origin t) }
    {
        if !at_head {
            return Ok(None);
        }
        let turned = self.turned_of(name, origin)?;
        Ok(Some(turned))
    }

    // A new branch of a version that a view shows.
    pub(crate) fn begin_of(
        &self,
        name: Name,
        origin: VersionPlace,
        view: &HybridView,
        at_head: bool,
    ) -> Result<HybridPreparedBranch, AllocError>
        requires fits { fits (dataset_in self.now) (NewBranch name origin) ≡ true }
        requires last { at_head ≡ is_last (layout_of self.now) origin }
        requires seen { IsSeen self.now.schema self.now.segments.items
            (get_or self.now.lanes.items origin.branch no_kept) origin.position
            (arc_value view.now.table) }
        ensures { IfOk result (λ p. PreparesBranch p (state_of self.now) (NewBranch name origin)) }
    {
        let heads = new_heads(self.alloc, self.schema.relations())?;
        let lane = self.lane_begun(name, origin, view, at_head, &heads)?;
        let turned = self.turned_if(name, origin, at_head)?;
        Ok(HybridPreparedBranch {
            origin: origin.branch,
            lane,
            heads,
            turned,
        })
    }
}
