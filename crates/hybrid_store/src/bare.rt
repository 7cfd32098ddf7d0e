//! A branch of parts, without what its last version has.
ghost use Rattle.std.specs.Prelude.{◌≡◌, ◌≤◌, ◌<◌, ◌-◌, ◌++◌, ◌∷◌, [], ℕ, None, length, map, IfOk, OnOk};
ghost use Rattle.std.specs.Arc.{arc_value};
ghost use Rattle.std.proofs.Common.{get_or};
ghost use Rattle.db_store.specs.Fits.{most_versions};
ghost use Rattle.bit_rows.specs.Segments.{list_at};
ghost use Rattle.hybrid_store.specs.Assembled.{begun_bare, CanSeeRows, CanSeeAll, CanSeeLane, IsSeenAs, AreSeenBy, IsSeenLane};

use crate::parts::BranchPart;
use bit_rows::{BitRows, HybridLane, KeptSegments, relation_seen};
use db_value::{Name, VersionPlace};
use hybrid_view::{HybridView, LiveRelation, LiveTable};
use std::alloc::{AllocError, Global};
use std::marker::Model;
use std::sync::Arc;

/// A branch without what its last version has: its versions by their second parents, and its rows.
#[derive(Drop)]
pub(crate) struct BareLane {
    name: Name,
    origin: VersionPlace,
    base: VersionPlace,
    seconds: Vec<Option<VersionPlace>>,
    rows: Vec<BitRows>,
}

impl Model for BareLane {
    ghost use Rattle.std.specs.Prelude.{[]};
    ghost use Rattle.bit_rows.specs.Kept.{KeptLane, lane_code};

    ghost Value = { KeptLane };

    ghost coded = { lane_code };

    ghost view = { λ l. record { name = l.name; origin = l.origin; base = l.base; seconds = l.seconds.items; rows = l.rows.items; head = []; room = 0 } };
}

// What is seen of the rows of a relation at a position.
fn relation_of(
    alloc: Global,
    rows: &BitRows,
    kept: &KeptSegments,
    position: u32,
) -> Result<Arc<LiveRelation>, AllocError>
    requires few { position < most_versions }
    requires can { CanSeeRows kept.now.all position rows.now }
    ensures seen { IfOk result (λ l. IsSeenAs kept.now.all position rows.now (arc_value l)) }
{
    let live = relation_seen(alloc, rows, kept, position)?;
    live.told();
    let live = Arc::new(alloc, live)?;
    Ok(live)
}

// What is seen of the rows of all relations at a position.
fn table_of(
    alloc: Global,
    rows: &[BitRows],
    lists: &[KeptSegments],
    position: u32,
) -> Result<LiveTable, AllocError>
    requires few { position < most_versions }
    requires wide { length lists.now ≡ length rows.now }
    requires can { CanSeeAll lists.now position rows.now }
    ensures { IfOk result (λ t. AreSeenBy lists.now position rows.now (length rows.now) t) }
{
    let mut relations = Vec::new(alloc);
    for relation in 0..rows.len() {
        let live = relation_of(alloc, &rows[relation], &lists[relation], position)?;
        relations.push(live)?;
    }
    Ok(LiveTable::of(relations))
}

impl BareLane {
    /// A branch with its version at position 0.
    pub(crate) fn begin(
        alloc: Global,
        part: &BranchPart,
        base: VersionPlace,
        rows: Vec<BitRows>,
    ) -> Result<BareLane, AllocError>
        ensures { IfOk result (λ l. l ≡ begun_bare part.now base rows.items) }
    {
        let mut seconds = Vec::new(alloc);
        seconds.push(None)?;
        Ok(BareLane {
            name: part.name,
            origin: part.origin,
            base,
            seconds,
            rows,
        })
    }

    /// How many versions it has.
    pub(crate) fn count(&self) -> usize
        ensures { result ≡ length self.now.seconds }
    {
        self.seconds.len()
    }

    /// The version that stands at position 0.
    pub(crate) fn base(&self) -> VersionPlace
        ensures { result ≡ self.now.base }
    {
        self.base
    }

    /// Adds a version with this second parent.
    pub(crate) fn push(&mut self, second: Option<VersionPlace>) -> Result<(), AllocError>
        ensures { OnOk result
            (self.new ≡ record self.old { seconds = self.old.seconds ++ second ∷ [] }) }
    {
        self.seconds.push(second)?;
        Ok(())
    }

    /// The branch with what its last version has.
    pub(crate) fn seen(
        self,
        alloc: Global,
        lists: &[KeptSegments],
    ) -> Result<HybridLane, AllocError>
        requires { CanSeeLane lists.now self }
        ensures { IfOk result (λ l. IsSeenLane lists.now self l) }
    {
        let BareLane {
            name,
            origin,
            base,
            seconds,
            rows,
        } = self;
        let last = (seconds.len() - 1) as u32;
        let table = table_of(alloc, &rows, lists, last)?;
        let head = HybridView::of(Arc::new(alloc, table)?);
        Ok(HybridLane::of(name, origin, base, seconds, rows, head))
    }
}
