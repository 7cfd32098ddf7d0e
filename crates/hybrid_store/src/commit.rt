//! A commit that is made ready: what its branch has after it.
ghost use Rattle.std.specs.Prelude.{◌≡◌, ℕ, List, [], Option, map, ◌<◌, ◌≤◌, ◌+◌, ◌-◌, ◌^◌, true, length, IfOk, OnOk};
ghost use Rattle.std.specs.FinMap.{len};
ghost use Rattle.std.specs.Arc.{arc_value};
ghost use Rattle.std.proofs.Common.{get_or};
ghost use Rattle.db_value.specs.declared.entry.Change.{Change};
ghost use Rattle.db_value.specs.declared.entry.Entry.TheVariants.{Commit};
ghost use Rattle.db_value.specs.declared.version.VersionPlace.{VersionPlace};
ghost use Rattle.db_store.specs.Adopt.{is_changed};
ghost use Rattle.db_store.specs.Counts.{after};
ghost use Rattle.db_store.specs.Fits.{fits};
ghost use Rattle.db_store.specs.Layout.{records_at};
ghost use Rattle.db_store.specs.LayoutGrowth.{puts};
ghost use Rattle.hybrid_view.specs.Live.{lived_at, piece_at, contents_in, EachOf, IsLived, Piece};
ghost use Rattle.hybrid_view.specs.RowPlaces.{spots, AllNext};
ghost use Rattle.key_index.specs.Places.{with_changes};
ghost use Rattle.segment.specs.Pages.{AreWide};
ghost use Rattle.hybrid_view.specs.Struck.{touched_places};
ghost use Rattle.bit_rows.specs.Kept.{no_kept, kept_rows};
ghost use Rattle.hybrid_store.specs.Lanes.{segment_of};
ghost use Rattle.bit_rows.specs.Segments.{list_at};
ghost use Rattle.hybrid_store.specs.Ready.{AreOwn};
ghost use Rattle.bit_rows.specs.Differences.{AreDifferences};
ghost use Rattle.hybrid_store.specs.Stored.{head_number, touched_in, AllNextIn, AreSmall, IsAfter, IsNextAt};

use crate::heads::{head_of_rows, own_records};
use crate::store::HybridStore;
use bit_rows::{KeptSegments, NextDeltas, next_deltas, spots_of};
use db_value::{Changes, VersionPlace};
use hybrid_view::{HybridView, LiveRelation, LiveTable, PutRows, TouchedKeys};
use segment::Segment;
use std::alloc::{AllocError, Global};
use std::sync::Arc;

/// More records than a segment can number.
const MOST_NUMBERS: usize = 0x1_0000_0000;

/// A commit that is ready: its second parent, what it changes of the rows, what the branch has after
/// it, and for each relation the records of the branch's head.
#[derive(Drop)]
pub struct HybridPrepared {
    pub(crate) branch: u32,
    pub(crate) second: Option<VersionPlace>,
    pub(crate) deltas: Vec<NextDeltas>,
    pub(crate) head: HybridView,
    pub(crate) records: Vec<Arc<Segment>>,
}

impl HybridStore {
    ghost use Rattle.hybrid_store.specs.Store.{dataset_in, state_of};
    ghost use Rattle.hybrid_store.specs.Prepared.{Prepares};

    // The segments of a relation.
    pub(crate) fn list(&self, relation: u8) -> &KeptSegments
        requires { relation < length self.now.schema }
        ensures { result.now.all ≡ list_at self.now.segments.items relation }
    {
        &self.segments[relation as usize]
    }

    // The number of a branch's head in a relation, and how many records it has.
    fn head_of(&self, branch: u32, relation: u8) -> (u32, u32)
        requires branch { branch < length self.now.lanes.items }
        requires relation { relation < length self.now.schema }
        ensures segment { result.0 ≡ head_number self.now.segments.items branch relation }
        ensures records { result.1
            ≡ length (records_at (map segment_of (list_at self.now.segments.items relation))
            (head_number self.now.segments.items branch relation)) }
    {
        let kept = self.list(relation);
        let head = head_of_rows(self.lane(branch).rows(relation), kept, branch);
        (head, kept.segment(head).records().len())
    }

    // What a branch has of a relation.
    pub(crate) fn lived(&self, branch: u32, relation: u8) -> &LiveRelation
        requires branch { branch < length self.now.lanes.items }
        requires relation { relation < length self.now.schema }
        ensures { result.now ≡ lived_at (get_or self.now.lanes.items branch no_kept).head relation }
    {
        self.lane(branch).head().relation(relation)
    }

    // What changes of a commit that fits touch in a relation.
    fn touched(
        &self,
        branch: u32,
        relation: u8,
        changes: &Changes,
    ) -> Result<TouchedKeys, AllocError>
        requires relation { relation < length self.now.schema }
        requires fits { (second : Option VersionPlace)
            × (fits (dataset_in self.now) (Commit branch second changes.now) ≡ true) }
        ensures places { IfOk result (λ t. t.places.items
            ≡ touched_in (get_or self.now.lanes.items branch no_kept) changes.now relation) }
        ensures keys { IfOk result (λ t. t.keys
            ≡ len (after relation
            (contents_in (lived_at (get_or self.now.lanes.items branch no_kept).head relation))
            changes.now)) }
    {
        let live = self.lived(branch, relation);
        let touched = live.touched(self.alloc, changes, relation)?;
        Ok(touched)
    }

    // What a relation of a branch has after the changes of a commit that fits, which touch these keys.
    fn relation_after(
        &self,
        branch: u32,
        relation: u8,
        changes: &Changes,
        touched: &TouchedKeys,
    ) -> Result<LiveRelation, AllocError>
        requires relation { relation < length self.now.schema }
        requires fits { (second : Option VersionPlace)
            × (fits (dataset_in self.now) (Commit branch second changes.now) ≡ true) }
        requires places { touched.now.places.items
            ≡ touched_in (get_or self.now.lanes.items branch no_kept) changes.now relation }
        requires keys { touched.now.keys
            ≡ len (after relation
            (contents_in (lived_at (get_or self.now.lanes.items branch no_kept).head relation))
            changes.now) }
        ensures next { IfOk result
            (λ l. IsNextAt (head_number self.now.segments.items branch)
            (get_or self.now.lanes.items branch no_kept) changes.now relation l) }
        ensures small { IfOk result AreSmall }
    {
        let (head, from) = self.head_of(branch, relation);
        if from as usize + changes.len() >= MOST_NUMBERS {
            return Err(AllocError);
        }
        let old = self.lived(branch, relation);
        let new = live_after(self.alloc, old, (head, from), relation, changes, touched)?;
        Ok(new)
    }

    // The same, shared with what it has before where nothing of it changes.
    fn relation_with(
        &self,
        branch: u32,
        relation: u8,
        changes: &Changes,
        touched: &TouchedKeys,
    ) -> Result<Arc<LiveRelation>, AllocError>
        requires relation { relation < length self.now.schema }
        requires fits { (second : Option VersionPlace)
            × (fits (dataset_in self.now) (Commit branch second changes.now) ≡ true) }
        requires places { touched.now.places.items
            ≡ touched_in (get_or self.now.lanes.items branch no_kept) changes.now relation }
        requires keys { touched.now.keys
            ≡ len (after relation
            (contents_in (lived_at (get_or self.now.lanes.items branch no_kept).head relation))
            changes.now) }
        ensures next { IfOk result
            (λ l. IsNextAt (head_number self.now.segments.items branch)
            (get_or self.now.lanes.items branch no_kept) changes.now relation
            (arc_value l)) }
        ensures small { IfOk result (λ l. AreSmall (arc_value l)) }
        ensures lived { IfOk result (λ l. IsLived (arc_value l)) }
    {
        if !is_changed(changes, relation) {
            self.lived(branch, relation).told();
            let live = self.lane(branch).head().share_relation(relation)?;
            return Ok(live);
        }
        let live = self.relation_after(branch, relation, changes, touched)?;
        live.told();
        let live = Arc::new(self.alloc, live)?;
        Ok(live)
    }

    // What is ready for the rows of a relation, by what the branch has after the commit.
    fn deltas_for(
        &self,
        branch: u32,
        relation: u8,
        changes: &Changes,
        places: &[Option<(u32, u32)>],
        live: &LiveRelation,
    ) -> Result<NextDeltas, AllocError>
        requires relation { relation < length self.now.schema }
        requires fits { (second : Option VersionPlace)
            × (fits (dataset_in self.now) (Commit branch second changes.now) ≡ true) }
        requires places { places.now
            ≡ touched_in (get_or self.now.lanes.items branch no_kept) changes.now relation }
        requires next { IsNextAt (head_number self.now.segments.items branch)
            (get_or self.now.lanes.items branch no_kept) changes.now relation
            live.now }
        ensures { IfOk result (λ nexts.
            AreDifferences (kept_rows (get_or self.now.lanes.items branch no_kept) relation) nexts
            (lived_at (get_or self.now.lanes.items branch no_kept).head relation).pieces
            live.now.pieces) }
    {
        let rows = self.lane(branch).rows(relation);
        let old = self.lived(branch, relation);
        let nexts = next_deltas(self.alloc, rows, old, live, places)?;
        Ok(nexts)
    }

    // What a branch has after the changes of a commit that fits, and what is ready for its rows.
    fn table_after(
        &self,
        branch: u32,
        changes: &Changes,
        deltas: &mut Vec<NextDeltas>,
    ) -> Result<LiveTable, AllocError>
        requires fits { (second : Option VersionPlace)
            × (fits (dataset_in self.now) (Commit branch second changes.now) ≡ true) }
        requires none { deltas.old.items ≡ [] }
        ensures { IfOk result
            (IsAfter (head_number self.now.segments.items branch)
            (get_or self.now.lanes.items branch no_kept) changes.now (length self.now.schema)
            deltas.new.items) }
    {
        let mut relations = Vec::new(self.alloc);
        for relation in 0..self.width() {
            let touched = self.touched(branch, relation, changes)?;
            let live = self.relation_with(branch, relation, changes, &touched)?;
            let nexts = self.deltas_for(branch, relation, changes, &touched.places, &live)?;
            deltas.push(nexts)?;
            relations.push(live)?;
        }
        Ok(LiveTable::of(relations))
    }

    // Links to the records of a branch's heads in what it has after changes.
    fn head_records(
        &self,
        branch: u32,
        changes: &Changes,
        table: &LiveTable,
    ) -> Result<Vec<Arc<Segment>>, AllocError>
        requires branch { branch < length self.now.lanes.items }
        requires wide { length table.now ≡ length self.now.schema }
        requires next { AllNextIn (head_number self.now.segments.items branch)
            (get_or self.now.lanes.items branch no_kept) changes.now (length self.now.schema)
            table.now }
        ensures count { IfOk result (λ v. length (map arc_value v.items) ≡ length table.now) }
        ensures own { IfOk result
            (λ v. AreOwn (head_number self.now.segments.items branch) table.now (length table.now)
            (map arc_value v.items)) }
    {
        let mut all = Vec::new(self.alloc);
        for relation in 0..self.width() {
            let (head, _from) = self.head_of(branch, relation);
            let records = own_records(table.relation(relation), head)?;
            all.push(records)?;
        }
        Ok(all)
    }

    /// Takes the memory that a commit needs, but for the room to install it.
    pub fn prepare_commit(
        &self,
        branch: u32,
        second: Option<VersionPlace>,
        changes: &Changes,
    ) -> Result<HybridPrepared, AllocError>
        requires { fits (dataset_in self.now) (Commit branch second changes.now) ≡ true }
        ensures { IfOk result (λ p.
            Prepares p (state_of self.now) (Commit branch second changes.now)) }
    {
        let mut deltas = Vec::new(self.alloc);
        let table = self.table_after(branch, changes, &mut deltas)?;
        table.told();
        let records = self.head_records(branch, changes, &table)?;
        let table = Arc::new(self.alloc, table)?;
        let head = HybridView::of(table);
        Ok(HybridPrepared {
            branch,
            second,
            deltas,
            head,
            records,
        })
    }
}

// What there is of a relation after changes that touch these keys, by the number of its head and how many
// records it has. What changes of an index is listed only if there is one then.
fn live_after(
    alloc: Global,
    old: &LiveRelation,
    head: (u32, u32),
    relation: u8,
    changes: &Changes,
    touched: &TouchedKeys,
) -> Result<LiveRelation, AllocError>
    requires few_keys { touched.now.keys < 2 ^ 32 }
    requires room { head.1 + length changes.now < 2 ^ 32 }
    requires wide { EachOf head.0 old.now.pieces (λ p.
        AreWide p.rows.widths (puts changes.now relation)) }
    requires few { EachOf head.0 old.now.pieces (λ p.
        length p.rows.records + length (puts changes.now relation) < 2 ^ 32) }
    requires lived { (qs : List Piece)
        → AllNext touched.now.places.items head.0 (puts changes.now relation) old.now.pieces qs
        → IsLived (record {
          pieces = qs;
          places = with_changes old.now.places (spots head.0 head.1 changes.now relation);
          count = touched.now.keys;
        }) }
    ensures { IfOk result (λ l.
        AllNext touched.now.places.items head.0 (puts changes.now relation) old.now.pieces
        l.pieces) }
{
    let (head, from) = head;
    let count = touched.keys as u32;
    let rows = PutRows::of(changes, relation, touched.puts);
    if old.takes_many(touched.puts) {
        return old.after_many(alloc, &touched.places, head, &rows, count);
    }
    let spots = spots_of(alloc, head, from, changes, relation)?;
    old.after(alloc, &touched.places, head, &rows, &spots, count)
}

// Is some change of the relation?
fn is_changed(changes: &Changes, relation: u8) -> bool
    ensures { result ≡ is_changed relation changes.now }
{
    for at in 0..changes.len() {
        let own = changes.relation(at);
        if own == relation {
            return true;
        }
    }
    false
}
