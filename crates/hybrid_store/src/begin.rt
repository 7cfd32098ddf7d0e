//! What a new branch has, and what its origin has with another head.
ghost use Rattle.std.specs.Prelude.{◌≡◌, ℕ, ◌+◌, ◌-◌, ◌<◌, ◌≤◌, ◌^◌, [], length, map, IfOk, OnOk};
ghost use Rattle.std.specs.Arc.{arc_value};
ghost use Rattle.std.proofs.Common.{get_or};
ghost use Rattle.hybrid_view.specs.Live.{IsLived, lived_at};
ghost use Rattle.bit_rows.specs.Rows.{MoreRow};
ghost use Rattle.hybrid_store.specs.Begun.{head_piece, lived_begun, lived_turned, turned_row, begun_in, turned_in, AreBegun, AreTurned};
ghost use Rattle.bit_rows.specs.Kept.{no_kept};
ghost use Rattle.bit_rows.specs.Segments.{list_at};

use crate::store::HybridStore;
use bit_rows::{BitRow, BitRows, MoreRows, rows_begun};
use hybrid_view::{LivePart, LiveRelation, LiveTable};
use plain_bits::Bits;
use segment::Segment;
use std::alloc::{AllocError, Global};
use std::sync::Arc;

/// A part without live records.
pub fn empty_part(alloc: Global, segment: u32, own: &Arc<Segment>) -> Result<LivePart, AllocError>
    ensures { IfOk result (λ p. p ≡ head_piece segment (arc_value own.now)) }
{
    let bits = Arc::new(alloc, Bits::new(alloc))?;
    Ok(LivePart::of(segment, Arc::try_clone(own)?, bits))
}

// What a new branch has of a relation, whose head has this number.
fn begun_relation(
    alloc: Global,
    live: &LiveRelation,
    segment: u32,
    own: &Arc<Segment>,
) -> Result<Arc<LiveRelation>, AllocError>
    requires { IsLived (lived_begun live.now (head_piece segment (arc_value own.now))) }
    ensures { IfOk result (λ l. arc_value l
        ≡ lived_begun live.now (head_piece segment (arc_value own.now))) }
{
    let live = live.begun(alloc, empty_part(alloc, segment, own)?)?;
    let live = Arc::new(alloc, live)?;
    Ok(live)
}

// What a branch has of a relation with another head.
fn turned_relation(
    alloc: Global,
    live: &LiveRelation,
    segment: u32,
    own: &Arc<Segment>,
) -> Result<Arc<LiveRelation>, AllocError>
    requires { IsLived (lived_turned live.now (head_piece segment (arc_value own.now))) }
    ensures { IfOk result (λ l. arc_value l
        ≡ lived_turned live.now (head_piece segment (arc_value own.now))) }
{
    let live = live.with_head(alloc, empty_part(alloc, segment, own)?)?;
    let live = Arc::new(alloc, live)?;
    Ok(live)
}

// One row more for rows, of another head.
fn more_rows(alloc: Global, rows: &BitRows, segment: u32, from: u32) -> Result<MoreRows, AllocError>
    requires { length rows.now < 2 ^ 32 }
    ensures row { IfOk result (λ m. m.row ≡ turned_row segment from) }
    ensures room { IfOk result (λ m. length rows.now < m.room) }
{
    let row = BitRow::begin(alloc, segment, from, &Bits::new(alloc))?;
    MoreRows::with_room(alloc, row, rows.len() + 1)
}

impl HybridStore {
    // The number of the next segment of a relation.
    pub(crate) fn next_segment(&self, relation: u8) -> u32
        requires { relation < length self.now.schema }
        ensures result { result ≡ length (list_at self.now.segments.items relation) }
        ensures few { result ≤ 2048 }
    {
        self.list(relation).as_slice().len() as u32
    }

    // What a new branch of a version has, by what the version has, and the rows of it.
    pub(crate) fn table_begun(
        &self,
        view: &LiveTable,
        more: u32,
        heads: &[Arc<Segment>],
        rows: &mut Vec<BitRows>,
    ) -> Result<LiveTable, AllocError>
        requires none { rows.old.items ≡ [] }
        requires more { more ≤ 1 }
        requires view { length view.now ≡ length self.now.schema }
        requires heads { length heads.now ≡ length self.now.schema }
        requires lived { (r : ℕ) → r < length self.now.schema
            → IsLived (begun_in self.now.segments.items more (map arc_value heads.now) view.now r) }
        ensures { IfOk result (λ t.
            AreBegun self.now.segments.items more (map arc_value heads.now) view.now
            (length self.now.schema) rows.new.items t) }
    {
        let mut relations = Vec::new(self.alloc);
        for relation in 0..self.width() {
            let segment = self.next_segment(relation) + more;
            let own = &heads[relation as usize];
            let live = begun_relation(self.alloc, view.relation(relation), segment, own)?;
            let row = rows_begun(self.alloc, &live)?;
            rows.push(row)?;
            relations.push(live)?;
        }
        Ok(LiveTable::of(relations))
    }

    // What a branch has with another head, and one row more for each relation.
    pub(crate) fn table_turned(
        &self,
        branch: u32,
        heads: &[Arc<Segment>],
        more: &mut Vec<MoreRows>,
    ) -> Result<LiveTable, AllocError>
        requires none { more.old.items ≡ [] }
        requires branch { branch < length self.now.lanes.items }
        requires heads { length heads.now ≡ length self.now.schema }
        requires lived { (r : ℕ) → r < length self.now.schema
            → IsLived (turned_in self.now.segments.items (map arc_value heads.now)
            (get_or self.now.lanes.items branch no_kept).head r) }
        ensures { IfOk result (λ t.
            AreTurned self.now.segments.items (get_or self.now.lanes.items branch no_kept)
            (length (get_or self.now.lanes.items branch no_kept).seconds - 1)
            (map arc_value heads.now) (length self.now.schema) more.new.items t) }
    {
        let mut relations = Vec::new(self.alloc);
        for relation in 0..self.width() {
            let segment = self.next_segment(relation);
            let lane = self.lane(branch);
            let from = (lane.count() - 1) as u32;
            let next = more_rows(self.alloc, lane.rows(relation), segment, from)?;
            more.push(next)?;
            let own = &heads[relation as usize];
            let live = turned_relation(self.alloc, self.lived(branch, relation), segment, own)?;
            relations.push(live)?;
        }
        Ok(LiveTable::of(relations))
    }
}
