//! What a new store keeps: master, with an empty head in each relation.
ghost use Rattle.std.specs.Prelude.{◌≡◌, ℕ, ◌<◌, ◌≤◌, ◌∷◌, [], true, Some, None, length, map, IfOk};
ghost use Rattle.std.specs.Arc.{arc_value};
ghost use Rattle.std.proofs.Common.{get_or};
ghost use Rattle.db_value.specs.Relations.{widths_at, has_columns, is_counted};
ghost use Rattle.db_store.specs.Dataset.{root};
ghost use Rattle.hybrid_view.specs.Live.{lived_at};
ghost use Rattle.bit_rows.specs.Kept.{first_row};
ghost use Rattle.bit_rows.specs.Segments.{no_list, most_segments};
ghost use Rattle.hybrid_store.specs.New.{own_at, first_lived, IsFirst};

use bit_rows::{BitRow, BitRows, HybridLane, KeptSegments};
use db_value::schema::widths_of;
use db_value::{Name, Relation, VersionPlace};
use hybrid_view::{HybridView, LivePart, LiveRelation, LiveTable};
use plain_bits::Bits;
use segment::Segment;
use std::alloc::{AllocError, Global};
use std::sync::Arc;

/// Where the first version was made.
pub const ROOT: VersionPlace = VersionPlace {
    branch: 0,
    position: 0,
};

// A segment without records for a relation.
#[tactic(auto, using(db_value::proofs::SchemaLemmas::columns_widths))]
fn new_segment(alloc: Global, relation: &Relation) -> Result<Segment, AllocError>
    requires { has_columns relation.now ≡ true }
    ensures { IfOk result
        (λ s. s ≡ record { widths = map (λ c. c.width) relation.now.columns; records = [] }) }
{
    let widths = widths_of(relation.columns.as_slice());
    Segment::new(alloc, &widths)
}

/// A segment without records for each relation.
pub fn new_heads(alloc: Global, relations: &[Relation]) -> Result<Vec<Arc<Segment>>, AllocError>
    requires { is_counted relations.now ≡ true }
    ensures count { IfOk result (λ v. length v.items ≡ length relations.now) }
    ensures each { IfOk result
        (λ v. (r : ℕ) → r < length relations.now
        → own_at (map arc_value v.items) r
        ≡ record { widths = widths_at relations.now r; records = [] }) }
{
    let mut heads = Vec::new(alloc);
    for relation in relations {
        let segment = new_segment(alloc, relation)?;
        heads.push(Arc::new(alloc, segment)?)?;
    }
    Ok(heads)
}

// The segments of a relation whose one head is master's.
fn new_list(alloc: Global, head: &Arc<Segment>) -> Result<KeptSegments, AllocError>
    ensures all { IfOk result
        (λ k. k.all ≡ record { head = Some 0; rows = arc_value head.now } ∷ []) }
    ensures room { IfOk result (λ k. most_segments ≤ k.room) }
{
    let mut list = KeptSegments::with_room(alloc)?;
    list.add(0, Arc::try_clone(head)?);
    Ok(list)
}

/// The segments of each relation, whose one head is master's.
pub fn new_segments(alloc: Global, heads: &[Arc<Segment>]) -> Result<Vec<KeptSegments>, AllocError>
    ensures count { IfOk result (λ v. length v.items ≡ length heads.now) }
    ensures all { IfOk result
        (λ v. (r : ℕ) → r < length heads.now
        → (get_or v.items r no_list).all
        ≡ record { head = Some 0; rows = own_at (map arc_value heads.now) r } ∷ []) }
    ensures room { IfOk result
        (λ v. (r : ℕ) → r < length heads.now → most_segments ≤ (get_or v.items r no_list).room) }
{
    let mut lists = Vec::new(alloc);
    for head in heads {
        lists.push(new_list(alloc, head)?)?;
    }
    Ok(lists)
}

// What master has at first of a relation: an empty head.
fn new_live(alloc: Global, head: &Arc<Segment>) -> Result<LiveRelation, AllocError>
    requires { (arc_value head.now).records ≡ [] }
    ensures { IfOk result (λ l. l ≡ first_lived (arc_value head.now)) }
{
    let bits = Arc::new(alloc, Bits::new(alloc))?;
    let part = LivePart::of(0, Arc::try_clone(head)?, bits);
    LiveRelation::empty(alloc, part)
}

// The same of each relation.
fn new_table(alloc: Global, heads: &[Arc<Segment>]) -> Result<LiveTable, AllocError>
    requires { (r : ℕ) → r < length heads.now → (own_at (map arc_value heads.now) r).records ≡ [] }
    ensures count { IfOk result (λ t. length t ≡ length heads.now) }
    ensures each { IfOk result
        (λ t. (r : ℕ) → r < length heads.now
        → lived_at t r ≡ first_lived (own_at (map arc_value heads.now) r)) }
{
    let mut relations = Vec::new(alloc);
    for head in heads {
        let live = new_live(alloc, head)?;
        live.told();
        relations.push(Arc::new(alloc, live)?)?;
    }
    Ok(LiveTable::of(relations))
}

// The row of an empty head.
fn new_row(alloc: Global) -> Result<BitRows, AllocError>
    ensures { IfOk result (λ rows. rows ≡ first_row ∷ []) }
{
    let mut rows = Vec::new(alloc);
    rows.push(BitRow::begin(alloc, 0, 0, &Bits::new(alloc))?)?;
    Ok(BitRows::of(rows))
}

// The same for so many relations.
fn new_rows(alloc: Global, width: usize) -> Result<Vec<BitRows>, AllocError>
    ensures count { IfOk result (λ v. length v.items ≡ width) }
    ensures each { IfOk result (λ v. (r : ℕ) → r < width → get_or v.items r [] ≡ first_row ∷ []) }
{
    let mut all = Vec::new(alloc);
    for relation in 0..width {
        let _relation = relation;
        all.push(new_row(alloc)?)?;
    }
    Ok(all)
}

/// The lane of master, with these heads.
pub fn new_lane(alloc: Global, name: Name, heads: &[Arc<Segment>]) -> Result<HybridLane, AllocError>
    requires { (r : ℕ) → r < length heads.now → (own_at (map arc_value heads.now) r).records ≡ [] }
    ensures lane { IfOk result
        (λ l. l ≡ record {
          name = name;
          origin = root;
          base = root;
          seconds = None ∷ [];
          rows = l.rows;
          head = l.head;
          room = l.room;
        }) }
    ensures room { IfOk result (λ l. 1 ≤ l.room) }
    ensures first { IfOk result (IsFirst (length heads.now) (map arc_value heads.now)) }
{
    let table = new_table(alloc, heads)?;
    let head = HybridView::of(Arc::new(alloc, table)?);
    let rows = new_rows(alloc, heads.len())?;
    HybridLane::begin(alloc, name, ROOT, ROOT, rows, head)
}
