//! The segments of a relation.
ghost use Rattle.std.specs.Prelude.{◌≡◌, ◌≤◌, ◌<◌, ◌++◌, ◌∷◌, [], length, map, set, IfOk, Some, None};
ghost use Rattle.std.specs.List.{All};
ghost use Rattle.std.specs.Arc.{arc_value};
ghost use Rattle.bit_rows.specs.Segments.{most_segments, kept_at, with_head, turned_list, all_of, HasMost};

use segment::Segment;
use std::alloc::{AllocError, Global};
use std::marker::Model;
use std::sync::Arc;

/// The most segments of a relation: each branch brings two at most.
const MOST_SEGMENTS: usize = 2048;

/// A segment, and the branch whose head it is.
#[derive(Drop)]
pub struct KeptSegment {
    head: Option<u32>,
    records: Arc<Segment>,
}

impl Model for KeptSegment {
    ghost use Rattle.std.specs.Arc.{arc_value};
    ghost use Rattle.bit_rows.specs.Segments.{KeptRecords, kept_records_code};

    ghost Value = { KeptRecords };

    ghost coded = { kept_records_code };

    ghost view = { λ k. record { head = k.head; rows = arc_value k.records } };
}

impl KeptSegment {
    /// The branch whose head it is.
    pub fn head(&self) -> Option<u32>
        ensures { result ≡ self.now.head }
    {
        self.head
    }

    /// Its records.
    pub fn records(&self) -> &Segment
        ensures { result.now ≡ self.now.rows }
    {
        &self.records
    }

    /// A link to its records.
    pub fn share(&self) -> Result<Arc<Segment>, AllocError>
        ensures { IfOk result (λ s. arc_value s ≡ self.now.rows) }
    {
        Arc::try_clone(&self.records)
    }

    /// The same segment, which shares its records with this one.
    pub fn duplicate(&self) -> Result<KeptSegment, AllocError>
        ensures { IfOk result (λ k. k ≡ self.now) }
    {
        Ok(KeptSegment {
            head: self.head,
            records: self.share()?,
        })
    }
}

/// The segments of a relation, with room for all that there can be.
#[derive(Drop)]
pub struct KeptSegments {
    items: Vec<KeptSegment>,
}

impl Model for KeptSegments {
    ghost use Rattle.std.specs.Prelude.{vec_capacity};
    ghost use Rattle.bit_rows.specs.Segments.{KeptList, kept_list_code};

    ghost Value = { KeptList };

    ghost coded = { kept_list_code };

    ghost view = { λ k. record { all = k.items.items; room = vec_capacity k.items } };
}

impl KeptSegments {
    /// No segments.
    pub fn with_room(alloc: Global) -> Result<KeptSegments, AllocError>
        ensures all { IfOk result (λ k. k.all ≡ []) }
        ensures room { IfOk result (λ k. most_segments ≤ k.room) }
    {
        Ok(KeptSegments {
            items: Vec::with_capacity(alloc, MOST_SEGMENTS)?,
        })
    }

    /// The segments.
    pub fn as_slice(&self) -> &[KeptSegment]
        ensures { result.now ≡ self.now.all }
    {
        &self.items
    }

    /// How many there are.
    pub fn count(&self) -> u32
        requires { length self.now.all ≤ most_segments }
        ensures { result ≡ length self.now.all }
    {
        self.items.len() as u32
    }

    /// A segment by its number.
    pub fn segment(&self, index: u32) -> &KeptSegment
        requires { index < length self.now.all }
        ensures { result.now ≡ kept_at self.now.all index }
    {
        &self.items[index as usize]
    }

    /// The same segments, which share their records with these.
    pub fn duplicate(&self, alloc: Global) -> Result<KeptSegments, AllocError>
        ensures all { IfOk result (λ k. k.all ≡ self.now.all) }
        ensures room { IfOk result (λ k. most_segments ≤ k.room) }
    {
        let mut items = Vec::with_capacity(alloc, MOST_SEGMENTS)?;
        for kept in &self.items {
            items.push(kept.duplicate()?)?;
        }
        Ok(KeptSegments { items })
    }

    /// Gives a segment these records.
    pub fn put(&mut self, segment: u32, records: Arc<Segment>)
        requires { segment < length self.old.all }
        ensures { self.new ≡ record self.old {
          all = set self.old.all segment
              (record (kept_at self.old.all segment) { rows = arc_value records });
        } }
    {
        self.items[segment as usize].records = records;
    }

    /// Adds another head of a branch: the one before becomes internal. It takes no memory.
    pub fn turn(&mut self, segment: u32, branch: u32, records: Arc<Segment>)
        requires segment { segment < length self.old.all }
        requires room { length self.old.all < self.old.room }
        ensures { self.new ≡ turned_list self.old segment branch (arc_value records) }
    {
        self.items[segment as usize].head = None;
        self.add(branch, records);
    }

    /// Adds the head of a branch. It takes no memory.
    pub fn add(&mut self, branch: u32, records: Arc<Segment>)
        requires { length self.old.all < self.old.room }
        ensures { self.new ≡ with_head self.old branch (arc_value records) }
    {
        self.push(Some(branch), records);
    }

    /// Adds a segment: the head of a branch, or an internal one. It takes no memory.
    pub fn push(&mut self, head: Option<u32>, records: Arc<Segment>)
        requires { length self.old.all < self.old.room }
        ensures { self.new ≡ record self.old {
          all = self.old.all ++ record { head = head; rows = arc_value records } ∷ [];
        } }
    {
        self.items.push_reserved(KeptSegment { head, records });
    }
}

/// The same segments of each relation, which share their records with these.
pub fn same_lists(alloc: Global, lists: &[KeptSegments]) -> Result<Vec<KeptSegments>, AllocError>
    ensures same { IfOk result (λ v. map all_of v.items ≡ map all_of lists.now) }
    ensures rooms { IfOk result (λ v. All HasMost v.items) }
{
    let mut all = Vec::with_capacity(alloc, lists.len())?;
    for list in lists {
        all.push(list.duplicate(alloc)?)?;
    }
    Ok(all)
}
