//! A segment with the bits that a version has of it.
ghost use Rattle.std.specs.Prelude.{◌≡◌, ◌+◌, ◌*◌, ◌^◌, ◌<◌, ◌≤◌, ◌==◌, false, true, List, length, None, IfNone, IfOk, IfSome};
ghost use Rattle.db_value.specs.declared.record.Record.{Record};
ghost use Rattle.plain_bits.specs.Truth.{bit_of};
ghost use Rattle.record_page.specs.Page.{record_at};
ghost use Rattle.segment.specs.Pages.{AreWide};
ghost use Rattle.hybrid_view.specs.Live.{part_of, has_live, slot_in};

use crate::commit::{cleared, put_bits, strikes};
use crate::puts::PutRows;
use db_value::{Record, Steps};
use plain_bits::Bits;
use segment::Segment;
use std::alloc::{AllocError, Global};
use std::marker::Model;
use std::sync::Arc;
use std::sync::ledger::Ledger;

/// A segment as it was with so many records, which records of it are live, and its number. Both are
/// shared with other versions.
#[derive(Drop)]
pub struct LivePart {
    segment: u32,
    records: Arc<Segment>,
    bits: Arc<Bits>,
}

impl Model for LivePart {
    ghost use Rattle.std.specs.Arc.{arc_value};
    ghost use Rattle.hybrid_view.specs.Live.{Piece, piece_code};

    ghost Value = { Piece };

    ghost coded = { piece_code };

    ghost view = { λ p. record { segment = p.segment; rows = arc_value p.records; bits = arc_value p.bits } };
}

impl LivePart {
    ghost use Rattle.std.specs.Arc.{arc_value};

    /// A segment with its number, and which records of it are live.
    pub fn of(segment: u32, records: Arc<Segment>, bits: Arc<Bits>) -> LivePart
        ensures { result
            ≡ record { segment = segment; rows = arc_value records; bits = arc_value bits } }
    {
        LivePart {
            segment,
            records,
            bits,
        }
    }

    /// A link to its segment.
    pub fn share_records(&self) -> Result<Arc<Segment>, AllocError>
        ensures { IfOk result (λ s. arc_value s ≡ self.now.rows) }
    {
        Arc::try_clone(&self.records)
    }

    /// Which of its records are live.
    pub fn bits(&self) -> &Bits
        ensures { result.now ≡ self.now.bits }
    {
        &self.bits
    }

    /// The number of its segment.
    pub fn segment(&self) -> u32
        ensures { result ≡ self.now.segment }
    {
        self.segment
    }

    /// How many slots it has.
    pub fn slots(&self) -> u32
        ensures { result ≡ length self.now.rows.records }
    {
        self.records.len()
    }

    /// The id of the part: the number of the segment, and how many records it has.
    pub fn id(&self) -> u64
        ensures { result ≡ (part_of self.now).id }
    {
        u64::from(self.segment) * 0x1_0000_0000 + u64::from(self.records.len())
    }

    /// Is the record in a slot live?
    pub fn live(&self, slot: u32) -> bool
        ensures { result ≡ bit_of self.now.bits slot }
    {
        slot < self.bits.len() && self.bits.get(slot)
    }

    /// The slot of a live record with a key, or `None` if there is no such record. It passes over the
    /// records with the key that are later and not live.
    #[tactic(auto, using(crate::proofs::WalkLemmas::left_begun, crate::proofs::WalkLemmas::left_some, crate::proofs::WalkLemmas::left_more, crate::proofs::WalkLemmas::left_less, crate::proofs::WalkLemmas::left_none))]
    pub fn find(&self, key: u64) -> Option<u32>
        ensures none { IfNone result
            (slot_in 0 self.now.rows.records (bit_of self.now.bits) key ≡ None) }
        ensures slot { IfSome result (λ slot. slot < length self.now.rows.records) }
        ensures live { IfSome result (λ slot. bit_of self.now.bits slot ≡ true) }
        ensures key { IfSome result (λ slot. (record_at self.now.rows.records slot).key ≡ key) }
    {
        let mut at = self.records.last(key);
        while let Some(slot) = at {
            if self.live(slot) {
                return Some(slot);
            }
            at = self.records.before(slot);
        }
        None
    }

    /// Is something of it live?
    pub fn has_live(&self) -> bool
        ensures { result ≡ has_live self.now }
    {
        self.bits.count() > 0
    }

    /// The record in a slot, at the cost of one step.
    pub fn read<L: Ledger>(&self, slot: u32, into: &mut Record, steps: &mut Steps<L>)
        requires { slot < length self.now.rows.records }
        ensures row { into.new ≡ record_at self.now.rows.records slot }
        ensures cost { steps.new ≡ steps.old + 1 }
    {
        self.records.read(slot, into, steps);
    }

    /// The same part, which shares all with this one.
    pub fn duplicate(&self) -> Result<LivePart, AllocError>
        ensures { IfOk result (λ p. p ≡ self.now) }
    {
        Ok(LivePart {
            segment: self.segment,
            records: Arc::try_clone(&self.records)?,
            bits: Arc::try_clone(&self.bits)?,
        })
    }

    /// The part with these records in place of its own.
    pub fn with_records(&self, records: Arc<Segment>) -> Result<LivePart, AllocError>
        ensures { IfOk result (λ p. p ≡ record self.now { rows = arc_value records }) }
    {
        Ok(LivePart {
            segment: self.segment,
            records,
            bits: Arc::try_clone(&self.bits)?,
        })
    }
}

impl LivePart {
    ghost use Rattle.std.specs.Arc.{arc_value};
    ghost use Rattle.hybrid_view.specs.RowPlaces.{Next};

    /// The part after a commit, where it isn't the head: without the records that stood in some places.
    pub fn without(
        &self,
        alloc: Global,
        places: &[Option<(u32, u32)>],
        head: u32,
    ) -> Result<LivePart, AllocError>
        requires covers { length self.now.bits ≤ length self.now.rows.records }
        requires other { (self.now.segment == head) ≡ false }
        ensures { IfOk result (λ p. (more : List Record) → Next places.now head more self.now p) }
    {
        if !strikes(self.segment, places) {
            return self.duplicate();
        }
        let bits = cleared(&self.bits, self.segment, places)?;
        Ok(LivePart {
            segment: self.segment,
            records: Arc::try_clone(&self.records)?,
            bits: Arc::new(alloc, bits)?,
        })
    }

    /// The head after a commit: its segment has new records behind its own.
    pub fn with_rows(
        &self,
        alloc: Global,
        places: &[Option<(u32, u32)>],
        rows: &PutRows<'_>,
    ) -> Result<LivePart, AllocError>
        requires covers { length self.now.bits ≤ length self.now.rows.records }
        requires wide { AreWide self.now.rows.widths rows.now }
        requires few { length self.now.rows.records + length rows.now < 2 ^ 32 }
        ensures { IfOk result (λ p. Next places.now self.now.segment rows.now self.now p) }
    {
        let from = self.records.len();
        let records = rows.behind(&self.records)?;
        let mut bits = cleared(&self.bits, self.segment, places)?;
        put_bits(&mut bits, from, records.len())?;
        Ok(LivePart {
            segment: self.segment,
            records: Arc::new(alloc, records)?,
            bits: Arc::new(alloc, bits)?,
        })
    }

    /// The part after a commit.
    pub fn next(
        &self,
        alloc: Global,
        places: &[Option<(u32, u32)>],
        head: u32,
        rows: &PutRows<'_>,
    ) -> Result<LivePart, AllocError>
        requires covers { length self.now.bits ≤ length self.now.rows.records }
        requires wide { self.now.segment ≡ head → AreWide self.now.rows.widths rows.now }
        requires few { self.now.segment ≡ head
            → length self.now.rows.records + length rows.now < 2 ^ 32 }
        ensures { IfOk result (λ p. Next places.now head rows.now self.now p) }
    {
        if self.segment == head {
            return self.with_rows(alloc, places, rows);
        }
        self.without(alloc, places, head)
    }
}
