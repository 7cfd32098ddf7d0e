//! One segment.
ghost use Rattle.std.specs.Prelude.{◌≡◌, ◌+◌, ◌*◌, ◌^◌, ◌<◌, ◌≤◌, ◌++◌, [], length, IfOk};
ghost use Rattle.record_page.specs.Page.{capacity, record_at};
ghost use Rattle.segment.specs.Keys.{AreSlots, last_slot, slot_before};
ghost use Rattle.segment.specs.Pages.{AreWide, page_count, page_of};

use crate::block::{BLOCK_PAGES, Blocks, front_of, page_in, put_page};
use crate::keys::KeySlots;
use crate::longer::LongerSegment;
use crate::tail::Tail;
use db_value::{Record, Records, Steps, Widths};
use record_page::{Page, capacity_of};
use std::alloc::{AllocError, Global};
use std::marker::{Brand, Model};
use std::sync::Arc;
use std::sync::ledger::{Blank, Ledger};

/// A segment is a list of fewer than 2^32 records of some widths. All its pages but the last one are
/// full.
#[derive(Drop)]
pub struct Segment {
    widths: Widths,
    most: u32,
    len: u32,
    blocks: Arc<Blocks>,
    tail: Vec<Arc<Page>>,
    slots: KeySlots,
}

impl Model for Segment {
    ghost use Rattle.std.specs.Prelude.{◌≡◌, ◌<◌, ◌≤◌, ◌++◌, length, map};
    ghost use Rattle.std.specs.Arc.{arc_value};
    ghost use Rattle.record_page.specs.Page.{Rows, rows_code, capacity};
    ghost use Rattle.segment.specs.Keys.{AreSlots};
    ghost use Rattle.segment.specs.Pages.{IsLaid, pages_of, records_of};

    ghost Value = { Rows };

    ghost coded = { rows_code };

    ghost view = { λ s. record { widths = s.widths; records = records_of (pages_of (arc_value s.blocks) ++ map arc_value s.tail.items) } };

    ghost invariant = { λ s. ((s.len ≡ length (records_of (pages_of (arc_value s.blocks) ++ map arc_value s.tail.items))) × AreSlots s.slots (records_of (pages_of (arc_value s.blocks) ++ map arc_value s.tail.items)))
        × ((s.most ≡ capacity s.widths) × IsLaid s.widths (arc_value s.blocks) (map arc_value s.tail.items)) };
}

impl Segment {
    ghost use Rattle.segment.specs.Tails.{rows_in};

    /// A segment without records, for records of these widths.
    pub fn new(alloc: Global, widths: &Widths) -> Result<Segment, AllocError>
        ensures { IfOk result (λ s. s ≡ record { widths = widths.now; records = [] }) }
    {
        Ok(Segment {
            widths: *widths,
            most: capacity_of(widths.as_slice()) as u32,
            len: 0,
            blocks: Arc::new(alloc, Blocks::new(alloc))?,
            tail: Vec::new(alloc),
            slots: KeySlots::new(alloc)?,
        })
    }

    /// The segment with further records after its own. The two share all pages that are full here.
    pub fn extended(&self, rows: &Records) -> Result<Segment, AllocError>
        requires wide { AreWide self.now.widths rows.now }
        requires few { length self.now.records + length rows.now < 2 ^ 32 }
        ensures { IfOk result (λ s.
            s ≡ record self.now { records = self.now.records ++ rows.now }) }
    {
        let mut longer = self.longer(rows.len())?;
        let mut row = Record::blank();
        for index in 0..rows.len() {
            rows.read(index, &mut row);
            longer = longer.with(&row)?;
        }
        longer.closed()
    }

    /// The segment with room for so many further records, which are put after its own one by one.
    pub fn longer(&self, more: usize) -> Result<LongerSegment, AllocError>
        ensures same { IfOk result (λ l. l ≡ self.now) }
        ensures wide { AreWide self.now.widths self.now.records }
    {
        let alloc = *self.tail.allocator();
        let len = self.len();
        let slots = self.slots.with_room(alloc, more)?;
        let tail = self.opened()?;
        Ok(LongerSegment::of(tail, slots, len))
    }

    // Its pages, as those of a segment that is being made.
    fn opened(&self) -> Result<Tail, AllocError>
        ensures rows { IfOk result (λ t. rows_in t ≡ self.now.records) }
        ensures widths { IfOk result (λ t. t.widths ≡ self.now.widths) }
    {
        let alloc = *self.tail.allocator();
        Tail::of(alloc, &self.widths, &self.blocks, self.tail.as_slice())
    }

    /// The segment of a tail's records.
    pub(crate) fn closed(mut tail: Tail, slots: KeySlots, len: u32) -> Result<Segment, AllocError>
        requires len { len ≡ length (rows_in tail) }
        requires wide { AreWide tail.widths (rows_in tail) }
        requires slots { AreSlots slots (rows_in tail) }
        ensures { IfOk result (λ s. s ≡ record { widths = tail.widths; records = rows_in tail }) }
    {
        if tail.last.len() > 0 {
            tail.fold()?;
            return Segment::with_last(tail, slots, len);
        }
        let Tail {
            widths,
            blocks,
            pages,
            ..
        } = tail;
        let most = capacity_of(widths.as_slice()) as u32;
        Ok(Segment {
            widths,
            most,
            len,
            blocks,
            tail: pages,
            slots,
        })
    }

    // The same, where the last page has records.
    fn with_last(tail: Tail, slots: KeySlots, len: u32) -> Result<Segment, AllocError>
        requires len { len ≡ length (rows_in tail) }
        requires wide { AreWide tail.widths (rows_in tail) }
        requires slots { AreSlots slots (rows_in tail) }
        requires some { 0 < length tail.last.records }
        requires room { length tail.pages.items < 64 }
        ensures { IfOk result (λ s. s ≡ record { widths = tail.widths; records = rows_in tail }) }
    {
        let _count = tail.last.len();
        let Tail {
            alloc,
            widths,
            blocks,
            mut pages,
            last,
        } = tail;
        put_page(alloc, &mut pages, last)?;
        let most = capacity_of(widths.as_slice()) as u32;
        Ok(Segment {
            widths,
            most,
            len,
            blocks,
            tail: pages,
            slots,
        })
    }

    // The page in which the record at a multiple of the capacity stands.
    fn page_there(&self, index: usize) -> &Page
        requires { index * capacity self.now.widths < length self.now.records }
        ensures { result.now ≡ page_of self.now index }
    {
        let block = index / BLOCK_PAGES;
        if block < self.blocks.count() {
            return self.blocks.page(block, index % BLOCK_PAGES);
        }
        page_in(
            self.tail.as_slice(),
            index - BLOCK_PAGES * self.blocks.count(),
        )
    }

    /// The widths of its columns.
    pub fn widths(&self) -> Widths
        ensures { result ≡ self.now.widths }
    {
        self.widths
    }

    /// How many records it has.
    pub fn len(&self) -> u32
        ensures count { result ≡ length self.now.records }
        ensures wide { AreWide self.now.widths self.now.records }
    {
        self.len
    }

    /// How many pages.
    pub fn pages(&self) -> u32
        ensures { result ≡ page_count self.now.widths (length self.now.records) }
    {
        let most = capacity_of(self.widths.as_slice());
        ((self.len as usize + (most - 1)) / most) as u32
    }

    /// A page.
    pub fn page(&self, index: u32) -> &Page
        requires { index < page_count self.now.widths (length self.now.records) }
        ensures { result.now ≡ page_of self.now index }
    {
        self.page_there(index as usize)
    }

    /// The record in a slot, at the cost of one step.
    pub fn read<L: Ledger>(&self, slot: u32, into: &mut Record, steps: &mut Steps<L>)
        requires { slot < length self.now.records }
        ensures row { into.new ≡ record_at self.now.records slot }
        ensures cost { steps.new ≡ steps.old + 1 }
    {
        let most = self.most;
        let page = self.page_there((slot / most) as usize);
        page.read((slot % most) as u16, into, steps);
    }

    // The key in a slot, read with a ledger of its own.
    fn key_read<L: Ledger>(&self, slot: u32, blank: Blank) -> u64
        requires slot { slot < length self.now.records }
        requires name { blank.name ≡ L.name }
        requires parts { blank.parts ≡ L.parts }
        requires some { 0 < L.parts }
        ensures { result ≡ (record_at self.now.records slot).key }
    {
        let mut steps = Steps::<L>::open(blank);
        let mut row = Record::blank();
        self.read(slot, &mut row, &mut steps);
        row.key
    }

    fn key_in(&self, slot: u32) -> u64
        requires { slot < length self.now.records }
        ensures { result ≡ (record_at self.now.records slot).key }
    {
        self.key_read::<Brand>(slot, Blank::new(1))
    }

    /// The last slot with a key, or `None` if no record has it.
    pub fn last(&self, key: u64) -> Option<u32>
        ensures { result ≡ last_slot self.now.records key }
    {
        self.slots.last_below(key, self.len)
    }

    /// The last slot before this one whose record has the same key, if there is one.
    pub fn before(&self, slot: u32) -> Option<u32>
        requires { slot < length self.now.records }
        ensures { result ≡ slot_before self.now.records slot }
    {
        self.slots.last_below(self.key_in(slot), slot)
    }

    /// An equal segment, which shares its pages with this one.
    pub fn duplicate(&self) -> Result<Segment, AllocError>
        ensures { IfOk result (λ s. s ≡ self.now) }
    {
        let tail = front_of(
            *self.tail.allocator(),
            self.tail.as_slice(),
            self.tail.len(),
        )?;
        Ok(Segment {
            widths: self.widths,
            most: self.most,
            len: self.len,
            blocks: Arc::try_clone(&self.blocks)?,
            tail,
            slots: self.slots.duplicate()?,
        })
    }
}
