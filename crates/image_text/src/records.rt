//! The records of a segment of an image.
ghost use Rattle.std.specs.Prelude.{◌≡◌, ◌+◌, ◌^◌, ◌<◌, ◌≤◌, ◌++◌, length, map, IfOk, OnOk};
ghost use Rattle.db_value.specs.declared.record.Record.{Record};
ghost use Rattle.segment.specs.Pages.{AreWide};

use db_value::{Record, Records, Steps, Widths};
use record_page::Page;
use segment::{LongerSegment, Segment};
use std::alloc::{AllocError, Global};
use std::marker::{Brand, Model};
use std::sync::ledger::{Blank, Ledger};

/// Paged records are those of a segment, which stand on its pages: a list of them would take 16 bytes
/// more for each.
#[derive(Drop)]
pub struct PagedRecords {
    segment: Segment,
}

impl Model for PagedRecords {
    ghost use Rattle.std.specs.Prelude.{List};
    ghost use Rattle.db_value.specs.declared.record.Record.{Record};

    ghost Value = { List Record };

    ghost view = { λ p. p.segment.records };
}

// Puts the keys of a segment after others, where nobody counts the steps.
fn put_keys_of<L: Ledger>(
    keys: &mut Vec<u64>,
    segment: &Segment,
    blank: Blank,
) -> Result<(), AllocError>
    requires name { blank.name ≡ L.name }
    requires parts { blank.parts ≡ L.parts }
    requires some { 0 < L.parts }
    ensures { OnOk result (keys.new.items
        ≡ keys.old.items ++ map (λ (x : Record). x.key) segment.now.records) }
{
    let mut steps = Steps::<L>::open(blank);
    let mut row = Record::blank();
    for slot in 0..segment.len() {
        segment.read(slot, &mut row, &mut steps);
        keys.push(row.key)?;
    }
    Ok(())
}

// The records of a segment in a list, where nobody counts the steps.
fn list_of<L: Ledger>(alloc: Global, segment: &Segment, blank: Blank) -> Result<Records, AllocError>
    requires name { blank.name ≡ L.name }
    requires parts { blank.parts ≡ L.parts }
    requires some { 0 < L.parts }
    ensures { IfOk result (λ rows. rows ≡ segment.now.records) }
{
    let mut steps = Steps::<L>::open(blank);
    let mut row = Record::blank();
    let mut rows = Records::new(alloc);
    for slot in 0..segment.len() {
        segment.read(slot, &mut row, &mut steps);
        rows.push(&row)?;
    }
    Ok(rows)
}

impl PagedRecords {
    /// Those of this segment. They take no memory.
    pub fn of(segment: Segment) -> PagedRecords
        ensures { result ≡ segment.records }
    {
        PagedRecords { segment }
    }

    /// How many there are.
    pub fn len(&self) -> u32
        ensures { result ≡ length self.now }
    {
        self.segment.len()
    }

    /// Puts their keys after others.
    pub fn put_keys(&self, keys: &mut Vec<u64>) -> Result<(), AllocError>
        ensures { OnOk result (keys.new.items
            ≡ keys.old.items ++ map (λ (x : Record). x.key) self.now) }
    {
        put_keys_of::<Brand>(keys, &self.segment, Blank::new(1))
    }

    /// The same in a list.
    pub fn listed(&self, alloc: Global) -> Result<Records, AllocError>
        ensures { IfOk result (λ rows. rows ≡ self.now) }
    {
        list_of::<Brand>(alloc, &self.segment, Blank::new(1))
    }

    /// The segment of these records, each of which meets the widths. It shares their pages.
    pub fn as_segment(&self, alloc: Global, widths: &Widths) -> Result<Segment, AllocError>
        requires { AreWide widths.now self.now }
        ensures { IfOk result (λ s. s ≡ record { widths = widths.now; records = self.now }) }
    {
        if self.segment.widths().are_same(widths) {
            return self.segment.duplicate();
        }
        // Records may meet other widths than those of their pages. They are put on other pages then.
        let _count = self.len();
        let rows = self.listed(alloc)?;
        Segment::new(alloc, widths)?.extended(&rows)
    }
}

// Puts the records of a page after those of a segment, where nobody counts the steps.
fn put_records<L: Ledger>(
    longer: LongerSegment,
    page: &Page,
    blank: Blank,
) -> Result<LongerSegment, AllocError>
    requires name { blank.name ≡ L.name }
    requires parts { blank.parts ≡ L.parts }
    requires some { 0 < L.parts }
    requires widths { longer.widths ≡ page.now.widths }
    requires few { length longer.records + length page.now.records < 2 ^ 32 }
    ensures { IfOk result (λ l. l
        ≡ record longer { records = longer.records ++ page.now.records }) }
{
    let mut steps = Steps::<L>::open(blank);
    let mut row = Record::blank();
    let mut all = longer;
    for slot in 0..page.len() {
        page.read(slot, &mut row, &mut steps);
        all = all.with(&row)?;
    }
    Ok(all)
}

/// Puts the records of a page after those of a segment.
pub(crate) fn put_page(longer: LongerSegment, page: &Page) -> Result<LongerSegment, AllocError>
    requires widths { longer.widths ≡ page.now.widths }
    requires few { length longer.records + length page.now.records < 2 ^ 32 }
    ensures { IfOk result (λ l. l
        ≡ record longer { records = longer.records ++ page.now.records }) }
{
    put_records::<Brand>(longer, page, Blank::new(1))
}
