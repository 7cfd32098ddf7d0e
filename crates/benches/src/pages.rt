//! The calls of pages and segments: all their records are read, one after another, or one is put after them.
ghost use Rattle.std.specs.Prelude.{◌≡◌, ◌<◌, ◌≤◌, length, IfOk};
ghost use Rattle.segment.specs.Pages.{AreWide};

use crate::row::{Kind, Row};
use crate::timing::{Round, time};
use anyhow::Result;
use db_value::{Fields, Record, Records, Steps, Value, Widths};
use record_page::Page;
use segment::Segment;
use std::alloc::{AllocError, Global};
use std::marker::Brand;
use std::rt::Clock;
use std::sync::ledger::{Blank, Ledger};

const RECORDS: u32 = 262_144;

// A segment of 262,144 records, and one record more.
#[derive(Drop)]
struct Stored {
    kind: Kind,
    calls: u32,
    segment: Segment,
    more: Records,
    ghost wide: { AreWide segment.widths more },
    ghost one: { length more ≡ 1 },
    ghost many: { length segment.records ≡ 262144 },
}

// A record whose fields are its key.
fn row_of(key: u64, fields: u8) -> Record
    requires some { 0 < fields }
    requires few { fields ≤ 15 }
{
    let mut row = Record::blank();
    row.key = key;
    let value = Value::Number {
        value: key.cast_signed(),
    };
    if let Some(made) = Fields::of(&[value; 15][..fields as usize]) {
        row.fields = made;
    }
    row
}

// So many records of numbers, which meet the widths.
fn rows_of(alloc: Global, widths: &Widths, fields: u8, count: u32) -> Result<Records, AllocError>
    requires some { 0 < fields }
    requires few { fields ≤ 15 }
    ensures wide { IfOk result (λ rows. AreWide widths.now rows) }
    ensures count { IfOk result (λ rows. length rows ≡ count) }
{
    let mut rows = Records::with_room(alloc, count as usize, 0)?;
    for key in 0..count {
        let row = row_of(u64::from(key), fields);
        if !widths.meets(&row.fields) {
            return Err(AllocError);
        }
        rows.push(&row)?;
    }
    Ok(rows)
}

fn segment_of(alloc: Global, widths: &Widths, fields: u8) -> Result<Segment, AllocError>
    requires some { 0 < fields }
    requires few { fields ≤ 15 }
    ensures widths { IfOk result (λ segment. segment.widths ≡ widths.now) }
    ensures count { IfOk result (λ segment. length segment.records ≡ 262144) }
{
    let rows = rows_of(alloc, widths, fields, RECORDS)?;
    let segment = Segment::new(alloc, widths)?;
    let segment = segment.extended(&rows)?;
    Ok(segment)
}

// The sum of a record's key and its fields.
fn sum_of(row: &Record) -> u64 {
    let mut sum = row.key;
    let mut walk = row.fields.walk();
    for _ in 0..row.fields.count() {
        if let Some(Value::Number { value }) = walk.next() {
            sum = sum.wrapping_add(value.cast_unsigned());
        }
    }
    sum
}

// The sum of all that is in a page's records.
fn read_page<L: Ledger>(page: &Page, into: &mut Record, steps: &mut Steps<L>) -> u64 {
    let mut sum = 0u64;
    for slot in 0..page.len() {
        page.read(slot, into, steps);
        sum = sum.wrapping_add(sum_of(into));
    }
    sum
}

// The first page, read so many times.
fn read_pages<L: Ledger>(stored: &Stored, into: &mut Record, steps: &mut Steps<L>) -> u64 {
    let mut sum = 0u64;
    if stored.segment.pages() != 0 {
        let page = stored.segment.page(0);
        for _ in 0..stored.calls {
            sum = sum.wrapping_add(read_page(page, into, steps));
        }
    }
    sum
}

// The sum of all that is in a segment's records.
fn read_segment<L: Ledger>(segment: &Segment, into: &mut Record, steps: &mut Steps<L>) -> u64 {
    let mut sum = 0u64;
    for slot in 0..segment.len() {
        segment.read(slot, into, steps);
        sum = sum.wrapping_add(sum_of(into));
    }
    sum
}

fn read_stored<L: Ledger>(stored: &Stored, blank: Blank) -> u64
    requires name { blank.name ≡ L.name }
    requires parts { blank.parts ≡ L.parts }
    requires some { 0 < L.parts }
{
    let mut steps = Steps::<L>::open(blank);
    let mut into = Record::blank();
    match stored.kind {
        Kind::Segment => read_segment(&stored.segment, &mut into, &mut steps),
        _ => read_pages(stored, &mut into, &mut steps),
    }
}

// How many records segments have that are longer by one record each, all made of the same one.
fn extend_often(stored: &Stored) -> Result<u64, AllocError> {
    let mut sum = 0u64;
    for _ in 0..stored.calls {
        let longer = stored.segment.extended(&stored.more)?;
        sum = sum.wrapping_add(u64::from(longer.len()));
    }
    Ok(sum)
}

impl Round for Stored {
    fn make(&mut self, _alloc: Global) -> Result<u64, AllocError> {
        match self.kind {
            Kind::Extend => extend_often(self),
            _ => Ok(read_stored::<Brand>(self, Blank::new(1))),
        }
    }
}

/// Times the records of a page or of a segment, or segments that are longer by one.
pub fn time_pages<R: Clock + Print + AllocGlobal>(rt: &R, row: &Row, rounds: u32) -> Result<()> {
    let fields = if matches!(row.kind, Kind::WidePage) {
        15
    } else {
        2
    };
    let Some(widths) = [0u8; 15].get(..fields as usize).and_then(Widths::of) else {
        return Err(AllocError.into());
    };
    let segment = segment_of(rt.alloc(), &widths, fields)?;
    let more = rows_of(rt.alloc(), &widths, fields, 1)?;
    let mut stored = Stored {
        kind: row.kind,
        calls: row.calls,
        segment,
        more,
    };
    time(rt, row, rounds, &mut stored)
}
