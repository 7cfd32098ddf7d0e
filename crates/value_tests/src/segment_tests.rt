//! Segments over several pages, and over more than a block of them, with keys that come again.
ghost use Rattle.std.specs.Prelude.{◌≡◌, ◌+◌, ◌*◌, ◌^◌, ◌<◌, ◌≤◌, length, IfOk, IfSome};
ghost use Rattle.segment.specs.Pages.{AreWide, page_count};

use crate::asserts::holds;
use crate::rows::{number, row, text};
use db_value::{Record, Records, Steps, Value, Widths};
use segment::Segment;
use std::alloc::{AllocError, Global};
use std::marker::Brand;
use std::process::Abort;
use std::sync::ledger::{Blank, Ledger};
use std::test::Fail;

// The value of a slot in a column: the slot, or a letter that goes by it.
fn value_of(slot: u32, width: u8) -> Value {
    if width == 0 {
        return number(i64::from(slot));
    }
    text(&[b'a' + (slot % 26) as u8])
}

fn row_of(key: u32, slot: u32, widths: &Widths) -> Record {
    let widths = widths.as_slice();
    let mut values = [number(0); 15];
    for at in 0..widths.len() {
        values[at] = value_of(slot, widths[at]);
    }
    row(u64::from(key), &values[..widths.len()])
}

// Records that have their slots as fields, and the slots modulo a number as keys, from a slot on, if
// they meet the widths.
fn rows_of(
    alloc: Global,
    widths: &Widths,
    first: u32,
    count: u32,
    keys: u32,
) -> Result<Option<Records>, AllocError>
    requires keys { 0 < keys }
    ensures wide { IfOk result (λ o. IfSome o (λ rows. AreWide widths.now rows)) }
    ensures count { IfOk result (λ o. IfSome o (λ rows. length rows ≡ count)) }
{
    let mut rows = Records::with_room(alloc, count as usize, 16 * count as usize)?;
    for place in 0..count {
        let slot = first.wrapping_add(place);
        let row = row_of(slot % keys, slot, widths);
        if !widths.meets(&row.fields) {
            return Ok(None);
        }
        rows.push(&row)?;
    }
    Ok(Some(rows))
}

// The segment with so many records more, or as it is if none meet its widths.
fn grown_once(alloc: Global, segment: &Segment, by: u32, keys: u32) -> Result<Segment, AllocError>
    requires keys { 0 < keys }
    requires few { length segment.now.records + by < 2 ^ 32 }
    ensures { IfOk result (λ s. length s.records ≤ length segment.now.records + by) }
{
    let Some(rows) = rows_of(alloc, &segment.widths(), segment.len(), by, keys)? else {
        let same = segment.duplicate()?;
        return Ok(same);
    };
    let longer = segment.extended(&rows)?;
    Ok(longer)
}

// The segment with 64 times so many records more.
fn grown(alloc: Global, segment: &Segment, by: u32, keys: u32) -> Result<Segment, AllocError>
    requires keys { 0 < keys }
    requires small { length segment.now.records < 2 ^ 30 }
    requires by { by < 2 ^ 16 }
    ensures few { IfOk result (λ s. length s.records ≤ length segment.now.records + 64 * by) }
{
    let mut now = segment.duplicate()?;
    for _step in 0..64u32 {
        now = grown_once(alloc, &now, by, keys)?;
    }
    Ok(now)
}

// The first slot whose record is read wrong, or whose slot before with the same key is told wrong,
// or the length.
fn first_wrong<L: Ledger>(segment: &Segment, keys: u32, blank: Blank) -> u32
    requires name { blank.name ≡ L.name }
    requires parts { blank.parts ≡ L.parts }
    requires some { 0 < L.parts }
    requires keys { 0 < keys }
{
    let mut steps = Steps::<L>::open(blank);
    let mut read = Record::blank();
    let widths = segment.widths();
    for slot in 0..segment.len() {
        segment.read(slot, &mut read, &mut steps);
        if read != row_of(slot % keys, slot, &widths) {
            return slot;
        }
        if segment.before(slot) != slot.checked_sub(keys) {
            return slot;
        }
    }
    segment.len()
}

fn right(segment: &Segment, keys: u32) -> u32
    requires { 0 < keys }
{
    first_wrong::<Brand>(segment, keys, Blank::new(1))
}

// Is the last slot of each key told, and of one more that no record has?
fn are_last_told(segment: &Segment, keys: u32) -> bool
    requires { 0 < keys }
{
    let len = segment.len();
    for key in 0..keys {
        let last = if key < len {
            Some(len - 1 - (len - 1 - key) % keys)
        } else {
            None
        };
        if segment.last(u64::from(key)) != last {
            return false;
        }
    }
    segment.last(u64::from(keys)).is_none()
}

// How many records the pages have, one after another.
fn in_pages(segment: &Segment) -> u64 {
    let mut count = 0u64;
    for index in 0..segment.pages() {
        count = count.wrapping_add(u64::from(segment.page(index).len()));
    }
    count
}

fn is_right(segment: &Segment, records: u32, keys: u32, pages: u32) -> bool
    requires { 0 < keys }
{
    segment.len() == records
        && segment.pages() == pages
        && in_pages(segment) == u64::from(records)
        && right(segment, keys) == records
        && are_last_told(segment, keys)
}

/// How a segment grows: its widths, how many records it gets at a time, how many keys they have, and
/// its pages after 64 times and after 128 times.
type Growth = (&'static [u8], u32, u32, u32, u32);

#[rattlefmt::skip]
const GROWTHS: [(&str, Growth); 11] = [
    //                                   widths    at a time  keys   pages
    ("nothing",                         (&[0],     0,         1,     0,     0)),
    ("one key",                         (&[0],     1,         1,     1,     1)),
    ("wide records one by one",         (&[0; 15], 1,         7,     3,     5)),
    ("as many as a wide page has",      (&[0; 15], 31,        31,    64,    128)),
    ("fields of two pages",             (&[0, 0],  34,        640,   13,    26)),
    ("as many as a page has",           (&[0],     255,       5000,  64,    128)),
    ("one more than a page has",        (&[0],     256,       640,   65,    129)),
    ("few keys",                        (&[0],     64,        7,     17,    33)),
    ("three at a time",                 (&[0],     3,         50,    1,     2)),
    ("as many texts as a page has",     (&[1],     453,       900,   64,    128)),
    ("texts beside numbers",            (&[9, 0],  163,       50,    64,    128)),
];

fn grows(alloc: Global, growth: &Growth) -> Result<bool, AllocError> {
    let (widths, by, keys, first, second) = *growth;
    let Some(widths) = Widths::of(widths) else {
        return Ok(false);
    };
    if 1000 < by || keys == 0 {
        return Ok(false);
    }
    let none = Segment::new(alloc, &widths)?;
    let half = grown(alloc, &none, by, keys)?;
    let whole = grown(alloc, &half, by, keys)?;
    Ok(is_right(&half, 64 * by, keys, first) && is_right(&whole, 128 * by, keys, second))
}

#[test]
fn fills_pages_one_after_another(rt: HostRuntime) -> Result<(), Fail> {
    for (name, growth) in &GROWTHS {
        holds(&rt, name, grows(rt.alloc(), growth)?);
    }
    Ok(())
}
