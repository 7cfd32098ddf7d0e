//! A page beside bytes written by hand.
use crate::asserts::{holds, same};
use crate::rows::{number, row, text, widest_row};
use db_value::{Record, Widths};
use record_page::Page;
use std::alloc::{AllocError, Global};
use std::process::Abort;
use std::test::Fail;

// A page with these records, as far as they meet the widths.
fn page_of(alloc: Global, widths: &Widths, rows: &[Record]) -> Result<Page, AllocError> {
    let mut page = Page::new(alloc, widths)?;
    for row in rows {
        if page.widths().meets(&row.fields) {
            let _ = page.push(row);
        }
    }
    Ok(page)
}

#[rattlefmt::skip]
const NUMBERS: [u8; 64] = [
    2, 0, 2, 0, 0, 0, 0, 0,                         0, 0, 0, 0, 0, 0, 0, 0,
    1, 0, 0, 0, 0, 0, 0, 0,                         2, 0, 0, 0, 0, 0, 0, 0,
    255, 255, 255, 255, 255, 255, 255, 255,         255, 255, 255, 255, 255, 255, 255, 255,
    0, 0, 0, 0, 0, 0, 0, 128,                       5, 0, 0, 0, 0, 0, 0, 0,
];

#[rattlefmt::skip]
const TEXTS: [u8; 60] = [
    2, 0, 2, 0, 0, 0, 0, 0,                         0, 0, 0, 0, 0, 0, 0, 0,
    1, 0, 0, 0, 0, 0, 0, 0,                         97, 98, 0, 0, 0, 0,
    5, 0, 0, 0, 0, 0, 0, 0,
    2, 0, 0, 0, 0, 0, 0, 0,                         120, 44, 32, 121, 126, 32,
    254, 255, 255, 255, 255, 255, 255, 255,
];

// The first place of a byte that isn't as written by hand, with zeros after what was written.
fn first_wrong(bytes: &[u8], by_hand: &[u8]) -> Option<usize> {
    for place in 0..bytes.len() {
        let expected = by_hand.get(place).copied().unwrap_or(0);
        if bytes[place] != expected {
            return Some(place);
        }
    }
    None
}

#[rattlefmt::skip]
const SPOILT: [(&str, usize, u8, bool); 9] = [
    // what is wrong                       place  byte  is a page
    ("nothing",                            0,     2,    true),
    ("more records than a page holds",     0,     171,  false),
    ("256 records",                        1,     1,    false),
    ("no fields",                          2,     0,    false),
    ("three fields",                       2,     3,    false),
    ("the first zero of the head",         3,     1,    false),
    ("the last zero of the head",          15,    1,    false),
    ("the first byte after the records",   64,    1,    false),
    ("the last byte",                      4095,  1,    false),
];

#[rattlefmt::skip]
const SPOILT_TEXTS: [(&str, usize, u8, bool); 8] = [
    // what is wrong                       place  byte  is a page
    ("another letter",                     24,    65,   true),
    ("a text that ends early",             25,    0,    true),
    ("a text without its first byte",      24,    0,    false),
    ("a byte after a zero",                28,    97,   false),
    ("a double quote",                     25,    34,   false),
    ("a byte below the space",             25,    31,   false),
    ("a byte above the last",              25,    127,  false),
    ("the first byte after the records",   60,    32,   false),
];

// Whether the bytes with another one at a place are a page, which then has these bytes.
fn are_page_with(
    alloc: Global,
    widths: &Widths,
    bytes: &[u8],
    place: usize,
    byte: u8,
) -> Result<bool, AllocError> {
    let mut bytes = Vec::from_slice(alloc, bytes)?;
    if place < bytes.len() {
        bytes[place] = byte;
    }
    match Page::of(alloc, widths, &bytes)? {
        Some(page) => Ok(page.bytes() == bytes.as_slice()),
        None => Ok(false),
    }
}

fn refuses_spoilt(
    rt: &impl Abort,
    page: &Page,
    alloc: Global,
    spoilt: &[(&str, usize, u8, bool)],
) -> Result<(), AllocError> {
    let widths = page.widths();
    for (name, place, byte, is) in spoilt {
        holds(
            rt,
            name,
            are_page_with(alloc, &widths, page.bytes(), *place, *byte)? == *is,
        );
    }
    Ok(())
}

#[test]
fn spells_two_records_as_by_hand(rt: HostRuntime) -> Result<(), Fail> {
    let widths = Widths::of(&[0, 0]).expect(&rt, "two numbers");
    let rows = [
        row(1, &[number(2), number(-1)]),
        row(u64::MAX, &[number(i64::MIN), number(5)]),
    ];
    let page = page_of(rt.alloc(), &widths, &rows)?;
    same(&rt, "the bytes", first_wrong(page.bytes(), &NUMBERS), None);
    same(&rt, "their number", page.bytes().len(), 4096);
    refuses_spoilt(&rt, &page, rt.alloc(), &SPOILT)?;
    let short = Page::of(rt.alloc(), &widths, &page.bytes()[1..])?;
    holds(&rt, "4,095 bytes", short.is_none());
    Ok(())
}

#[test]
fn spells_texts_as_by_hand(rt: HostRuntime) -> Result<(), Fail> {
    let widths = Widths::of(&[6, 0]).expect(&rt, "a text and a number");
    let rows = [
        row(1, &[text(b"ab"), number(5)]),
        row(2, &[text(b"x, y~ "), number(-2)]),
    ];
    let page = page_of(rt.alloc(), &widths, &rows)?;
    same(&rt, "the bytes", first_wrong(page.bytes(), &TEXTS), None);
    refuses_spoilt(&rt, &page, rt.alloc(), &SPOILT_TEXTS)?;
    Ok(())
}

// How many of the longest records a page of widths takes.
fn filled(alloc: Global, widths: &Widths) -> Result<u32, AllocError> {
    let row = widest_row(9, widths);
    let mut page = Page::new(alloc, widths)?;
    let mut count = 0u32;
    for _ in 0..500u32 {
        if !page.widths().meets(&row.fields) || page.push(&row).is_err() {
            return Ok(count);
        }
        count = count.wrapping_add(1);
    }
    Ok(count)
}

#[rattlefmt::skip]
const CAPACITIES: [(&str, &[u8], u32); 7] = [
    // columns                      widths          records
    ("a number",                    &[0],           255),
    ("two numbers",                 &[0, 0],        170),
    ("15 numbers",                  &[0; 15],       31),
    ("a text of 1",                 &[1],           453),
    ("a text of 64",                &[64],          56),
    ("a text of 9 and a number",    &[9, 0],        163),
    ("15 texts of 64",              &[64; 15],      4),
];

#[test]
fn holds_records_by_the_table(rt: HostRuntime) -> Result<(), Fail> {
    for (name, widths, count) in &CAPACITIES {
        let widths = Widths::of(widths).expect(&rt, name);
        same(&rt, name, filled(rt.alloc(), &widths)?, *count);
    }
    Ok(())
}
