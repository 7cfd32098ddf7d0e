//! The records in the bytes of a page.
ghost use Rattle.std.specs.Prelude.{◌≡◌, ◌+◌, ◌*◌, ◌<◌, ◌≤◌, [], length, IfOk, true};
ghost use Rattle.db_value.specs.Widths.{are_widths, meets};
ghost use Rattle.record_page.specs.Page.{capacity, record_at, rows_in, is_page, page_bytes, with_record};
ghost use Rattle.record_page.specs.Spelling.{record_size};
ghost use Rattle.record_page.specs.Laws.{IsSpelled};

use crate::head::{HEAD_BYTES, PAGE_BYTES, count_of, put_count};
use crate::spelling::{put_record, read_record};
use db_value::Record;
use std::alloc::{AllocError, Global};

/// The page has as many records as it holds.
#[derive(Clone, Copy)]
pub struct PageFull;

/// The bytes of a page without records.
pub(crate) fn blank(alloc: Global, widths: &[u8]) -> Result<Vec<u8>, AllocError>
    requires are { are_widths widths.now ≡ true }
    requires few { length widths.now ≤ 15 }
    ensures page { IfOk result (λ bytes. is_page widths.now bytes.items ≡ true) }
    ensures rows { IfOk result (λ bytes.
        rows_in widths.now bytes.items ≡ record { widths = widths.now; records = [] }) }
{
    let mut bytes = Vec::with_capacity(alloc, PAGE_BYTES)?;
    bytes.extend_from_slice(&[0, 0, widths.len() as u8])?;
    bytes.extend_from_slice(&[0u8; PAGE_BYTES - 3])?;
    Ok(bytes)
}

/// How many records there are, and that the bytes are their spelling.
pub(crate) fn many_in(widths: &[u8], bytes: &[u8]) -> u16
    requires are { are_widths widths.now ≡ true }
    requires page { is_page widths.now bytes.now ≡ true }
    ensures count { result ≡ length (rows_in widths.now bytes.now).records }
    ensures spelled { IsSpelled bytes.now (rows_in widths.now bytes.now) }
{
    count_of(bytes)
}

/// The bytes, as what they spell.
pub(crate) fn spelled<'a>(widths: &[u8], bytes: &'a [u8]) -> &'a [u8]
    requires are { are_widths widths.now ≡ true }
    requires page { is_page widths.now bytes.now ≡ true }
    ensures { result.now ≡ page_bytes (rows_in widths.now bytes.now) }
{
    let _ = widths;
    bytes
}

// Where the record in a slot stands.
fn place_of(widths: &[u8], size: u16, bytes: &[u8], slot: u16) -> usize
    requires size { size ≡ record_size widths.now }
    requires page { is_page widths.now bytes.now ≡ true }
    requires room { slot < capacity widths.now }
    ensures value { result ≡ 16 + slot * record_size widths.now }
    ensures room { result + record_size widths.now ≤ length bytes.now }
{
    HEAD_BYTES + slot as usize * size as usize
}

/// Reads the record in a slot, where each has so many bytes.
pub(crate) fn read_slot(widths: &[u8], size: u16, bytes: &[u8], slot: u16, into: &mut Record)
    requires size { size ≡ record_size widths.now }
    requires some { 0 < length widths.now }
    requires few { length widths.now ≤ 15 }
    requires page { is_page widths.now bytes.now ≡ true }
    requires there { slot < length (rows_in widths.now bytes.now).records }
    ensures { into.new ≡ record_at (rows_in widths.now bytes.now).records slot }
{
    let at = place_of(widths, size, bytes, slot);
    read_record(&bytes[at..], widths, into);
}

/// Puts a record after the others, where each has so many bytes.
pub(crate) fn push_record(widths: &[u8], size: u16, bytes: &mut [u8], row: &Record)
    requires size { size ≡ record_size widths.now }
    requires are { are_widths widths.now ≡ true }
    requires few { length widths.now ≤ 15 }
    requires page { is_page widths.now bytes.old ≡ true }
    requires meets { meets widths.now row.now.fields ≡ true }
    requires room { length (rows_in widths.now bytes.old).records < capacity widths.now }
    ensures page { is_page widths.now bytes.new ≡ true }
    ensures pushed { rows_in widths.now bytes.new
        ≡ with_record (rows_in widths.now bytes.old) row.now }
{
    let count = many_in(widths, bytes);
    let at = place_of(widths, size, bytes, count);
    put_record(row, widths, &mut bytes[at..]);
    put_count(count + 1, bytes);
}
