//! Images of stores, and the parts that their versions show. The bytes were made by another program.
ghost use Rattle.std.specs.Prelude.{◌<◌, length};

use crate::asserts::{holds, same};
use crate::made::{Made, Pair, make_all};
use crate::watched::version;
use db_image::{decode, encode};
use db_store::View;
use db_value::Schema;
use hybrid_store::HybridStore;
use image_parts::ImageStop;
use image_text::Format;
use std::alloc::Global;
use std::process::Abort;
use std::test::Fail;

// The image of a new dataset of two columns, in format one and in format two.
const OLD: [u8; 67] = [
    1, 5, 0x69, 0x74, 0x65, 0x6d, 0x73, 2, 1, 0x61, 1, 0x62, 1, 0, 0, 0, 6, 0x6d, 0x61, 0x73, 0x74,
    0x65, 0x72, 0, 0, 0, 0, 0, 0, 0, 0, 0, 0, 0, 0, 1, 0, 0, 0, 1, 0, 0, 0, 0, 0, 0, 0, 1, 0, 0, 0,
    0, 0, 0, 0, 0, 0, 0, 0, 0, 0, 0, 0, 0, 0, 0, 0,
];

const NEW: [u8; 69] = [
    1, 5, 0x69, 0x74, 0x65, 0x6d, 0x73, 2, 1, 0x61, 0, 1, 0x62, 0, 1, 0, 0, 0, 6, 0x6d, 0x61, 0x73,
    0x74, 0x65, 0x72, 0, 0, 0, 0, 0, 0, 0, 0, 0, 0, 0, 0, 1, 0, 0, 0, 1, 0, 0, 0, 0, 0, 0, 0, 1, 0,
    0, 0, 0, 0, 0, 0, 0, 0, 0, 0, 0, 0, 0, 0, 0, 0, 0, 0,
];

const HEAD: [u8; 120] = [
    1, 1, 114, 1, 1, 97, 0, 2, 0, 0, 0, 6, 109, 97, 115, 116, 101, 114, 0, 0, 0, 0, 0, 0, 0, 0, 3,
    100, 101, 118, 0, 0, 0, 0, 1, 0, 0, 0, 2, 0, 0, 0, 0, 0, 0, 0, 0, 1, 0, 0, 0, 1, 0, 0, 0, 0, 1,
    0, 0, 0, 3, 0, 0, 0, 0, 0, 0, 0, 2, 0, 0, 0, 2, 0, 1, 0, 0, 0, 0, 0, 0, 0, 0, 0, 0, 0, 0, 0, 1,
    0, 0, 0, 0, 0, 0, 0, 10, 0, 0, 0, 0, 0, 0, 0, 2, 0, 0, 0, 0, 0, 0, 0, 236, 255, 255, 255, 255,
    255, 255, 255,
];

const MIDDLE: [u8; 144] = [
    2, 0, 0, 0, 0, 0, 0, 0, 0, 0, 0, 0, 0, 0, 0, 0, 0, 0, 0, 0, 0, 0, 0, 0, 1, 0, 0, 0, 3, 0, 0, 0,
    0, 0, 0, 0, 1, 0, 0, 0, 0, 0, 0, 0, 0, 0, 0, 0, 1, 0, 0, 0, 3, 0, 0, 0, 0, 0, 0, 0, 0, 0, 0, 0,
    1, 0, 0, 0, 1, 0, 0, 0, 0, 0, 0, 0, 1, 0, 0, 0, 0, 0, 0, 0, 1, 0, 0, 0, 0, 0, 0, 0, 1, 0, 0, 0,
    0, 0, 0, 0, 0, 0, 0, 0, 2, 0, 0, 0, 1, 0, 0, 0, 1, 0, 1, 0, 0, 0, 0, 0, 0, 0, 0, 0, 0, 0, 0, 0,
    1, 0, 0, 0, 0, 0, 0, 0, 11, 0, 0, 0, 0, 0, 0, 0,
];

const END: [u8; 36] = [
    1, 0, 0, 0, 1, 0, 0, 0, 0, 0, 0, 0, 0, 0, 0, 0, 0, 0, 0, 0, 0, 0, 0, 0, 1, 0, 0, 0, 1, 0, 0, 0,
    0, 0, 0, 0,
];

// Branch dev of master@1, on which a record was changed: an internal segment of two records, and
// two heads.
const STEPS: [Made; 3] = [
    Made::Commit(0, None, &[(0, 1, &[10]), (0, 2, &[-20])]),
    Made::Branch("dev", (0, 1)),
    Made::Commit(1, Some((0, 1)), &[(0, 1, &[11])]),
];

// Their image has two pages.
fn image_of_two(alloc: Global) -> Result<Vec<u8>, Fail> {
    let mut bytes = Vec::new(alloc);
    bytes.extend_from_slice(&HEAD)?;
    bytes.extend_from_slice(&[0; 4048])?;
    bytes.extend_from_slice(&MIDDLE)?;
    bytes.extend_from_slice(&[0; 4064])?;
    bytes.extend_from_slice(&END)?;
    Ok(bytes)
}

fn has_image(alloc: Global, store: &HybridStore, bytes: &[u8]) -> Result<bool, Fail> {
    Ok(encode(alloc, store)?.as_slice() == bytes)
}

// A part's id, and a letter for each slot: `x` if its record is live.
fn part_text<V: View>(text: &mut String, view: &V, index: u32) -> Result<(), Fail>
    requires relation { 0 < length (V.table view.now) }
    requires index { index < length (V.parts_of view.now 0) }
{
    let info = view.part(0, index);
    write!(text, "{}:", info.id)?;
    for slot in 0..info.slots {
        text.push(if view.live(0, index, slot) { 'x' } else { '.' })?;
    }
    text.push(' ')?;
    Ok(())
}

// Has a version these parts of the first relation?
fn has_parts<V: View>(alloc: Global, view: &V, parts: &str) -> Result<bool, Fail>
    requires { 0 < length (V.table view.now) }
{
    let mut text = String::new(alloc);
    for index in 0..view.parts(0) {
        part_text(&mut text, view, index)?;
    }
    Ok(text.as_str() == parts)
}

#[rattlefmt::skip]
const PARTS: [(Pair, &str); 4] = [
    // version  parts: segment * 2^32 + records, and its slots
    ((0, 0),    "2:.. "),
    ((0, 1),    "2:xx 4294967296: "),
    ((1, 0),    "2:xx 8589934593:. "),
    ((1, 1),    "2:.x 8589934593:x "),
];

fn shows(rt: &impl Abort, alloc: Global, store: &HybridStore) -> Result<(), Fail> {
    for (place, parts) in &PARTS {
        let view = version(store, *place)?;
        holds(rt, parts, has_parts(alloc, &view, parts)?);
    }
    Ok(())
}

fn two_branches(alloc: Global) -> Result<HybridStore, Fail> {
    let (schema, _) = Schema::read(alloc, b"relation r a\nend\n")?;
    let mut store = HybridStore::new(alloc, schema)?;
    make_all(alloc, &mut store, &STEPS)?;
    Ok(store)
}

#[test]
fn a_store_that_grew(rt: HostRuntime) -> Result<(), Fail> {
    let bytes = image_of_two(rt.alloc())?;
    let store = two_branches(rt.alloc())?;
    holds(&rt, "the image", has_image(rt.alloc(), &store, &bytes)?);
    shows(&rt, rt.alloc(), &store)
}

fn read(alloc: Global, bytes: &[u8], format: Format) -> Result<HybridStore, Fail> {
    match decode(alloc, bytes, format) {
        Ok(store) => Ok(store),
        Err(_) => Err("no image".into()),
    }
}

#[test]
fn a_store_that_was_read(rt: HostRuntime) -> Result<(), Fail> {
    let bytes = image_of_two(rt.alloc())?;
    let store = read(rt.alloc(), &bytes, Format::Two)?;
    holds(&rt, "the image", has_image(rt.alloc(), &store, &bytes)?);
    shows(&rt, rt.alloc(), &store)
}

// Where the first fault of bytes is, or the greatest number.
fn fault_of(alloc: Global, bytes: &[u8], format: Format) -> u64 {
    match decode(alloc, bytes, format) {
        Err(ImageStop::NotAnImage { at }) => at,
        _ => u64::MAX,
    }
}

fn end_there(rt: &impl Abort, alloc: Global, bytes: &[u8], format: Format) -> Result<(), Fail> {
    for end in 0..bytes.len() {
        let front = bytes.get(..end).ok_or("no front")?;
        same(rt, "a front", fault_of(alloc, front, format), end as u64);
    }
    Ok(())
}

#[test]
fn tells_where_bytes_end(rt: HostRuntime) -> Result<(), Fail> {
    end_there(&rt, rt.alloc(), &OLD, Format::One)?;
    end_there(&rt, rt.alloc(), &NEW, Format::Two)?;
    let mut more = image_of_two(rt.alloc())?;
    more.push(0)?;
    let fault = fault_of(rt.alloc(), &more, Format::Two);
    same(&rt, "a byte more", fault, 8412);
    Ok(())
}

// An image in format one is read, and written in format two.
#[test]
fn reads_two_formats(rt: HostRuntime) -> Result<(), Fail> {
    let alloc = rt.alloc();
    for (bytes, format) in [(OLD.as_slice(), Format::One), (NEW.as_slice(), Format::Two)] {
        let store = read(alloc, bytes, format)?;
        holds(&rt, "its image", has_image(alloc, &store, &NEW)?);
    }
    same(
        &rt,
        "a length of 98",
        fault_of(alloc, &OLD, Format::Two),
        11,
    );
    same(&rt, "a length of 0", fault_of(alloc, &NEW, Format::One), 10);
    Ok(())
}

// The image in format two, where the first column has a width.
fn with_width(width: u8) -> [u8; 69] {
    let mut bytes = NEW;
    bytes[10] = width;
    bytes
}

#[test]
fn reads_widths_to_64(rt: HostRuntime) -> Result<(), Fail> {
    let alloc = rt.alloc();
    let widest = with_width(64);
    let store = read(alloc, &widest, Format::Two)?;
    holds(&rt, "a width of 64", has_image(alloc, &store, &widest)?);
    same(
        &rt,
        "a width of 65",
        fault_of(alloc, &with_width(65), Format::Two),
        10,
    );
    Ok(())
}
