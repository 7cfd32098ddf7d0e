//! Entries and their bytes. The expected bytes are written by hand.
use crate::asserts::{holds, same};
use crate::made::{Made, entry_of};
use db_store::Store;
use db_value::{Entry, Schema};
use entry_codec::{EntryStop, decode, encode};
use plain_store::PlainStore;
use std::alloc::Global;
use std::test::Fail;

// The entry of a commit on branch 0 that puts the record with key 1 and the values 1, 1 into
// relation 0.
const ONE: [u8; 36] = [
    1, 0, 0, 0, 0, 0, 1, 0, 0, 0, 0, 2, 1, 0, 0, 0, 0, 0, 0, 0, 1, 0, 0, 0, 0, 0, 0, 0, 1, 0, 0, 0,
    0, 0, 0, 0,
];

// The same with a second change, which deletes a record with a lesser key.
const DESCENDING: [u8; 46] = [
    1, 0, 0, 0, 0, 0, 2, 0, 0, 0, 0, 2, 1, 0, 0, 0, 0, 0, 0, 0, 1, 0, 0, 0, 0, 0, 0, 0, 1, 0, 0, 0,
    0, 0, 0, 0, 0, 0, 0, 0, 0, 0, 0, 0, 0, 0,
];

// The same on columns of texts of 8 bytes and of numbers: the values are "ab" and 5.
const WIDE: [u8; 38] = [
    3, 0, 0, 0, 0, 0, 1, 0, 0, 0, 0, 2, 1, 0, 0, 0, 0, 0, 0, 0, 8, 97, 98, 0, 0, 0, 0, 0, 0, 0, 5,
    0, 0, 0, 0, 0, 0, 0,
];

const BRANCH: &[u8] = b"\x02\x03dev\x00\x00\x00\x00\x01\x00\x00\x00";

// Has an entry that fits a store these bytes?
fn has_bytes<St: Store>(
    alloc: Global,
    store: &St,
    entry: &Entry,
    bytes: &[u8],
) -> Result<bool, Fail> {
    if !store.fits(entry) {
        return Err("doesn't fit".into());
    }
    Ok(encode(alloc, entry)?.as_slice() == bytes)
}

#[test]
fn spells_a_commit(rt: HostRuntime) -> Result<(), Fail> {
    let alloc = rt.alloc();
    let (schema, _) = Schema::read(alloc, b"relation items a b\nend\n")?;
    let store = PlainStore::new(alloc, schema)?;
    let entry = entry_of(alloc, &Made::Commit(0, None, &[(0, 1, &[1, 1])]))?;
    holds(&rt, "its bytes", has_bytes(alloc, &store, &entry, &ONE)?);
    Ok(())
}

// How many bytes are the entry at the front, if one is there. One byte was changed.
fn size_with(
    alloc: Global,
    bytes: &[u8],
    count: usize,
    place: usize,
    byte: u8,
) -> Result<Option<usize>, Fail> {
    let mut bytes = Vec::from_slice(alloc, bytes.get(..count).ok_or("too few bytes")?)?;
    if place < bytes.len() {
        bytes[place] = byte;
    }
    match decode(alloc, &bytes) {
        Ok((_, read)) => Ok(Some(read)),
        Err(EntryStop::NotAnEntry) => Ok(None),
        Err(EntryStop::Memory) => Err("no memory".into()),
    }
}

#[rattlefmt::skip]
const READ: [(&str, &[u8], usize, usize, u8, Option<usize>); 24] = [
    // what stands at the front             the bytes    how many, one of them   its size
    ("a commit",                            &ONE,        36,       0,  1,        Some(36)),
    ("a commit without its last byte",      &ONE,        35,       0,  1,        None),
    ("changes that descend",                &DESCENDING, 46,       0,  1,        None),
    ("changes that ascend",                 &DESCENDING, 46,       38, 2,        Some(46)),
    ("no byte",                             &ONE,        0,        0,  1,        None),
    ("a new branch",                        BRANCH,      13,       0,  2,        Some(13)),
    ("a new branch without a name",         BRANCH,      13,       1,  0,        None),
    ("no entry's first byte",               BRANCH,      13,       0,  3,        None),
    ("one that is read as an empty text",   &ONE,        36,       0,  3,        Some(31)),
    ("a commit with a text",                &WIDE,       38,       0,  3,        Some(38)),
    ("its last byte lacks",                 &WIDE,       37,       0,  3,        None),
    ("one that is read as numbers",         &WIDE,       38,       0,  1,        Some(36)),
    ("a width of 65",                       &WIDE,       38,       20, 65,       None),
    ("numbers alone, told as texts",        &WIDE,       38,       20, 0,        None),
    ("a byte behind the end of a text",     &WIDE,       38,       24, 99,       None),
    ("a quote in a text",                   &WIDE,       38,       22, 34,       None),
    ("the tag of the second parent",        &ONE,        36,       5,  2,        None),
    ("a count that the bytes don't hold",   &ONE,        36,       6,  2,        None),
    ("a count of nothing",                  &ONE,        36,       6,  0,        None),
    ("a relation past the last",            &ONE,        36,       10, 8,        None),
    ("a field count of 16",                 &ONE,        36,       11, 16,       None),
    ("a field count past the end",          &ONE,        36,       11, 3,        None),
    ("one field, and surplus bytes",        &ONE,        36,       11, 1,        Some(28)),
    ("a deletion, and surplus bytes",       &ONE,        36,       11, 0,        Some(20)),
];

#[test]
fn reads_by_the_table(rt: HostRuntime) -> Result<(), Fail> {
    for (name, bytes, count, place, byte, size) in &READ {
        let read = size_with(rt.alloc(), bytes, *count, *place, *byte)?;
        same(&rt, name, read, *size);
    }
    Ok(())
}
