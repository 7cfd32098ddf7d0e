//! Bytes, disks, batches and stores that the tests share. The bytes are written by hand, after the
//! format.
ghost use Rattle.std.specs.Prelude.{◌≡◌, [], IfSome};

use db_memdev::MemDisk;
use db_outside::Batch;
use db_store::Store;
use db_value::Schema;
use generations::{Dataset, DatasetStore, OpenStop, Pair, create, reopen};
use std::alloc::{AllocError, Global};

/// What opening tells: the generation, the file that counts, the place of its first closed gate, how
/// many entries were read, and the last version of master.
pub type Told = (u64, u8, u64, u64, u32);

/// The entry that puts the record with key 1 and the values 1, 1 into relation 0, on branch 0.
pub const ONE: [u8; 36] = [
    1, 0, 0, 0, 0, 0, 1, 0, 0, 0, 0, 2, 1, 0, 0, 0, 0, 0, 0, 0, 1, 0, 0, 0, 0, 0, 0, 0, 1, 0, 0, 0,
    0, 0, 0, 0,
];

/// The same with key 2.
pub const TWO: [u8; 36] = [
    1, 0, 0, 0, 0, 0, 1, 0, 0, 0, 0, 2, 2, 0, 0, 0, 0, 0, 0, 0, 1, 0, 0, 0, 0, 0, 0, 0, 1, 0, 0, 0,
    0, 0, 0, 0,
];

/// The same with the keys 3 and 4, as the body of one batch.
pub const BOTH: [u8; 72] = [
    1, 0, 0, 0, 0, 0, 1, 0, 0, 0, 0, 2, 3, 0, 0, 0, 0, 0, 0, 0, 1, 0, 0, 0, 0, 0, 0, 0, 1, 0, 0, 0,
    0, 0, 0, 0, 1, 0, 0, 0, 0, 0, 1, 0, 0, 0, 0, 2, 4, 0, 0, 0, 0, 0, 0, 0, 1, 0, 0, 0, 0, 0, 0, 0,
    1, 0, 0, 0, 0, 0, 0, 0,
];

// The file of a new dataset with the relation `items a b`, and records of these three bodies: an open
// gate, the generation, the length of the image and its digest; the image; and of each record an open
// gate, the length of its body, its digest and the body. The closed gate behind the last one lacks.
#[rattlefmt::skip]
const FILE: [u8; 381] = [
    1, 68, 69, 67, 73, 66, 69, 76, 50, 1, 0, 0, 0, 0, 0, 0, 0, 69, 0, 0, 0, 0, 0, 0, 0,
    81, 1, 228, 18, 166, 140, 60, 39, 28, 201, 146, 142, 71, 76, 180, 165,
    0, 81, 101, 22, 127, 9, 130, 122, 199, 170, 104, 44, 179, 181, 82, 156,
    1, 5, 105, 116, 101, 109, 115, 2, 1, 97, 0, 1, 98, 0, 1, 0, 0, 0, 6, 109, 97, 115, 116, 101, 114, 0, 0, 0, 0, 0, 0, 0, 0, 0, 0, 0, 0,
    1, 0, 0, 0, 1, 0, 0, 0, 0, 0, 0, 0, 1, 0, 0, 0, 0, 0, 0, 0, 0, 0, 0, 0, 0, 0, 0, 0, 0, 0, 0, 0,
    1, 36, 0, 0, 0,
    226, 92, 214, 229, 89, 234, 246, 86, 11, 200, 85, 150, 95, 109, 45, 5,
    249, 171, 238, 229, 78, 255, 236, 60, 195, 63, 166, 5, 23, 83, 243, 139,
    1, 0, 0, 0, 0, 0, 1, 0, 0, 0, 0, 2, 1, 0, 0, 0, 0, 0, 0, 0, 1, 0, 0, 0, 0, 0, 0, 0, 1, 0, 0, 0, 0, 0, 0, 0,
    1, 36, 0, 0, 0,
    123, 207, 54, 26, 8, 8, 188, 1, 81, 98, 193, 211, 141, 245, 70, 241,
    106, 116, 25, 94, 22, 158, 54, 215, 226, 158, 170, 247, 81, 67, 32, 204,
    1, 0, 0, 0, 0, 0, 1, 0, 0, 0, 0, 2, 2, 0, 0, 0, 0, 0, 0, 0, 1, 0, 0, 0, 0, 0, 0, 0, 1, 0, 0, 0, 0, 0, 0, 0,
    1, 72, 0, 0, 0,
    195, 248, 72, 29, 69, 230, 42, 252, 4, 0, 248, 154, 214, 249, 76, 161,
    54, 177, 124, 43, 96, 101, 149, 234, 43, 89, 30, 195, 44, 139, 9, 48,
    1, 0, 0, 0, 0, 0, 1, 0, 0, 0, 0, 2, 3, 0, 0, 0, 0, 0, 0, 0, 1, 0, 0, 0, 0, 0, 0, 0, 1, 0, 0, 0, 0, 0, 0, 0,
    1, 0, 0, 0, 0, 0, 1, 0, 0, 0, 0, 2, 4, 0, 0, 0, 0, 0, 0, 0, 1, 0, 0, 0, 0, 0, 0, 0, 1, 0, 0, 0, 0, 0, 0, 0,
];

/// The file of the same dataset with the first record in the first format, whose image has no widths.
#[rattlefmt::skip]
const OLD: [u8; 198] = [
    1, 68, 69, 67, 73, 66, 69, 76, 49, 1, 0, 0, 0, 0, 0, 0, 0, 67, 0, 0, 0, 0, 0, 0, 0,
    90, 133, 44, 49, 3, 46, 99, 197, 81, 162, 28, 177, 227, 73, 209, 122,
    49, 48, 232, 194, 254, 133, 154, 113, 190, 247, 30, 229, 20, 196, 229, 104,
    1, 5, 105, 116, 101, 109, 115, 2, 1, 97, 1, 98, 1, 0, 0, 0, 6, 109, 97, 115, 116, 101, 114, 0, 0, 0, 0, 0, 0, 0, 0, 0, 0, 0, 0,
    1, 0, 0, 0, 1, 0, 0, 0, 0, 0, 0, 0, 1, 0, 0, 0, 0, 0, 0, 0, 0, 0, 0, 0, 0, 0, 0, 0, 0, 0, 0, 0,
    1, 36, 0, 0, 0,
    226, 92, 214, 229, 89, 234, 246, 86, 11, 200, 85, 150, 95, 109, 45, 5,
    249, 171, 238, 229, 78, 255, 236, 60, 195, 63, 166, 5, 23, 83, 243, 139,
    1, 0, 0, 0, 0, 0, 1, 0, 0, 0, 0, 2, 1, 0, 0, 0, 0, 0, 0, 0, 1, 0, 0, 0, 0, 0, 0, 0, 1, 0, 0, 0, 0, 0, 0, 0,
    0,
];

/// The entry that puts the record with key 1, the text "ab" and the value 5 into relation 0, which has a
/// column of texts of width 8, on branch 0.
#[rattlefmt::skip]
pub const TAG: [u8; 38] = [
    3, 0, 0, 0, 0, 0, 1, 0, 0, 0, 0, 2, 1, 0, 0, 0, 0, 0, 0, 0, 8, 97, 98, 0, 0, 0, 0, 0, 0, 0, 5, 0, 0, 0, 0, 0, 0, 0,
];

/// The file of the dataset with the relation `tags name:8 n` and this entry.
#[rattlefmt::skip]
pub const TAGS: [u8; 204] = [
    1, 68, 69, 67, 73, 66, 69, 76, 50, 1, 0, 0, 0, 0, 0, 0, 0, 71, 0, 0, 0, 0, 0, 0, 0,
    91, 207, 253, 186, 146, 86, 34, 69, 116, 46, 148, 186, 190, 119, 88, 12,
    55, 208, 196, 111, 80, 167, 45, 120, 108, 175, 17, 14, 53, 134, 184, 222,
    1, 4, 116, 97, 103, 115, 2, 4, 110, 97, 109, 101, 8, 1, 110, 0, 1, 0, 0, 0, 6, 109, 97, 115, 116, 101, 114, 0, 0, 0, 0, 0, 0, 0, 0, 0, 0, 0, 0,
    1, 0, 0, 0, 1, 0, 0, 0, 0, 0, 0, 0, 1, 0, 0, 0, 0, 0, 0, 0, 0, 0, 0, 0, 0, 0, 0, 0, 0, 0, 0, 0,
    1, 38, 0, 0, 0,
    118, 174, 172, 20, 12, 139, 206, 249, 179, 172, 25, 52, 219, 211, 109, 224,
    51, 212, 106, 34, 76, 185, 15, 21, 108, 192, 161, 183, 113, 244, 14, 7,
    3, 0, 0, 0, 0, 0, 1, 0, 0, 0, 0, 2, 1, 0, 0, 0, 0, 0, 0, 0, 8, 97, 98, 0, 0, 0, 0, 0, 0, 0, 5, 0, 0, 0, 0, 0, 0, 0,
    0,
];

/// The file of `items a b` with the records in front of a place, and a closed gate there.
pub fn file_to(alloc: Global, place: usize) -> Option<Vec<u8>> {
    let mut bytes = FILE.get(..place)?.to_vec(alloc).ok()?;
    bytes.push(0).ok()?;
    Some(bytes)
}

/// A batch of one body. An empty body makes none.
pub fn batch_of(alloc: Global, body: &[u8]) -> Option<Batch>
    ensures { IfSome result (λ b. b ≡ [] → ⊥) }
{
    if body.is_empty() {
        return None;
    }
    let Ok(mut batch) = Batch::new(alloc) else {
        return None;
    };
    match batch.add(body) {
        Ok(()) => Some(batch),
        Err(_) => None,
    }
}

// Two disks, of which the first one has these bytes, that fail at these calls.
fn disks_of(
    alloc: Global,
    bytes: &[u8],
    first: &[u64],
    second: &[u64],
) -> Result<Pair<MemDisk>, AllocError> {
    let first = MemDisk::of(alloc, bytes, first, 1000, 100_000)?;
    let second = MemDisk::of(alloc, b"", second, 1000, 100_000)?;
    Ok(Pair { first, second })
}

/// The new dataset of a schema, on disks that fail at these calls.
pub fn created_by(
    alloc: Global,
    schema: &[u8],
    first: &[u64],
    second: &[u64],
) -> Option<Dataset<MemDisk>> {
    let Ok((schema, _)) = Schema::read(alloc, schema) else {
        return None;
    };
    let disks = disks_of(alloc, b"", first, second).ok()?;
    match create(alloc, disks, &schema) {
        Ok(dataset) => Some(dataset),
        Err(_) => None,
    }
}

/// The new dataset with the relation `items a b`, on disks that fail at these calls.
pub fn created(alloc: Global, first: &[u64], second: &[u64]) -> Option<Dataset<MemDisk>> {
    created_by(alloc, b"relation items a b\nend\n", first, second)
}

/// The dataset of the file in the first format, and its store.
pub fn opened_old(alloc: Global) -> Option<(Dataset<MemDisk>, DatasetStore)> {
    let disks = disks_of(alloc, &OLD, &[], &[]).ok()?;
    reopen(alloc, disks).ok()
}

/// Why that file isn't opened under the name of the second format, if it isn't.
pub fn renamed_stop(alloc: Global) -> Option<OpenStop> {
    let mut bytes = OLD;
    bytes[8] = b'2';
    let disks = disks_of(alloc, &bytes, &[], &[]).ok()?;
    match reopen(alloc, disks) {
        Ok(_) => None,
        Err((stop, _)) => Some(stop),
    }
}

/// The store of the file with the records in front of a place.
pub fn stored(alloc: Global, place: usize) -> Option<DatasetStore> {
    let bytes = file_to(alloc, place)?;
    let disks = disks_of(alloc, &bytes, &[], &[]).ok()?;
    match reopen(alloc, disks) {
        Ok((_, store)) => Some(store),
        Err(_) => None,
    }
}

/// What opening told of a dataset.
pub fn told_of(dataset: &Dataset<MemDisk>, store: &DatasetStore) -> Told {
    (
        dataset.generation(),
        dataset.counted(),
        dataset.place(),
        dataset.entries_read(),
        store.last(0),
    )
}
