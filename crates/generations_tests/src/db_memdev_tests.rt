//! A disk in memory and its crashes. The expected bytes are written by hand.
use crate::asserts::holds_at;
use db_memdev::{Fill, MemDisk};
use db_outside::{Disk, Failed};
use std::alloc::{AllocError, Global};
use std::process::Abort;
use std::test::Fail;

// A disk can be handed to another thread.
fn can_be_sent<T: Send>(_disk: &T) {}

// One call more is as many as the disk takes.
fn takes_one_more(rt: &impl Abort, disk: &mut MemDisk) {
    assert!(rt; disk.sync().is_ok());
    assert!(rt; disk.sync() == Err(Failed));
    assert!(rt; disk.fault_count() == 3);
}

// The call of a crash, what it leaves in pending ranges, and the bytes then.
const STOPS: [(u64, Fill, &[u8]); 12] = [
    (0, Fill::New, b"abcdef"),
    (1, Fill::Old, b"abcdef"),
    (1, Fill::New, b"aXYdef"),
    (1, Fill::Byte(b'z'), b"azzdef"),
    (2, Fill::Byte(b'z'), b"aXYdef"),
    (3, Fill::New, b"aXYdef"),
    (3, Fill::Byte(b'z'), b"aXYdzzzzz"),
    (4, Fill::Old, b"aXYdef"),
    (4, Fill::New, b"aXYdefghi"),
    (4, Fill::Byte(b'z'), b"aXYdzzzzz"),
    (5, Fill::Byte(b'z'), b"zzzzzzzzz"),
    (99, Fill::New, b"aXYdefghi"),
];

// Does a crash at the call leave these bytes?
fn leaves(disk: &MemDisk, call: u64, fill: Fill, expected: &[u8]) -> bool {
    match disk.stop(call, fill) {
        Ok(stopped) => stopped.bytes() == expected,
        Err(_) => false,
    }
}

fn stops(rt: &impl Abort, disk: &MemDisk) {
    for (call, fill, expected) in &STOPS {
        holds_at(rt, "the call", *call, leaves(disk, *call, *fill, expected));
    }
}

// A disk of which the third call fails, as does a write past the room.
fn written(rt: &impl Abort, alloc: Global) -> Result<MemDisk, AllocError> {
    let mut disk = MemDisk::of(alloc, b"abcdef", &[3], 6, 10)?;
    assert!(rt; disk.write_at(1, b"XY").is_ok());
    assert!(rt; disk.sync().is_ok());
    assert!(rt; disk.write_at(4, b"12345") == Err(Failed));
    assert!(rt; disk.write_at(6, b"ghi").is_ok());
    assert!(rt; disk.write_at(0, b"too long") == Err(Failed));
    assert!(rt; disk.bytes() == b"aXYdefghi".as_slice());
    Ok(disk)
}

#[test]
fn stops_by_the_table(rt: HostRuntime) -> Result<(), Fail> {
    let mut disk = written(&rt, rt.alloc())?;
    can_be_sent(&disk);
    stops(&rt, &disk);
    takes_one_more(&rt, &mut disk);
    Ok(())
}
