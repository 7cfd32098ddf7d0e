//! A file as a disk, at calls that the program doesn't make.
use crate::asserts::holds;
use db_outside::{Disk, Failed};
use db_realdev::{Access, RealDisk};
use std::fs;
use std::test::Fail;

// A disk without a file is empty, and its writes fail.
fn is_missing(disk: &mut RealDisk) -> bool {
    disk.len() == Ok(0) && disk.write_at(0, b"a") == Err(Failed) && disk.fault_count() == 1
}

fn is_written(disk: &mut RealDisk) -> bool {
    disk.write_at(0, b"abXYef").is_ok() && disk.sync().is_ok() && disk.fault_count() == 0
}

// A disk that only reads has what was written. A read past its end fails, and so does a write.
fn only_reads(disk: &mut RealDisk) -> bool {
    let mut into = [0u8; 4];
    disk.read_at(1, &mut into).is_ok()
        && into == *b"bXYe"
        && disk.read_at(4, &mut into) == Err(Failed)
        && disk.write_at(0, b"a") == Err(Failed)
        && disk.fault_count() == 2
}

#[test]
fn keeps_what_it_wrote(rt: HostRuntime) -> Result<(), Fail> {
    let path = "a_real_disk";
    let _ = fs::remove_file(&rt, path);
    let mut missing = RealDisk::open(&rt, path, Access::Write);
    holds(&rt, "a missing file", is_missing(&mut missing));
    let mut made = RealDisk::open(&rt, path, Access::Create);
    holds(&rt, "a new file", is_written(&mut made));
    drop(made);
    let mut reader = RealDisk::open(&rt, path, Access::Read);
    holds(&rt, "a file that is read", only_reads(&mut reader));
    fs::remove_file(&rt, path)?;
    Ok(())
}
