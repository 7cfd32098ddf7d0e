//! Frames placed, set and given back.
ghost use Rattle.std.specs.Prelude.{◌≡◌};

use crate::asserts::{holds, same};
use crate::rows::{row, text};
use db_value::Record;
use std::test::Fail;
use work_region::{Region, RegionFull, RowRegion};

#[test]
#[tactic(auto, using(crate::proofs::Outs::outs))]
fn frames_keep_their_items(rt: HostRuntime) -> Result<(), Fail> {
    let mut region = Region::take(rt.alloc(), 2)?;
    let left = region.place(10u64).expect(&rt, "a first frame");
    let right = region.place(20).expect(&rt, "a second frame");
    region.set(&right, 21);
    same(&rt, "the other frame, after a set", region.get(&left), 10);
    same(&rt, "the frame that was set", region.get(&right), 21);
    same(&rt, "a third", region.place(30).err(), Some(RegionFull));

    region.give_back(left);
    same(&rt, "one was given back", region.free(), 1);
    let again = region.place(30).expect(&rt, "a frame again");
    same(&rt, "the item that was placed last", region.get(&again), 30);
    Ok(())
}

#[test]
fn hands_out_65536_frames(rt: HostRuntime) -> Result<(), Fail> {
    let mut region = Region::take(rt.alloc(), 65_536)?;
    for item in 0..65_536u64 {
        let _frame = region.place(item).expect(&rt, "a frame that is free");
    }
    same(&rt, "all are out", region.free(), 0);
    same(&rt, "one more", region.place(7).err(), Some(RegionFull));
    Ok(())
}

// The frame that a row is placed on, if one is left and the row is short enough.
fn placed(region: &mut RowRegion, relation: u8, row: &Record) -> Option<u32>
    requires { region.old.most ≡ 12 }
    ensures { region.new.most ≡ 12 }
{
    if row.fields.packed().len() > 12 {
        return None;
    }
    match region.place(relation, row, true) {
        Ok(frame) => Some(frame),
        Err(RegionFull) => None,
    }
}

// Sets the first frame, if it is there and the row is short enough.
fn set_first(region: &mut RowRegion, relation: u8, row: &Record) -> bool
    requires { region.old.most ≡ 12 }
{
    if region.len() == 0 || row.fields.packed().len() > 12 {
        return false;
    }
    region.set(0, relation, row, false);
    true
}

// Is this row on a frame, and all that was told of it?
fn is_on(region: &RowRegion, frame: u32, relation: u8, row: &Record, live: bool) -> bool {
    if frame >= region.len() {
        return false;
    }
    let mut read = Record::blank();
    region.row(frame, &mut read);
    read == *row
        && region.key(frame) == row.key
        && region.relation(frame) == relation
        && region.is_live(frame) == live
}

#[test]
fn rows_keep_to_their_frames(rt: HostRuntime) -> Result<(), Fail> {
    let long = row(1, &[text(b"0123456789")]);
    let short = row(2, &[text(b"")]);
    let mut region = RowRegion::take(rt.alloc(), 2, 12)?;
    same(&rt, "a frame", placed(&mut region, 3, &long), Some(0));
    same(&rt, "another one", placed(&mut region, 4, &long), Some(1));
    same(&rt, "a third", placed(&mut region, 3, &short), None);

    holds(&rt, "a frame is set", set_first(&mut region, 5, &short));
    holds(&rt, "its row", is_on(&region, 0, 5, &short, false));
    holds(&rt, "the other row", is_on(&region, 1, 4, &long, true));
    Ok(())
}
