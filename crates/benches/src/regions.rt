//! The taking of a region.

use crate::row::Row;
use crate::timing::Timing;
use anyhow::Result;
use std::rt::Clock;
use work_region::Region;

// What stands on a frame: 136 bytes.
type Item = [u64; 17];

// Places an item on the first frame and reads it, so that the region can't be left out.
#[tactic(auto, using(crate::proofs::Outs::comes))]
fn use_once(region: &mut Region<Item>) -> u64 {
    match region.place([3; 17]) {
        Ok(frame) => region.get(&frame)[16],
        Err(_) => 0,
    }
}

/// Times the taking of a region. It takes its memory, and touches no frame.
pub fn time_takes<R: Clock + Print + AllocGlobal>(rt: &R, row: &Row, rounds: u32) -> Result<()> {
    let mut timing = Timing::new();
    for _ in 0..rounds {
        timing.begin(rt);
        let mut region: Region<Item> = Region::take(rt.alloc(), row.size)?;
        timing.end(rt);
        timing.count(use_once(&mut region));
    }
    timing.print(rt, row)
}
