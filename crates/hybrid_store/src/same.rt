//! The branches of a second store of the same state.
ghost use Rattle.std.specs.Prelude.{◌≡◌, ◌≤◌, map, vec_capacity, IfOk};
ghost use Rattle.std.specs.List.{All};
ghost use Rattle.db_store.specs.Fits.{most_branches};
ghost use Rattle.hybrid_store.specs.Stored.{HasRoom, roomless};

use crate::store::MOST_BRANCHES;
use bit_rows::HybridLane;
use std::alloc::{AllocError, Global};

// The same branches, with rows of their own.
pub(crate) fn same_lanes(alloc: Global, lanes: &[HybridLane]) -> Result<Vec<HybridLane>, AllocError>
    ensures same { IfOk result (λ v. map roomless v.items ≡ map roomless lanes.now) }
    ensures rooms { IfOk result (λ v. All (HasRoom 0) v.items) }
    ensures room { IfOk result (λ v. most_branches ≤ vec_capacity v) }
{
    let mut all = Vec::with_capacity(alloc, MOST_BRANCHES)?;
    for lane in lanes {
        all.push(lane.duplicate(alloc)?)?;
    }
    Ok(all)
}
