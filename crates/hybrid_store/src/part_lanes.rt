//! The branches of parts, without what their last versions have.
ghost use Rattle.std.specs.Prelude.{◌≡◌, ℕ, ◌<◌, ◌≤◌, ◌++◌, ◌∷◌, [], None, set, map, length, vec_capacity, IfOk, OnOk};
ghost use Rattle.std.specs.List.{range_with_len};
ghost use Rattle.std.proofs.Common.{get_or};
ghost use Rattle.db_store.specs.Dataset.{root};
ghost use Rattle.db_store.specs.Fits.{most_branches, most_versions};
ghost use Rattle.bit_rows.specs.Kept.{no_kept};
ghost use Rattle.bit_rows.specs.Segments.{most_segments};
ghost use Rattle.hybrid_store.specs.Parts.{parts_of, no_branch_part, base_in, bases_from, seconds_of, order_of};
ghost use Rattle.hybrid_store.specs.Assembled.{rows_of_parts, begun_bare, with_second, next_place, no_made, AreWith, CanSeeLane, IsSeenLane};

use crate::bare::BareLane;
use crate::made::MadeVersion;
use crate::new::ROOT;
use crate::part_rows::{all_rows_of, reversed};
use crate::parts::{BranchPart, SegmentPart};
use crate::store::MOST_BRANCHES;
use bit_rows::{HybridLane, KeptSegments};
use db_value::VersionPlace;
use std::alloc::{AllocError, Global};

// The version that stands at a place, where the branches before it are these.
fn base_among(lanes: &[BareLane], at: VersionPlace) -> VersionPlace
    ensures { result ≡ base_in (map (λ k. k.base) lanes.now) at }
{
    if at.position != 0 {
        return at;
    }
    if (at.branch as usize) < lanes.len() {
        return lanes[at.branch as usize].base();
    }
    ROOT
}

/// The branches with their versions at position 0.
pub(crate) fn bare_lanes(
    alloc: Global,
    branches: &[BranchPart],
    segments: &[SegmentPart],
    width: u8,
) -> Result<Vec<BareLane>, AllocError>
    requires branches { length branches.now ≤ most_branches }
    requires segments { (r : ℕ) → r < width → length (parts_of r segments.now) < most_segments }
    ensures count { IfOk result (λ v. length v.items ≡ length branches.now) }
    ensures each { IfOk result (λ v. (b : ℕ) → b < length branches.now
        → get_or v.items b no_kept
        ≡ begun_bare (get_or branches.now b no_branch_part)
        (get_or (bases_from [] branches.now) b root)
        (map (λ r. rows_of_parts segments.now b r) (range_with_len 0 width))) }
{
    let mut lanes = Vec::new(alloc);
    for index in 0..branches.len() {
        let part = &branches[index];
        let base = base_among(&lanes, part.origin);
        let rows = all_rows_of(alloc, segments, index as u32, width)?;
        let lane = BareLane::begin(alloc, part, base, rows)?;
        lanes.push(lane)?;
    }
    Ok(lanes)
}

// Adds the next version of a branch.
fn put_version(
    lanes: &mut Vec<BareLane>,
    order: &mut Vec<VersionPlace>,
    made: MadeVersion,
) -> Result<(), AllocError>
    requires there { made.branch < length lanes.old.items }
    requires few { length (get_or lanes.old.items made.branch no_kept).seconds < most_versions }
    ensures order { OnOk result (order.new.items ≡ order.old.items
        ++ next_place (get_or lanes.old.items made.branch no_kept) made.branch ∷ []) }
    ensures lanes { OnOk result (lanes.new.items
        ≡ set lanes.old.items made.branch
        (with_second (get_or lanes.old.items made.branch no_kept) made.second)) }
{
    let branch = made.branch;
    let position = lanes[branch as usize].count() as u32;
    order.push(VersionPlace { branch, position })?;
    lanes[branch as usize].push(made.second)?;
    Ok(())
}

/// Adds all versions after the root to their branches, and tells them in the order made.
pub(crate) fn put_versions(
    alloc: Global,
    lanes: &mut Vec<BareLane>,
    versions: &[MadeVersion],
) -> Result<Vec<VersionPlace>, AllocError>
    requires begun { (b : ℕ) → b < length lanes.old.items
        → (get_or lanes.old.items b no_kept).seconds ≡ None ∷ [] }
    requires there { (i : ℕ) → i < length versions.now
        → (get_or versions.now i no_made).branch < length lanes.old.items }
    requires few { (b : ℕ) → b < length lanes.old.items
        → length (seconds_of b versions.now) ≤ most_versions }
    ensures order { IfOk result (λ v. v.items ≡ order_of versions.now) }
    ensures lanes { OnOk result (AreWith lanes.old.items versions.now lanes.new.items) }
{
    let mut order = Vec::new(alloc);
    order.push(ROOT)?;
    for made in versions {
        put_version(lanes, &mut order, *made)?;
    }
    Ok(order)
}

/// The branches with what their last versions have.
pub(crate) fn seen_lanes(
    alloc: Global,
    bare: Vec<BareLane>,
    lists: &[KeptSegments],
) -> Result<Vec<HybridLane>, AllocError>
    requires { (b : ℕ) → b < length bare.items
        → CanSeeLane lists.now (get_or bare.items b no_kept) }
    ensures count { IfOk result (λ v. length v.items ≡ length bare.items) }
    ensures each { IfOk result (λ v. (b : ℕ) → b < length bare.items
        → IsSeenLane lists.now (get_or bare.items b no_kept) (get_or v.items b no_kept)) }
    ensures room { IfOk result (λ v. most_branches ≤ vec_capacity v) }
{
    let mut lanes = Vec::with_capacity(alloc, MOST_BRANCHES)?;
    let mut rest = reversed(bare);
    while let Some(lane) = rest.pop() {
        let seen = lane.seen(alloc, lists)?;
        lanes.push(seen)?;
    }
    Ok(lanes)
}
