//! Rows of bits, with places at the edges of words.
ghost use Rattle.std.specs.Prelude.{◌≡◌, ◌<◌, ◌≤◌, length, IfOk};

use crate::asserts::holds;
use branch_segments::{BranchSegments, Ids};
use std::alloc::{AllocError, Global};
use std::process::Abort;
use std::test::Fail;

fn mark(rows: &mut BranchSegments, branch: u32, segment: u32)
    requires branch { branch < length rows.old.rows }
    requires segment { segment < rows.old.segments }
    ensures branches { length rows.new.rows ≡ length rows.old.rows }
    ensures segments { rows.new.segments ≡ rows.old.segments }
{
    rows.mark(branch, segment);
}

// Two branches that have two of 130 segments each, one of them both, and then room for more.
fn two_branches(alloc: Global) -> Result<BranchSegments, AllocError> {
    let mut rows = BranchSegments::new(alloc);
    rows.reserve(2, 130)?;
    mark(&mut rows, 0, 0);
    mark(&mut rows, 0, 64);
    mark(&mut rows, 1, 0);
    mark(&mut rows, 1, 129);
    rows.reserve(3, 200)?;
    Ok(rows)
}

fn unites(
    alloc: Global,
    rows: &BranchSegments,
    branches: &[u32],
    segments: &[u32],
) -> Result<bool, AllocError> {
    let mut items = Vec::new(alloc);
    items.extend_from_slice(branches)?;
    let all = rows.union(&Ids::of(items))?;
    Ok(all.as_slice() == segments)
}

fn has(rows: &BranchSegments, branch: u32, segments: &[u32]) -> Result<bool, AllocError> {
    let all = rows.segments_of(branch)?;
    Ok(all.as_slice() == segments)
}

const ONES: [(&str, u32, &[u32]); 4] = [
    ("of the first branch", 0, &[0, 64]),
    ("of the second", 1, &[0, 129]),
    ("of one with room alone", 2, &[]),
    ("of one without room", 3, &[]),
];

fn tells(rt: &impl Abort, alloc: Global, rows: &BranchSegments) -> Result<(), AllocError> {
    for (name, branch, segments) in &ONES {
        holds(rt, name, has(rows, *branch, segments)?);
    }
    holds(rt, "of both", unites(alloc, rows, &[1, 0], &[0, 64, 129])?);
    holds(rt, "of none", unites(alloc, rows, &[], &[])?);
    Ok(())
}

#[test]
fn tells_the_segments_of_branches(rt: HostRuntime) -> Result<(), Fail> {
    let rows = two_branches(rt.alloc())?;
    tells(&rt, rt.alloc(), &rows)?;
    Ok(())
}
