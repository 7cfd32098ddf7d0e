//! The walk from two versions down to their ancestors.
//!
//! 1. Each version from `low` to the higher of the two has a mark, which says from which of the two
//!    sides it was reached. At first each of the two has its own.
//! 2. The versions are visited from the newest down, and each hands its mark on to its parents. All
//!    versions made from it are newer and were visited before, so by then its mark is complete.
//! 3. The first version with both marks is the last common ancestor. Parents below `low` are passed
//!    over: no path to a version from `low` on goes through them.
ghost use Rattle.std.specs.Prelude.{◌<◌, ◌≤◌, ◌^◌, length, map, IfOk, MatchOption};
ghost use Rattle.version_graph.specs.Ancestors.{AllEarlier, IsLastCommon, NoneFrom};
ghost use Rattle.version_graph.specs.Parents.{list_of};

use crate::marks::{Mark, Marks};
use crate::parents::Parents;
use std::alloc::{AllocError, Global};

const LEFT: Mark = Mark {
    left: true,
    right: false,
};

const RIGHT: Mark = Mark {
    left: false,
    right: true,
};

/// The last common ancestor of two versions, or `None` if it is below `low`.
pub fn last_common_from(
    alloc: Global,
    versions: &[Parents],
    left: u32,
    right: u32,
    low: u32,
) -> Result<Option<u32>, AllocError>
    requires earlier { AllEarlier (map list_of versions.now) }
    requires left_there { left < length versions.now }
    requires right_there { right < length versions.now }
    requires few { length versions.now < 2 ^ 32 }
    requires left_from { low ≤ left }
    requires right_from { low ≤ right }
    ensures { IfOk result (λ found. MatchOption found
        (NoneFrom (map list_of versions.now) left right low)
        (λ last. (low ≤ last) × IsLastCommon (map list_of versions.now) left right last)) }
{
    let high = left.max(right);
    let mut marks = Marks::new(alloc, low, high)?;
    marks.set(LEFT, left);
    marks.set(RIGHT, right);
    let mut version = high + 1;
    while version > low {
        version -= 1;
        let sides = marks.at(version);
        if sides.left && sides.right {
            return Ok(Some(version));
        }
        marks.set_all(sides, versions[version as usize]);
    }
    Ok(None)
}
