//! The branches and the versions of a layout, from those of an image.
ghost use Rattle.std.specs.Prelude.{◌≡◌, map, IfOk};
ghost use Rattle.db_image.specs.Parts.{branch_part, version_part};

use db_value::ListOf;
use hybrid_store::{BranchPart, BranchParts, MadeVersion, MadeVersions};
use image_text::{BranchPart as BranchRead, MadeVersion as VersionRead};
use std::alloc::{AllocError, Global};

// A branch of an image.
fn branch_of(branch: &BranchRead) -> BranchPart
    ensures { result ≡ branch_part branch.now }
{
    BranchPart {
        name: branch.name,
        origin: branch.origin,
    }
}

/// The branches of an image.
pub fn branches_of(alloc: Global, branches: &[BranchRead]) -> Result<BranchParts, AllocError>
    ensures { IfOk result (λ parts. parts ≡ map branch_part branches.now) }
{
    let mut parts = Vec::with_capacity(alloc, branches.len())?;
    for branch in branches {
        parts.push(branch_of(branch))?;
    }
    Ok(ListOf::of(parts))
}

/// The versions of an image.
pub fn versions_of(alloc: Global, versions: &[VersionRead]) -> Result<MadeVersions, AllocError>
    ensures { IfOk result (λ parts. parts ≡ map version_part versions.now) }
{
    let mut parts = Vec::with_capacity(alloc, versions.len())?;
    for version in versions {
        parts.push(MadeVersion {
            branch: version.branch,
            second: version.second,
        })?;
    }
    Ok(ListOf::of(parts))
}
