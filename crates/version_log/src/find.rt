//! Versions by name in a store.
ghost use Rattle.std.specs.Prelude.{◌≡◌, ◌<◌, IfOk, IfErr, Some};
ghost use Rattle.db_store.specs.Dataset.{branch_named, table_at, IsMade};
ghost use Rattle.db_store.specs.State.{dataset_of};
ghost use Rattle.db_store.specs.Found.{found, found_as, lack};

use db_store::Store;
use db_value::{Refusal, VersionName, VersionPlace};

// The place of a position of the branch with the version's name, if it is made.
fn place_at<St: Store>(
    store: &St,
    version: &VersionName,
    branch: u32,
    position: u64,
) -> Result<VersionPlace, Refusal>
    requires branch { branch_named (dataset_of (St.state store.now)) version.now.branch
        ≡ Some branch }
    requires position { version.now.position ≡ Some position }
    ensures found { IfOk result (λ at. found (dataset_of (St.state store.now)) version.now
        ≡ found_as version.now.position at (table_at (dataset_of (St.state store.now)) at)) }
    ensures made { IfOk result (λ at. IsMade (dataset_of (St.state store.now)) at) }
    ensures lack { IfErr result (λ why.
        lack (found (dataset_of (St.state store.now)) version.now) ≡ Some why) }
{
    if position > u64::from(store.last(branch)) {
        return Err(Refusal::NoVersion {
            branch: version.branch,
            position,
        });
    }
    Ok(VersionPlace {
        branch,
        position: position as u32,
    })
}

/// The place of the version with a name, or why there is none.
pub fn find_version<St: Store>(store: &St, version: &VersionName) -> Result<VersionPlace, Refusal>
    ensures found { IfOk result (λ at. found (dataset_of (St.state store.now)) version.now
        ≡ found_as version.now.position at (table_at (dataset_of (St.state store.now)) at)) }
    ensures made { IfOk result (λ at. IsMade (dataset_of (St.state store.now)) at) }
    ensures lack { IfErr result (λ why.
        lack (found (dataset_of (St.state store.now)) version.now) ≡ Some why) }
{
    let Some(branch) = store.branch(&version.branch) else {
        return Err(Refusal::NoBranch {
            branch: version.branch,
        });
    };
    match version.position {
        None => Ok(VersionPlace {
            branch,
            position: store.last(branch),
        }),
        Some(position) => place_at(store, version, branch, position),
    }
}
