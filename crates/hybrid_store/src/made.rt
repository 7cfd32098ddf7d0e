//! A version that a commit made.

use db_value::VersionPlace;

/// A version that a commit made on a branch: its second parent is the version that was merged, if one was.
#[derive(Clone, Copy)]
pub struct MadeVersion {
    pub branch: u32,
    pub second: Option<VersionPlace>,
}
