//! The parts of a layout.

use crate::made::MadeVersion;
use commit_history::History;
use db_value::{ListOf, Name, Schema, VersionPlace};
use segment::Segment;

/// A branch: its name, and the version from which it was made. That of master is master's position 0.
#[derive(Clone, Copy)]
pub struct BranchPart {
    pub name: Name,
    pub origin: VersionPlace,
}

/// The branches, in the order made. The first one is master.
pub type BranchParts = ListOf<BranchPart>;

/// The versions after the root, in the order made.
pub type MadeVersions = ListOf<MadeVersion>;

/// A row of a segment: its branch, the position at which it begins, and what each position changes in
/// its bits from there on.
#[derive(Drop)]
pub struct RowPart {
    pub branch: u32,
    pub from: u32,
    pub deltas: History,
}

/// The rows of a segment, by ascending branch.
pub type RowParts = ListOf<RowPart>;

/// A segment of a relation: the branch whose head it is, or `None` for an internal one, its records and
/// its rows.
#[derive(Drop)]
pub struct SegmentPart {
    pub relation: u8,
    pub head: Option<u32>,
    pub records: Segment,
    pub rows: RowParts,
}

/// The segments by relation, and those of a relation by number.
pub type SegmentParts = ListOf<SegmentPart>;

/// The parts of a layout.
#[derive(Drop)]
pub struct LayoutParts {
    pub schema: Schema,
    pub branches: BranchParts,
    pub versions: MadeVersions,
    pub segments: SegmentParts,
}
