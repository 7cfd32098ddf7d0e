//! The parts of an image, in the order of its bytes.
ghost use Rattle.std.specs.Prelude.{◌≡◌};
ghost use Rattle.image_text.specs.declared.image.Stop.TheVariants.{Memory};

use crate::records::PagedRecords;
use db_value::{ListOf, Name, Relation, VersionPlace};
use std::alloc::{AllocError, AllocFailed};

/// The format of an image, which the file's name tells. An image in format one has columns of numbers
/// alone, and no widths.
#[derive(Clone, Copy)]
pub enum Format {
    One,
    Two,
}

/// A branch: its name, and the version from which it was made.
#[derive(Clone, Copy)]
pub struct BranchPart {
    pub name: Name,
    pub origin: VersionPlace,
}

/// A version: the branch on which it was made, and its second parent.
#[derive(Clone, Copy)]
pub struct MadeVersion {
    pub branch: u32,
    pub second: Option<VersionPlace>,
}

/// What one position changes in a row: words of 64 bits from the first to the last that isn't zero.
#[derive(Drop)]
pub struct Delta {
    pub first: u32,
    pub words: ListOf<u64>,
}

/// What a branch has of a segment from a position on.
#[derive(Drop)]
pub struct RowPart {
    pub branch: u32,
    pub from: u32,
    pub deltas: ListOf<Delta>,
}

/// A segment, with 0 for one that is internal and b + 1 for the head of the branch b.
#[derive(Drop)]
pub struct SegmentPart {
    pub head: u32,
    pub records: PagedRecords,
    pub rows: ListOf<RowPart>,
}

/// The parts of an image. The segments are by relation.
#[derive(Drop)]
pub struct Image {
    pub relations: ListOf<Relation>,
    pub branches: ListOf<BranchPart>,
    pub versions: ListOf<MadeVersion>,
    pub segments: ListOf<ListOf<SegmentPart>>,
}

/// Why bytes aren't read on.
#[derive(Clone, Copy)]
pub enum Stop {
    /// An item breaks a rule: so many bytes are left from its first one on, and none where the
    /// bytes end too early.
    Fault(usize),
    /// Want of memory.
    Memory,
}

impl From<AllocError> for Stop {
    ghost from_gives = { λ _ e. e ≡ Memory };

    fn from(_e: AllocError) -> Stop {
        Stop::Memory
    }
}

impl<T: Drop> From<AllocFailed<T>> for Stop {
    ghost from_gives = { λ _ e. e ≡ Memory };

    fn from(_e: AllocFailed<T>) -> Stop {
        Stop::Memory
    }
}
