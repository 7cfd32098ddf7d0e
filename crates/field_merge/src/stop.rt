//! Why tables aren't merged.
use thiserror::Error;

/// Why the merge of three tables gives no changes.
#[derive(Clone, Copy, Debug, PartialEq, Eq, Error)]
pub enum MergeStop {
    /// 1: the least conflict by relation, key and field, where no side is preferred. Without a field
    /// the record as a whole is in conflict.
    #[error("both sides changed key {key} of relation {relation}")]
    Conflict {
        relation: u8,
        key: u64,
        field: Option<u8>,
    },
    /// 2: want of memory.
    #[error("want of memory")]
    Memory,
}
