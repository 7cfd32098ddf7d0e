//! What a merge says of one key.

/// What is at a key after a merge, or why nothing is.
#[derive(Clone, Copy)]
pub enum Merged {
    /// No record.
    Gone,
    /// A record. Its fields were put where the merge was told to.
    There,
    /// Both sides changed this field to different values, or the record as a whole where there is no
    /// field: one side took it away and the other changed it.
    Conflict { field: Option<u8> },
}
