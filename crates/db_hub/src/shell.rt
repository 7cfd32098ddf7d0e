//! A value in a shell.

/// A shell has one value, and drops it: a drop that is generic in a store, a log and the log's name gets
/// no proof where it hands a room over.
#[derive(Drop)]
pub struct Shell<X: Drop> {
    pub inner: X,
}
