//! A want, and a list of them.
use db_value::{ListOf, Name};

/// A lock that a statement names: that of the catalogue, that of all branches together, or that of a
/// branch, whether there is one with this name or not.
#[derive(Clone, Copy)]
pub enum WaitLock {
    Catalogue,
    Heads,
    Branch { name: Name },
}

/// A want is a lock that a session asks for, for itself alone or shared with other sessions.
#[derive(Clone, Copy)]
pub struct Want {
    pub lock: WaitLock,
    /// Whether no other session may have the lock, even shared.
    pub exclusive: bool,
}

/// The wants of one request, in any order.
pub type Wants = ListOf<Want>;
