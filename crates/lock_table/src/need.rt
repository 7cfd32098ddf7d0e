//! A need, and a list of them.
ghost use Rattle.std.specs.Prelude.{◌≡◌};

use std::marker::Model;

/// How many locks there are: the catalogue and 1,024 branches.
pub const LOCKS: u32 = 1025;

/// A need is a lock that a statement wants, for itself alone or shared with other sessions.
#[derive(Clone, Copy)]
pub struct Need {
    /// 0 is the catalogue, and `b + 1` the branch `b`.
    pub lock: u32,
    /// Whether no other session may have the lock, even shared.
    pub exclusive: bool,
}

/// The needs of one request, in any order.
#[derive(Drop)]
pub struct Needs {
    items: Vec<Need>,
}

impl Model for Needs {
    ghost use Rattle.std.specs.Prelude.{List};
    ghost use Rattle.lock_table.specs.declared.need.Need.{Need};

    ghost Value = { List Need };

    ghost view = { λ n. n.items.items };
}

impl Needs {
    /// These needs, without a copy.
    pub fn of(items: Vec<Need>) -> Needs
        ensures { result ≡ items.items }
    {
        Needs { items }
    }

    /// The needs back, without a copy.
    pub fn into_vec(self) -> Vec<Need>
        ensures { result.items ≡ self }
    {
        self.items
    }

    /// The needs, to read.
    pub fn as_slice(&self) -> &[Need]
        ensures { result.now ≡ self.now }
    {
        self.items.as_slice()
    }
}
