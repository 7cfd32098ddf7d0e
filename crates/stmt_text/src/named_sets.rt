//! New values of columns by their names.
ghost use Rattle.std.specs.Prelude.{◌≡◌, ◌≤◌, length};

use crate::stmt::NamedSet;
use std::marker::Model;

/// New values of the columns of one record, by the columns' names, in order: at most 15.
#[derive(Drop)]
pub struct NamedSets {
    items: Vec<NamedSet>,
}

impl Model for NamedSets {
    ghost use Rattle.std.specs.Prelude.{◌≤◌, List, length};
    ghost use Rattle.stmt_text.specs.declared.stmt.NamedSet.{NamedSet as NewValue};

    ghost Value = { List NewValue };

    ghost view = { λ s. s.items.items };

    ghost invariant = { λ s. length s.items.items ≤ 15 };
}

impl NamedSets {
    /// These new values, which are at most 15. It takes no memory.
    pub fn of(items: Vec<NamedSet>) -> NamedSets
        requires { length items.items ≤ 15 }
        ensures { result ≡ items.items }
    {
        NamedSets { items }
    }

    /// The new values, in order.
    pub fn as_slice(&self) -> &[NamedSet]
        ensures values { result.now ≡ self.now }
        ensures few { length result.now ≤ 15 }
    {
        &self.items
    }
}
