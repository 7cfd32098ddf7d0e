//! The columns of a relation, and new values by the numbers of the columns.
ghost use Rattle.std.specs.Prelude.{◌≡◌, ◌<◌, ◌≤◌, ◌++◌, ◌∷◌, [], length};
ghost use Rattle.db_value.specs.Relations.{columns_at};
ghost use Rattle.line_needs.specs.Columns.{columns_of, set_at, sets_at, resolved, resolved_columns};

use db_value::{Column, Name, Schema, Set, Sets};
use std::marker::Model;
use stmt_text::{NamedSet, NamedSets};

/// The numbers of the columns that an update names, in its order: at most 15, which stand in place.
#[derive(Drop)]
pub struct SetColumns {
    items: [u8; 15],
    len: u8,
}

impl Model for SetColumns {
    ghost use Rattle.std.specs.Prelude.{◌≤◌, List, ℕ, take};

    ghost Value = { List ℕ };

    ghost view = { λ s. take s.len s.items };

    ghost invariant = { λ s. s.len ≤ 15 };
}

impl SetColumns {
    // No column.
    fn new() -> SetColumns
        ensures { result ≡ [] }
    {
        SetColumns {
            items: [0; 15],
            len: 0,
        }
    }

    // Adds a column behind the others, of which there are at most 14.
    fn push(&mut self, column: u8)
        requires { length self.old < 15 }
        ensures { self.new ≡ self.old ++ column ∷ [] }
    {
        self.items[self.len as usize] = column;
        self.len += 1;
    }

    /// The columns, in order.
    pub fn as_slice(&self) -> &[u8]
        ensures columns { result.now ≡ self.now }
        ensures few { length result.now ≤ 15 }
    {
        &self.items[..self.len as usize]
    }
}

/// The columns of a relation.
pub fn columns_of(schema: &Schema, relation: u8) -> &[Column]
    requires { relation < length schema.now }
    ensures columns { result.now ≡ columns_of schema.now relation }
    ensures few { length result.now ≤ 15 }
{
    schema.relations()[relation as usize].columns.as_slice()
}

// A new value of a column.
fn set_at(column: u8, set: &NamedSet) -> Set
    ensures { result ≡ set_at column set.now }
{
    Set {
        column,
        value: set.value,
    }
}

/// The numbers of the columns that new values are for, or the first name that no column of the
/// relation has. It takes no memory.
pub fn resolve(schema: &Schema, relation: u8, sets: &NamedSets) -> Result<SetColumns, Name>
    requires { relation < length schema.now }
    ensures { result ≡ resolved_columns (resolved (columns_at schema.now relation) sets.now) }
{
    let sets = sets.as_slice();
    let mut columns = SetColumns::new();
    for set in sets {
        match schema.column(relation, &set.column) {
            None => return Err(set.column),
            Some(column) => columns.push(column),
        }
    }
    Ok(columns)
}

/// The new values of columns with these numbers. It takes no memory.
pub fn sets_of(columns: &SetColumns, sets: &NamedSets) -> Sets
    requires { length columns.now ≡ length sets.now }
    ensures { result ≡ sets_at columns.now sets.now }
{
    let numbers = columns.as_slice();
    let values = sets.as_slice();
    let mut all = Sets::new();
    for (place, value) in values.iter().enumerate() {
        all.push(set_at(numbers[place], value));
    }
    all
}
