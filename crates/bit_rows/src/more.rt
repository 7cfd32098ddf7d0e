//! One row more for a branch, which gets another head.
ghost use Rattle.std.specs.Prelude.{◌≡◌, ◌+◌, ◌<◌, ◌≤◌, ◌++◌, ◌∷◌, [], length, vec_capacity, IfOk};

use crate::rows::BitRow;
use std::alloc::{AllocError, Global};
use std::marker::Model;

/// One row more, with room for all rows of the branch and this one.
#[derive(Drop)]
pub struct MoreRows {
    row: BitRow,
    bigger: Vec<BitRow>,
}

impl Model for MoreRows {
    ghost use Rattle.std.specs.Prelude.{◌≡◌, [], vec_capacity};
    ghost use Rattle.bit_rows.specs.Rows.{MoreRow, more_code};

    ghost Value = { MoreRow };

    ghost coded = { more_code };

    ghost view = { λ m. record { row = m.row; room = vec_capacity m.bigger } };

    ghost invariant = { λ m. m.bigger.items ≡ [] };
}

impl MoreRows {
    /// This row, with room for so many rows in all.
    pub fn with_room(alloc: Global, row: BitRow, room: usize) -> Result<MoreRows, AllocError>
        ensures row { IfOk result (λ m. m.row ≡ row) }
        ensures room { IfOk result (λ m. room ≤ m.room) }
    {
        let bigger = Vec::with_capacity(alloc, room)?;
        Ok(MoreRows { row, bigger })
    }
}

// Moves all of some rows after others, for which there is room.
fn move_all(from: &mut Vec<BitRow>, into: &mut Vec<BitRow>)
    requires { length into.old.items + length from.old.items ≤ vec_capacity into.old }
    ensures items { into.new.items ≡ into.old.items ++ from.old.items }
    ensures capacity { vec_capacity into.old ≤ vec_capacity into.new }
{
    // It can't fail, since there is room.
    let _ = into.append(from);
}

/// Adds the row after the others. It takes no memory.
pub(crate) fn add_row(rows: &mut Vec<BitRow>, more: MoreRows)
    requires { length rows.old.items < more.room }
    ensures { rows.new.items ≡ rows.old.items ++ more.row ∷ [] }
{
    let MoreRows { row, mut bigger } = more;
    move_all(rows, &mut bigger);
    bigger.push_reserved(row);
    *rows = bigger;
}
