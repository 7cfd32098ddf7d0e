//! New values of fields.
ghost use Rattle.std.specs.Prelude.{◌≡◌, set};
ghost use Rattle.db_store.specs.Work.{with_sets};

use db_value::{Fields, Set, Sets};

// Gives a column its new value, if there is that column.
fn put_value(fields: &mut Fields, new: &Set)
    ensures { fields.new ≡ set fields.old new.now.column new.now.value }
{
    let column = new.column as usize;
    let count = fields.count();
    if column >= count {
        return;
    }
    fields.put(new.column, &new.value);
}

/// Gives columns their new values.
pub fn put_values(fields: &mut Fields, sets: &Sets)
    ensures { fields.new ≡ with_sets fields.old sets.now }
{
    for set in sets.as_slice() {
        put_value(fields, set);
    }
}
