//! The merge of three records that have one key.
ghost use Rattle.std.specs.Prelude.{◌≡◌, ◌<◌, Ok, length};
ghost use Rattle.std.specs.Option.{option_copied};
ghost use Rattle.db_value.specs.Value.{field_at};
ghost use Rattle.field_merge.specs.Merge.{preferred, is_base, merge_field, merge_fields, merge_changed, same_state, of_fields};
ghost use Rattle.field_merge.specs.Rows.{fields_if, field_if, merge_records, told, AreAsLong, AreVersions};

use crate::Merged;
use db_value::{Fields, Prefer, Record};

/// Are they one, or both absent?
pub(crate) fn is_same(a: Option<&Record>, b: Option<&Record>) -> bool
    ensures { result
        ≡ same_state (fields_if (option_copied a.entry)) (fields_if (option_copied b.entry)) }
{
    match a {
        None => b.is_none(),
        Some(x) => match b {
            None => false,
            Some(y) => x.fields == y.fields,
        },
    }
}

// What a side has.
fn keep(row: Option<&Record>, into: &mut Fields) -> Merged
    ensures { told result into.new ≡ Ok (fields_if (option_copied row.entry)) }
{
    match row {
        None => Merged::Gone,
        Some(row) => {
            *into = row.fields;
            Merged::There
        }
    }
}

// Has the base this value in a column? Without a base it has none.
fn is_of_base(base: Option<&Record>, fields: &Fields, column: u8) -> bool
    requires fields { column < length fields.now }
    requires base { AreAsLong (fields_if (option_copied base)) fields.now }
    ensures { result ≡ is_base (field_if (fields_if (option_copied base.entry)) column)
        (field_at fields.now column) }
{
    match base {
        None => false,
        Some(row) => fields.same_at(&row.fields, column),
    }
}

// The side whose value a column gets, or neither where there is a conflict.
fn side_of(
    base: Option<&Record>,
    left: &Fields,
    right: &Fields,
    column: u8,
    prefer: Prefer,
) -> Prefer
    requires left { column < length left.now }
    requires right { length right.now ≡ length left.now }
    requires base { AreAsLong (fields_if (option_copied base)) left.now }
    ensures { preferred result (field_at left.now column) (field_at right.now column)
        ≡ merge_field prefer (field_if (fields_if (option_copied base.entry)) column)
        (field_at left.now column) (field_at right.now column) }
{
    if left.same_at(right, column) {
        return Prefer::Left;
    }
    if is_of_base(base, left, column) {
        return Prefer::Right;
    }
    if is_of_base(base, right, column) {
        return Prefer::Left;
    }
    prefer
}

// Both sides are there: the fields are merged one by one.
fn merge_records(
    base: Option<&Record>,
    left: &Record,
    right: &Record,
    prefer: Prefer,
    into: &mut Fields,
) -> Merged
    requires right { length right.now.fields ≡ length left.now.fields }
    requires base { AreAsLong (fields_if (option_copied base)) left.now.fields }
    ensures { told result into.new ≡ of_fields (merge_fields prefer 0
        (fields_if (option_copied base.entry)) left.now.fields right.now.fields) }
{
    *into = left.fields;
    for column in 0..left.fields.count() as u8 {
        match side_of(base, &left.fields, &right.fields, column, prefer) {
            Prefer::Neither => {
                return Merged::Conflict {
                    field: Some(column),
                };
            }
            Prefer::Left => {}
            Prefer::Right => into.take_at(&right.fields, column),
        }
    }
    Merged::There
}

// Both sides changed what the base has.
fn merge_changed(
    base: Option<&Record>,
    left: Option<&Record>,
    right: Option<&Record>,
    prefer: Prefer,
    into: &mut Fields,
) -> Merged
    requires { AreVersions (option_copied base) (option_copied left) (option_copied right) }
    ensures { told result into.new ≡ merge_changed prefer (fields_if (option_copied base.entry))
        (fields_if (option_copied left.entry)) (fields_if (option_copied right.entry)) }
{
    if let Some(l) = left {
        if let Some(r) = right {
            return merge_records(base, l, r, prefer, into);
        }
    }
    match prefer {
        Prefer::Neither => Merged::Conflict { field: None },
        Prefer::Left => keep(left, into),
        Prefer::Right => keep(right, into),
    }
}

/// The merge of what three versions have at one key: the common ancestor, the side that is merged
/// into, and the other. A side settles the conflicts if one is preferred. The fields of the record that
/// is kept are put into others. It takes no memory.
pub fn merge3(
    base: Option<&Record>,
    left: Option<&Record>,
    right: Option<&Record>,
    prefer: Prefer,
    into: &mut Fields,
) -> Merged
    requires { AreVersions (option_copied base) (option_copied left) (option_copied right) }
    ensures { told result into.new ≡ merge_records prefer (option_copied base.entry)
        (option_copied left.entry) (option_copied right.entry) }
{
    if is_same(left, right) {
        return keep(left, into);
    }
    if is_same(left, base) {
        return keep(right, into);
    }
    if is_same(right, base) {
        return keep(left, into);
    }
    merge_changed(base, left, right, prefer, into)
}
