//! Values that have no place in their columns.
ghost use Rattle.std.specs.Prelude.{◌≡◌, ◌<◌, Some, length};
ghost use Rattle.db_value.specs.Relations.{columns_at, widths_at};
ghost use Rattle.line_needs.specs.Columns.{column_named};
ghost use Rattle.line_needs.specs.Early.{row_refusal};
ghost use Rattle.line_needs.specs.Misfits.{misfit, row_misfit, set_misfit, sets_misfit};

use crate::columns::columns_of;
use db_value::{Column, Fields, Name, Refusal, Schema, Value, Widths};
use stmt_text::NamedSet;

// Why a value has no place in the column with a name and a width, if it hasn't.
fn misfit(name: &Name, width: u8, value: &Value) -> Option<Refusal>
    ensures { result ≡ misfit name.now width value.now }
{
    match value {
        Value::Number { .. } => {
            if width == 0 {
                return None;
            }
            Some(Refusal::WrongKind { column: *name })
        }
        Value::Text { text } => {
            if width == 0 {
                return Some(Refusal::WrongKind { column: *name });
            }
            if text.as_bytes().len() <= width as usize {
                return None;
            }
            Some(Refusal::TextTooLong { column: *name })
        }
    }
}

// Why the first value of a row that has no place in its column hasn't.
fn row_misfit(columns: &[Column], fields: &Fields) -> Option<Refusal>
    ensures { result ≡ row_misfit columns.now fields.now }
{
    let mut walk = fields.walk();
    for column in columns {
        let Some(value) = walk.next() else {
            return None;
        };
        if let Some(why) = misfit(&column.name, column.width, &value) {
            return Some(why);
        }
    }
    None
}

/// Why a row is refused that is to be put in a relation, if it is.
pub fn row_refusal(schema: &Schema, relation: u8, name: &Name, fields: &Fields) -> Option<Refusal>
    requires { relation < length schema.now }
    ensures { result ≡ row_refusal schema.now name.now fields.now (Some relation) }
{
    // This looks at the packed values where they stand, so that no value is made of most rows.
    if schema.widths(relation).meets(fields) {
        return None;
    }
    let columns = columns_of(schema, relation);
    if fields.count() != columns.len() {
        return Some(Refusal::ValueCount {
            relation: *name,
            columns: columns.len() as u32,
        });
    }
    row_misfit(columns, fields)
}

// Why a new value has no place in its column, which is found by its name.
fn set_misfit(schema: &Schema, relation: u8, widths: &Widths, set: &NamedSet) -> Option<Refusal>
    requires relation { relation < length schema.now }
    requires widths { widths.now ≡ widths_at schema.now relation }
    ensures { result ≡ set_misfit (widths_at schema.now relation) set.now
        (column_named (columns_at schema.now relation) set.now.column) }
{
    match schema.column(relation, &set.column) {
        None => None,
        Some(column) => misfit(&set.column, widths.as_slice()[column as usize], &set.value),
    }
}

/// Why the first new value that has no place in its column hasn't. It takes no memory.
pub fn sets_misfit(schema: &Schema, relation: u8, sets: &[NamedSet]) -> Option<Refusal>
    requires { relation < length schema.now }
    ensures { result
        ≡ sets_misfit (widths_at schema.now relation) (columns_at schema.now relation) sets.now }
{
    let widths = schema.widths(relation);
    for set in sets {
        if let Some(why) = set_misfit(schema, relation, &widths, set) {
            return Some(why);
        }
    }
    None
}
