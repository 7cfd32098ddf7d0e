//! The bytes of fields, alone and with the widths of their columns.
ghost use Rattle.std.specs.Prelude.{◌≡◌, ◌<◌, ◌≤◌, ◌++◌, ◌∷◌, [], true, length, OnOk};
ghost use Rattle.std.specs.List.{AllByRecursion};
ghost use Rattle.db_value.specs.Value.{IsValue};
ghost use Rattle.db_value.specs.Widths.{meets, fits_width};
ghost use Rattle.db_value.specs.Spelling.{number_bytes};
ghost use Rattle.db_value.specs.Padded.{padded};
ghost use Rattle.db_value.specs.RowForm.{field_bytes, row_bytes};
ghost use Rattle.entry_codec.specs.Wide.{wide_bytes};

use db_value::row_form::{put_row, size_of_row};
use db_value::{Fields, Value, Widths};
use std::alloc::AllocError;

#[tactic(auto, unfolding(db_value::specs::Spelling::number_bytes))]
fn push_number(value: i64, out: &mut Vec<u8>) -> Result<(), AllocError>
    ensures { OnOk result (out.new.items ≡ out.old.items ++ number_bytes value) }
{
    out.extend_from_slice(&value.to_le_bytes())?;
    Ok(())
}

// A text, with zeros up to a width.
fn push_text(text: &[u8], width: u8, out: &mut Vec<u8>) -> Result<(), AllocError>
    requires { length text.now ≤ width }
    ensures { OnOk result (out.new.items ≡ out.old.items ++ padded 0 width text.now) }
{
    let end = out.len() + width as usize;
    out.extend_from_slice(text)?;
    out.resize(end, 0)?;
    Ok(())
}

// A field of a column.
fn push_field(width: u8, value: &Value, out: &mut Vec<u8>) -> Result<(), AllocError>
    requires { fits_width width value.now ≡ true }
    ensures bytes { OnOk result (out.new.items ≡ out.old.items ++ field_bytes width value.now) }
    ensures is { OnOk result (IsValue value.now) }
{
    match value {
        Value::Number { value } => {
            push_number(*value, out)?;
            Ok(())
        }
        Value::Text { text } => {
            push_text(text.as_bytes(), width, out)?;
            Ok(())
        }
    }
}

/// Adds fields, which meet the widths, each behind the width of its column.
pub fn push_wide(widths: &[u8], fields: &Fields, out: &mut Vec<u8>) -> Result<(), AllocError>
    requires few { length widths.now ≤ 15 }
    requires meets { meets widths.now fields.now ≡ true }
    ensures bytes { OnOk result
        (out.new.items ≡ out.old.items ++ wide_bytes widths.now fields.now) }
    ensures are { OnOk result (AllByRecursion IsValue fields.now) }
{
    for at in 0..widths.len() {
        out.push(widths[at])?;
        push_field(widths[at], &fields.get(at as u8), out)?;
    }
    Ok(())
}

/// Adds fields, which meet the widths.
pub fn push_row(widths: &Widths, fields: &Fields, out: &mut Vec<u8>) -> Result<(), AllocError>
    requires { meets widths.now fields.now ≡ true }
    ensures bytes { OnOk result
        (out.new.items ≡ out.old.items ++ row_bytes widths.now fields.now) }
    ensures are { OnOk result (AllByRecursion IsValue fields.now) }
{
    let mut row = [0u8; 960];
    put_row(widths.as_slice(), fields, &mut row);
    out.extend_from_slice(&row[..size_of_row(widths.as_slice())])?;
    Ok(())
}
