//! Values and rows that the tests speak of.
ghost use Rattle.std.specs.Prelude.{◌≡◌, true};
ghost use Rattle.db_value.specs.Widths.{meets};

use db_value::{Fields, Record, ShortText, Value, Widths};

pub fn number(value: i64) -> Value {
    Value::Number { value }
}

/// A text, or the number 0 if the bytes are none.
pub fn text(bytes: &[u8]) -> Value {
    match ShortText::of(bytes) {
        Some(text) => Value::Text { text },
        None => number(0),
    }
}

/// A record of one to 15 values.
pub fn row(key: u64, values: &[Value]) -> Record {
    let mut row = Record::blank();
    row.key = key;
    if let Some(fields) = Fields::of(values) {
        row.fields = fields;
    }
    row
}

// The longest value of a column.
fn widest(width: u8) -> Value {
    let letters = [b'm'; 64];
    if width == 0 || width > 64 {
        return number(i64::MIN);
    }
    text(&letters[..width as usize])
}

/// The longest row that meets widths.
pub fn widest_row(key: u64, widths: &Widths) -> Record {
    let mut row = Record::blank();
    row.key = key;
    let widths = widths.as_slice();
    let mut values = [number(0); 15];
    for at in 0..widths.len() {
        values[at] = widest(widths[at]);
    }
    if let Some(fields) = Fields::of(&values[..widths.len()]) {
        row.fields = fields;
    }
    row
}
