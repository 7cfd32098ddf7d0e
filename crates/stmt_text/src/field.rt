//! The values of fields: numbers, and texts between double quotes.
ghost use Rattle.std.specs.Prelude.{◌≡◌};
ghost use Rattle.stmt_text.specs.Field.{ended_text, field_of, term_value};

use crate::number::read_value;
use db_value::{ShortText, TermValue, Value};

// The text before a double quote at the end.
fn ended_text(bytes: &[u8]) -> Option<ShortText>
    ensures { result ≡ ended_text bytes.now }
{
    let len = bytes.len();
    if len == 0 {
        return None;
    }
    if bytes[len - 1] != b'"' {
        return None;
    }
    ShortText::of(&bytes[..len - 1])
}

/// The value of a field.
#[tactic(auto, unfolding(crate::specs::Field::field_of))]
pub fn read_field(word: &[u8]) -> Option<Value>
    ensures { result ≡ field_of word.now }
{
    let [first, rest @ ..] = word else {
        return None;
    };
    if *first == b'"' {
        return match ended_text(rest) {
            None => None,
            Some(text) => Some(Value::Text { text }),
        };
    }
    match read_value(word) {
        None => None,
        Some(value) => Some(Value::Number { value }),
    }
}

/// The value of a field as that of a term.
pub fn term_value(value: &Value) -> TermValue
    ensures { result ≡ term_value value.now }
{
    match value {
        Value::Number { value } => TermValue::Number {
            value: i128::from(*value),
        },
        Value::Text { text } => TermValue::Text { text: *text },
    }
}
