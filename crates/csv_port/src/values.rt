//! The key and the values of a row as text.
ghost use Rattle.std.specs.Prelude.{◌≡◌, ◌<◌, ◌≤◌, ◌+◌, ◌++◌, ◌∷◌, [], length, drop, OnOk};
ghost use Rattle.std.specs.List.{flat_map};
ghost use Rattle.std.specs.Fmt.{decimal, signed_decimal};
ghost use Rattle.csv_port.specs.Written.{has_comma, next_text, text_cell};

use db_value::{Fields, Value};
use itoa::write_digits;
use std::alloc::AllocError;

/// The bytes of a key, at most.
const MOST_KEY: usize = 20;

/// The bytes of a number and the comma before it, at most.
const MOST_NUMBER: usize = 21;

// Writes a byte before what stands from `end` on, and tells where it stands.
fn put_byte(buffer: &mut [u8], end: usize, byte: u8) -> usize
    requires some { 0 < end }
    requires within { end ≤ length buffer.old }
    ensures at { result + 1 ≡ end }
    ensures written { drop result buffer.new ≡ byte ∷ drop end buffer.old }
{
    buffer[end - 1] = byte;
    end - 1
}

fn put_key(buffer: &mut [u8], end: usize, key: u64) -> usize
    requires room { 20 ≤ end }
    requires within { end ≤ length buffer.old }
    ensures before { result ≤ end }
    ensures written { drop result buffer.new ≡ decimal key ++ drop end buffer.old }
{
    write_digits(key, buffer, end)
}

// Writes a number and the comma before it.
fn put_number(buffer: &mut [u8], end: usize, value: i64) -> usize
    requires room { 21 ≤ end }
    requires within { end ≤ length buffer.old }
    ensures before { result ≤ end }
    ensures written { drop result buffer.new ≡ (44 ∷ signed_decimal value) ++ drop end buffer.old }
{
    let start = write_digits(value.unsigned_abs(), buffer, end);
    if value >= 0 {
        return put_byte(buffer, start, b',');
    }
    let sign = put_byte(buffer, start, b'-');
    put_byte(buffer, sign, b',')
}

/// Adds a key.
pub(crate) fn push_key(out: &mut Vec<u8>, key: u64) -> Result<(), AllocError>
    ensures { OnOk result (out.new.items ≡ out.old.items ++ decimal key) }
{
    let mut buffer = [0u8; MOST_KEY];
    let start = put_key(&mut buffer, MOST_KEY, key);
    out.extend_from_slice(&buffer[start..])
}

fn push_number(out: &mut Vec<u8>, value: i64) -> Result<(), AllocError>
    ensures { OnOk result (out.new.items ≡ out.old.items ++ 44 ∷ signed_decimal value) }
{
    let mut buffer = [0u8; MOST_NUMBER];
    let start = put_number(&mut buffer, MOST_NUMBER, value);
    out.extend_from_slice(&buffer[start..])
}

fn has_comma(text: &[u8]) -> bool
    ensures { result ≡ has_comma text.now }
{
    text.iter().any(|b| *b == b',')
}

fn push_quoted(out: &mut Vec<u8>, text: &[u8]) -> Result<(), AllocError>
    ensures { OnOk result (out.new.items ≡ out.old.items ++ 44 ∷ (34 ∷ text.now ++ 34 ∷ [])) }
{
    out.extend_from_slice(b",\"")?;
    out.extend_from_slice(text)?;
    out.extend_from_slice(b"\"")
}

// Adds a comma and a text, which stands between double quotes if it has a comma.
#[tactic(auto, using(crate::proofs::ValueLemmas::bare_cell, crate::proofs::ValueLemmas::quoted_cell))]
fn push_text(out: &mut Vec<u8>, text: &[u8]) -> Result<(), AllocError>
    ensures { OnOk result (out.new.items ≡ out.old.items ++ 44 ∷ text_cell text.now) }
{
    if has_comma(text) {
        push_quoted(out, text)?;
        return Ok(());
    }
    out.push(b',')?;
    out.extend_from_slice(text)?;
    Ok(())
}

// Adds a comma and a value.
fn push_value(out: &mut Vec<u8>, value: &Value) -> Result<(), AllocError>
    ensures { OnOk result (out.new.items ≡ out.old.items ++ next_text value.now) }
{
    match value {
        Value::Number { value } => push_number(out, *value),
        Value::Text { text } => push_text(out, text.as_bytes()),
    }
}

/// Adds values, each behind a comma.
#[tactic(auto, using(crate::proofs::ValueLemmas::next_value, crate::proofs::ValueLemmas::no_value))]
pub(crate) fn push_values(out: &mut Vec<u8>, fields: &Fields) -> Result<(), AllocError>
    ensures { OnOk result (out.new.items ≡ out.old.items ++ flat_map next_text fields.now) }
{
    let mut walk = fields.walk();
    for _ in 0..fields.count() {
        let Some(value) = walk.next() else {
            return Ok(());
        };
        push_value(out, &value)?;
    }
    Ok(())
}
