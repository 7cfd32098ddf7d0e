//! Fields with their widths, read from bytes.
ghost use Rattle.std.specs.Prelude.{◌≡◌, ◌<◌, ◌≤◌, ◌+◌, true, length, take, drop, None, Some, IfSome, IfNone};
ghost use Rattle.std.proofs.Common.{suc};
ghost use Rattle.db_value.specs.RowForm.{field_size, field_in, is_field};
ghost use Rattle.db_store.specs.Body.{wide_size};
ghost use Rattle.entry_codec.specs.Wide.{widths_in, wide_in, are_wide, first_width};

use db_value::row_form::{field_of, size_of_field};
use db_value::{Fields, Value};

/// The most columns of a relation.
const MOST_COLUMNS: usize = 15;

// The width in front, if a field by it stands there.
fn width_of(bytes: &[u8]) -> Option<u8>
    ensures value { result ≡ first_width bytes.now }
    ensures within { IfSome result (λ w. field_size w + 1 ≤ length bytes.now) }
{
    match bytes {
        [] => None,
        [width, rest @ ..] => {
            if *width > 64 || size_of_field(*width) > rest.len() {
                return None;
            }
            if field_of(*width, rest).is_none() {
                return None;
            }
            Some(*width)
        }
    }
}

/// Reads the widths before so many fields, and tells how many bytes these have with them.
pub fn first_widths(count: u8, bytes: &[u8], widths: &mut [u8; 15]) -> Option<usize>
    requires { count ≤ MOST_COLUMNS }
    ensures none { IfNone result (widths_in count bytes.now ≡ None) }
    ensures widths { IfSome result (λ n. widths_in count bytes.now ≡ Some (take count widths.new)) }
    ensures size { IfSome result (λ n. n ≡ wide_size (take count widths.new)) }
    ensures within { IfSome result (λ n. n ≤ length bytes.now) }
{
    let mut at = 0;
    for i in 0..count as usize {
        match width_of(&bytes[at..]) {
            None => return None,
            Some(width) => {
                widths[i] = width;
                at += 1 + size_of_field(width);
            }
        }
    }
    Some(at)
}

// The field behind a width.
fn known_field(width: u8, bytes: &[u8]) -> Value
    requires room { field_size width ≤ length (drop 1 bytes.now) }
    requires field { is_field width (drop 1 bytes.now) ≡ true }
    ensures { result ≡ field_in width (drop 1 bytes.now) }
{
    match bytes {
        [] => unreachable!(),
        [_, rest @ ..] => match field_of(width, rest) {
            Some(value) => value,
            None => unreachable!(),
        },
    }
}

// What comes after a field and its width.
fn behind(width: u8, bytes: &[u8]) -> &[u8]
    requires { field_size width ≤ length (drop 1 bytes.now) }
    ensures { result.now ≡ drop (suc (field_size width)) bytes.now }
{
    match bytes {
        [] => bytes,
        [_, rest @ ..] => &rest[size_of_field(width)..],
    }
}

/// Reads the fields that stand behind these widths.
pub fn take_wide(widths: &[u8], bytes: &[u8], into: &mut Fields)
    requires some { 0 < length widths.now }
    requires few { length widths.now ≤ MOST_COLUMNS }
    requires wide { are_wide widths.now bytes.now ≡ true }
    ensures { into.new ≡ wide_in widths.now bytes.now }
{
    into.restart(&known_field(widths[0], bytes));
    let mut rest = behind(widths[0], bytes);
    for at in 1..widths.len() {
        into.push(&known_field(widths[at], rest));
        rest = behind(widths[at], rest);
    }
}
