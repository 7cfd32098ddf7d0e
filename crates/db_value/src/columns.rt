//! How the columns in the line of a schema are read.
ghost use Rattle.std.specs.Prelude.{◌≡◌, ◌<◌, ◌≤◌, ◌==◌, true, length, map, position, [], IfOk, IfSome};
ghost use Rattle.std.specs.Int.{is_in_range};
ghost use Rattle.std.specs.List.{list_any, list_all};
ghost use Rattle.db_value.specs.Text.{same};
ghost use Rattle.db_value.specs.Width.{is_width};
ghost use Rattle.db_value.specs.Schema.{width_of, column_at, column_of, columns_from};

use crate::schema::{Column, Columns};
use crate::widths::MOST_WIDTH;
use crate::{ListOf, Name};
use std::alloc::{AllocError, Global};

// A digit that a width begins with.
fn is_lead(c: u8) -> bool
    ensures exact { result ≡ is_in_range 49 57 c }
    ensures bounds { result ≡ true → (49 ≤ c) × (c ≤ 57) }
{
    matches!(c, b'1'..=b'9')
}

fn is_digit(c: u8) -> bool
    ensures exact { result ≡ is_in_range 48 57 c }
    ensures bounds { result ≡ true → (48 ≤ c) × (c ≤ 57) }
{
    matches!(c, b'0'..=b'9')
}

// The width of a column of texts.
fn read_width(text: &[u8]) -> Option<u8>
    ensures width { result ≡ width_of text.now }
    ensures few { IfSome result (λ w. w ≤ MOST_WIDTH) }
{
    match text {
        [one] => {
            if is_lead(*one) {
                return Some(*one - b'0');
            }
            None
        }
        [ten, one] => {
            if is_lead(*ten) && is_digit(*one) {
                let width = (*ten - b'0') * 10 + (*one - b'0');
                if width <= MOST_WIDTH {
                    return Some(width);
                }
            }
            None
        }
        _ => None,
    }
}

// A column with a `:` at a place, if there is one.
fn column_cut(word: &[u8], at: Option<usize>) -> Option<Column>
    requires { IfSome at (λ i. i < length word.now) }
    ensures column { result ≡ column_at word.now at }
    ensures bound { IfSome result (λ c. is_width c.width ≡ true) }
{
    match at {
        None => match Name::read(word) {
            None => None,
            Some(name) => Some(Column { name, width: 0 }),
        },
        Some(i) => {
            let Some(width) = read_width(&word[i + 1..]) else {
                return None;
            };
            match Name::read(&word[..i]) {
                None => None,
                Some(name) => Some(Column { name, width }),
            }
        }
    }
}

fn colon_in(word: &[u8]) -> Option<usize>
    ensures place { result ≡ position (λ c. c == 58) word.now }
    ensures within { IfSome result (λ i. i < length word.now) }
{
    word.iter().position(|c| *c == b':')
}

// A column, of numbers or of texts.
#[tactic(auto, unfolding(crate::specs::Schema::column_of))]
fn read_column(word: &[u8]) -> Option<Column>
    ensures column { result ≡ column_of word.now }
    ensures bound { IfSome result (λ c. is_width c.width ≡ true) }
{
    column_cut(word, colon_in(word))
}

fn has_column(columns: &[Column], name: &Name) -> bool
    ensures { result ≡ list_any (λ d. same d.name name.now) columns.now }
{
    columns.iter().any(|c| c.name == *name)
}

/// Columns with distinct names, one a word.
pub(crate) fn read_columns(alloc: Global, words: &[&[u8]]) -> Result<Option<Columns>, AllocError>
    ensures columns { IfOk result (λ o. o ≡ columns_from [] (map (λ w. w.now) words.now)) }
    ensures count { IfOk result (λ o. IfSome o (λ columns. length columns ≡ length words.now)) }
    ensures bound { IfOk result (λ o. IfSome o (λ columns. list_all (λ c. is_width c.width) columns ≡ true)) }
{
    let mut items: Vec<Column> = Vec::new(alloc);
    for word in words {
        let Some(column) = read_column(word) else {
            return Ok(None);
        };
        if has_column(&items, &column.name) {
            return Ok(None);
        }
        items.push(column)?;
    }
    Ok(Some(ListOf::of(items)))
}
