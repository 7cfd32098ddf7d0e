//! The widths of columns.
ghost use Rattle.std.specs.Prelude.{◌≡◌, ◌<◌, ◌≤◌, ◌↔◌, ◌+◌, true, length, IsSome, IfSome, slice_get, Some};
ghost use Rattle.std.specs.List.{list_all};
ghost use Rattle.db_value.specs.Widths.{are_widths, is_width, meets, fits_width};
ghost use Rattle.db_value.specs.Spelling.{fields_in, first_in};

use crate::fields::{Fields, MOST_FIELDS};
use crate::packing::{after_first, body_of, count_in, first_text};
use std::marker::Model;

/// The most bytes of a text column.
pub const MOST_WIDTH: u8 = 64;

/// The widths of the columns of a relation, one to 15: 0 for a column of numbers, and 1 to 64 for a
/// column of texts of at most so many bytes.
#[derive(Clone, Copy)]
pub struct Widths {
    widths: [u8; 15],
    len: u8,
}

impl Model for Widths {
    ghost use Rattle.std.specs.Prelude.{◌≡◌, ◌≤◌, ℕ, List, true, take, length};
    ghost use Rattle.db_value.specs.Padded.{padded, length_of_padded};
    ghost use Rattle.db_value.specs.Width.{are_widths};
    ghost use Rattle.std.proofs.Common.{sym};

    ghost Value = { List ℕ };

    ghost view = { λ w. take w.len w.widths };

    ghost invariant = { λ w. (w.len ≤ 15) × (w.widths ≡ padded 0 15 (take w.len w.widths)) × (are_widths (take w.len w.widths) ≡ true) };

    ghost inverse = { λ v. record { widths = padded 0 15 v; len = length v } };

    ghost inverse_ok = { λ w h. λ i. record { widths = sym h.1 i; len = length_of_padded 0 15 w.len w.widths h.0 h.1 i } };
}

fn is_width(width: u8) -> bool
    ensures { result ≡ is_width width }
{
    width <= MOST_WIDTH
}

fn have_bound(widths: &[u8]) -> bool
    ensures { result ≡ list_all is_width widths.now }
{
    widths.iter().all(|w| is_width(*w))
}

fn are_widths(widths: &[u8]) -> bool
    ensures exact { result ≡ are_widths widths.now }
    ensures few { result ≡ true → length widths.now ≤ MOST_FIELDS }
{
    let len = widths.len();
    if len == 0 || len > MOST_FIELDS {
        return false;
    }
    have_bound(widths)
}

fn padded_widths(widths: &[u8]) -> Widths
    requires are { are_widths widths.now ≡ true }
    requires few { length widths.now ≤ MOST_FIELDS }
    ensures { result ≡ widths.now }
{
    let len = widths.len();
    let mut all = [0u8; 15];
    all[..len].copy_from_slice(widths);
    Widths {
        widths: all,
        len: len as u8,
    }
}

// Does the first packed value fit a column?
fn first_fits(width: u8, values: &[u8]) -> bool
    ensures { result ≡ fits_width width (first_in values.now) }
{
    match first_text(values) {
        None => width == 0,
        Some(text) => width > 0 && text.len() <= width as usize,
    }
}

/// Do the fields that bytes spell meet widths?
pub(crate) fn packed_meet(widths: &[u8], packed: &[u8]) -> bool
    ensures { result ≡ meets widths.now (fields_in packed.now) }
{
    if count_in(packed) != widths.len() {
        return false;
    }
    let mut rest = body_of(packed);
    for at in 0..widths.len() {
        if !first_fits(widths[at], rest) {
            return false;
        }
        rest = after_first(rest);
    }
    true
}

// Are they the same, one by one?
fn are_equal(mine: &[u8], others: &[u8]) -> bool
    ensures { (result ≡ true) ↔ (mine.now ≡ others.now) }
{
    if mine.len() != others.len() {
        return false;
    }
    for at in 0..mine.len() {
        if mine[at] != others[at] {
            return false;
        }
    }
    true
}

impl Widths {
    /// These widths, where they are one to 15 and none is above 64.
    pub fn of(widths: &[u8]) -> Option<Widths>
        ensures some { IsSome result ↔ (are_widths widths.now ≡ true) }
        ensures value { IfSome result (λ w. w ≡ widths.now) }
    {
        if are_widths(widths) {
            Some(padded_widths(widths))
        } else {
            None
        }
    }

    /// All of them, in the order of the columns.
    pub fn as_slice(&self) -> &[u8]
        ensures value { result.now ≡ self.now }
        ensures are { are_widths self.now ≡ true }
        ensures some { 0 < length result.now }
        ensures few { length result.now ≤ MOST_FIELDS }
    {
        &self.widths[..self.len as usize]
    }

    /// Are other widths the same?
    pub fn are_same(&self, other: &Widths) -> bool
        ensures { (result ≡ true) ↔ (self.now ≡ other.now) }
    {
        are_equal(self.as_slice(), other.as_slice())
    }

    /// Does a row meet the widths? It has a number at each width 0, and at each other width a text of
    /// at most so many bytes.
    pub fn meets(&self, fields: &Fields) -> bool
        ensures { result ≡ meets self.now fields.now }
    {
        packed_meet(self.as_slice(), fields.packed())
    }
}
