//! Rows that a scan found, each with the versions that have it.
ghost use Rattle.std.specs.Prelude.{◌≡◌, ◌<◌, ◌++◌, ◌∷◌, [], length, OnOk};
ghost use Rattle.std.specs.List.Sorted.{IsPermutation, IsSorted};
ghost use Rattle.db_value.specs.Marks.{marked_here};
ghost use Rattle.db_value.specs.Order.{record_cmp};
ghost use Rattle.multi_scan.specs.Found.{row_cmp};
ghost use Rattle.multi_scan.specs.Kept.{place_in, record_at, row_at, kept_cmp};

use db_value::{Positions, Record, Records};
use std::alloc::{AllocError, Global};
use std::cmp::Ordering;
use std::marker::Model;

// Where the record of a row stands, and the positions of the views that have it.
#[derive(Drop)]
pub struct FoundRow {
    place: usize,
    positions: Positions,
}

/// Rows that a scan found. Their records stand as they were found, and the rows in an order of their own.
#[derive(Drop)]
pub struct FoundRows {
    records: Records,
    rows: Vec<FoundRow>,
}

impl Model for FoundRows {
    ghost use Rattle.std.specs.Prelude.{List, map};
    ghost use Rattle.std.specs.List.{AllByRecursion};
    ghost use Rattle.std.specs.Coded.{coded_list};
    ghost use Rattle.db_value.specs.declared.record.Marked.{Marked};
    ghost use Rattle.db_value.specs.Marks.{marked_code};
    ghost use Rattle.multi_scan.specs.Kept.{row_at, IsThere};

    ghost Value = { List Marked };

    ghost coded = { coded_list marked_code };

    ghost view = { λ f. map (row_at f.records) f.rows.items };

    ghost invariant = { λ f. AllByRecursion (IsThere f.records) f.rows.items };
}

// The place, or the last one past the end.
fn place_in(place: usize, len: usize) -> usize
    requires { 0 < len }
    ensures value { result ≡ place_in place len }
    ensures there { result < len }
{
    if place < len { place } else { len - 1 }
}

// By key, and then by fields.
#[tactic(auto, using(crate::proofs::KeptLemmas::record_read))]
fn compare_there(records: &Records, a: usize, b: usize) -> Ordering
    requires a { a < length records.now }
    requires b { b < length records.now }
    ensures { result ≡ record_cmp (record_at records.now a) (record_at records.now b) }
{
    let keys = records.key(a).cmp(&records.key(b));
    if keys.is_ne() {
        return keys;
    }
    let mut first = Record::blank();
    let mut second = Record::blank();
    records.read(a, &mut first);
    records.read(b, &mut second);
    first.fields.cmp(&second.fields)
}

// The order of the rows at two places.
fn compare(records: &Records, a: &FoundRow, b: &FoundRow) -> Ordering
    ensures { result ≡ kept_cmp records.now a.now b.now }
{
    let len = records.len();
    if len == 0 {
        return Ordering::Equal;
    }
    compare_there(records, place_in(a.place, len), place_in(b.place, len))
}

// Puts rows in the order of their records. No record moves.
fn sort_rows(records: &Records, rows: &mut Vec<FoundRow>)
    ensures permutation { IsPermutation rows.old.items rows.new.items }
    ensures sorted { IsSorted (kept_cmp records.now) rows.new.items }
{
    rows.sort_unstable_by(|a, b| compare(records, a, b));
}

impl FoundRows {
    /// No row.
    pub fn new(alloc: Global) -> FoundRows
        ensures { result ≡ [] }
    {
        FoundRows {
            records: Records::new(alloc),
            rows: Vec::new(alloc),
        }
    }

    /// How many there are.
    pub fn len(&self) -> usize
        ensures { result ≡ length self.now }
    {
        self.rows.len()
    }

    /// A row more.
    pub fn push(&mut self, row: &Record, positions: Positions) -> Result<(), AllocError>
        ensures { OnOk result
            (self.new ≡ self.old ++ record { row = row.now; positions = positions } ∷ []) }
    {
        let place = self.records.len();
        self.records.push(row)?;
        self.rows.push(FoundRow { place, positions })?;
        Ok(())
    }

    /// Reads the record of a row.
    pub fn read(&self, index: usize, into: &mut Record)
        requires { index < length self.now }
        ensures { into.new ≡ (marked_here self.now index).row }
    {
        self.records.read(self.rows[index].place, into);
    }

    /// The versions that have a row.
    pub fn positions(&self, index: usize) -> &Positions
        requires { index < length self.now }
        ensures { result.now ≡ (marked_here self.now index).positions }
    {
        &self.rows[index].positions
    }

    /// Puts them in order, by key and then by fields.
    pub fn sort(&mut self)
        ensures permutation { IsPermutation self.old self.new }
        ensures sorted { IsSorted row_cmp self.new }
    {
        sort_rows(&self.records, &mut self.rows);
    }
}
