//! Three lists of records by key, walked side by side.
ghost use Rattle.std.specs.Prelude.{◌≡◌, ◌++◌, [], ◌∷◌, drop, Ok, Some, OnOk, option_copied};
ghost use Rattle.db_value.specs.declared.condition.Prefer.TheVariants.{Neither};
ghost use Rattle.db_store.specs.Overlay.{change_of};
ghost use Rattle.field_merge.specs.Merge.{change_where, clash_where, least_clash};
ghost use Rattle.field_merge.specs.Results.{IfConflict};
ghost use Rattle.field_merge.specs.Rows.{fields_if, row_if, told, HasKey, AreVersions};
ghost use Rattle.field_merge.specs.Steps.{merged_at};
ghost use Rattle.field_merge.specs.Walk.{record_changes, record_clashes, first_at, behind, first_key, lesser, least_key, AreSides};

use crate::one_key::is_same;
use crate::sides::Sides;
use crate::{MergeStop, Merged, merge3};
use db_value::{Changes, Prefer, Record, Records, Widths};
use std::alloc::AllocError;

/// Where three lists are read.
#[derive(Clone, Copy)]
pub struct Places {
    pub base: usize,
    pub left: usize,
    pub right: usize,
}

// The records to read into: of the three lists, and what a merge makes of them.
#[derive(Drop)]
pub struct Spare {
    base: Record,
    left: Record,
    right: Record,
    merged: Record,
}

// Reads the first record from a place on, if it has a key.
fn read_first(rows: &Records, at: usize, key: u64, into: &mut Record) -> bool
    ensures { first_at key (drop at rows.now) ≡ row_if result into.new }
{
    if at >= rows.len() {
        return false;
    }
    if rows.key(at) != key {
        return false;
    }
    rows.read(at, into);
    true
}

// The record, if it was read.
fn row_if(read: bool, row: &Record) -> Option<&Record>
    ensures { option_copied result ≡ row_if read row.now }
{
    if read { Some(row) } else { None }
}

// Behind the first record from a place on, if it has a key.
fn behind(rows: &Records, at: usize, key: u64) -> usize
    ensures { drop result rows.now ≡ behind key (drop at rows.now) }
{
    if at >= rows.len() {
        return at;
    }
    if rows.key(at) == key {
        return at + 1;
    }
    at
}

fn first_key(rows: &Records, at: usize) -> Option<u64>
    ensures { result ≡ first_key (drop at rows.now) }
{
    if at >= rows.len() {
        return None;
    }
    Some(rows.key(at))
}

fn lesser(a: Option<u64>, b: Option<u64>) -> Option<u64>
    ensures { result ≡ lesser a b }
{
    match a {
        None => b,
        Some(x) => match b {
            None => a,
            Some(y) => Some(x.min(y)),
        },
    }
}

fn least_key(sides: &Sides, at: &Places) -> Option<u64>
    ensures { result ≡ least_key (drop at.now.base sides.now.base)
        (drop at.now.left sides.now.left) (drop at.now.right sides.now.right) }
{
    lesser(
        first_key(&sides.base, at.base),
        lesser(
            first_key(&sides.left, at.left),
            first_key(&sides.right, at.right),
        ),
    )
}

// Lists a key with the record that it gets, or none.
fn put_change(
    relation: u8,
    widths: &Widths,
    key: u64,
    row: Option<&Record>,
    all: &mut Changes,
) -> Result<(), AllocError>
    requires { HasKey key (option_copied row) }
    ensures { OnOk result (all.new ≡ all.old
        ++ change_of widths.now relation (key, fields_if (option_copied row.entry)) ∷ []) }
{
    match row {
        None => Ok(all.remove(relation, key)?),
        Some(row) => Ok(all.put(relation, row, widths)?),
    }
}

// Lists a key if what the merge has there differs from what left has.
fn list_change(
    relation: u8,
    widths: &Widths,
    key: u64,
    left: Option<&Record>,
    row: Option<&Record>,
    all: &mut Changes,
) -> Result<(), AllocError>
    requires { HasKey key (option_copied row) }
    ensures { OnOk result (all.new ≡ all.old ++ change_where widths.now relation key
        (fields_if (option_copied left.entry)) (Ok (fields_if (option_copied row.entry)))) }
{
    if is_same(row, left) {
        return Ok(());
    }
    put_change(relation, widths, key, row, all)?;
    Ok(())
}

// Lists what a merge has at a key, or tells its conflict. The record has the key, and the fields that
// the merge put.
fn list_merged(
    relation: u8,
    widths: &Widths,
    key: u64,
    left: Option<&Record>,
    merged: Merged,
    row: &Record,
    all: &mut Changes,
) -> Result<(), MergeStop>
    requires { row.now.key ≡ key }
    ensures changes { OnOk result (all.new ≡ all.old ++ change_where widths.now relation key
        (fields_if (option_copied left.entry)) (told merged row.now.fields)) }
    ensures free { OnOk result (clash_where relation key (told merged row.now.fields) ≡ []) }
    ensures conflict { IfConflict result (λ clash.
        clash_where relation key (told merged row.now.fields) ≡ clash ∷ []) }
{
    match merged {
        Merged::Conflict { field } => Err(MergeStop::Conflict {
            relation,
            key,
            field,
        }),
        Merged::Gone => match list_change(relation, widths, key, left, None, all) {
            Ok(()) => Ok(()),
            Err(AllocError) => Err(MergeStop::Memory),
        },
        Merged::There => match list_change(relation, widths, key, left, Some(row), all) {
            Ok(()) => Ok(()),
            Err(AllocError) => Err(MergeStop::Memory),
        },
    }
}

// Merges what three versions have at a key.
fn merge_key(
    relation: u8,
    widths: &Widths,
    key: u64,
    sides: &Sides,
    at: &Places,
    spare: &mut Spare,
    prefer: Prefer,
    all: &mut Changes,
) -> Result<(), MergeStop>
    requires { AreVersions (first_at key (drop at.now.base sides.now.base))
        (first_at key (drop at.now.left sides.now.left))
        (first_at key (drop at.now.right sides.now.right)) }
    ensures changes { OnOk result (all.new ≡ all.old ++ change_where widths.now relation key
        (fields_if (first_at key (drop at.now.left sides.now.left)))
        (merged_at prefer key sides.now at.now)) }
    ensures free { OnOk result (clash_where relation key (merged_at prefer key sides.now at.now)
        ≡ []) }
    ensures conflict { IfConflict result (λ clash.
        clash_where relation key (merged_at prefer key sides.now at.now) ≡ clash ∷ []) }
    ensures asked { IfConflict result (λ _. prefer ≡ Neither) }
{
    let in_base = read_first(&sides.base, at.base, key, &mut spare.base);
    let in_left = read_first(&sides.left, at.left, key, &mut spare.left);
    let in_right = read_first(&sides.right, at.right, key, &mut spare.right);
    let base = row_if(in_base, &spare.base);
    let left = row_if(in_left, &spare.left);
    let right = row_if(in_right, &spare.right);
    let merged = merge3(base, left, right, prefer, &mut spare.merged.fields);
    spare.merged.key = key;
    list_merged(relation, widths, key, left, merged, &spare.merged, all)
}

// Behind the records with a key.
fn behind_all(sides: &Sides, at: &Places, key: u64) -> Places
    ensures base { drop result.base sides.now.base ≡ behind key (drop at.now.base sides.now.base) }
    ensures left { drop result.left sides.now.left ≡ behind key (drop at.now.left sides.now.left) }
    ensures right { drop result.right sides.now.right
        ≡ behind key (drop at.now.right sides.now.right) }
{
    Places {
        base: behind(&sides.base, at.base, key),
        left: behind(&sides.left, at.left, key),
        right: behind(&sides.right, at.right, key),
    }
}

/// Adds the changes that make the merge of three lists of records by key of a relation with these
/// widths, or tells the first conflict.
pub fn merge_rows(
    relation: u8,
    widths: &Widths,
    sides: &Sides,
    prefer: Prefer,
    all: &mut Changes,
) -> Result<(), MergeStop>
    requires { AreSides sides.now.base sides.now.left sides.now.right }
    ensures changes { OnOk result (all.new ≡ all.old ++ record_changes widths.now prefer relation
        sides.now.base sides.now.left sides.now.right) }
    ensures free { OnOk result (record_clashes prefer relation
        sides.now.base sides.now.left sides.now.right ≡ []) }
    ensures conflict { IfConflict result (λ clash. least_clash (record_clashes prefer relation
        sides.now.base sides.now.left sides.now.right) ≡ Some clash) }
    ensures asked { IfConflict result (λ _. prefer ≡ Neither) }
{
    let mut at = Places {
        base: 0,
        left: 0,
        right: 0,
    };
    let mut spare = Spare {
        base: Record::blank(),
        left: Record::blank(),
        right: Record::blank(),
        merged: Record::blank(),
    };
    'keys: while let Some(key) = least_key(sides, &at) {
        match merge_key(relation, widths, key, sides, &at, &mut spare, prefer, all) {
            Ok(()) => {}
            Err(stop) => return Err(stop),
        }
        at = behind_all(sides, &at, key);
    }
    Ok(())
}
