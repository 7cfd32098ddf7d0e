//! Reading in a view.
ghost use Rattle.std.specs.Prelude.{◌≡◌, ◌<◌, is_some, true, length, IfOk, IfSome, OnErr};
ghost use Rattle.std.specs.FinMap as finite;
ghost use Rattle.db_store.specs.Table.{relation_at};
ghost use Rattle.branch_tx.specs.Act.{record_with};
ghost use Rattle.branch_tx.specs.Granted.{is_far};

use db_store::View;
use db_value::{OneRow, Record, Steps};
use std::alloc::{AllocError, Global};
use std::marker::Brand;
use std::sync::ledger::{Blank, Ledger};
use version_join::find_record;

// Has a relation a key? If so, its record is read, where nobody counts the steps.
fn find_counted<V: View, L: Ledger>(
    view: &V,
    relation: u8,
    key: u64,
    into: &mut Record,
    blank: Blank,
) -> bool
    requires relation { relation < length (V.table view.now) }
    requires name { blank.name ≡ L.name }
    requires parts { blank.parts ≡ L.parts }
    requires some { 0 < L.parts }
    ensures there { result ≡ is_some (finite.get (relation_at (V.table view.now) relation) key) }
    ensures fields { IfSome (finite.get (relation_at (V.table view.now) relation) key)
        (λ fields. into.new.fields ≡ fields) }
{
    let mut steps = Steps::<L>::open(blank);
    find_record(view, relation, key, into, &mut steps)
}

/// The record with a key, as the row of a reply. Memory is taken for a far record alone, whose bytes
/// don't stand in the reply itself.
pub fn find_row<V: View>(
    alloc: Global,
    view: &V,
    relation: u8,
    key: u64,
) -> Result<OneRow, AllocError>
    requires { relation < length (V.table view.now) }
    ensures row { IfOk result (λ row. row
        ≡ record_with key (finite.get (relation_at (V.table view.now) relation) key)) }
    ensures far { OnErr result (is_far
        (record_with key (finite.get (relation_at (V.table view.now) relation) key)) ≡ true) }
{
    let mut row = Record::blank();
    if !find_counted::<V, Brand>(view, relation, key, &mut row, Blank::new(1)) {
        return Ok(OneRow::none());
    }
    row.key = key;
    OneRow::some(alloc, &row)
}
