//! Looking up in the other version.
ghost use Rattle.std.specs.Prelude.{◌≡◌, ◌+◌, ◌<◌, ◌≤◌, is_some, length, IfSome};
ghost use Rattle.std.specs.FinMap as finite;
ghost use Rattle.db_store.specs.Table.{relation_at};

use db_store::View;
use db_value::{Record, Steps};
use std::sync::ledger::Ledger;

/// Has a relation a key? If so, its record is read.
pub fn find_record<V: View, L: Ledger>(
    view: &V,
    relation: u8,
    key: u64,
    into: &mut Record,
    steps: &mut Steps<L>,
) -> bool
    requires { relation < length (V.table view.now) }
    ensures there { result ≡ is_some (finite.get (relation_at (V.table view.now) relation) key) }
    ensures fields { IfSome (finite.get (relation_at (V.table view.now) relation) key)
        (λ fields. into.new.fields ≡ fields) }
    ensures cost { steps.new ≤ steps.old + 1 }
{
    match view.find(relation, key) {
        None => false,
        Some(spot) => {
            view.read(relation, spot, into, steps);
            true
        }
    }
}
