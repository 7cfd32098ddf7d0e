//! Versions of a store, and views of them that count what is read.
ghost use Rattle.std.specs.Prelude.{◌<◌, length, IfOk};
ghost use Rattle.db_store.specs.State.{dataset_of};
ghost use Rattle.db_store.specs.Counted.{IsTable};
ghost use Rattle.db_store.specs.Parts.{AreOf};

use crate::made::{Pair, at};
use db_store::{PartInfo, Spot, Store, View};
use db_value::{Record, Steps};
use std::cell::Cell;
use std::sync::ledger::Ledger;
use std::test::Fail;

/// A view that counts the records that are read of it.
#[derive(Drop)]
pub struct Watched<'a, V: View> {
    pub view: V,
    pub reads: &'a Cell<u32>,
}

impl<'a, V: View> View for Watched<'a, V> {
    ghost table = { λ w. V.table w.view };

    ghost parts_of = { λ w r. V.parts_of w.view r };

    ghost rows_are = { λ w r h. V.rows_are w.view r h };

    fn find(&self, relation: u8, key: u64) -> Option<Spot> {
        self.view.find(relation, key)
    }

    fn count(&self, relation: u8) -> u32 {
        self.view.count(relation)
    }

    fn parts(&self, relation: u8) -> u32 {
        self.view.parts(relation)
    }

    fn part(&self, relation: u8, index: u32) -> PartInfo {
        self.view.part(relation, index)
    }

    fn live(&self, relation: u8, index: u32, slot: u32) -> bool {
        self.view.live(relation, index, slot)
    }

    fn read<L: Ledger>(&self, relation: u8, spot: Spot, into: &mut Record, steps: &mut Steps<L>) {
        self.reads.set(self.reads.get().wrapping_add(1));
        self.view.read(relation, spot, into, steps);
    }
}

/// A version, with a first relation.
pub fn version<St: Store>(store: &St, place: Pair) -> Result<St::View, Fail>
    ensures some { IfOk result (λ v. 0 < length (St.View.table v)) }
    ensures table { IfOk result (λ v.
        IsTable (dataset_of (St.state store.now)).schema (St.View.table v)) }
    ensures parts { IfOk result (λ v. AreOf (St.state store.now) (St.View.parts_of v)) }
{
    let asked = at(place);
    let made = asked.branch < store.branches() && asked.position <= store.last(asked.branch);
    if !made || store.schema().relations().is_empty() {
        return Err("no version".into());
    }
    let view = store.view(asked)?;
    Ok(view)
}

/// A version whose reads are counted.
pub fn counted<'a, St: Store>(
    store: &St,
    position: u32,
    reads: &'a Cell<u32>,
) -> Result<Watched<'a, St::View>, Fail>
    ensures some { IfOk result (λ w. 0 < length (St.View.table w.view)) }
    ensures table { IfOk result (λ w.
        IsTable (dataset_of (St.state store.now)).schema (St.View.table w.view)) }
    ensures parts { IfOk result (λ w. AreOf (St.state store.now) (St.View.parts_of w.view)) }
{
    let view = version(store, (0, position))?;
    Ok(Watched { view, reads })
}
