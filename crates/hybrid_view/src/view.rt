//! The view of a version: what it has of each relation, shared with the store.
ghost use Rattle.std.specs.Prelude.{◌≡◌, ◌<◌, length, map, IfOk};
ghost use Rattle.std.specs.Arc.{arc_value};
ghost use Rattle.hybrid_view.specs.Live.{lived_at, AllLived};

use crate::live::LiveRelation;
use db_store::{PartInfo, Spot, View};
use db_value::{Record, Steps};
use std::alloc::{AllocError, Global};
use std::marker::Model;
use std::sync::Arc;
use std::sync::ledger::Ledger;
use store_catalogue::KeyedTable;

/// What a version has of each relation.
#[derive(Drop)]
pub struct LiveTable {
    relations: Vec<Arc<LiveRelation>>,
}

impl Model for LiveTable {
    ghost use Rattle.std.specs.Prelude.{List, map};
    ghost use Rattle.std.specs.Arc.{arc_value};
    ghost use Rattle.std.specs.Coded.{coded_list};
    ghost use Rattle.hybrid_view.specs.Live.{Lived, lived_code, AllLived};

    ghost Value = { List Lived };

    ghost coded = { coded_list lived_code };

    ghost view = { λ t. map arc_value t.relations.items };

    ghost invariant = { λ t. AllLived (map arc_value t.relations.items) };
}

impl LiveTable {
    /// What holds of every relation of it.
    pub fn told(&self)
        ensures { AllLived self.now }
    {
        let _relations = &self.relations;
    }

    /// This of each relation.
    pub fn of(relations: Vec<Arc<LiveRelation>>) -> LiveTable
        requires { AllLived (map arc_value relations.items) }
        ensures { result ≡ map arc_value relations.items }
    {
        LiveTable { relations }
    }

    /// A link to what it has of a relation.
    pub fn share_relation(&self, relation: u8) -> Result<Arc<LiveRelation>, AllocError>
        requires { relation < length self.now }
        ensures { IfOk result (λ l. arc_value l ≡ lived_at self.now relation) }
    {
        Arc::try_clone(&self.relations[relation as usize])
    }

    /// What it has of a relation.
    pub fn relation(&self, relation: u8) -> &LiveRelation
        requires { relation < length self.now }
        ensures { result.now ≡ lived_at self.now relation }
    {
        &self.relations[relation as usize]
    }
}

impl KeyedTable for LiveTable {
    ghost use Rattle.hybrid_view.specs.Live.{table_of};

    ghost table_of = { table_of };

    fn keys(&self, relation: u8) -> u32 {
        self.relation(relation).count()
    }

    fn has(&self, relation: u8, key: u64) -> bool {
        match self.relation(relation).find(key) {
            None => false,
            Some(_) => true,
        }
    }
}

impl HybridView {
    /// A view of what a version has. It takes no memory.
    pub fn of(table: Arc<LiveTable>) -> HybridView
        ensures { result.table ≡ table }
    {
        table.told();
        HybridView { table }
    }

    /// What the version has.
    pub fn table(&self) -> &LiveTable
        ensures { result.now ≡ arc_value self.now.table }
    {
        &self.table
    }

    /// A second view of the same version.
    pub fn share(&self) -> Result<HybridView, AllocError>
        ensures { IfOk result (λ v. arc_value v.table ≡ arc_value self.now.table) }
    {
        let table = Arc::try_clone(&self.table)?;
        Ok(HybridView::of(table))
    }
}

/// The view of a version is one link to what the version has.
#[derive(Drop)]
pub struct HybridView {
    table: Arc<LiveTable>,
    ghost lived: { AllLived (arc_value table) },
}

impl View for HybridView {
    ghost use Rattle.std.specs.Arc.{arc_value};
    ghost use Rattle.hybrid_view.specs.Live.{lived_at, parts_in, table_of};
    ghost use Rattle.hybrid_view.specs.LiveRules.{live_rows_are};

    ghost table = { λ v. table_of (arc_value v.table) };

    ghost parts_of = { λ v r. parts_in (lived_at (arc_value v.table) r) };

    ghost rows_are = { λ v r h. live_rows_are (arc_value v.table) r v.lived h };

    fn find(&self, relation: u8, key: u64) -> Option<Spot> {
        self.table.relation(relation).find(key)
    }

    fn count(&self, relation: u8) -> u32 {
        self.table.relation(relation).count()
    }

    fn parts(&self, relation: u8) -> u32 {
        self.table.relation(relation).parts()
    }

    fn part(&self, relation: u8, index: u32) -> PartInfo {
        let part = self.table.relation(relation).part(index);
        PartInfo {
            id: part.id(),
            slots: part.slots(),
        }
    }

    fn live(&self, relation: u8, index: u32, slot: u32) -> bool {
        self.table.relation(relation).part(index).live(slot)
    }

    fn read<L: Ledger>(&self, relation: u8, spot: Spot, into: &mut Record, steps: &mut Steps<L>) {
        self.table
            .relation(relation)
            .part(spot.part)
            .read(spot.slot, into, steps);
    }
}
