//! Merges in a granted transaction.
ghost use Rattle.std.specs.Prelude.{◌≡◌, ◌<◌, [], true, nat_lt, length, map, IfOk, OnOk, OnErr};
ghost use Rattle.std.proofs.Common.{get_or};
ghost use Rattle.std.specs.List.{list_all};
ghost use Rattle.db_value.specs.Relations.{columns_at};
ghost use Rattle.db_store.specs.Adopt.{keys_differ};
ghost use Rattle.db_store.specs.Fits.{change_fits};
ghost use Rattle.db_store.specs.Overlay.{untouched};
ghost use Rattle.field_merge.specs.Named.{IsFieldOf};
ghost use Rattle.branch_tx.specs.Merging.{relation_name, field_name};
ghost use Rattle.branch_tx.specs.Granted.{merged, adopted, with_merge};
ghost use Rattle.branch_tx.specs.MayMerge.{MayMerge};

use crate::refuse::{refused, versions_full};
use crate::tx::Tx;
use db_store::{Store, WorkStop};
use db_value::{Changes, Column, Name, Prefer, Refusal, Reply, Schema, VersionPlace};
use field_merge::{MergeStop, merge_tables};
use line_needs::columns_of;
use std::alloc::AllocError;

// The name of a relation.
fn relation_name(schema: &Schema, relation: u8) -> Name
    requires { relation < length schema.now }
    ensures { result ≡ relation_name schema.now relation }
{
    schema.relations()[relation as usize].name
}

// The name of a column.
#[tactic(auto, using(crate::proofs::MergeLemmas::name_at))]
fn column_name(columns: &[Column], column: u8) -> Name
    requires { column < length columns.now }
    ensures { result ≡ get_or (map (λ c. c.name) columns.now) column [] }
{
    columns[column as usize].name
}

// The name of a column, unless the whole record is meant.
fn field_name(schema: &Schema, relation: u8, field: Option<u8>) -> Option<Name>
    requires relation { relation < length schema.now }
    requires field { IsFieldOf (length (columns_at schema.now relation)) field }
    ensures { result ≡ field_name schema.now relation field }
{
    match field {
        None => None,
        Some(column) => Some(column_name(columns_of(schema, relation), column)),
    }
}

impl<St: Store> Tx<St> {
    // Takes the changes of a merge that has no conflict.
    fn adopt(&mut self, from: VersionPlace, changes: &Changes) -> Reply
        requires untouched { self.old.overlays ≡ untouched }
        requires relations { list_all (λ c.
            nat_lt c.relation (length self.old.head)) changes.now ≡ true }
        requires differ { keys_differ changes.now ≡ true }
        requires fit { list_all (change_fits self.old.schema) changes.now ≡ true }
        ensures reply { result ≡ (adopted self.old from changes.now).reply }
        ensures left { self.new ≡ with_merge self.old
            (adopted self.old from changes.now) }
    {
        match self.work.adopt(from, changes) {
            Ok(()) => Reply::Done,
            Err(WorkStop::TableFull { relation }) => refused(Refusal::TableFull {
                relation: relation_name(&self.schema, relation),
            }),
            Err(WorkStop::Room) => refused(Refusal::Room {
                room: self.work.room(),
            }),
            Err(WorkStop::BodyFull) => refused(Refusal::BodyFull),
            Err(_) => unreachable!(),
        }
    }

    /// Merges the right table, which stands at a place, into its working table, over the table of
    /// their common ancestor. All three views are of one store. A refused merge leaves everything as
    /// before, and so does want of memory.
    pub fn merge(
        &mut self,
        from: VersionPlace,
        base: &St::View,
        right: &St::View,
        prefer: Prefer,
    ) -> Result<Reply, AllocError>
        requires may { MayMerge self.old (St.View.table base.now) (St.View.table right.now)
            (St.View.parts_of base.now) (St.View.parts_of right.now) }
        ensures reply { IfOk result (λ r. r ≡ (merged self.old from prefer (St.View.table base.now)
            (St.View.table right.now)).reply) }
        ensures left { OnOk result (self.new ≡ with_merge self.old
            (merged self.old from prefer (St.View.table base.now) (St.View.table right.now))) }
        ensures err { OnErr result (self.new ≡ self.old) }
    {
        if self.is_full() {
            return Ok(versions_full(self.current));
        }
        match merge_tables(
            self.allocator(),
            &self.schema,
            base,
            &self.work,
            right,
            prefer,
        ) {
            Ok(changes) => { Ok(self.adopt(from, &changes)) }
            Err(
                MergeStop::Conflict {
                    relation,
                    key,
                    field,
                },
            ) => Ok(refused(Refusal::Conflict {
                relation: relation_name(&self.schema, relation),
                key,
                field: field_name(&self.schema, relation, field),
            })),
            Err(MergeStop::Memory) => Err(AllocError),
        }
    }
}
