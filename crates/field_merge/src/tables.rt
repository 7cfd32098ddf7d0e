//! The merge of three tables.
ghost use Rattle.std.specs.Prelude.{◌≡◌, ◌<◌, ◌≤◌, ◌++◌, [], Some, length, IfOk, OnOk};
ghost use Rattle.db_value.specs.declared.condition.Prefer.TheVariants.{Neither};
ghost use Rattle.db_store.specs.Counted.{IsTable};
ghost use Rattle.db_store.specs.RowWidths.{all_widths};
ghost use Rattle.field_merge.specs.Merge.{least_clash};
ghost use Rattle.field_merge.specs.Results.{AreViews, IfConflict, IsFirstClash, MakesMerge, changes_at, clashes_at};
ghost use Rattle.field_merge.specs.Shared.{PartsAgree};

use crate::MergeStop;
use crate::unshared::unshared;
use crate::walk::merge_rows;
use db_store::View;
use db_value::{Changes, Prefer, Schema};
use std::alloc::{AllocError, Global};

// How many relations a schema has.
fn relation_count(schema: &Schema) -> u8
    ensures count { result ≡ length schema.now }
    ensures few { result ≤ 8 }
{
    schema.relations().len() as u8
}

// Adds the changes of one relation, or tells its first conflict.
fn merge_relation<B: View, L: View, R: View>(
    alloc: Global,
    schema: &Schema,
    base: &B,
    left: &L,
    right: &R,
    relation: u8,
    prefer: Prefer,
    all: &mut Changes,
) -> Result<(), MergeStop>
    requires relation { relation < length schema.now }
    requires few { relation < 8 }
    requires views { AreViews schema.now (B.table base.now) (L.table left.now) (R.table right.now)
        (B.parts_of base.now) (L.parts_of left.now) (R.parts_of right.now) }
    ensures changes { OnOk result (all.new ≡ all.old
        ++ changes_at (all_widths schema.now) prefer (B.table base.now) (L.table left.now) (R.table right.now) relation) }
    ensures free { OnOk result
        (clashes_at prefer (B.table base.now) (L.table left.now) (R.table right.now) relation
        ≡ []) }
    ensures conflict { IfConflict result (λ clash. least_clash
        (clashes_at prefer (B.table base.now) (L.table left.now) (R.table right.now) relation)
        ≡ Some clash) }
    ensures asked { IfConflict result (λ _. prefer ≡ Neither) }
{
    match unshared(alloc, base, left, right, relation) {
        Err(AllocError) => Err(MergeStop::Memory),
        Ok(sides) => merge_rows(relation, &schema.widths(relation), &sides, prefer, all),
    }
}

/// The changes of left that make the merge of left and right, where base is their common ancestor:
/// a change for each key at which the merge differs from left. The tables are tables of the schema.
/// Of a part that all three views show, only those records are read that some of them has live and
/// another one hasn't.
pub fn merge_tables<B: View, L: View, R: View>(
    alloc: Global,
    schema: &Schema,
    base: &B,
    left: &L,
    right: &R,
    prefer: Prefer,
) -> Result<Changes, MergeStop>
    requires base { IsTable schema.now (B.table base.now) }
    requires left { IsTable schema.now (L.table left.now) }
    requires right { IsTable schema.now (R.table right.now) }
    requires agree { PartsAgree schema.now (B.parts_of base.now) (L.parts_of left.now)
        (R.parts_of right.now) }
    ensures merged { IfOk result (MakesMerge schema.now prefer
        (B.table base.now) (L.table left.now) (R.table right.now)) }
    ensures conflict { IfConflict result (IsFirstClash schema.now prefer
        (B.table base.now) (L.table left.now) (R.table right.now)) }
{
    let mut all = Changes::new(alloc);
    for relation in 0..relation_count(schema) {
        match merge_relation(alloc, schema, base, left, right, relation, prefer, &mut all) {
            Ok(()) => {}
            Err(stop) => return Err(stop),
        }
    }
    Ok(all)
}
