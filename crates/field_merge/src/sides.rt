//! Records of a relation in three versions, without some that all three have.
ghost use Rattle.std.specs.Prelude.{◌≡◌, ◌++◌, [], OnOk};
ghost use Rattle.std.specs.List.Sorted.{IsPermutation, IsSorted};
ghost use Rattle.db_value.specs.Order.{record_cmp};
ghost use Rattle.db_store.specs.Table.{Contents, rows_of};
ghost use Rattle.field_merge.specs.Shared.{live_row, are_same, IsSplit, Takes, AreUnshared};

use db_value::{Record, Records};
use std::alloc::{AllocError, Global};

/// Records of a relation in three versions: the common ancestor, the side that is merged into, and
/// the other.
#[derive(Drop)]
pub struct Sides {
    pub base: Records,
    pub left: Records,
    pub right: Records,
}

/// Are all three true, or none?
pub fn are_same(base: bool, left: bool, right: bool) -> bool
    ensures { result ≡ are_same base left right }
{
    if base {
        return left && right;
    }
    !left && !right
}

// A record more, if it is live.
fn put(rows: &mut Records, live: bool, row: &Record) -> Result<(), AllocError>
    ensures { OnOk result (rows.new ≡ rows.old ++ live_row live row.now) }
{
    if !live {
        return Ok(());
    }
    Ok(rows.push(row)?)
}

// In order, by key.
fn in_order(mut rows: Records) -> Records
    ensures permutation { IsPermutation rows result }
    ensures sorted { IsSorted record_cmp result }
{
    rows.sort();
    rows
}

impl Sides {
    /// No records.
    pub fn new(alloc: Global) -> Sides
        ensures { IsSplit [] [] [] result }
    {
        Sides {
            base: Records::new(alloc),
            left: Records::new(alloc),
            right: Records::new(alloc),
        }
    }

    /// A record more of those versions in which it is live.
    pub fn put_live(
        &mut self,
        base: bool,
        left: bool,
        right: bool,
        row: &Record,
    ) -> Result<(), AllocError>
        ensures { OnOk result (Takes (live_row base row.now) (live_row left row.now)
            (live_row right row.now) self.old self.new) }
    {
        put(&mut self.base, base, row)?;
        put(&mut self.left, left, row)?;
        put(&mut self.right, right, row)?;
        Ok(())
    }

    /// Each list in order, by key.
    pub fn in_order(self) -> Sides
        ensures { (base left right : Contents) →
            IsSplit (rows_of base) (rows_of left) (rows_of right) self →
            AreUnshared base left right result }
    {
        Sides {
            base: in_order(self.base),
            left: in_order(self.left),
            right: in_order(self.right),
        }
    }
}
