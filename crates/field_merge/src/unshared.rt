//! Three views read part by part. In a part that all three show, only those slots are read whose
//! record some view has and another one hasn't.
ghost use Rattle.std.specs.Prelude.{◌≡◌, ◌<◌, ◌++◌, ◌∷◌, [], true, false, length, IfOk, OnOk};
ghost use Rattle.db_store.specs.Table.{relation_at};
ghost use Rattle.db_store.specs.Parts.{live_rows, part_at, slot_at};
ghost use Rattle.field_merge.specs.Turns.{waiting, IsNext, IsRelation, AreOne, AreTaken};
ghost use Rattle.field_merge.specs.Shared.{live_row, IsSpot, AgreeWithLeft, IsSplitAt, Takes, AreUnshared};

use crate::sides::{Sides, are_same};
use crate::turns::{Taken, Turn, next_turn};
use db_store::{Spot, View};
use db_value::{Record, Records, Steps};
use std::alloc::{AllocError, Global};
use std::marker::Brand;
use std::sync::ledger::{Blank, Ledger};

// Reads the record in a slot, where the steps are counted on a blank.
fn read_counted<V: View, L: Ledger>(
    view: &V,
    relation: u8,
    spot: Spot,
    into: &mut Record,
    blank: Blank,
)
    requires name { blank.name ≡ L.name }
    requires parts { blank.parts ≡ L.parts }
    requires some { 0 < L.parts }
    requires relation { relation < length (V.table view.now) }
    requires spot { IsSpot (V.parts_of view.now relation) spot }
    ensures { into.new ≡ (slot_at (V.parts_of view.now relation) spot.part spot.slot).0 }
{
    let mut steps = Steps::<L>::open(blank);
    view.read(relation, spot, into, &mut steps);
}

// Reads the record in a slot.
fn read_row<V: View>(view: &V, relation: u8, spot: Spot, into: &mut Record)
    requires relation { relation < length (V.table view.now) }
    requires spot { IsSpot (V.parts_of view.now relation) spot }
    ensures { into.new ≡ (slot_at (V.parts_of view.now relation) spot.part spot.slot).0 }
{
    read_counted::<V, Brand>(view, relation, spot, into, Blank::new(1));
}

// The record of a slot more, if it is live. The row is one to read into.
fn gather_row<V: View>(
    view: &V,
    relation: u8,
    spot: Spot,
    row: &mut Record,
    rows: &mut Records,
) -> Result<(), AllocError>
    requires relation { relation < length (V.table view.now) }
    requires spot { IsSpot (V.parts_of view.now relation) spot }
    ensures { OnOk result (rows.new ≡ rows.old ++ live_row
        (slot_at (V.parts_of view.now relation) spot.part spot.slot).1
        (slot_at (V.parts_of view.now relation) spot.part spot.slot).0) }
{
    if !view.live(relation, spot.part, spot.slot) {
        return Ok(());
    }
    read_row(view, relation, spot, row);
    Ok(rows.push(row)?)
}

// The live records of a part more.
fn gather_part<V: View>(
    view: &V,
    relation: u8,
    index: u32,
    row: &mut Record,
    rows: &mut Records,
) -> Result<(), AllocError>
    requires relation { relation < length (V.table view.now) }
    requires index { index < length (V.parts_of view.now relation) }
    ensures { OnOk result (rows.new ≡ rows.old
        ++ live_rows (part_at (V.parts_of view.now relation) index).slots) }
{
    let info = view.part(relation, index);
    for slot in 0..info.slots {
        gather_row(view, relation, Spot { part: index, slot }, row, rows)?;
    }
    Ok(())
}

// A slot of a part that all three views show. If it is live in all of them, or in none, nothing is
// read.
fn gather_slot<B: View, L: View, R: View>(
    base: &B,
    left: &L,
    right: &R,
    relation: u8,
    at: &Taken,
    slot: u32,
    row: &mut Record,
    sides: &mut Sides,
) -> Result<(), AllocError>
    requires relation { IsRelation relation (B.table base.now) (L.table left.now)
        (R.table right.now) }
    requires one { AreOne (B.parts_of base.now relation) (L.parts_of left.now relation)
        (R.parts_of right.now relation) at.now }
    requires agree { AgreeWithLeft (B.parts_of base.now relation) (L.parts_of left.now relation)
        (R.parts_of right.now relation) }
    requires slot { slot < length (part_at (L.parts_of left.now relation) at.now.left).slots }
    ensures { OnOk result (Takes
        (live_rows (slot_at (B.parts_of base.now relation) at.now.base slot ∷ []))
        (live_rows (slot_at (L.parts_of left.now relation) at.now.left slot ∷ []))
        (live_rows (slot_at (R.parts_of right.now relation) at.now.right slot ∷ []))
        sides.old sides.new) }
{
    let in_base = base.live(relation, at.base, slot);
    let in_left = left.live(relation, at.left, slot);
    let in_right = right.live(relation, at.right, slot);
    if are_same(in_base, in_left, in_right) {
        return Ok(());
    }
    let part = at.left;
    read_row(left, relation, Spot { part, slot }, row);
    sides.put_live(in_base, in_left, in_right, row)
}

// A part that all three views show.
fn gather_shared<B: View, L: View, R: View>(
    base: &B,
    left: &L,
    right: &R,
    relation: u8,
    at: &Taken,
    row: &mut Record,
    sides: &mut Sides,
) -> Result<(), AllocError>
    requires relation { IsRelation relation (B.table base.now) (L.table left.now)
        (R.table right.now) }
    requires one { AreOne (B.parts_of base.now relation) (L.parts_of left.now relation)
        (R.parts_of right.now relation) at.now }
    requires agree { AgreeWithLeft (B.parts_of base.now relation) (L.parts_of left.now relation)
        (R.parts_of right.now relation) }
    ensures { OnOk result (Takes
        (live_rows (part_at (B.parts_of base.now relation) at.now.base).slots)
        (live_rows (part_at (L.parts_of left.now relation) at.now.left).slots)
        (live_rows (part_at (R.parts_of right.now relation) at.now.right).slots)
        sides.old sides.new) }
{
    let info = left.part(relation, at.left);
    for slot in 0..info.slots {
        gather_slot(base, left, right, relation, at, slot, row, sides)?;
    }
    Ok(())
}

// Takes what comes next, or tells that nothing does.
fn take_turn<B: View, L: View, R: View>(
    base: &B,
    left: &L,
    right: &R,
    relation: u8,
    taken: &mut Taken,
    row: &mut Record,
    sides: &mut Sides,
) -> Result<bool, AllocError>
    requires relation { IsRelation relation (B.table base.now) (L.table left.now)
        (R.table right.now) }
    requires agree { AgreeWithLeft (B.parts_of base.now relation) (L.parts_of left.now relation)
        (R.parts_of right.now relation) }
    requires split { IsSplitAt (B.parts_of base.now relation) (L.parts_of left.now relation)
        (R.parts_of right.now relation) taken.old sides.old }
    ensures split { OnOk result (IsSplitAt (B.parts_of base.now relation)
        (L.parts_of left.now relation) (R.parts_of right.now relation) taken.new sides.new) }
    ensures more { IfOk result (λ more. more ≡ true →
        waiting (B.parts_of base.now relation) (L.parts_of left.now relation)
        (R.parts_of right.now relation) taken.new
        < waiting (B.parts_of base.now relation) (L.parts_of left.now relation)
        (R.parts_of right.now relation) taken.old) }
    ensures end { IfOk result (λ more. more ≡ false →
        (taken.new ≡ taken.old) × AreTaken (B.parts_of base.now relation)
        (L.parts_of left.now relation) (R.parts_of right.now relation) taken.new) }
{
    match next_turn(base, left, right, relation, taken) {
        Turn::End => Ok(false),
        Turn::All => {
            gather_shared(base, left, right, relation, taken, row, sides)?;
            taken.base += 1;
            taken.left += 1;
            taken.right += 1;
            Ok(true)
        }
        Turn::Base => {
            gather_part(base, relation, taken.base, row, &mut sides.base)?;
            taken.base += 1;
            Ok(true)
        }
        Turn::Left => {
            gather_part(left, relation, taken.left, row, &mut sides.left)?;
            taken.left += 1;
            Ok(true)
        }
        Turn::Right => {
            gather_part(right, relation, taken.right, row, &mut sides.right)?;
            taken.right += 1;
            Ok(true)
        }
    }
}

/// The records of a relation in three versions, by key, without those that stand in one slot of a
/// part that all three show and are live in all of them.
pub fn unshared<B: View, L: View, R: View>(
    alloc: Global,
    base: &B,
    left: &L,
    right: &R,
    relation: u8,
) -> Result<Sides, AllocError>
    requires relation { IsRelation relation (B.table base.now) (L.table left.now)
        (R.table right.now) }
    requires agree { AgreeWithLeft (B.parts_of base.now relation) (L.parts_of left.now relation)
        (R.parts_of right.now relation) }
    ensures { IfOk result (AreUnshared (relation_at (B.table base.now) relation)
        (relation_at (L.table left.now) relation) (relation_at (R.table right.now) relation)) }
{
    let mut sides = Sides::new(alloc);
    let mut row = Record::blank();
    let mut taken = Taken {
        base: 0,
        left: 0,
        right: 0,
    };
    let mut more = true;
    while more {
        more = take_turn(
            base, left, right, relation, &mut taken, &mut row, &mut sides,
        )?;
    }
    Ok(sides.in_order())
}
