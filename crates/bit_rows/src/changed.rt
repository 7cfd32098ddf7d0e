//! What a commit changes of one relation of a branch.
ghost use Rattle.std.specs.Prelude.{◌≡◌, ℕ, ◌+◌, ◌-◌, ◌<◌, ◌≤◌, ◌^◌, ◌++◌, ◌∷◌, [], true, length, IfOk, OnOk};
ghost use Rattle.db_value.specs.PackedChanges.{change_here};
ghost use Rattle.db_store.specs.LayoutGrowth.{puts};
ghost use Rattle.commit_history.specs.Runs.{next_of};
ghost use Rattle.hybrid_view.specs.RowPlaces.{spots};
ghost use Rattle.bit_rows.specs.Rows.{kept_row_at};
ghost use Rattle.bit_rows.specs.Short.{shortest};
ghost use Rattle.bit_rows.specs.Differences.{difference_of, IsNext, AreNext, AreDifferences};

use crate::rows::{BitRow, BitRows, NextDeltas};
use commit_history::NextDelta;
use db_value::Changes;
use hybrid_view::{LivePart, LiveRelation, difference, strikes};
use key_index::{SpotChange, SpotChanges};
use plain_bits::Bits;
use std::alloc::{AllocError, Global};

// What a change makes of the index of a relation, where the slot of the head that it puts a record into
// is the next one. Then tells the slot behind.
fn put_spot(
    all: &mut Vec<SpotChange>,
    head: u32,
    next: u32,
    changes: &Changes,
    at: usize,
    relation: u8,
) -> Result<u32, AllocError>
    requires next { next < 2 ^ 32 - 1 }
    requires at { at < length changes.now }
    ensures spots { OnOk result (all.new.items
        ≡ all.old.items ++ spots head next (change_here changes.now at ∷ []) relation) }
    ensures next { IfOk result
        (λ n. n ≡ next + length (puts (change_here changes.now at ∷ []) relation)) }
    ensures more { IfOk result (λ n. n ≤ next + 1) }
{
    let own = changes.relation(at);
    if own != relation {
        return Ok(next);
    }
    let key = changes.key(at);
    if !changes.puts(at) {
        all.push(SpotChange { key, place: None })?;
        return Ok(next);
    }
    all.push(SpotChange {
        key,
        place: Some((head, next)),
    })?;
    Ok(next + 1)
}

/// What changes make of the index of a relation, where what they put stands in the head from a slot on.
pub fn spots_of(
    alloc: Global,
    head: u32,
    from: u32,
    changes: &Changes,
    relation: u8,
) -> Result<SpotChanges, AllocError>
    requires { from + length changes.now < 2 ^ 32 }
    ensures { IfOk result (λ s. s ≡ spots head from changes.now relation) }
{
    let mut all = Vec::new(alloc);
    let mut next = from;
    for at in 0..changes.len() {
        next = put_spot(&mut all, head, next, changes, at, relation)?;
    }
    Ok(SpotChanges::of(all))
}

// Is a part after a commit as it was before, by its slots and the places that the commit touched?
fn is_still(old: &LivePart, new: &LivePart, places: &[Option<(u32, u32)>]) -> bool
    requires next { IsNext places.now old.now new.now }
    requires covered { length old.now.bits ≤ length old.now.rows.records }
    ensures { result ≡ true → difference_of old.now new.now ≡ [] }
{
    if old.slots() != new.slots() {
        return false;
    }
    !strikes(old.segment(), places)
}

// What is ready for a row, by its part before a commit that touched some places, and after it. A part that
// stays as it was isn't read.
fn next_delta(
    alloc: Global,
    row: &BitRow,
    old: &LivePart,
    new: &LivePart,
    places: &[Option<(u32, u32)>],
) -> Result<NextDelta, AllocError>
    requires next { IsNext places.now old.now new.now }
    requires covered { length old.now.bits ≤ length old.now.rows.records }
    requires few { length row.now.deltas < 2 ^ 32 - 1 }
    ensures { IfOk result (λ next. next
        ≡ next_of row.now.deltas (shortest (difference_of old.now new.now))) }
{
    if is_still(old, new, places) {
        return row.ready(alloc, &Bits::new(alloc));
    }
    let bits = difference(old.bits(), new.bits())?;
    row.ready(alloc, &bits)
}

/// What is ready for the rows of a relation, by what it had before a commit that touched some places, and what
/// it has after it.
pub fn next_deltas(
    alloc: Global,
    rows: &BitRows,
    old: &LiveRelation,
    new: &LiveRelation,
    places: &[Option<(u32, u32)>],
) -> Result<NextDeltas, AllocError>
    requires count { length old.now.pieces ≡ length rows.now }
    requires next { AreNext places.now old.now.pieces new.now.pieces }
    requires few { (i : ℕ) → i < length rows.now
        → length (kept_row_at rows.now i).deltas < 2 ^ 32 - 1 }
    ensures { IfOk result (λ nexts. AreDifferences rows.now nexts old.now.pieces new.now.pieces) }
{
    old.told();
    let mut nexts = Vec::new(alloc);
    for index in 0..old.parts() {
        let row = rows.row(index as usize);
        let next = next_delta(alloc, row, old.part(index), new.part(index), places)?;
        nexts.push(next)?;
    }
    Ok(NextDeltas::of(nexts))
}
