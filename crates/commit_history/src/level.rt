//! A list of deltas, or of composites, that grows without taking memory.
ghost use Rattle.std.specs.Prelude.{◌≡◌, ℕ, ◌+◌, ◌<◌, ◌≤◌, ◌^◌, [], ◌∷◌, ◌++◌, length, vec_capacity, Option, OnOk, IfOk, IfSome};
ghost use Rattle.commit_history.specs.Runs.{Placed, room_of, IsRoomAfter, with_next, composites, completed, completed_by};

use crate::delta::Delta;
use plain_bits::Bits;
use std::alloc::{AllocError, Global};
use std::marker::Model;

/// A level is a list of deltas. Its room follows from its length alone, so a push finds room in each
/// level that is as long as the one that it was made ready in.
#[derive(Drop)]
pub(crate) struct Level {
    alloc: Global,
    items: Vec<Delta>,
    room: usize,
}

impl Model for Level {
    ghost use Rattle.std.specs.Prelude.{◌≡◌, ◌≤◌, Bool, List, length, vec_capacity};
    ghost use Rattle.commit_history.specs.Runs.{room_of};

    ghost Value = { List (List Bool) };

    ghost view = { λ l. l.items.items };

    ghost invariant = { λ l. (l.room ≡ room_of (length l.items.items)) × (l.room ≤ vec_capacity l.items) };
}

/// A delta that can be pushed onto a level of some length, with the memory that this takes.
#[derive(Drop)]
pub(crate) struct NextItem {
    delta: Delta,
    count: usize,
    // More room, if the level is full at that length, and otherwise none.
    bigger: Vec<Delta>,
}

impl Model for NextItem {
    ghost use Rattle.std.specs.Prelude.{vec_capacity};
    ghost use Rattle.commit_history.specs.Runs.{Placed, placed_code, IsRoomAfter};

    ghost Value = { Placed };

    ghost coded = { placed_code };

    ghost view = { λ n. record { item = n.delta; count = n.count } };

    ghost invariant = { λ n. IsRoomAfter n.count n.bigger.items (vec_capacity n.bigger) };
}

impl NextItem {
    pub(crate) fn delta(&self) -> &Delta
        ensures { result.now ≡ self.now.item }
    {
        &self.delta
    }
}

// Moves all of some deltas after others, for which there is room.
fn move_all(from: &mut Vec<Delta>, into: &mut Vec<Delta>)
    requires { length into.old.items + length from.old.items ≤ vec_capacity into.old }
    ensures items { into.new.items ≡ into.old.items ++ from.old.items }
    ensures capacity { vec_capacity into.old ≤ vec_capacity into.new }
{
    // It can't fail, since there is room.
    let _ = into.append(from);
}

// Moves deltas that fill their room into more room. What comes back is the room for one more.
fn make_room(items: &mut Vec<Delta>, room: usize, bigger: Vec<Delta>) -> usize
    requires room { room ≡ room_of (length items.old.items) }
    requires there { room ≤ vec_capacity items.old }
    requires bigger { IsRoomAfter (length items.old.items) bigger.items (vec_capacity bigger) }
    ensures items { items.new.items ≡ items.old.items }
    ensures room { result ≡ room_of (length items.old.items + 1) }
    ensures there { result ≤ vec_capacity items.new }
{
    if items.len() < room {
        return room;
    }
    let mut bigger = bigger;
    move_all(items, &mut bigger);
    *items = bigger;
    2 * room + 4
}

fn copies(alloc: Global, deltas: &[Delta], room: usize) -> Result<Vec<Delta>, AllocError>
    ensures items { IfOk result (λ copies. copies.items ≡ deltas.now) }
    ensures room { IfOk result (λ copies. room ≤ vec_capacity copies) }
{
    let mut copies = Vec::with_capacity(alloc, room)?;
    for delta in deltas {
        copies.push(delta.duplicate()?)?;
    }
    Ok(copies)
}

impl Level {
    pub(crate) fn new(alloc: Global) -> Level
        ensures { result ≡ [] }
    {
        Level {
            alloc,
            items: Vec::new(alloc),
            room: 0,
        }
    }

    pub(crate) fn len(&self) -> usize
        ensures { result ≡ length self.now }
    {
        self.items.len()
    }

    pub(crate) fn as_slice(&self) -> &[Delta]
        ensures { result.now ≡ self.now }
    {
        &self.items
    }

    // Room for the level with one delta more, if it has none.
    fn bigger(&self) -> Result<Vec<Delta>, AllocError>
        requires { length self.now < 2 ^ 32 }
        ensures items { IfOk result (λ room. room.items ≡ []) }
        ensures room { length self.now ≡ room_of (length self.now)
            → IfOk result (λ room. room_of (length self.now + 1) ≤ vec_capacity room) }
    {
        let len = self.items.len();
        if len == self.room {
            return Vec::with_capacity(self.alloc, 2 * len + 4);
        }
        Ok(Vec::new(self.alloc))
    }

    // Takes all memory that a push of the delta needs.
    pub(crate) fn ready(&self, delta: Delta) -> Result<NextItem, AllocError>
        requires { length self.now < 2 ^ 32 }
        ensures { IfOk result (λ next. next ≡ record { item = delta; count = length self.now }) }
    {
        let bigger = self.bigger()?;
        Ok(NextItem {
            delta,
            count: self.items.len(),
            bigger,
        })
    }

    // Puts the delta after the others. It takes no memory.
    pub(crate) fn push(&mut self, next: NextItem)
        requires { next.count ≡ length self.old }
        ensures { self.new ≡ self.old ++ next.item ∷ [] }
    {
        let NextItem { delta, bigger, .. } = next;
        self.room = make_room(&mut self.items, self.room, bigger);
        self.items.push_reserved(delta);
    }

    pub(crate) fn push_if(&mut self, next: Option<NextItem>)
        requires { IfSome next (λ n. n.count ≡ length self.old) }
        ensures { self.new ≡ with_next self.old next }
    {
        match next {
            None => {}
            Some(next) => self.push(next),
        }
    }

    pub(crate) fn duplicate(&self) -> Result<Level, AllocError>
        ensures { IfOk result (λ copy. copy ≡ self.now) }
    {
        let items = copies(self.alloc, &self.items, self.room)?;
        Ok(Level {
            alloc: self.alloc,
            items,
            room: self.room,
        })
    }
}
