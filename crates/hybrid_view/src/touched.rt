//! What changes touch of a relation.
ghost use Rattle.std.specs.Prelude.{◌≡◌, ◌==◌, ◌+◌, ◌-◌, ◌<◌, ◌≤◌, ◌^◌, cond, is_some, length, IfOk};
ghost use Rattle.std.specs.FinMap as finite;
ghost use Rattle.db_value.specs.PackedChanges.{change_here};
ghost use Rattle.db_store.specs.Counts.{counted, recounted};
ghost use Rattle.db_store.specs.LayoutGrowth.{puts};
ghost use Rattle.hybrid_view.specs.Live.{contents_in};
ghost use Rattle.hybrid_view.specs.Struck.{touched_places};

use crate::live::LiveRelation;
use crate::puts::count_put;
use db_value::Changes;
use std::alloc::{AllocError, Global};
use store_catalogue::recount;

/// The most changes of an entry.
const MOST_CHANGES: usize = 65_536;

/// Touched keys are where the keys stand that changes of a relation touch, how many keys there are after the
/// changes, and how many records these put.
#[derive(Drop)]
pub struct TouchedKeys {
    pub places: Vec<Option<(u32, u32)>>,
    pub keys: usize,
    pub puts: usize,
}

// How many keys a relation has after a change, whose key was there or wasn't.
fn keys_with(keys: usize, changes: &Changes, at: usize, relation: u8, was_there: bool) -> usize
    requires at { at < length changes.now }
    requires keys { keys < 2 ^ 64 - 1 }
    ensures keys { result ≡ cond ((change_here changes.now at).relation == relation)
        (recounted keys was_there (is_some (change_here changes.now at).fields)) keys }
    ensures few { result ≤ keys + 1 }
{
    let own = changes.relation(at);
    if own != relation {
        return keys;
    }
    recount(keys, was_there, changes.puts(at))
}

impl LiveRelation {
    /// What changes touch of the relation. It goes over them once.
    pub fn touched(
        &self,
        alloc: Global,
        changes: &Changes,
        relation: u8,
    ) -> Result<TouchedKeys, AllocError>
        requires { length changes.now ≤ MOST_CHANGES }
        ensures places { IfOk result (λ t.
            t.places.items ≡ touched_places self.now.pieces changes.now relation) }
        ensures keys { IfOk result (λ t. t.keys
            ≡ counted relation (contents_in self.now) (finite.len (contents_in self.now)) changes.now) }
        ensures puts { IfOk result (λ t. t.puts ≡ length (puts changes.now relation)) }
    {
        let mut places = Vec::with_capacity(alloc, changes.len())?;
        let mut keys = self.count() as usize;
        let mut puts = 0;
        for at in 0..changes.len() {
            let place = self.place_at(changes, at, relation);
            keys = keys_with(keys, changes, at, relation, place.is_some());
            puts += count_put(changes, at, relation);
            places.push(place)?;
        }
        Ok(TouchedKeys { places, keys, puts })
    }
}
