//! Whether an entry can take the changes of a working table.
ghost use Rattle.std.specs.Prelude.{◌≡◌, ◌<◌, ◌≤◌, true, false, is_some, Some, length, IfSome};
ghost use Rattle.std.specs.List.{list_all};
ghost use Rattle.std.specs.FinMap as finite;
ghost use Rattle.db_store.specs.Adopt.{touched_by, AreAdoptable};
ghost use Rattle.db_store.specs.Overlay.{own_widths, overlay_at, changes_from, untouched};
ghost use Rattle.db_store.specs.Bulk.{bulk_of, weight_at};
ghost use Rattle.db_store.specs.Touched.{touch_of};
ghost use Rattle.db_store.specs.Work.{has_room, is_body, touched_with, with_parent};

use crate::View;
use crate::bulk::{Bulk, bulk_of};
use crate::work::Work;
use db_value::{Changes, Record, VersionPlace, Widths};

impl<V: View> Work<V> {
    ghost use Rattle.db_store.specs.WorkState.{under_of, overlays_of, room_of, widths_of, working_of};

    // The widths of a relation.
    fn own_widths(&self, relation: u8) -> Widths
        requires { relation < length (V.table (under_of self.now)) }
        ensures { result ≡ own_widths (widths_of self.now) relation }
    {
        self.widths[relation as usize]
    }

    // What the change of a key has now.
    fn bulk_at(&self, relation: u8, key: u64) -> Bulk
        requires { relation < length (V.table (under_of self.now)) }
        ensures { result ≡ weight_at (own_widths (widths_of self.now) relation)
            (finite.get (overlay_at (overlays_of self.now) relation) key) }
    {
        match self.touched.place_of(relation, key) {
            None => Bulk::none(),
            Some(place) => {
                Bulk::of_change(&self.own_widths(relation), self.touched.is_live(place))
            }
        }
    }

    // The bulk after a touch for which there is room, if an entry can take the changes then.
    pub(crate) fn bulk_with(&self, relation: u8, row: &Record, live: bool) -> Option<Bulk>
        requires relation { relation < length (V.table (under_of self.now)) }
        requires room { has_room (working_of self.now) relation row.now.key ≡ true }
        ensures fits { is_some result ≡ is_body (working_of self.now)
            (touched_with (working_of self.now) (touch_of relation row.now live)) }
        ensures bulk { IfSome result (λ bulk. self.now.sure ≡ false
            → bulk ≡ bulk_of (changes_from (widths_of self.now) 0
            (touched_with (working_of self.now) (touch_of relation row.now live)))) }
    {
        // An entry takes all changes that there is room for.
        if self.sure {
            return Some(self.bulk);
        }
        let old = self.bulk_at(relation, row.key);
        let own = self.own_widths(relation);
        let bulk = self.bulk.exchange(&old, &own, live);
        if !bulk.fits(&self.second) {
            return None;
        }
        Some(bulk)
    }

    // The bulk after all changes of a merge, for which there is room, if an entry can take them.
    pub(crate) fn bulk_by(&self, from: VersionPlace, changes: &Changes) -> Option<Bulk>
        requires untouched { overlays_of self.now ≡ untouched }
        requires changes { AreAdoptable (length (V.table (under_of self.now))) changes.now }
        requires room { length changes.now ≤ room_of self.now }
        ensures fits { is_some result ≡ is_body (with_parent (working_of self.now) from)
            (touched_by (overlays_of self.now) changes.now) }
        ensures bulk { IfSome result (λ bulk. self.now.sure ≡ false
            → bulk ≡ bulk_of (changes_from (widths_of self.now) 0
            (touched_by (overlays_of self.now) changes.now))) }
    {
        if self.sure {
            return Some(self.bulk);
        }
        let bulk = bulk_of(changes, &self.widths);
        if !bulk.fits(&Some(from)) {
            return None;
        }
        Some(bulk)
    }
}
