//! What a version has of a relation.
ghost use Rattle.std.specs.Prelude.{◌≡◌, ℕ, List, ◌<◌, ◌≤◌, ◌+◌, ◌^◌, ◌==◌, ◌++◌, ◌∷◌, [], cond, OnOk, length, position, IfOk, IfSome, IfNone, Some, None, true};
ghost use Rattle.db_value.specs.PackedChanges.{change_here};
ghost use Rattle.segment.specs.Pages.{AreWide};
ghost use Rattle.hybrid_view.specs.Struck.{touched_place, touched_places};
ghost use Rattle.hybrid_view.specs.RowPlaces.{AllNext};
ghost use Rattle.std.specs.FinMap as finite;
ghost use Rattle.db_store.specs.Parts.{part_at, slot_at};
ghost use Rattle.hybrid_view.specs.Live.{EachOf, Piece, Places, empty_lived, has_live, begun_pieces, contents_in, parts_in, piece_at, IsLived, live_pieces, place_of};
ghost use Rattle.hybrid_view.specs.Spots.{lived_of};
ghost use Rattle.db_store.specs.LaidOut.{times};
ghost use Rattle.key_index.specs.Places.{with_changes};

use crate::part::LivePart;
use crate::puts::PutRows;
use crate::spots::index_anew;
use db_store::Spot;
use db_value::Changes;
use key_index::{KeyIndex, SpotChanges};
use std::alloc::{AllocError, Global};
use std::marker::Model;

/// So many keys that are put into an empty relation at once get no index before the next commit or branch: one segment
/// has them all, and is searched by key.
const MANY_KEYS: usize = 1024;

/// The parts of a relation by ascending segment, and the index from its keys to segments and slots. Without
/// an index a key is looked for in each part.
#[derive(Drop)]
pub struct LiveRelation {
    parts: Vec<LivePart>,
    index: Option<KeyIndex>,
    count: u32,
}

impl Model for LiveRelation {
    ghost use Rattle.hybrid_view.specs.Live.{Lived, lived_code, IsLived};
    ghost use Rattle.hybrid_view.specs.Spots.{places_by};

    ghost Value = { Lived };

    ghost coded = { lived_code };

    ghost view = { λ l. record { pieces = l.parts.items; places = places_by l.index l.parts.items; count = l.count } };

    ghost invariant = { λ l. IsLived (record { pieces = l.parts.items; places = places_by l.index l.parts.items; count = l.count }) };
}

// The place of the part with a segment.
fn place_in(parts: &[LivePart], segment: u32) -> Option<usize>
    ensures { result ≡ position (λ p. p.segment == segment) parts.now }
{
    parts.iter().position(|part| part.segment() == segment)
}

// The segment and the slot of the live record with a key.
#[tactic(auto, using(crate::proofs::WalkLemmas::ahead_begun, crate::proofs::WalkLemmas::ahead_more, crate::proofs::WalkLemmas::ahead_found, crate::proofs::WalkLemmas::ahead_none))]
fn found_in(parts: &[LivePart], key: u64) -> Option<(u32, u32)>
    requires { times key (live_pieces parts.now) ≤ 1 }
    ensures { result ≡ place_of parts.now key }
{
    for part in parts {
        if let Some(slot) = part.find(key) {
            return Some((part.segment(), slot));
        }
    }
    None
}

impl LiveRelation {
    /// What holds of it.
    pub fn told(&self)
        ensures { IsLived self.now }
    {
        let _count = self.count;
    }

    /// How many keys it has.
    pub fn count(&self) -> u32
        ensures { result ≡ finite.len (contents_in self.now) }
    {
        self.count
    }

    /// How many parts.
    pub fn parts(&self) -> u32
        ensures count { result ≡ length self.now.pieces }
    {
        self.parts.len() as u32
    }

    /// A part.
    pub fn part(&self, index: u32) -> &LivePart
        requires { index < length self.now.pieces }
        ensures { result.now ≡ piece_at self.now.pieces index }
    {
        &self.parts[index as usize]
    }

    // The segment and the slot of the live record with a key.
    fn live_place(&self, key: u64) -> Option<(u32, u32)>
        ensures { result ≡ place_of self.now.pieces key }
    {
        match &self.index {
            Some(index) => index.find(key),
            None => found_in(&self.parts, key),
        }
    }

    /// Where the record with a key is.
    pub fn find(&self, key: u64) -> Option<Spot>
        ensures none { IfNone result (finite.get (contents_in self.now) key ≡ None) }
        ensures part { IfSome result (λ s. s.part < length (parts_in self.now)) }
        ensures slot { IfSome result (λ s.
            s.slot < length (part_at (parts_in self.now) s.part).slots) }
        ensures live { IfSome result (λ s. (slot_at (parts_in self.now) s.part s.slot).1 ≡ true) }
        ensures key { IfSome result (λ s. (slot_at (parts_in self.now) s.part s.slot).0.key ≡ key) }
        ensures fields { IfSome result (λ s. finite.get (contents_in self.now) key
            ≡ Some (slot_at (parts_in self.now) s.part s.slot).0.fields) }
    {
        match self.live_place(key) {
            None => None,
            Some((segment, slot)) => match place_in(&self.parts, segment) {
                None => None,
                Some(part) => Some(Spot {
                    part: part as u32,
                    slot,
                }),
            },
        }
    }

    /// These parts, this index of their keys, and so many keys.
    pub fn of(parts: Vec<LivePart>, index: KeyIndex, count: u32) -> LiveRelation
        requires { IsLived (record { pieces = parts.items; places = index; count = count }) }
        ensures { result ≡ record { pieces = parts.items; places = index; count = count } }
    {
        LiveRelation {
            parts,
            index: Some(index),
            count,
        }
    }

    /// These parts, without an index, and so many keys.
    pub fn of_parts(parts: Vec<LivePart>, count: u32) -> LiveRelation
        requires lived { IsLived (lived_of parts.items) }
        requires count { count ≡ (lived_of parts.items).count }
        ensures { result ≡ lived_of parts.items }
    {
        LiveRelation {
            parts,
            index: None,
            count,
        }
    }

    // The same without an index, which is made when something is put behind them.
    fn unindexed(parts: Vec<LivePart>, count: u32) -> LiveRelation
        requires { (places : Places)
            × IsLived (record { pieces = parts.items; places = places; count = count }) }
        ensures { (places : Places)
            → IsLived (record { pieces = parts.items; places = places; count = count })
            → result ≡ record { pieces = parts.items; places = places; count = count } }
    {
        LiveRelation {
            parts,
            index: None,
            count,
        }
    }

    // Its index, or one that is made anew.
    fn index_of(&self, alloc: Global) -> Result<KeyIndex, AllocError>
        ensures { IfOk result (λ index. index ≡ self.now.places) }
    {
        match &self.index {
            Some(index) => index.duplicate(),
            None => index_anew(alloc, &self.parts),
        }
    }

    // The same after changes.
    fn index_with(&self, alloc: Global, spots: &SpotChanges) -> Result<KeyIndex, AllocError>
        ensures { IfOk result (λ index. index ≡ with_changes self.now.places spots.now) }
    {
        match &self.index {
            Some(index) => index.with_changes(spots),
            None => index_anew(alloc, &self.parts)?.with_changes(spots),
        }
    }

    /// What a new dataset has of a relation: one part, without records.
    #[tactic(auto, using(crate::proofs::EmptyLemmas::empty_is_lived))]
    pub fn empty(alloc: Global, head: LivePart) -> Result<LiveRelation, AllocError>
        requires records { head.rows.records ≡ [] }
        requires bits { head.bits ≡ [] }
        ensures { IfOk result (λ l. l ≡ empty_lived head) }
    {
        let mut parts = Vec::new(alloc);
        parts.push(head)?;
        let index = KeyIndex::new(alloc);
        Ok(LiveRelation::of(parts, index, 0))
    }

    /// The segment and the slot of the key that a change of the relation touches.
    pub(crate) fn place_at(&self, changes: &Changes, at: usize, relation: u8) -> Option<(u32, u32)>
        requires { at < length changes.now }
        ensures { result ≡ touched_place self.now.pieces relation (change_here changes.now at) }
    {
        let own = changes.relation(at);
        if own == relation {
            self.live_place(changes.key(at))
        } else {
            None
        }
    }

    /// The parts after a commit, whose head has further records.
    #[tactic(auto, using(crate::proofs::NextLemmas::next_push))]
    pub fn parts_after(
        &self,
        alloc: Global,
        places: &[Option<(u32, u32)>],
        head: u32,
        rows: &PutRows<'_>,
    ) -> Result<Vec<LivePart>, AllocError>
        requires wide { EachOf head self.now.pieces (λ p. AreWide p.rows.widths rows.now) }
        requires few { EachOf head self.now.pieces (λ p.
            length p.rows.records + length rows.now < 2 ^ 32) }
        ensures { IfOk result (λ v. AllNext places.now head rows.now self.now.pieces v.items) }
    {
        let mut parts = Vec::with_capacity(alloc, self.parts.len())?;
        for part in &self.parts {
            let next = part.next(alloc, places, head, rows)?;
            parts.push(next)?;
        }
        Ok(parts)
    }

    /// What there is of the relation after a commit that touches these places: the new records are behind
    /// those of the head, the changes of the index are told by the caller, and so is the count.
    pub fn after(
        &self,
        alloc: Global,
        places: &[Option<(u32, u32)>],
        head: u32,
        rows: &PutRows<'_>,
        spots: &SpotChanges,
        count: u32,
    ) -> Result<LiveRelation, AllocError>
        requires wide { EachOf head self.now.pieces (λ p. AreWide p.rows.widths rows.now) }
        requires few { EachOf head self.now.pieces (λ p.
            length p.rows.records + length rows.now < 2 ^ 32) }
        requires lived { (qs : List Piece) → AllNext places.now head rows.now self.now.pieces qs →
            IsLived (record {
              pieces = qs;
              places = with_changes self.now.places spots.now;
              count = count;
            }) }
        ensures parts { IfOk result
            (λ l. AllNext places.now head rows.now self.now.pieces l.pieces) }
        ensures places { IfOk result (λ l. l.places ≡ with_changes self.now.places spots.now) }
        ensures count { IfOk result (λ l. l.count ≡ count) }
    {
        let parts = self.parts_after(alloc, places, head, rows)?;
        let index = self.index_with(alloc, spots)?;
        Ok(LiveRelation::of(parts, index, count))
    }

    /// Is it empty, and are so many records many?
    pub fn takes_many(&self, count: usize) -> bool {
        self.count == 0 && count >= MANY_KEYS
    }

    /// What there is of the relation after a commit that puts many records into it while it is empty. No index
    /// is made of them before the next commit or branch.
    pub fn after_many(
        &self,
        alloc: Global,
        places: &[Option<(u32, u32)>],
        head: u32,
        rows: &PutRows<'_>,
        count: u32,
    ) -> Result<LiveRelation, AllocError>
        requires wide { EachOf head self.now.pieces (λ p. AreWide p.rows.widths rows.now) }
        requires few { EachOf head self.now.pieces (λ p.
            length p.rows.records + length rows.now < 2 ^ 32) }
        requires lived { (qs : List Piece) → AllNext places.now head rows.now self.now.pieces qs
            → (spots : Places)
            × IsLived (record { pieces = qs; places = spots; count = count }) }
        ensures parts { IfOk result
            (λ l. AllNext places.now head rows.now self.now.pieces l.pieces) }
        ensures places { IfOk result (λ l. (spots : Places)
            → IsLived (record { pieces = l.pieces; places = spots; count = count })
            → l.places ≡ spots) }
        ensures count { IfOk result (λ l. l.count ≡ count) }
    {
        let parts = self.parts_after(alloc, places, head, rows)?;
        Ok(LiveRelation::unindexed(parts, count))
    }

    /// What a new branch of this version has: the parts in which something is live, a head of its own,
    /// and the index as it is. All of it is shared.
    pub fn begun(&self, alloc: Global, head: LivePart) -> Result<LiveRelation, AllocError>
        requires { IsLived (record self.now { pieces = begun_pieces self.now.pieces head }) }
        ensures { IfOk result (λ l.
            l ≡ record self.now { pieces = begun_pieces self.now.pieces head }) }
    {
        let mut parts = Vec::new(alloc);
        for part in &self.parts {
            push_live(&mut parts, part)?;
        }
        parts.push(head)?;
        let index = self.index_of(alloc)?;
        Ok(LiveRelation::of(parts, index, self.count))
    }

    /// The same with these parts in place of its own, in which the same records are live. The index is shared.
    pub fn with_parts(
        &self,
        alloc: Global,
        parts: Vec<LivePart>,
    ) -> Result<LiveRelation, AllocError>
        requires { IsLived (record self.now { pieces = parts.items }) }
        ensures { IfOk result (λ l. l ≡ record self.now { pieces = parts.items }) }
    {
        let index = self.index_of(alloc)?;
        Ok(LiveRelation::of(parts, index, self.count))
    }

    /// What a branch has that gets another head: one part more.
    pub fn with_head(&self, alloc: Global, head: LivePart) -> Result<LiveRelation, AllocError>
        requires { IsLived (record self.now { pieces = self.now.pieces ++ head ∷ [] }) }
        ensures { IfOk result (λ l. l ≡ record self.now { pieces = self.now.pieces ++ head ∷ [] }) }
    {
        let mut parts = copies(alloc, &self.parts)?;
        parts.push(head)?;
        self.with_parts(alloc, parts)
    }
}

// Parts that share all with others.
fn copies(alloc: Global, parts: &[LivePart]) -> Result<Vec<LivePart>, AllocError>
    ensures { IfOk result (λ v. v.items ≡ parts.now) }
{
    let mut all = Vec::with_capacity(alloc, parts.len())?;
    for part in parts {
        all.push(part.duplicate()?)?;
    }
    Ok(all)
}

// Puts a part behind others, where something of it is live.
fn push_live(parts: &mut Vec<LivePart>, part: &LivePart) -> Result<(), AllocError>
    ensures { OnOk result (parts.new.items
        ≡ parts.old.items ++ cond (has_live part.now) (part.now ∷ []) []) }
{
    if part.has_live() {
        parts.push(part.duplicate()?)?;
    }
    Ok(())
}
