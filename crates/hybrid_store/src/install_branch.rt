//! New branches: what is ready for one, and adding it.
ghost use Rattle.std.specs.Prelude.{◌≡◌, ℕ, ◌<◌, ◌≤◌, length, map, vec_capacity, IfSome};
ghost use Rattle.std.specs.Arc.{arc_value};
ghost use Rattle.std.proofs.Common.{get_or};
ghost use Rattle.bit_rows.specs.Kept.{no_kept};
ghost use Rattle.bit_rows.specs.Segments.{no_list, list_at, with_head, turned_list};
ghost use Rattle.hybrid_store.specs.Ready.{no_own};
ghost use Rattle.hybrid_store.specs.ReadyBranch.{CanTurn, CanTake, TurnsIf};
ghost use Rattle.hybrid_store.specs.Stored.{head_number};

use crate::heads::head_of_rows;
use bit_rows::{HybridLane, KeptSegments, MoreRows};
use hybrid_view::HybridView;
use segment::Segment;
use std::marker::Model;
use std::sync::Arc;

/// What a branch gets with another head: a row more in each relation, what its last version has with it,
/// and the records of the heads.
#[derive(Drop)]
pub struct Turned {
    pub(crate) more: Vec<MoreRows>,
    pub(crate) head: HybridView,
    pub(crate) heads: Vec<Arc<Segment>>,
}

impl Model for Turned {
    ghost use Rattle.std.specs.Prelude.{map};
    ghost use Rattle.std.specs.Arc.{arc_value};
    ghost use Rattle.hybrid_store.specs.ReadyBranch.{Turn, turn_code};

    ghost Value = { Turn };

    ghost coded = { turn_code };

    ghost view = { λ t. record { more = t.more.items; head = arc_value t.head.table; owns = map arc_value t.heads.items } };
}

/// A new branch that is ready: it, the records of its heads, and another head of its origin if it is of
/// the last version there.
#[derive(Drop)]
pub struct HybridPreparedBranch {
    pub(crate) origin: u32,
    pub(crate) lane: HybridLane,
    pub(crate) heads: Vec<Arc<Segment>>,
    pub(crate) turned: Option<Turned>,
}

// Gives a branch another head in each relation.
fn turn_lists(
    segments: &mut Vec<KeptSegments>,
    lane: &HybridLane,
    branch: u32,
    mut heads: Vec<Arc<Segment>>,
)
    requires few { length segments.old.items ≤ 8 }
    requires count { length heads.items ≡ length segments.old.items }
    requires rows { length lane.now.rows ≡ length segments.old.items }
    requires can { (r : ℕ) → r < length segments.old.items
        → CanTurn branch lane.now (get_or segments.old.items r no_list) r }
    ensures count { length segments.new.items ≡ length segments.old.items }
    ensures each { (r : ℕ) → r < length segments.old.items
        → get_or segments.new.items r no_list
        ≡ turned_list (get_or segments.old.items r no_list)
        (head_number segments.old.items branch r) branch
        (get_or (map arc_value heads.items) r no_own) }
{
    while let Some(own) = heads.pop() {
        let relation = heads.len();
        let head = head_of_rows(lane.rows(relation as u8), &segments[relation], branch);
        segments[relation].turn(head, branch, own);
    }
}

// Adds the heads of a new branch.
pub(crate) fn add_heads(segments: &mut Vec<KeptSegments>, branch: u32, mut heads: Vec<Arc<Segment>>)
    requires count { length heads.items ≡ length segments.old.items }
    requires room { (r : ℕ) → r < length segments.old.items
        → length (list_at segments.old.items r) < (get_or segments.old.items r no_list).room }
    ensures count { length segments.new.items ≡ length segments.old.items }
    ensures each { (r : ℕ) → r < length segments.old.items
        → get_or segments.new.items r no_list
        ≡ with_head (get_or segments.old.items r no_list) branch
        (get_or (map arc_value heads.items) r no_own) }
{
    while let Some(own) = heads.pop() {
        let relation = heads.len();
        segments[relation].add(branch, own);
    }
}

// Gives a branch another head, if that is ready.
pub(crate) fn turn_if(
    lanes: &mut Vec<HybridLane>,
    segments: &mut Vec<KeptSegments>,
    branch: u32,
    turned: Option<Turned>,
)
    requires there { branch < length lanes.old.items }
    requires can { IfSome turned
        (λ t. CanTake branch (get_or lanes.old.items branch no_kept) segments.old.items t) }
    ensures turned { TurnsIf branch turned lanes.old.items segments.old.items lanes.new.items
        segments.new.items }
    ensures capacity { vec_capacity lanes.old ≤ vec_capacity lanes.new }
{
    match turned {
        None => {}
        Some(turned) => {
            let Turned { more, head, heads } = turned;
            turn_lists(segments, &lanes[branch as usize], branch, heads);
            lanes[branch as usize].turn(more, head);
        }
    }
}
