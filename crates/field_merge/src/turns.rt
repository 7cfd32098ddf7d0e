//! Parts of three views in turn.
ghost use Rattle.std.specs.Prelude.{◌≡◌, ◌<◌, ◌≤◌, length, IfNone, IfSome};
ghost use Rattle.field_merge.specs.Turns.{is_one, is_first, turn_of, IsInfo, IsNext, IsRelation, AreOne, AreTaken};

use db_store::{PartInfo, View};

/// Whose part comes next.
#[derive(Clone, Copy)]
pub enum Turn {
    /// One of each view: all three have one id, and as many slots.
    All,
    /// That of the base alone.
    Base,
    /// That of the left view alone.
    Left,
    /// That of the right view alone.
    Right,
    /// None is left.
    End,
}

/// How many parts of each of three views were taken.
#[derive(Clone, Copy)]
pub struct Taken {
    pub base: u32,
    pub left: u32,
    pub right: u32,
}

// A part of a view, if it has so many.
fn info_at<V: View>(view: &V, relation: u8, index: u32) -> Option<PartInfo>
    requires { relation < length (V.table view.now) }
    ensures none { IfNone result (length (V.parts_of view.now relation) ≤ index) }
    ensures some { IfSome result (IsInfo (V.parts_of view.now relation) index) }
{
    if index >= view.parts(relation) {
        return None;
    }
    Some(view.part(relation, index))
}

// Are they there, with one id and as many slots?
fn is_one(a: &Option<PartInfo>, b: &Option<PartInfo>) -> bool
    ensures { result ≡ is_one a.now b.now }
{
    match a {
        None => false,
        Some(x) => match b {
            None => false,
            Some(y) => x.id == y.id && x.slots == y.slots,
        },
    }
}

// Is the first one there, with no greater id than the other one?
fn is_first(a: &Option<PartInfo>, b: &Option<PartInfo>) -> bool
    ensures { result ≡ is_first a.now b.now }
{
    match a {
        None => false,
        Some(x) => match b {
            None => true,
            Some(y) => x.id <= y.id,
        },
    }
}

fn turn_of(base: &Option<PartInfo>, left: &Option<PartInfo>, right: &Option<PartInfo>) -> Turn
    ensures { result ≡ turn_of base.now left.now right.now }
{
    if is_one(base, left) && is_one(left, right) {
        return Turn::All;
    }
    if is_first(base, left) && is_first(base, right) {
        return Turn::Base;
    }
    if is_first(left, right) {
        return Turn::Left;
    }
    if right.is_some() {
        Turn::Right
    } else {
        Turn::End
    }
}

/// Whose part comes next: that with the least id. A store shows parts by ascending id, so a part
/// that all three views show comes from all of them at once.
pub fn next_turn<B: View, L: View, R: View>(
    base: &B,
    left: &L,
    right: &R,
    relation: u8,
    taken: &Taken,
) -> Turn
    requires { IsRelation relation (B.table base.now) (L.table left.now) (R.table right.now) }
    ensures all { result ≡ Turn.All → AreOne (B.parts_of base.now relation)
        (L.parts_of left.now relation) (R.parts_of right.now relation) taken.now }
    ensures base { result ≡ Turn.Base → IsNext (B.parts_of base.now relation) taken.now.base }
    ensures left { result ≡ Turn.Left → IsNext (L.parts_of left.now relation) taken.now.left }
    ensures right { result ≡ Turn.Right → IsNext (R.parts_of right.now relation) taken.now.right }
    ensures end { result ≡ Turn.End → AreTaken (B.parts_of base.now relation)
        (L.parts_of left.now relation) (R.parts_of right.now relation) taken.now }
{
    let of_base = info_at(base, relation, taken.base);
    let of_left = info_at(left, relation, taken.left);
    let of_right = info_at(right, relation, taken.right);
    turn_of(&of_base, &of_left, &of_right)
}
