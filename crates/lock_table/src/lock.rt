//! The rows of one lock.
ghost use Rattle.std.specs.Prelude.{◌≡◌, ◌≤◌, ◌<◌, true, false, [], ◌∷◌, map, length, OnOk};
ghost use Rattle.lock_table.specs.Rows.{lesser, holder, holds};
ghost use Rattle.lock_table.specs.Kept.{row_of, same_grant, has_grant, with_grant, without_grants};

use crate::need::Need;
use std::alloc::{AllocError, Global};
use std::marker::Model;

/// A session that has the lock, exclusively or shared.
#[derive(Clone, Copy)]
pub struct Grant {
    pub session: u32,
    pub exclusive: bool,
}

/// A lock is the grants given on it, in that order, and room for more.
#[derive(Drop)]
pub struct Lock {
    grants: Vec<Grant>,
}

impl Model for Lock {
    ghost use Rattle.std.specs.Prelude.{vec_capacity};
    ghost use Rattle.lock_table.specs.Kept.{LockGrants};

    ghost Value = { LockGrants };

    ghost view = { λ l. record { grants = l.grants.items; room = vec_capacity l.grants } };
}

impl Lock {
    pub fn new(alloc: Global) -> Lock
        ensures { result.grants ≡ [] }
    {
        Lock {
            grants: Vec::new(alloc),
        }
    }

    /// Makes room for this many grants in all.
    pub fn reserve(&mut self, room: usize) -> Result<(), AllocError>
        ensures grants { self.new.grants ≡ self.old.grants }
        ensures room { OnOk result (room ≤ self.new.room) }
        ensures kept { self.old.room ≤ self.new.room }
    {
        let more = room.saturating_sub(self.grants.len());
        self.grants.reserve(more)
    }

    /// The lock, and the least other session whose grant on it conflicts with the need.
    pub fn holder(&self, session: u32, need: Need) -> Option<(u32, u32)>
        ensures { result ≡ holder session (need ∷ []) (map (row_of need.lock) self.now.grants) }
    {
        least_holder(self.grants.as_slice(), session, need)
    }

    /// Does a grant of the session conflict with the need?
    pub fn holds(&self, session: u32, need: Need) -> bool
        ensures { result ≡ holds session (need ∷ []) (map (row_of need.lock) self.now.grants) }
    {
        has_conflict(self.grants.as_slice(), session, need)
    }

    /// Gives the grant, unless it is there.
    pub fn grant(&mut self, grant: Grant)
        requires { has_grant grant self.old.grants ≡ false
            → length self.old.grants < self.old.room }
        ensures { self.new ≡ with_grant grant self.old }
    {
        if !is_granted(self.grants.as_slice(), grant) {
            self.grants.push_reserved(grant);
        }
    }

    /// Has it no grant?
    pub fn is_free(&self) -> bool
        ensures { result ≡ true → self.now.grants ≡ [] }
    {
        self.grants.is_empty()
    }

    /// Takes all grants of a session back.
    pub fn release(&mut self, session: u32)
        ensures { self.new ≡ without_grants session self.old }
    {
        // Most locks have no grants.
        if self.grants.is_empty() {
            return;
        }
        let mut kept = 0;
        for i in 0..self.grants.len() {
            if self.grants[i].session != session {
                self.grants.swap(kept, i);
                kept += 1;
            }
        }
        self.grants.truncate(kept);
    }
}

fn is_same(a: Grant, b: Grant) -> bool
    ensures { result ≡ same_grant a b }
{
    a.session == b.session && a.exclusive == b.exclusive
}

fn is_granted(grants: &[Grant], grant: Grant) -> bool
    ensures { result ≡ has_grant grant grants.now }
{
    for other in grants {
        if is_same(*other, grant) {
            return true;
        }
    }
    false
}

fn has_conflict(grants: &[Grant], session: u32, need: Need) -> bool
    ensures { result ≡ holds session (need ∷ []) (map (row_of need.lock) grants.now) }
{
    for grant in grants {
        if grant.session == session && (need.exclusive || grant.exclusive) {
            return true;
        }
    }
    false
}

fn least_holder(grants: &[Grant], session: u32, need: Need) -> Option<(u32, u32)>
    ensures { result ≡ holder session (need ∷ []) (map (row_of need.lock) grants.now) }
{
    let mut least: Option<(u32, u32)> = None;
    let mut i = grants.len();
    while i > 0 {
        i -= 1;
        let grant = grants[i];
        if grant.session != session && (need.exclusive || grant.exclusive) {
            least = Some(lesser((need.lock, grant.session), least));
        }
    }
    least
}

/// The one with the lower lock, or on one lock the lower session.
pub fn lesser(p: (u32, u32), q: Option<(u32, u32)>) -> (u32, u32)
    ensures { result ≡ lesser p q }
{
    match q {
        None => p,
        Some(q) => {
            if p.0 < q.0 || (p.0 == q.0 && p.1 < q.1) {
                p
            } else {
                q
            }
        }
    }
}
