//! The table of locks.
ghost use Rattle.std.specs.Prelude.{◌≡◌, ◌<◌, ◌≤◌, ℕ, [], map, All, OnOk, OnErr, IfOk};
ghost use Rattle.lock_table.specs.Rows.{Table, holder, holds};
ghost use Rattle.lock_table.specs.Grants.{IsAdmitted, granted, added, without, joined};
ghost use Rattle.lock_table.specs.Answer.{answer_of};
ghost use Rattle.lock_table.specs.Kept.{Grows, without_grants};
ghost use Rattle.std.specs.List.{AllZip};

use crate::blocks::Blocks;
use crate::lock::{Grant, lesser};
use crate::need::{LOCKS, Need, Needs};
use std::alloc::{AllocError, Global};
use std::marker::Model;

/// What a request is told.
#[derive(Clone, Copy, PartialEq, Eq)]
pub enum Ask {
    /// The session has all needs that it asked for.
    Granted,
    /// Nothing changed: session `by` has a need on `lock` that conflicts.
    Held { lock: u32, by: u32 },
}

/// A table of locks is the granted needs of each session, as rows, and the sessions admitted. It
/// keeps the rows by lock, so a request looks at those of its own locks alone.
#[derive(Drop)]
pub struct Locks {
    locks: Blocks,
    admitted: Vec<u32>,
}

impl Model for Locks {
    ghost use Rattle.lock_table.specs.Rows.{Table};
    ghost use Rattle.lock_table.specs.Kept.{rows_from, IsKept};

    ghost Value = { Table };

    ghost view = { λ t. record { rows = rows_from 0 t.locks; admitted = t.admitted.items } };

    ghost invariant = { λ t. IsKept t.admitted.items t.locks };
}

impl Locks {
    /// A table with no row and no session.
    pub fn new(alloc: Global) -> Result<Locks, AllocError>
        ensures rows { IfOk result (λ t. t.rows ≡ []) }
        ensures admitted { IfOk result (λ t. t.admitted ≡ []) }
    {
        Ok(Locks {
            locks: Blocks::new(alloc)?,
            admitted: Vec::new(alloc),
        })
    }

    /// Makes room for every need that the session can have: all locks, shared and exclusive, in
    /// about 16 KiB. A session stays admitted for good, and may be admitted again.
    pub fn admit(&mut self, session: u32) -> Result<(), AllocError>
        ensures ok { OnOk result
            (self.new ≡ record self.old { admitted = joined session self.old.admitted }) }
        ensures admitted { OnOk result (IsAdmitted self.new session) }
        ensures others { (other : ℕ) → IsAdmitted self.old other → IsAdmitted self.new other }
        ensures err { OnErr result (self.new ≡ self.old) }
    {
        if self.admitted.contains(&session) {
            return Ok(());
        }
        let sessions = self.admitted.len() + 1;
        let room = sessions.checked_mul(2).ok_or(AllocError)?;
        self.locks.reserve(room)?;
        self.admitted.push(session)?;
        Ok(())
    }

    /// Grants the session all of the needs, or none where another session's row conflicts with one
    /// of them. It never waits, and takes no memory.
    pub fn ask(&mut self, session: u32, needs: &Needs) -> Ask
        requires admitted { IsAdmitted self.old session }
        requires locks { All (λ n. n.lock < LOCKS) needs.now }
        ensures answer { result ≡ answer_of (holder session needs.now self.old.rows) }
        ensures held { (lock by : ℕ) → result ≡ Ask.Held lock by → self.new ≡ self.old }
        ensures granted { result ≡ Ask.Granted
            → self.new ≡ record self.old { rows = added session needs.now self.old.rows } }
    {
        match self.holder(session, needs.as_slice()) {
            Some((lock, by)) => Ask::Held { lock, by },
            None => {
                for need in needs.as_slice() {
                    self.grant(session, *need);
                }
                Ask::Granted
            }
        }
    }

    /// Takes back all needs of a session, which stays admitted. It takes no memory.
    pub fn release(&mut self, session: u32)
        ensures { self.new ≡ record self.old { rows = without session self.old.rows } }
    {
        self.locks.release(session);
    }

    /// The least lock and its least session by which a request would be held; none where it would be
    /// granted.
    pub fn holder(&self, session: u32, needs: &[Need]) -> Option<(u32, u32)>
        requires { All (λ n. n.lock < LOCKS) needs.now }
        ensures { result ≡ holder session needs.now self.now.rows }
    {
        let locks = self.locks.as_slice();
        let mut least: Option<(u32, u32)> = None;
        for need in needs {
            if let Some(found) = locks[need.lock as usize].holder(session, *need) {
                least = Some(lesser(found, least));
            }
        }
        least
    }

    /// Would a request be held by this session?
    pub fn holds(&self, session: u32, needs: &[Need]) -> bool
        requires { All (λ n. n.lock < LOCKS) needs.now }
        ensures { result ≡ holds session needs.now self.now.rows }
    {
        let locks = self.locks.as_slice();
        for need in needs {
            if locks[need.lock as usize].holds(session, *need) {
                return true;
            }
        }
        false
    }

    fn grant(&mut self, session: u32, need: Need)
        requires admitted { IsAdmitted self.old session }
        requires lock { need.lock < LOCKS }
        ensures { self.new ≡ record self.old { rows = granted session need self.old.rows } }
    {
        let exclusive = need.exclusive;
        self.locks.grant(need.lock, Grant { session, exclusive });
    }
}
