//! All locks, in blocks.
ghost use Rattle.std.specs.Prelude.{◌≡◌, ◌<◌, ◌≤◌, ◌/◌, ℕ, [], map, set, get_or, length, false, true, All, IfOk, OnOk};
ghost use Rattle.std.specs.List.{AllZip};
ghost use Rattle.lock_table.specs.Kept.{LockGrants, Grows, has_grant, with_grant, without_grants, IsMarked};

use crate::lock::{Grant, Lock};
use crate::need::LOCKS;
use std::alloc::{AllocError, Global};
use std::marker::Model;

/// So many locks make a block. A release looks at each block, and at each lock of a block with grants: 32 of either.
pub const BLOCK: usize = 32;

/// How many blocks there are, the last one of one lock.
pub const BLOCKS: usize = 33;

/// The locks by number, and for each block whether one of its locks may have a grant.
#[derive(Drop)]
pub struct Blocks {
    locks: Vec<Lock>,
    busy: Vec<bool>,
}

impl Model for Blocks {
    ghost use Rattle.std.specs.Prelude.{List};
    ghost use Rattle.lock_table.specs.Kept.{LockGrants, IsMarked};

    ghost Value = { List LockGrants };

    ghost view = { λ b. b.locks.items };

    ghost invariant = { λ b. IsMarked b.busy.items b.locks.items };
}

impl Blocks {
    /// Locks without grants.
    pub fn new(alloc: Global) -> Result<Blocks, AllocError>
        ensures count { IfOk result (λ b. length b ≡ LOCKS) }
        ensures free { IfOk result (λ b. All (λ k. k.grants ≡ []) b) }
    {
        let locks = free_locks(alloc)?;
        let busy = vec![in alloc; false; BLOCKS]?;
        Ok(Blocks { locks, busy })
    }

    /// The locks, to read.
    pub fn as_slice(&self) -> &[Lock]
        ensures { result.now ≡ self.now }
    {
        &self.locks
    }

    /// Makes room for this many grants in all on each lock.
    pub fn reserve(&mut self, room: usize) -> Result<(), AllocError>
        ensures grows { AllZip Grows self.old self.new }
        ensures room { OnOk result (All (λ k. room ≤ k.room) self.new) }
    {
        reserve_all(&mut self.locks, room)
    }

    /// Gives a grant on a lock, unless it is there.
    pub fn grant(&mut self, lock: u32, grant: Grant)
        requires within { lock < LOCKS }
        requires room { (d : LockGrants) → has_grant grant (get_or self.old lock d).grants ≡ false
            → length (get_or self.old lock d).grants < (get_or self.old lock d).room }
        ensures { (d : LockGrants)
            → self.new ≡ set self.old lock (with_grant grant (get_or self.old lock d)) }
    {
        let at = lock as usize;
        self.busy[at / BLOCK] = true;
        self.locks[at].grant(grant);
    }

    /// Takes all grants of a session back.
    pub fn release(&mut self, session: u32)
        ensures { self.new ≡ map (without_grants session) self.old }
    {
        release_busy(&mut self.locks, &self.busy, session);
        mark_again(&mut self.busy, &self.locks);
    }
}

fn free_locks(alloc: Global) -> Result<Vec<Lock>, AllocError>
    ensures count { IfOk result (λ v. length v.items ≡ LOCKS) }
    ensures free { IfOk result (λ v. All (λ k. k.grants ≡ []) v.items) }
{
    let mut locks = Vec::with_capacity(alloc, LOCKS as usize)?;
    for _ in 0..LOCKS {
        locks.push(Lock::new(alloc))?;
    }
    Ok(locks)
}

fn reserve_all(locks: &mut [Lock], room: usize) -> Result<(), AllocError>
    ensures grows { AllZip Grows locks.old locks.new }
    ensures room { OnOk result (All (λ k. room ≤ k.room) locks.new) }
{
    for lock in locks {
        lock.reserve(room)?;
    }
    Ok(())
}

// Passes over the blocks without grants.
fn release_busy(locks: &mut [Lock], busy: &[bool], session: u32)
    requires { IsMarked busy.now locks.old }
    ensures { locks.new ≡ map (without_grants session) locks.old }
{
    let mut at = 0;
    while at < locks.len() {
        if busy[at / BLOCK] {
            locks[at].release(session);
            at += 1;
        } else {
            at = (at / BLOCK + 1) * BLOCK;
        }
    }
}

// Has no lock of the block a grant?
fn is_idle(locks: &[Lock], block: usize) -> bool
    requires count { length locks.now ≡ LOCKS }
    requires within { block < BLOCKS }
    ensures { result ≡ true → (i : ℕ) (d : LockGrants) → i < LOCKS → i / BLOCK ≡ block
        → (get_or locks.now i d).grants ≡ [] }
{
    let from = block * BLOCK;
    for at in from..(from + BLOCK).min(locks.len()) {
        if !locks[at].is_free() {
            return false;
        }
    }
    true
}

// Marks the blocks in which no lock has a grant any more.
fn mark_again(busy: &mut [bool], locks: &[Lock])
    requires { IsMarked busy.old locks.now }
    ensures { IsMarked busy.new locks.now }
{
    for block in 0..busy.len() {
        if busy[block] && is_idle(locks, block) {
            busy[block] = false;
        }
    }
}
