//! Which wants conflict, and which lock comes first.
ghost use Rattle.std.specs.Prelude.{◌≡◌};
ghost use Rattle.wait_die.specs.Conflict.{is_catalogue, is_heads, is_branch, same_lock, meets, conflict, conflicts, is_branch_below, is_below, includes};

use crate::want::{WaitLock, Want};
use db_value::Name;

fn is_catalogue(lock: &WaitLock) -> bool
    ensures { result ≡ is_catalogue lock.now }
{
    matches!(lock, WaitLock::Catalogue)
}

fn is_heads(lock: &WaitLock) -> bool
    ensures { result ≡ is_heads lock.now }
{
    matches!(lock, WaitLock::Heads)
}

fn is_branch(name: &Name, lock: &WaitLock) -> bool
    ensures { result ≡ is_branch name.now lock.now }
{
    match lock {
        WaitLock::Branch { name: other } => *name == *other,
        _ => false,
    }
}

fn is_branch_below(name: &Name, lock: &WaitLock) -> bool
    ensures { result ≡ is_branch_below name.now lock.now }
{
    match lock {
        WaitLock::Branch { name: other } => name.as_bytes().cmp(other.as_bytes()).is_lt(),
        _ => false,
    }
}

/// Are the locks one?
pub fn same_lock(lock: &WaitLock, other: &WaitLock) -> bool
    ensures { result ≡ same_lock lock.now other.now }
{
    match lock {
        WaitLock::Catalogue => is_catalogue(other),
        WaitLock::Heads => is_heads(other),
        WaitLock::Branch { name } => is_branch(name, other),
    }
}

/// Does the lock come before the other one?
pub fn is_below(lock: &WaitLock, other: &WaitLock) -> bool
    ensures { result ≡ is_below lock.now other.now }
{
    match lock {
        WaitLock::Catalogue => !is_catalogue(other),
        WaitLock::Heads => !(is_catalogue(other) || is_heads(other)),
        WaitLock::Branch { name } => is_branch_below(name, other),
    }
}

fn meets(lock: &WaitLock, other: &WaitLock) -> bool
    ensures { result ≡ meets lock.now other.now }
{
    match lock {
        WaitLock::Catalogue => is_catalogue(other),
        WaitLock::Heads => !is_catalogue(other),
        WaitLock::Branch { name } => is_heads(other) || is_branch(name, other),
    }
}

/// Do the wants of two sessions conflict?
pub fn conflict(want: &Want, other: &Want) -> bool
    ensures { result ≡ conflict want.now other.now }
{
    (want.exclusive || other.exclusive) && meets(&want.lock, &other.lock)
}

/// Does one of the wants of a session conflict with that of another one?
pub fn conflicts(wants: &[Want], other: &Want) -> bool
    ensures { result ≡ conflicts wants.now other.now }
{
    for want in wants {
        if conflict(want, other) {
            return true;
        }
    }
    false
}

/// Does the first want conflict with whatever the second one does, on the same lock?
pub fn includes(want: &Want, other: &Want) -> bool
    ensures { result ≡ includes want.now other.now }
{
    same_lock(&want.lock, &other.lock) && (want.exclusive || !other.exclusive)
}
