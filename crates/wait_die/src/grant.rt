//! Granted wants, and waits.
ghost use Rattle.std.specs.Prelude.{◌≡◌, ◌+◌, ◌≤◌, length, filter, vec_capacity};
ghost use Rattle.wait_die.specs.Waiting.{has_want, added, is_of_other, is_apart};

use crate::conflict::includes;
use crate::want::{Want, Wants};

/// A granted want, and the session that has it.
#[derive(Clone, Copy)]
pub struct Grant {
    pub session: u32,
    pub want: Want,
}

/// A session that waits, what it wants, and the session that it waits on.
#[derive(Drop)]
pub struct Waiting {
    pub waiter: u32,
    pub wants: Wants,
    pub on: u32,
}

/// Has the session a granted want that includes this one?
pub fn has_want(grants: &[Grant], session: u32, want: &Want) -> bool
    ensures { result ≡ has_want session want.now grants.now }
{
    for grant in grants {
        if grant.session == session && includes(&grant.want, want) {
            return true;
        }
    }
    false
}

/// Adds wants of a session, for which there is room, but for those that others of its include.
pub fn add_wants(grants: &mut Vec<Grant>, session: u32, wants: &[Want])
    requires room { length grants.old.items + length wants.now ≤ vec_capacity grants.old }
    ensures added { grants.new.items ≡ added session wants.now grants.old.items }
{
    for want in wants {
        if !has_want(grants.as_slice(), session, want) {
            grants.push_reserved(Grant {
                session,
                want: *want,
            });
        }
    }
}

/// Takes all wants of a session back.
pub fn drop_wants(grants: &mut Vec<Grant>, session: u32)
    ensures { grants.new.items ≡ filter (is_of_other session) grants.old.items }
{
    grants.retain(|grant| grant.session != session);
}

/// Takes the wait of a session back, and every wait on it.
pub fn drop_waits(waits: &mut Vec<Waiting>, session: u32)
    ensures { waits.new.items ≡ filter (is_apart session) waits.old.items }
{
    waits.retain(|waiting| waiting.waiter != session && waiting.on != session);
}
