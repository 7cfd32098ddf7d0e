//! By whom a request is lost, and on whom it waits.
ghost use Rattle.std.specs.Prelude.{◌≡◌};
ghost use Rattle.wait_die.specs.Waiting.{is_older};
ghost use Rattle.wait_die.specs.Turns.{lesser, least_session, is_ahead, lesser_loss, loss_of, holder_of};

use crate::conflict::{conflict, conflicts, is_below, same_lock};
use crate::grant::Grant;
use crate::want::{WaitLock, Want};

/// An older session, and the asker's lock on which it has a conflicting want.
#[derive(Clone, Copy)]
pub struct Loss {
    pub lock: WaitLock,
    pub by: u32,
}

/// Is the first session older? One without an open transaction is younger than all.
pub fn is_older(begun: &[u32], first: u32, second: u32) -> bool
    ensures { result ≡ is_older begun.now first second }
{
    for session in begun {
        if *session == second {
            return false;
        }
        if *session == first {
            return true;
        }
    }
    false
}

fn lesser(session: u32, other: Option<u32>) -> u32
    ensures { result ≡ lesser session other }
{
    match other {
        None => session,
        Some(other) => session.min(other),
    }
}

fn lesser_loss(loss: Loss, other: &Option<Loss>) -> Loss
    ensures { result ≡ lesser_loss loss other.now }
{
    match other {
        None => loss,
        Some(other) => {
            if is_below(&loss.lock, &other.lock)
                || (same_lock(&loss.lock, &other.lock) && loss.by < other.by)
            {
                loss
            } else {
                *other
            }
        }
    }
}

// The least older session with a want that conflicts.
fn least_ahead(begun: &[u32], session: u32, want: &Want, grants: &[Grant]) -> Option<u32>
    ensures { result ≡ least_session (is_ahead begun.now session want.now) grants.now }
{
    let mut least: Option<u32> = None;
    let mut i = grants.len();
    while i > 0 {
        i -= 1;
        let grant = &grants[i];
        if conflict(want, &grant.want) && is_older(begun, grant.session, session) {
            least = Some(lesser(grant.session, least));
        }
    }
    least
}

/// By which older session the wants of a session are lost, and on which lock.
pub fn loss_of(begun: &[u32], session: u32, wants: &[Want], grants: &[Grant]) -> Option<Loss>
    ensures { result ≡ loss_of begun.now session wants.now grants.now }
{
    let mut least: Option<Loss> = None;
    let mut i = wants.len();
    while i > 0 {
        i -= 1;
        let want = &wants[i];
        if let Some(by) = least_ahead(begun, session, want, grants) {
            let lock = want.lock;
            least = Some(lesser_loss(Loss { lock, by }, &least));
        }
    }
    least
}

/// The least other session with a want that conflicts with one of these.
pub fn holder_of(session: u32, wants: &[Want], grants: &[Grant]) -> Option<u32>
    ensures { result ≡ holder_of session wants.now grants.now }
{
    let mut least: Option<u32> = None;
    let mut i = grants.len();
    while i > 0 {
        i -= 1;
        let grant = &grants[i];
        if grant.session != session && conflicts(wants, &grant.want) {
            least = Some(lesser(grant.session, least));
        }
    }
    least
}
