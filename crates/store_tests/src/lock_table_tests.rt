//! As many sessions as there can be, each of which needs every lock.
ghost use Rattle.std.specs.Prelude.{◌<◌};

use crate::asserts::holds;
use lock_table::{Ask, LOCKS, Locks, Need, Needs};
use std::alloc::{AllocError, Global};
use std::test::Fail;

fn ask(
    alloc: Global,
    locks: &mut Locks,
    session: u32,
    lock: u32,
    exclusive: bool,
) -> Result<Ask, AllocError>
    requires { lock < LOCKS }
{
    let mut needs = Vec::new(alloc);
    needs.push(Need { lock, exclusive })?;
    locks.admit(session)?;
    Ok(locks.ask(session, &Needs::of(needs)))
}

// A session shares all locks, one after another.
fn shares_all(alloc: Global, locks: &mut Locks, session: u32) -> Result<bool, AllocError> {
    for lock in 0..LOCKS {
        if ask(alloc, locks, session, lock, false)? != Ask::Granted {
            return Ok(false);
        }
    }
    Ok(true)
}

#[test]
fn has_room_for_every_need(rt: HostRuntime) -> Result<(), Fail> {
    let mut locks = Locks::new(rt.alloc())?;
    for session in 1..=64 {
        holds(
            &rt,
            "each is shared",
            shares_all(rt.alloc(), &mut locks, session)?,
        );
    }
    locks.release(1);
    let last = ask(rt.alloc(), &mut locks, 64, 1024, true)?;
    holds(
        &rt,
        "the least that is left",
        last == Ask::Held { lock: 1024, by: 2 },
    );
    Ok(())
}
