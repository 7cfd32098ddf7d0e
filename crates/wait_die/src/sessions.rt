//! Lists of sessions.
ghost use Rattle.std.specs.Prelude.{◌≡◌, ◌≤◌, filter, vec_capacity, OnOk};
ghost use Rattle.wait_die.specs.Waiting.{is_other};

use std::alloc::AllocError;

/// Makes room for this many sessions in all.
pub fn reserve_for(sessions: &mut Vec<u32>, count: usize) -> Result<(), AllocError>
    ensures items { sessions.new.items ≡ sessions.old.items }
    ensures room { OnOk result (count ≤ vec_capacity sessions.new) }
    ensures kept { vec_capacity sessions.old ≤ vec_capacity sessions.new }
{
    let more = count.saturating_sub(sessions.len());
    sessions.reserve(more)
}

/// Takes a session out of a list, whose room stays.
pub fn drop_session(sessions: &mut Vec<u32>, session: u32)
    ensures items { sessions.new.items ≡ filter (is_other session) sessions.old.items }
    ensures room { vec_capacity sessions.new ≡ vec_capacity sessions.old }
{
    sessions.retain(|other| *other != session);
}
