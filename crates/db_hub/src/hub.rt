//! What threads share: a board and its note under a lock.
ghost use Rattle.std.specs.Prelude.{◌≡◌, true, false, Some, is_some, IfOk, IfErr, OnOk, OnErr};
ghost use Rattle.db_core.specs.Desk.{known_at, waits};
ghost use Rattle.db_core.specs.Order.{said_of};
ghost use Rattle.db_core.specs.Sits.{heard};
ghost use Rattle.db_hub.specs.Seats.{SeatClosed, SeatFailed};
ghost use Rattle.db_hub.specs.Served.{SeatServed};

use crate::seat::Seat;
use crate::tag::LogTag;
use crate::whole::{Visit, Whole};
use db_store::Store;
use db_value::LineText;
use entry_codec::Log;
use history_note::Pass;
use line_needs::Known;
use std::alloc::AllocError;
use std::sync::{Mutex, MutexGuard, Wait};
use std::thread;
use stmt_text::Stmt;

/// How often a thread looks for the lock before it sleeps. To wake one takes longer than most visits.
const LOOKS: u32 = 200;

/// How often a thread whose line waits lets others go first before it looks whether it was settled.
const YIELDS: u32 = 8;

/// How often a thread whose line waits comes to the lock at most without sleeping, where others have it.
const TURNS: u32 = 400;

/// A hub is a room with the lines that wait there for the log together, under a lock, which threads
/// share. All seats of the room stay out: one that was given up goes on to be listed. Whoever runs
/// threads makes it of a room, on which the seats were made before, and takes it apart when they returned.
#[derive(Drop)]
pub struct Hub<St: Store, J: Log<St>, T: LogTag<J>> {
    pub lock: Mutex<Whole<St, J, T>>,
    ghost stays: { T.stays ≡ true },
}

impl<St: Store, J: Log<St>, T: LogTag<J>> Hub<St, J, T> {
    // What lies under the lock, which no other thread has until the guard is dropped.
    fn enter<R: Wait>(&self, rt: &R) -> MutexGuard<'_, Whole<St, J, T>> {
        for _ in 0..LOOKS {
            if let Some(guard) = self.lock.try_lock() {
                return guard;
            }
            thread::yield_now();
        }
        self.lock.lock(rt)
    }

    // What lies under the lock, after others could offer lines to the batch in which the line of this number
    // waits, and settle it. It comes back when they did, or when so many looks found that they didn't.
    fn leave_to_others<'a, R: Wait>(
        &'a self,
        rt: &R,
        guard: MutexGuard<'a, Whole<St, J, T>>,
        number: u32,
        looks: u32,
    ) -> MutexGuard<'a, Whole<St, J, T>> {
        if looks == 0 {
            return guard;
        }
        drop(guard);
        let mut left = looks;
        for _ in 0..TURNS {
            for _ in 0..YIELDS {
                thread::yield_now();
            }
            if let Some(guard) = self.lock.try_lock() {
                left = left.saturating_sub(1);
                if left == 0 || guard.has_told(number) {
                    return guard;
                }
            }
        }
        self.lock.lock(rt)
    }

    /// Enters the lines that wait at the seat's desk, and then answers one more and enters it, by what
    /// the desk knows of it, for a line that isn't local. A line that ends its transaction with a commit
    /// waits for its batch in between, and other sessions may go on: their lines may then stand before it
    /// and behind it.
    pub fn line<R: Wait>(
        &self,
        rt: &R,
        seat: &mut Seat<St, T>,
        text: LineText,
        stmt: &Stmt,
        known: &Known,
    ) -> Result<(), AllocError>
        requires line { said_of text false ≡ heard seat.old.desk.session stmt.now }
        requires local { waits seat.old.desk (Some stmt.now) ≡ false }
        requires known { known.now ≡ known_at seat.old.desk (Some stmt.now) }
        ensures seat { OnOk result (SeatServed T.opened seat.old seat.new text) }
        ensures failed { OnErr result (SeatFailed seat.old seat.new) }
    {
        let mut guard = self.enter(rt);
        let visit = guard.first_visit(seat, text, stmt, known)?;
        match visit {
            Visit::Served => Ok(()),
            Visit::Left { pass, looks } => {
                let mut guard = self.leave_to_others(rt, guard, seat.number, looks);
                guard.second_visit(seat, pass)
            }
        }
    }

    /// Enters the lines that wait at the seat's desk, and gives the seat up. A seat whose session has a
    /// transaction open can't be given up. After want of memory the seat comes back.
    pub fn close<R: Wait>(
        &self,
        rt: &R,
        mut seat: Seat<St, T>,
    ) -> Result<Pass<St>, (AllocError, Seat<St, T>)>
        requires { is_some seat.desk.open_tx ≡ false }
        ensures ok { IfOk result (SeatClosed T.note T.opened seat) }
        ensures failed { IfErr result (λ e. SeatFailed seat e.1) }
    {
        let mut guard = self.enter(rt);
        let caught = guard.catch_up(&mut seat);
        if caught.is_ok() {
            guard.give_up_one();
        }
        drop(guard);
        match caught {
            Err(stop) => Err((stop, seat)),
            Ok(()) => match seat.into_pass() {
                None => unreachable!(),
                Some(pass) => Ok(pass),
            },
        }
    }
}
