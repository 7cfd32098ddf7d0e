//! What lies under a hub's lock: a room, and the lines that wait there for the log together.
ghost use Rattle.std.specs.Prelude.{◌≡◌, ℕ, List, None, false, not, is_some, IfOk, OnOk, OnErr};
ghost use Rattle.history_note.specs.Places.{kept_for};
ghost use Rattle.history_note.specs.Shown.{is_carrying};
ghost use Rattle.db_hub.specs.Seats.{SeatVisited, SeatCaughtUp, SeatFailed};
ghost use Rattle.db_hub.specs.Served.{MayAsk, IsAway, SeatLeaves, SeatReturns, IfServed, IfLeft};

use crate::batch::LineBatch;
use crate::keyed::is_among;
use crate::patience::Patience;
use crate::room::Room;
use crate::seat::Seat;
use crate::shell::Shell;
use crate::tag::LogTag;
use db_store::Store;
use db_value::LineText;
use entry_codec::Log;
use history_note::Pass;
use line_needs::Known;
use std::alloc::AllocError;
use std::marker::Model;
use stmt_text::Stmt;

/// What lies under a hub's lock is a room with its batch. All seats of the room stay out.
#[derive(Drop)]
pub struct Whole<St: Store, J: Log<St>, T: LogTag<J>> {
    pub room: Shell<Room<St, J, T>>,
    pub batch: LineBatch<St>,
    pub patience: Patience,
}

impl<St: Store, J: Log<St>, T: LogTag<J>> Model for Whole<St, J, T> {
    ghost use Rattle.std.specs.Prelude.{◌≡◌, true};
    ghost use Rattle.std.specs.Coded.{codes};
    ghost use Rattle.db_store.specs.Table.{contents_code};
    ghost use Rattle.branch_tx.specs.Granted.{granted_code};
    ghost use Rattle.db_hub.specs.Rooms.{AtRoom};
    ghost use Rattle.db_hub.specs.Left.{BatchFits};

    ghost Value = { AtRoom J };

    ghost coded = { Prim.hlevel (codes, contents_code, granted_code) };

    ghost view = { λ w. w.room.inner };

    ghost invariant = { λ w. BatchFits St.Prepares w.room.inner w.batch.queue w.batch.numbers.items
        w.batch.waiting.members.items
        × (T.stays ≡ true) };
}

/// What a first visit leaves.
#[derive(Drop)]
pub enum Visit<St: Store> {
    /// The line was answered and entered.
    Served,
    /// It waits for its batch, with the pass that left it. It tells how often its thread looks whether
    /// others settled it, before it does so: never, if a line of each session waits.
    Left { pass: Pass<St>, looks: u32 },
}

impl<St: Store, J: Log<St>, T: LogTag<J>> Whole<St, J, T> {
    /// Was the line that was left with this number settled? Then the note keeps none for the number.
    pub fn has_told(&self, number: u32) -> bool
        ensures { result ≡ not (is_some (kept_for number self.now.pen.kept)) }
    {
        !is_among(self.batch.numbers.as_slice(), number)
    }

    /// Asks for a line of the seat, by what its desk knows of it, for a line that isn't local. Members that
    /// are to be settled before it are settled in the same visit.
    pub fn first_visit(
        &mut self,
        seat: &mut Seat<St, T>,
        text: LineText,
        stmt: &Stmt,
        known: &Known,
    ) -> Result<Visit<St>, AllocError>
        requires { MayAsk seat.old.desk text stmt.now known.now }
        ensures served { IfOk result (λ v. IfServed v
            (SeatVisited T.opened seat.old seat.new text)) }
        ensures left { IfOk result (λ v. IfLeft v (λ p. SeatLeaves T.opened seat.old seat.new p
            × IsAway T.note T.opened T.since seat.new.number seat.new.desk text p)) }
        ensures failed { OnErr result (SeatFailed seat.old seat.new) }
    {
        self.room.inner.take_pass(seat)?;
        match self
            .room
            .inner
            .ask(&mut self.batch, seat, text, stmt, known)
        {
            Err(stop) => {
                self.room.inner.give_back(seat)?;
                Err(stop)
            }
            Ok(waits) => {
                if waits {
                    let pass = self.room.inner.hand()?;
                    let waiting = self.batch.numbers.len();
                    let looks = self.patience.looks(waiting, self.room.inner.seats());
                    return Ok(Visit::Left { pass, looks });
                }
                self.room.inner.give_back(seat)?;
                Ok(Visit::Served)
            }
        }
    }

    // Settles the members that wait, unless the line of this number was settled.
    fn settle_for(&mut self, number: u32)
        requires { is_carrying self.old.pen ≡ false }
        ensures free { is_carrying self.new.pen ≡ false }
        ensures settled { kept_for number self.new.pen.kept ≡ None }
    {
        if self.has_told(number) {
            return;
        }
        self.patience.wear();
        self.room.inner.settle(&mut self.batch);
    }

    /// Takes the pass that left a line in an earlier visit, and hands it out to its seat. If the line
    /// still waits, all members are settled first.
    pub fn second_visit(&mut self, seat: &mut Seat<St, T>, pass: Pass<St>) -> Result<(), AllocError>
        requires { (text : List ℕ)
            × IsAway T.note T.opened T.since seat.old.number seat.old.desk text pass }
        ensures seat { OnOk result ((text : List ℕ)
            → IsAway T.note T.opened T.since seat.old.number seat.old.desk text pass
            → SeatReturns T.opened pass seat.old seat.new text) }
        ensures failed { OnErr result (seat.new.there ≡ false) }
    {
        if self.room.inner.carries() {
            seat.pass = None;
            return Err(AllocError);
        }
        self.settle_for(seat.number);
        self.room.inner.fetch(seat, pass)
    }

    /// A session whose seat is given up brings no more lines that wait with others'.
    pub fn give_up_one(&mut self)
        ensures { self.new ≡ self.old }
    {
        self.patience.give_up_one();
    }

    /// Settles the members that wait, and enters the lines that wait at the seat's desk. Want of memory
    /// enters none of these; or the seat's pass was lost.
    pub fn catch_up(&mut self, seat: &mut Seat<St, T>) -> Result<(), AllocError>
        ensures seat { OnOk result (SeatCaughtUp seat.old seat.new) }
        ensures failed { OnErr result (SeatFailed seat.old seat.new) }
    {
        if self.room.inner.carries() {
            return Err(AllocError);
        }
        self.room.inner.settle(&mut self.batch);
        self.room.inner.catch_up(seat)
    }
}
