//! Passes that a room takes in and hands out again.
ghost use Rattle.std.specs.Prelude.{◌≡◌, ℕ, List, false, None, IfOk, OnOk, OnErr};
ghost use Rattle.history_note.specs.Places.{kept_for};
ghost use Rattle.history_note.specs.Shown.{is_carrying};
ghost use Rattle.db_hub.specs.Rooms.{IsOutIf, with_passes};
ghost use Rattle.db_hub.specs.Served.{CarriesFor, IsHandedTo, IsHere, IsTaken, IsGiven, IsAway, SeatReturns};

use crate::room::Room;
use crate::seat::Seat;
use crate::tag::LogTag;
use db_store::Store;
use entry_codec::Log;
use history_note::Pass;
use std::alloc::AllocError;

impl<St: Store, J: Log<St>, T: LogTag<J>> Room<St, J, T> {
    /// Does the pen carry a pass?
    pub(crate) fn carries(&self) -> bool
        ensures { result ≡ is_carrying self.now.pen }
    {
        self.pen.carries()
    }

    /// How many seats are out.
    pub(crate) fn seats(&self) -> usize {
        self.out.len()
    }

    /// Takes the seat's pass in.
    pub(crate) fn take_pass(&mut self, seat: &mut Seat<St, T>) -> Result<(), AllocError>
        requires { IsOutIf T.stays self.old.out seat.old }
        ensures room { self.new ≡ with_passes self.old self.new.pen }
        ensures taken { OnOk result (IsTaken T.opened T.since self.new seat.old seat.new) }
        ensures failed { OnErr result (seat.new ≡ seat.old) }
    {
        if self.pen.carries() {
            return Err(AllocError);
        }
        let Some(pass) = seat.pass.take() else {
            return Err(AllocError);
        };
        self.note.take_in(&mut self.pen, pass);
        Ok(())
    }

    /// Hands the carried pass out.
    pub(crate) fn hand(&mut self) -> Result<Pass<St>, AllocError>
        requires { (n : ℕ) × ((s : ℕ) × CarriesFor self.old.pen n s) }
        ensures room { self.new ≡ with_passes self.old self.new.pen }
        ensures pass { IfOk result (λ p. (n s : ℕ) → CarriesFor self.old.pen n s
            → IsHandedTo T.note T.opened self.old.pen n s p) }
    {
        let pass = self.note.hand_out(&mut self.pen)?;
        Ok(pass)
    }

    /// Hands the carried pass out to its seat.
    pub(crate) fn give_back(&mut self, seat: &mut Seat<St, T>) -> Result<(), AllocError>
        requires { IsHere T.opened T.since self.old seat.old }
        ensures room { self.new ≡ with_passes self.old self.new.pen }
        ensures given { OnOk result (IsGiven self.old.pen seat.old seat.new) }
        ensures failed { OnErr result (seat.new ≡ seat.old) }
    {
        let pass = self.hand()?;
        seat.pass = Some(pass);
        Ok(())
    }

    /// Takes in the pass that left a line, which was settled, and hands it out to its seat.
    pub(crate) fn fetch(&mut self, seat: &mut Seat<St, T>, pass: Pass<St>) -> Result<(), AllocError>
        requires free { is_carrying self.old.pen ≡ false }
        requires out { IsOutIf T.stays self.old.out seat.old }
        requires settled { kept_for seat.old.number self.old.pen.kept ≡ None }
        requires away { (text : List ℕ)
            × IsAway T.note T.opened T.since seat.old.number seat.old.desk text pass }
        ensures room { self.new ≡ with_passes self.old self.new.pen }
        ensures seat { OnOk result ((text : List ℕ)
            → IsAway T.note T.opened T.since seat.old.number seat.old.desk text pass
            → SeatReturns T.opened pass seat.old seat.new text) }
        ensures failed { OnErr result (seat.new.there ≡ false) }
    {
        seat.pass = None;
        self.note.take_in(&mut self.pen, pass);
        let handed = self.note.hand_out(&mut self.pen)?;
        seat.pass = Some(handed);
        Ok(())
    }
}
