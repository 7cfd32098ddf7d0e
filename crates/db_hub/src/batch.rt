//! Lines that wait at a room for the log together: a line joins them, or they are settled.
ghost use Rattle.std.specs.Prelude.{◌≡◌, ◌<◌, ◌+◌, ◌≤◌, ◌++◌, ◌∷◌, List, [], true, false, None, length, drop, IfOk, OnOk, OnErr};
ghost use Rattle.history_note.specs.Shown.{is_carrying, carried_line};
ghost use Rattle.db_core.specs.Members.{AtMember};
ghost use Rattle.db_core.specs.Waiting.{members_of};
ghost use Rattle.db_core.specs.Offers.{IfFirst, GivesBack, IfAnswered, IfWaits};
ghost use Rattle.db_hub.specs.Seats.{AtSeat, seat_at, SeatVisited, SeatStays};
ghost use Rattle.db_hub.specs.Left.{BatchFits, MayWriteAll, written_for};
ghost use Rattle.db_hub.specs.Served.{CarriesFor, IsReady, IsHere, MayAsk, IsTaken, UnlessWaits, SettlesFirst, AnswersNow, LeavesLine, LeavesNone, OnceGiven, OnceLeft, SeatLeaves, IsAway};

use crate::room::Room;
use crate::seat::Seat;
use crate::tag::LogTag;
use crate::writing::write_from;
use db_core::{Desk, Offered, Waiting};
use db_store::Store;
use db_value::{LineText, Step};
use entry_codec::Log;
use flush_queue::FlushQueue;
use history_note::{Note, Pen};
use line_needs::Known;
use std::alloc::{AllocError, Global};
use stmt_text::Stmt;

/// A line batch is the members that wait at a room, the queue with their entries, and for each member
/// the number of its session's seat.
#[derive(Drop)]
pub struct LineBatch<St: Store> {
    pub queue: FlushQueue,
    pub waiting: Waiting<St>,
    pub numbers: Vec<u32>,
}

impl<St: Store> LineBatch<St> {
    /// No member waits.
    pub fn new(alloc: Global) -> Result<LineBatch<St>, AllocError>
        ensures { IfOk result (λ b. (b.queue.waiting ≡ []) × (b.waiting.members.items ≡ [])
            × (b.numbers.items ≡ [])) }
    {
        let queue = FlushQueue::new(alloc)?;
        let waiting = Waiting::new(alloc)?;
        Ok(LineBatch {
            queue,
            waiting,
            numbers: Vec::new(alloc),
        })
    }
}

// Writes the steps from a place on, one for each of the numbers.
fn write_members<St: Store>(
    note: &Note<St>,
    pen: &mut Pen<St>,
    numbers: &[u32],
    steps: &[Step],
    from: usize,
)
    requires note { pen.old.note ≡ note.now.note }
    requires may { MayWriteAll numbers.now (drop from steps.now) pen.old }
    requires within { from + length numbers.now ≤ length steps.now }
    requires lines { length pen.old.lines ≡ from }
    ensures { pen.new ≡ written_for numbers.now (drop from steps.now) pen.old }
{
    for i in 0..numbers.len() {
        note.write(pen, numbers[i], &steps[from + i]);
    }
}

// The line of the last member.
fn last_line<St: Store>(waiting: &Waiting<St>) -> &LineText
    requires { 0 < length waiting.now.members.items }
    ensures { (ms : List AtMember) (m : AtMember)
        → members_of waiting.now.members.items ≡ ms ++ m ∷ [] → result.now ≡ m.line }
{
    match waiting.members.as_slice().last() {
        None => unreachable!(),
        Some(member) => &member.line,
    }
}

impl<St: Store, J: Log<St>, T: LogTag<J>> Room<St, J, T> {
    // Offers a line of the carried pass, by what its desk knows of it. The desk's lines are entered before
    // it, with the pass's number.
    fn offer(
        &mut self,
        batch: &mut LineBatch<St>,
        desk: &mut Desk<St>,
        number: u32,
        text: LineText,
        stmt: &Stmt,
        known: &Known,
    ) -> Result<Offered, AllocError>
        requires fits { BatchFits St.Prepares self.old batch.old.queue batch.old.numbers.items
            batch.old.waiting.members.items }
        requires ready { IsReady T.opened T.since self.old number desk.old }
        requires may { MayAsk desk.old text stmt.now known.now }
        ensures fits { BatchFits St.Prepares self.new batch.new.queue batch.new.numbers.items
            batch.new.waiting.members.items }
        ensures first { IfOk result (λ o. IfFirst o (SettlesFirst self.old self.new desk.old
            desk.new (members_of batch.old.waiting.members.items))) }
        ensures back { IfOk result (λ o. GivesBack o text) }
        ensures answered { IfOk result (λ o.
            IfAnswered o (AnswersNow self.old self.new number desk.old desk.new text)) }
        ensures waits { IfOk result (λ o. IfWaits o
            (LeavesLine T.opened self.old self.new number desk.old desk.new text)) }
        ensures ready { IfOk result
            (λ o. UnlessWaits o (IsReady T.opened T.since self.new number desk.new)) }
        ensures failed { OnErr result
            (LeavesNone T.opened T.since self.old self.new number desk.old desk.new) }
    {
        let from = self.board.steps().len();
        batch.numbers.reserve(1)?;
        let told = self.board.offer(
            desk,
            text,
            stmt,
            known,
            &mut batch.queue,
            &mut batch.waiting,
        )?;
        write_from(&self.note, &mut self.pen, number, self.board.steps(), from);
        match told {
            Offered::SettleFirst { text } => Ok(Offered::SettleFirst { text }),
            Offered::Answered => Ok(Offered::Answered),
            Offered::Waits => {
                let left = last_line(&batch.waiting);
                self.note.leave(&mut self.pen, left);
                batch.numbers.push_reserved(number);
                Ok(Offered::Waits)
            }
        }
    }

    /// Settles the members that wait: each line is entered with its number. A pass that is carried, and
    /// left no line, stays carried.
    pub(crate) fn settle(&mut self, batch: &mut LineBatch<St>)
        requires fits { BatchFits St.Prepares self.old batch.old.queue batch.old.numbers.items
            batch.old.waiting.members.items }
        requires free { carried_line self.old.pen ≡ None }
        ensures fits { BatchFits St.Prepares self.new batch.new.queue batch.new.numbers.items
            batch.new.waiting.members.items }
        ensures none { (batch.new.waiting.members.items ≡ []) × (self.new.pen.kept ≡ []) }
        ensures carries { is_carrying self.new.pen ≡ is_carrying self.old.pen }
        ensures taken { (s t : AtSeat) → IsTaken T.opened T.since self.old s t
            → IsTaken T.opened T.since self.new s t }
    {
        if batch.waiting.members.is_empty() {
            return;
        }
        let from = self.board.steps().len();
        // Whether the log failed, the steps tell.
        let _ = self.board.settle(&mut batch.queue, &mut batch.waiting);
        write_members(
            &self.note,
            &mut self.pen,
            batch.numbers.as_slice(),
            self.board.steps(),
            from,
        );
        batch.numbers.clear();
    }

    // Offers a line of the carried pass where no member waits. It tells whether it waits then.
    fn offer_alone(
        &mut self,
        batch: &mut LineBatch<St>,
        desk: &mut Desk<St>,
        number: u32,
        text: LineText,
        stmt: &Stmt,
        known: &Known,
    ) -> Result<bool, AllocError>
        requires fits { BatchFits St.Prepares self.old batch.old.queue batch.old.numbers.items
            batch.old.waiting.members.items }
        requires none { batch.old.waiting.members.items ≡ [] }
        requires ready { IsReady T.opened T.since self.old number desk.old }
        requires may { MayAsk desk.old text stmt.now known.now }
        ensures fits { BatchFits St.Prepares self.new batch.new.queue batch.new.numbers.items
            batch.new.waiting.members.items }
        ensures answered { IfOk result (λ b. b ≡ false
            → AnswersNow self.old self.new number desk.old desk.new text
            × IsReady T.opened T.since self.new number desk.new) }
        ensures waits { IfOk result (λ b. b ≡ true
            → LeavesLine T.opened self.old self.new number desk.old desk.new text) }
        ensures session { OnOk result (desk.new.session ≡ desk.old.session) }
        ensures failed { OnErr result
            (LeavesNone T.opened T.since self.old self.new number desk.old desk.new) }
    {
        match self.offer(batch, desk, number, text, stmt, known)? {
            Offered::Answered => Ok(false),
            Offered::Waits => Ok(true),
            Offered::SettleFirst { .. } => unreachable!(),
        }
    }

    /// Asks for a line of a seat whose pass is carried, by what its desk knows of it, for a line that isn't
    /// local. It tells whether the line waits for its batch. Members that are to be settled first are
    /// settled.
    pub(crate) fn ask(
        &mut self,
        batch: &mut LineBatch<St>,
        seat: &mut Seat<St, T>,
        text: LineText,
        stmt: &Stmt,
        known: &Known,
    ) -> Result<bool, AllocError>
        requires fits { BatchFits St.Prepares self.old batch.old.queue batch.old.numbers.items
            batch.old.waiting.members.items }
        requires taken { (s : AtSeat) × IsTaken T.opened T.since self.old s seat.old }
        requires may { MayAsk seat.old.desk text stmt.now known.now }
        ensures fits { BatchFits St.Prepares self.new batch.new.queue batch.new.numbers.items
            batch.new.waiting.members.items }
        ensures served { IfOk result (λ b. b ≡ false → OnceGiven T.opened T.since self.old self.new
            seat.old seat.new (λ s v. SeatVisited T.opened s v text)) }
        ensures here { IfOk result (λ b. b ≡ false → IsHere T.opened T.since self.new seat.new) }
        ensures left { IfOk result (λ b. b ≡ true → OnceLeft T.note T.opened T.since self.old
            self.new seat.old (λ s p. SeatLeaves T.opened s seat.new p
            × IsAway T.note T.opened T.since seat.new.number seat.new.desk text p)) }
        ensures carries { IfOk result (λ b. b ≡ true → CarriesFor self.new.pen seat.old.number
            seat.old.desk.session) }
        ensures failed { OnErr result (IsHere T.opened T.since self.new seat.new
            × OnceGiven T.opened T.since self.old self.new seat.old seat.new SeatStays) }
        ensures seat { seat.new ≡ seat_at seat.old.number None seat.new.desk }
    {
        match self.offer(batch, &mut seat.desk, seat.number, text, stmt, known)? {
            Offered::Answered => Ok(false),
            Offered::Waits => Ok(true),
            Offered::SettleFirst { text } => {
                self.settle(batch);
                let waits = self.offer_alone(
                    batch,
                    &mut seat.desk,
                    seat.number,
                    text,
                    stmt,
                    known,
                )?;
                Ok(waits)
            }
        }
    }
}
