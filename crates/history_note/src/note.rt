// The note, its pen and its passes.
ghost use Rattle.std.specs.Prelude.{◌≡◌, ◌≤◌, ◌<◌, ◌^◌, ◌-◌, length, true, false, None, IfOk, OnOk, OnErr};
ghost use Rattle.history_note.specs.Places.{IsIssued, places};
ghost use Rattle.history_note.specs.Views.{says, leaves};
ghost use Rattle.history_note.specs.Rule.{Carries, PenIs, with_pen};
ghost use Rattle.history_note.specs.Shown.{is_carrying, carried_line, new_pen, noting, issued_pass, carrying, MayEnter, writing, leaving, handing, FitsPen, IsHanded, IsPenAt};

use crate::law::{
    HandOut, Issue, Law, LeaveLine, Leaving, Look, SayNumber, SaySession, TakeIn, WriteLine,
};
use crate::view::View;
use atomic_table::{Seat, Shared, Table};
use db_store::Store;
use db_value::{LineText, Step};
use std::alloc::{AllocError, Global};
use std::marker::{Brand, Model};

/// A note is one word that threads share, the length of a list. The list itself stands in proofs alone.
#[derive(Drop)]
pub struct Note<St: Store> {
    table: Table<Step, View<St>, St, Law, Global>,
}

impl<St: Store> Model for Note<St> {
    ghost use Rattle.std.specs.Prelude.{◌≡◌};
    ghost use Rattle.std.specs.Coded.{codes};
    ghost use Rattle.db_store.specs.Table.{contents_code};
    ghost use Rattle.history_note.specs.Shown.{AtNote};

    ghost Value = { AtNote };

    ghost coded = { Prim.hlevel (codes, contents_code) };

    ghost view = { λ n.
        record { note = n.table.shared.table_id; opening = St.state n.table.shared.key } };

    ghost invariant = { λ n. n.table.shared.table_id.words ≡ 1 };
}

/// A pen is the right to issue a note's passes and to write its list. A note has one, which lies with the list, under the lock of the
/// list if it has one.
#[derive(Drop)]
pub struct Pen<St: Store> {
    seat: Seat<Step, View<St>>,
    carries: bool,
}

impl<St: Store> Model for Pen<St> {
    ghost use Rattle.std.specs.Prelude.{◌≡◌, []};
    ghost use Rattle.std.specs.Coded.{codes};
    ghost use Rattle.db_store.specs.Table.{contents_code};
    ghost use Rattle.history_note.specs.Shown.{AtPen, pen_at, is_carrying};
    ghost use Rattle.history_note.specs.Rule.{PenIs};

    ghost Value = { AtPen };

    ghost coded = { Prim.hlevel (codes, contents_code) };

    ghost view = { λ p. pen_at St.state p.seat.table_id p.seat.me.0 };

    ghost invariant = { λ p. (p.seat.me.1 ≡ []) × PenIs p.seat.me.0
        × (p.carries ≡ is_carrying (pen_at St.state p.seat.table_id p.seat.me.0)) };
}

/// A pass is a token of no bytes that a session's thread holds. Its holder has seen a beginning of the note's list, and knows which of
/// the lines there were entered with the pass, and which line it left to be written later.
#[derive(Drop)]
pub struct Pass<St: Store> {
    seat: Seat<Step, View<St>>,
}

impl<St: Store> Model for Pass<St> {
    ghost use Rattle.std.specs.Prelude.{◌≡◌, []};
    ghost use Rattle.std.specs.Coded.{codes};
    ghost use Rattle.db_store.specs.Table.{contents_code};
    ghost use Rattle.history_note.specs.Shown.{AtPass, pass_at};
    ghost use Rattle.history_note.specs.Rule.{PassIs};

    ghost Value = { AtPass };

    ghost coded = { Prim.hlevel (codes, contents_code) };

    ghost view = { λ p. pass_at St.state p.seat.table_id p.seat.me.0 };

    ghost invariant = { λ p. (p.seat.me.1 ≡ []) × PassIs p.seat.me.0 };
}

impl<St: Store> Note<St> {
    /// A note of the empty list, with its pen, which has issued no pass. Its opening is the state of `opening`.
    pub fn new(alloc: Global, opening: &St) -> Result<(Note<St>, Pen<St>), AllocError>
        ensures note { IfOk result (λ r. r.0.opening ≡ St.state opening.now) }
        ensures pen { IfOk result (λ r. r.1 ≡ new_pen r.0) }
    {
        let (table, seat) = Table::of_words(alloc, &[0], opening)?;
        Ok((
            Note { table },
            Pen {
                seat,
                carries: false,
            },
        ))
    }

    /// A pass for a session, under a number that was not issued before. It has seen the list so far, in which no line is its own.
    pub fn issue(
        &self,
        pen: &mut Pen<St>,
        number: u32,
        session: u32,
    ) -> Result<Pass<St>, AllocError>
        requires note { pen.old.note ≡ self.now.note }
        requires new { IsIssued pen.old.noted number → ⊥ }
        ensures pen { OnOk result (pen.new ≡ noting number session pen.old) }
        ensures pass { IfOk result (λ p. p ≡ issued_pass number session pen.old) }
        ensures mine { IfOk result (λ p. p.mine ≡ places p.number p.seen) }

        ensures failed { OnErr result (pen.new ≡ pen.old) }
    {
        say(
            &self.table.shared,
            &mut pen.seat,
            u64::from(number),
            u64::from(session),
        );
        let seat = self.table.shared.split_seat::<Issue>(&mut pen.seat);
        Ok(Pass { seat })
    }

    /// Takes a pass in. From now on the pen carries it, and its holder knows how the pass fits the pen's list.
    pub fn take_in(&self, pen: &mut Pen<St>, pass: Pass<St>)
        requires pen { pen.old.note ≡ self.now.note }
        requires pass { pass.note ≡ self.now.note }
        requires free { is_carrying pen.old ≡ false }
        ensures taken { pen.new ≡ carrying pass pen.old }
        ensures fits { FitsPen pen.old pass }
        ensures facts { IsPenAt pen.new }
    {
        let Pass { seat } = pass;
        self.table.shared.join_seat::<TakeIn>(&mut pen.seat, seat);
        // The join tells nothing of what the rule knows. This look does.
        self.table.shared.load::<Look>(&mut pen.seat, 0);
        pen.carries = true;
    }

    /// Adds a line to the end of the list, entered with this number. It is the carried pass's own if that has the number. Otherwise the
    /// pen owes it to the number, until the number's pass is handed out. A line that is kept for the number has to be this one, and is
    /// kept no longer.
    pub fn write(&self, pen: &mut Pen<St>, number: u32, step: &Step)
        requires note { pen.old.note ≡ self.now.note }
        requires issued { IsIssued pen.old.noted number }
        requires line { MayEnter number step.now.line pen.old }
        requires room { length pen.old.lines < 2 ^ 64 - 1 }
        ensures written { pen.new ≡ writing number step.now pen.old }
    {
        let shared = &self.table.shared;
        say(shared, &mut pen.seat, u64::from(number), 0);
        let count = shared.load::<Look>(&mut pen.seat, 0);
        shared.compare_exchange_with::<WriteLine>(&mut pen.seat, 0, count, count + 1, step);
    }

    /// Leaves a line with the pen, which keeps it for the carried pass's number until a line is written with that number. No line is
    /// added to the list.
    pub fn leave(&self, pen: &mut Pen<St>, line: &LineText)
        requires note { pen.old.note ≡ self.now.note }
        requires carries { is_carrying pen.old ≡ true }
        requires free { carried_line pen.old ≡ None }
        ensures left { pen.new ≡ leaving line.now pen.old }
    {
        leave_line::<St, Brand>(&self.table.shared, &mut pen.seat, line);
    }

    /// Hands out the carried pass, which has now seen the whole list, knows all of its own lines there, and has left the line that the
    /// pen keeps for its number. If there is no memory for it, the pen still carries it.
    pub fn hand_out(&self, pen: &mut Pen<St>) -> Result<Pass<St>, AllocError>
        requires note { pen.old.note ≡ self.now.note }
        requires carries { is_carrying pen.old ≡ true }
        ensures pen { OnOk result (pen.new ≡ handing pen.old) }
        ensures pass { IfOk result (IsHanded pen.old) }
        ensures mine { IfOk result (λ p. p.mine ≡ places p.number p.seen) }

        ensures failed { OnErr result (pen.new ≡ pen.old) }
    {
        let seat = self.table.shared.split_seat::<HandOut>(&mut pen.seat);
        pen.carries = false;
        Ok(Pass { seat })
    }

    /// How long the list is, which is at least what the pass has seen of it. The pass learns nothing.
    pub fn load(&self, pass: &mut Pass<St>) -> u64
        requires note { pass.old.note ≡ self.now.note }
        ensures long { length pass.old.seen ≤ result }
        ensures same { pass.new ≡ pass.old }
    {
        self.table.shared.load::<Look>(&mut pass.seat, 0)
    }
}

impl<St: Store> Pen<St> {
    /// Tells whether the pen carries a pass. It does from a `take_in` to the next `hand_out` that is `Ok`.
    pub fn carries(&self) -> bool
        ensures carries { result ≡ is_carrying self.now }
        ensures facts { IsPenAt self.now }
    {
        self.carries
    }
}

// The pen says a number and a session, which a later step then takes. A step that changes a seat's view from itself alone has no
// argument but the word's value, so the pen puts a number there in place of itself.
fn say<St: Store>(
    shared: &Shared<Step, View<St>, St, Law>,
    seat: &mut Seat<Step, View<St>>,
    number: u64,
    session: u64,
)
    requires table { (seat.old.table_id ≡ shared.now.table_id)
        × (shared.now.table_id.words ≡ 1) }
    requires pen { PenIs seat.old.me.0 }
    ensures same { (seat.new.table_id ≡ seat.old.table_id) × (seat.new.id ≡ seat.old.id) }
    ensures said { seat.new.me ≡ (with_pen (says number session) seat.old.me.0, seat.old.me.1) }
{
    shared.compare_exchange::<SayNumber>(seat, 0, number, number);
    shared.compare_exchange::<SaySession>(seat, 0, session, session);
}

// The pen keeps a line, which L names, for the number of the pass that it carries. The word is as before.
fn leave_line<St: Store, L: Leaving>(
    shared: &Shared<Step, View<St>, St, Law>,
    seat: &mut Seat<Step, View<St>>,
    line: &LineText,
)
    requires table { (seat.old.table_id ≡ shared.now.table_id)
        × (shared.now.table_id.words ≡ 1) }
    requires pen { Carries seat.old.me.0 }
    requires line { line.now ≡ L.line }
    ensures same { (seat.new.table_id ≡ seat.old.table_id) × (seat.new.id ≡ seat.old.id) }
    ensures left { seat.new.me ≡ (with_pen (leaves line.now) seat.old.me.0, seat.old.me.1) }
{
    let _ = line;
    shared.compare_exchange::<LeaveLine<L>>(seat, 0, 0, 0);
}
