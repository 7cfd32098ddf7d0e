// The rule of the note, and what its steps tell.
use crate::view::View;
use atomic_table::{Join, Play, Split, TableRule};
use db_value::Step;
use std::marker::{Brand, PhantomData};

/// The rule of every note.
pub struct Law;

impl<St> TableRule<Step, View<St>, St> for Law {
    ghost use Rattle.history_note.specs.declared.view.View.TheVariants.{OfPen};
    ghost use Rattle.history_note.specs.Views.{first_pen};
    ghost use Rattle.history_note.specs.Rule.{Kept};

    ghost holds = { Kept };

    ghost first = { λ o. OfPen (first_pen o) };
}

/// A pen or a pass loads the word.
pub struct Look;

impl<St> Play<Step, View<St>> for Look {
    ghost use Rattle.history_note.specs.Rule.{looked};

    ghost then = { looked };
}

/// The pen says a number, and changes nothing else.
pub struct SayNumber;

impl<St> Play<Step, View<St>> for SayNumber {
    ghost use Rattle.history_note.specs.Rule.{said_number};

    ghost then = { said_number };
}

/// The pen says a session, and changes nothing else.
pub struct SaySession;

impl<St> Play<Step, View<St>> for SaySession {
    ghost use Rattle.history_note.specs.Rule.{said_session};

    ghost then = { said_session };
}

/// The pen writes a line with the number that it said.
pub struct WriteLine;

impl<St> Play<Step, View<St>> for WriteLine {
    ghost use Rattle.history_note.specs.Rule.{wrote};

    ghost then = { wrote };
}

/// The line that a step leaves. A step that takes no line of its own has it from the type, and each call picks it.
pub trait Leaving {
    ghost use Rattle.std.specs.Prelude.{ℕ, List};

    ghost line: { List ℕ };
}

impl Leaving for Brand {
    ghost use Rattle.std.specs.Prelude.{[]};

    ghost line = { [] };
}

/// The pen keeps a line for the number of the pass that it carries.
pub struct LeaveLine<L: Leaving> {
    of: PhantomData<L>,
}

impl<St, L: Leaving> Play<Step, View<St>> for LeaveLine<L> {
    ghost use Rattle.history_note.specs.Rule.{left_line};

    ghost then = { left_line L.line };
}

/// The pen issues a pass with the number and the session that it said.
pub struct Issue;

impl<St> Split<View<St>> for Issue {
    ghost use Rattle.history_note.specs.Views.{noting_view, issued_view};

    ghost left = { noting_view };

    ghost right = { issued_view };
}

/// The pen hands out the pass that it carries.
pub struct HandOut;

impl<St> Split<View<St>> for HandOut {
    ghost use Rattle.history_note.specs.Views.{handing_view, handed_view};

    ghost left = { handing_view };

    ghost right = { handed_view };
}

/// The pen takes a pass in.
pub struct TakeIn;

impl<St> Join<View<St>> for TakeIn {
    ghost use Rattle.history_note.specs.declared.view.View.TheVariants.{Spent};
    ghost use Rattle.history_note.specs.Views.{taking_view};

    ghost both = { taking_view };

    ghost spent = { Spent };
}
