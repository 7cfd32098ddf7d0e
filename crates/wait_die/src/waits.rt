//! The table of waits.
ghost use Rattle.std.specs.Prelude.{◌≡◌, ℕ, [], false, IfOk, OnOk, OnErr};
ghost use Rattle.wait_die.specs.Waiting.{IsAdmitted, is_open, is_waiting, admitting, started, ended};
ghost use Rattle.wait_die.specs.Turns.{turn_of, after_turn};
ghost use Rattle.wait_die.specs.Kept.{IsKept, HasNoCircle};

use crate::grant::{Grant, Waiting, add_wants, drop_waits, drop_wants};
use crate::loss::{Loss, holder_of, loss_of};
use crate::sessions::{drop_session, reserve_for};
use crate::want::{WaitLock, Wants};
use std::alloc::{AllocError, Global};
use std::marker::Model;

/// What a session that asks for wants is told.
#[derive(Clone, Copy)]
pub enum Turn {
    /// No other session has a conflicting want. If the session has an open transaction, it has these
    /// wants until that ends.
    Granted,
    /// The session is to ask again when the transaction of session `on`, a younger one, has ended.
    Wait { on: u32 },
    /// The older session `by` has a want that conflicts with the asker's on this lock.
    Lost { lock: WaitLock, by: u32 },
}

/// A table of waits is the open transactions by age, the wants that are granted to them, and who waits
/// on whom. An older transaction waits on a younger one, and a younger one never waits.
#[derive(Drop)]
pub struct Waits {
    begun: Vec<u32>,
    grants: Vec<Grant>,
    waits: Vec<Waiting>,
    admitted: Vec<u32>,
}

impl Model for Waits {
    ghost use Rattle.std.specs.Prelude.{vec_capacity};
    ghost use Rattle.wait_die.specs.Waiting.{WaitTable};
    ghost use Rattle.wait_die.specs.Kept.{HasRoom};

    ghost Value = { WaitTable };

    ghost view = { λ w. record { begun = w.begun.items; grants = w.grants.items; waits = w.waits.items; admitted = w.admitted.items } };

    ghost invariant = { λ w. HasRoom (record { begun = w.begun.items; grants = w.grants.items; waits = w.waits.items; admitted = w.admitted.items }) (vec_capacity w.begun) };
}

impl Waits {
    /// A table without sessions.
    pub fn new(alloc: Global) -> Result<Waits, AllocError>
        ensures begun { IfOk result (λ w. w.begun ≡ []) }
        ensures grants { IfOk result (λ w. w.grants ≡ []) }
        ensures waits { IfOk result (λ w. w.waits ≡ []) }
        ensures admitted { IfOk result (λ w. w.admitted ≡ []) }
    {
        Ok(Waits {
            begun: Vec::new(alloc),
            grants: Vec::new(alloc),
            waits: Vec::new(alloc),
            admitted: Vec::new(alloc),
        })
    }

    /// Makes room for the transaction of a session. A session stays admitted for good, and may be
    /// admitted again.
    pub fn admit(&mut self, session: u32) -> Result<(), AllocError>
        ensures ok { OnOk result (self.new ≡ admitting self.old session) }
        ensures admitted { OnOk result (IsAdmitted self.new session) }
        ensures others { (other : ℕ) → IsAdmitted self.old other → IsAdmitted self.new other }
        ensures err { OnErr result (self.new ≡ self.old) }
    {
        if self.admitted.contains(&session) {
            return Ok(());
        }
        reserve_for(&mut self.begun, self.admitted.len() + 1)?;
        self.admitted.push(session)?;
        Ok(())
    }

    /// Begins the transaction of a session, as the youngest one. It takes no memory.
    pub fn start(&mut self, session: u32)
        requires admitted { IsAdmitted self.old session }
        requires none { is_open self.old session ≡ false }
        ensures { self.new ≡ started self.old session }
    {
        self.begun.push_reserved(session);
    }

    /// Grants a session all of the wants, or tells it to wait for a younger transaction, or that it
    /// lost to an older one. It never waits itself. A want that one of the session's own includes isn't
    /// kept again, so a transaction takes memory for each lock that it names, and not for each line. The
    /// time goes with the number of wants asked for, times that of all granted ones.
    pub fn ask(&mut self, session: u32, wants: &Wants) -> Result<Turn, AllocError>
        requires admitted { IsAdmitted self.old session }
        requires ready { is_waiting self.old session ≡ false }
        ensures turn { IfOk result (λ turn. turn ≡ turn_of self.old session wants.now) }
        ensures left { IfOk result (λ turn. self.new ≡ after_turn self.old session wants.now turn) }
        ensures err { OnErr result (self.new ≡ self.old) }
    {
        let asked = wants.as_slice();
        match loss_of(&self.begun, session, asked, &self.grants) {
            Some(Loss { lock, by }) => Ok(Turn::Lost { lock, by }),
            None => match holder_of(session, asked, &self.grants) {
                Some(on) => self.wait(session, wants, on),
                None => self.grant(session, wants),
            },
        }
    }

    /// Ends the transaction of a session, if it has one: with it go its wants, its own wait and every
    /// wait on it. It takes no memory.
    pub fn end(&mut self, session: u32)
        ensures { self.new ≡ ended self.old session }
    {
        drop_session(&mut self.begun, session);
        drop_wants(&mut self.grants, session);
        drop_waits(&mut self.waits, session);
    }

    /// Has the session an open transaction?
    pub fn is_open(&self, session: u32) -> bool
        ensures { result ≡ is_open self.now session }
    {
        self.begun.contains(&session)
    }

    /// Does the session wait?
    pub fn is_waiting(&self, session: u32) -> bool
        ensures { result ≡ is_waiting self.now session }
    {
        self.waits.iter().any(|waiting| waiting.waiter == session)
    }

    // Grants wants that nobody's conflict with.
    fn grant(&mut self, session: u32, wants: &Wants) -> Result<Turn, AllocError>
        ensures turn { IfOk result (λ turn. turn ≡ Turn.Granted) }
        ensures left { IfOk result (λ turn. self.new ≡ after_turn self.old session wants.now turn) }
        ensures err { OnErr result (self.new ≡ self.old) }
    {
        if self.begun.contains(&session) {
            let asked = wants.as_slice();
            self.grants.reserve(asked.len())?;
            add_wants(&mut self.grants, session, asked);
        }
        Ok(Turn::Granted)
    }

    // Lets a session wait for a younger one.
    fn wait(&mut self, session: u32, wants: &Wants, on: u32) -> Result<Turn, AllocError>
        requires { turn_of self.old session wants.now ≡ Turn.Wait on }
        ensures turn { IfOk result (λ turn. turn ≡ Turn.Wait on) }
        ensures left { IfOk result (λ turn. self.new ≡ after_turn self.old session wants.now turn) }
        ensures err { OnErr result (self.new ≡ self.old) }
    {
        let waiting = Waiting {
            waiter: session,
            wants: wants.duplicate()?,
            on,
        };
        self.waits.push(waiting)?;
        Ok(Turn::Wait { on })
    }

    /// It does nothing. Its clauses are what every table keeps, for callers' proofs.
    pub fn keeps(&self)
        ensures kept { IsKept self.now }
        ensures no_circle { HasNoCircle self.now }
    {
        let _ = &self.begun;
    }
}
