//! A granted transaction.
ghost use Rattle.std.specs.Prelude.{◌≡◌, ◌++◌, ◌∷◌, [], None, Some, length, IfOk, OnOk, OnErr};
ghost use Rattle.db_store.specs.Body.{IsShortIf};
ghost use Rattle.db_store.specs.Overlay.{laid, untouched};
ghost use Rattle.db_store.specs.Parts.{IsViewable};
ghost use Rattle.db_store.specs.RowWidths.{all_widths};
ghost use Rattle.db_store.specs.WorkState.{under_of, overlays_of, room_of, widths_of, second_of};
ghost use Rattle.branch_tx.specs.Keeping.{over_table};
ghost use Rattle.branch_tx.specs.Alone.{commit_entry};
ghost use Rattle.branch_tx.specs.Granted.{ungranted, tx_in, has_done, lent_table, views_of};
ghost use Rattle.branch_tx.specs.Shown.{parts_by, ViewsAgree};

use crate::lent::Lending;
use db_store::{Store, View, Work};
use db_value::{Entry, Name, Names, Schema, VersionName};
use std::alloc::{AllocError, Global};
use std::marker::Model;

/// How the branch that a transaction works on was granted.
#[derive(Clone, Copy)]
pub(crate) struct Held {
    pub(crate) exclusive: bool,
    pub(crate) full: bool,
}

/// What a transaction held and was lent at some time.
#[derive(Drop)]
pub struct Mark {
    held: Option<Held>,
    lent: usize,
    noted: bool,
}

impl Model for Mark {
    ghost use Rattle.std.specs.Prelude.{ℕ, Bool, Option};
    ghost use Rattle.branch_tx.specs.TxState.{held_of};

    ghost Value = { Option (Bool × Bool) × (ℕ × Bool) };

    ghost view = { λ m. (held_of m.held, (m.lent, m.noted)) };
}

/// A granted transaction: its working table, the views that were lent to it, and how its branch is
/// held. It answers by itself, and looks at no store.
#[derive(Drop)]
pub struct Tx<St: Store> {
    pub(crate) schema: Schema,
    pub(crate) current: Name,
    pub(crate) work: Work<St::View>,
    pub(crate) held: Option<Held>,
    pub(crate) lent: Lending<St::View>,
    pub(crate) heads: Option<Names>,
}

impl<St: Store> Model for Tx<St> {
    ghost use Rattle.std.specs.Prelude.{◌≡◌, ◌∷◌, length, map};
    ghost use Rattle.db_store.specs.Overlay.{laid};
    ghost use Rattle.db_store.specs.RowWidths.{all_widths};
    ghost use Rattle.db_store.specs.WorkState.{under_of, overlays_of, room_of, widths_of, second_of};
    ghost use Rattle.branch_tx.specs.Granted.{Granted, granted_code};
    ghost use Rattle.branch_tx.specs.Shown.{parts_by, ViewsAgree};
    ghost use Rattle.branch_tx.specs.TxState.{held_of, AllWide, AreMet};

    ghost Value = { Granted };

    ghost coded = { granted_code };

    ghost view = { λ t. record {
      schema = t.schema;
      name = t.current;
      held = held_of t.held;
      head = St.View.table (under_of t.work);
      overlays = overlays_of t.work;
      room = room_of t.work;
      second = second_of t.work;
      lent = t.lent.0;
      below = parts_by (St.View.parts_of (under_of t.work));
      shown = t.lent.1;
      heads = t.heads;
    } };

    ghost invariant = { λ t. (length (St.View.table (under_of t.work)) ≡ length t.schema) × AllWide (length t.schema) (map (λ l. l.1) t.lent.0) × ViewsAgree (parts_by (St.View.parts_of (under_of t.work)) ∷ t.lent.1) × (widths_of t.work ≡ all_widths t.schema) × AreMet t.schema (laid (St.View.table (under_of t.work)) (overlays_of t.work)) };
}

impl<St: Store> Tx<St> {
    ghost use Rattle.std.specs.Prelude.{is_some, cond};
    ghost use Rattle.branch_tx.specs.Granted.{ground_in, back_at, is_current};
    ghost use Rattle.branch_tx.specs.TxState.{AreMet};

    /// A transaction on the branch of this name, to which nothing is granted yet. The working table
    /// keeps the widths of the schema, and each row of it meets them.
    pub fn over(
        alloc: Global,
        schema: &Schema,
        work: Work<St::View>,
        current: Name,
    ) -> Result<Tx<St>, AllocError>
        requires wide { length (St.View.table (under_of work)) ≡ length schema.now }
        requires agree { ViewsAgree (parts_by (St.View.parts_of (under_of work)) ∷ []) }
        requires widths { widths_of work ≡ all_widths schema.now }
        requires unmerged { second_of work ≡ None }
        requires met { AreMet schema.now (laid (St.View.table (under_of work))
            (overlays_of work)) }
        ensures { IfOk result (λ t. t ≡ ungranted schema.now current (St.View.table (under_of work))
            (parts_by (St.View.parts_of (under_of work))) (overlays_of work) (room_of work)) }
    {
        let schema = schema.duplicate()?;
        let lent = Lending::new(alloc);
        Ok(Tx {
            schema,
            current,
            work,
            held: None,
            lent,
            heads: None,
        })
    }

    /// Puts the granted head of its branch under the working table, before anything is touched. It
    /// takes no memory.
    pub fn hold(&mut self, view: St::View, exclusive: bool, full: bool)
        requires untouched { self.old.overlays ≡ untouched }
        requires viewable { IsViewable (St.View.table view) (St.View.parts_of view) }
        requires wide { length (St.View.table view) ≡ length self.old.schema }
        requires agree { ViewsAgree (parts_by (St.View.parts_of view) ∷ self.old.shown) }
        requires met { AreMet self.old.schema (St.View.table view) }
        ensures { self.new ≡ record self.old {
          held = Some
              (exclusive, full);
          head = St.View.table view;
          below = parts_by (St.View.parts_of view);
        } }
    {
        self.work.rest_on(view);
        self.held = Some(Held { exclusive, full });
    }

    /// Lends it the view of a version under its name.
    pub fn lend(&mut self, name: VersionName, view: St::View) -> Result<(), AllocError>
        requires wide { length (St.View.table view) ≡ length self.old.schema }
        requires agree { ViewsAgree (views_of self.old ++ parts_by (St.View.parts_of view) ∷ []) }
        ensures ok { OnOk result (self.new ≡ record self.old {
          lent = self.old.lent
              ++ (name, St.View.table view) ∷ [];
          shown = self.old.shown
              ++ parts_by (St.View.parts_of view) ∷ [];
        }) }
        ensures err { OnErr result (self.new ≡ self.old) }
    {
        self.lent.push(name, view)?;
        Ok(())
    }

    /// Where it takes its memory.
    pub fn allocator(&self) -> Global {
        *self.lent.allocator()
    }

    // The list of all branches in the place of an earlier one.
    fn note_heads(&mut self, heads: Names)
        ensures { self.new ≡ record self.old { heads = Some heads } }
    {
        self.heads = Some(heads);
    }

    /// Notes the names of all branches, in the order made, each of them lent or the current one.
    pub fn lend_heads(&mut self, names: &Names) -> Result<(), AllocError>
        ensures ok { OnOk result (self.new ≡ record self.old { heads = Some names.now }) }
        ensures err { OnErr result (self.new ≡ self.old) }
    {
        let heads = names.duplicate()?;
        self.note_heads(heads);
        Ok(())
    }

    /// Has it changed something: touched a key, or merged?
    pub fn has_done(&self) -> bool
        ensures { result ≡ has_done self.now }
    {
        self.work.touched() > 0 || self.work.second().is_some()
    }

    /// The entry of its changes as a commit on a branch, if there are any or it merged.
    pub fn entry(&self, branch: u32) -> Result<Option<Entry>, AllocError>
        ensures entry { IfOk result (λ e.
            e ≡ commit_entry (over_table self.now.head) self.now.schema branch (tx_in self.now)) }
        ensures short { IfOk result (λ e. IsShortIf e) }
    {
        if !self.has_done() {
            return Ok(None);
        }
        let changes = self.work.changes()?;
        Ok(Some(Entry::Commit {
            branch,
            second: self.work.second(),
            changes,
        }))
    }

    /// What it holds and was lent.
    pub fn mark(&self) -> Mark
        ensures { result ≡ (self.now.held, (length self.now.lent, is_some self.now.heads)) }
    {
        Mark {
            held: self.held,
            lent: self.lent.len(),
            noted: self.heads.is_some(),
        }
    }

    // Forgets the list of all branches, unless it was noted before.
    fn forget_heads(&mut self, noted: bool)
        ensures { self.new ≡ record self.old { heads = cond noted self.old.heads None } }
    {
        if !noted {
            self.heads = None;
        }
    }

    /// Takes back what it was granted since a mark. It takes no memory.
    pub fn back_to(&mut self, mark: Mark)
        ensures { self.new ≡ back_at self.old mark }
    {
        self.forget_heads(mark.noted);
        self.held = mark.held;
        self.lent.keep_first(mark.lent);
    }

    // Has its branch as many versions as it can have?
    pub(crate) fn is_full(&self) -> bool
        ensures { result ≡ (ground_in self.now).full }
    {
        match self.held {
            None => false,
            Some(held) => held.full,
        }
    }

    /// Is it the plain name of its branch?
    pub fn is_current(&self, version: &VersionName) -> bool
        ensures { result ≡ is_current self.now version.now }
    {
        version.branch == self.current && version.position.is_none()
    }

    /// Was a version lent to it under this name?
    pub fn has_lent(&self, version: &VersionName) -> bool
        ensures { result ≡ is_some (lent_table self.now.lent version.now) }
    {
        self.lent.has(version)
    }
}
