//! Which statements a granted transaction answers by itself.
ghost use Rattle.std.specs.Prelude.{◌≡◌};

use crate::Tx;
use db_store::Store;
use db_value::{Name, VersionName};
use line_needs::{Known, know};
use stmt_text::{ScanOver, Stmt};

impl<St: Store> Tx<St> {
    ghost use Rattle.std.specs.Prelude.{is_some};
    ghost use Rattle.std.specs.Prelude.{◌&&◌};
    ghost use Rattle.std.specs.List.{list_all};
    ghost use Rattle.db_store.specs.Found.{plain};
    ghost use Rattle.branch_tx.specs.Covers.{holds_alone, has_version, has_at, has_heads, has_over, is_granted, covers};
    ghost use Rattle.branch_tx.specs.Granted.{known_in};

    /// What it knows of a statement, before any lock is looked at. It takes no memory.
    pub fn knows(&self, stmt: &Stmt) -> Known
        ensures { result ≡ known_in self.now stmt.now }
    {
        know(&self.schema, true, self.has_done(), stmt)
    }

    /// Is its branch granted?
    pub fn is_held(&self) -> bool
        ensures { result ≡ is_some self.now.held }
    {
        self.held.is_some()
    }

    /// Is its branch granted exclusively?
    pub fn holds_alone(&self) -> bool
        ensures { result ≡ holds_alone self.now.held }
    {
        match self.held {
            None => false,
            Some(held) => held.exclusive,
        }
    }

    /// Is the version with a name granted: lent, or as the plain name of its branch?
    pub fn has_version(&self, version: &VersionName) -> bool
        ensures { result ≡ has_version self.now version.now }
    {
        if self.is_current(version) {
            return self.is_held();
        }
        self.has_lent(version)
    }

    fn has_at(&self, at: &Option<VersionName>) -> bool
        ensures { result ≡ has_at self.now at.now }
    {
        match at {
            None => self.is_held(),
            Some(version) => self.has_version(version),
        }
    }

    fn has_both(&self, first: &VersionName, second: &VersionName) -> bool
        ensures { result ≡ (has_version self.now first.now && has_version self.now second.now) }
    {
        self.has_version(first) && self.has_version(second)
    }

    fn has_all(&self, names: &[VersionName]) -> bool
        ensures { result ≡ list_all (has_version self.now) names.now }
    {
        names.iter().all(|name| self.has_version(name))
    }

    fn has_head(&self, name: &Name) -> bool
        ensures { result ≡ has_version self.now (plain name.now) }
    {
        self.has_version(&VersionName {
            branch: *name,
            position: None,
        })
    }

    fn has_each(&self, names: &[Name]) -> bool
        ensures { result ≡ list_all (λ name. has_version self.now (plain name)) names.now }
    {
        names.iter().all(|name| self.has_head(name))
    }

    // Was the list of all branches noted, and is each of them there?
    fn has_heads(&self) -> bool
        ensures { result ≡ has_heads self.now self.now.heads }
    {
        match &self.heads {
            None => false,
            Some(names) => self.has_each(names.as_slice()),
        }
    }

    fn has_over(&self, over: &ScanOver) -> bool
        ensures { result ≡ has_over self.now over.now }
    {
        match over {
            ScanOver::Current => self.is_held(),
            ScanOver::Named { names } => self.has_all(names.as_slice()),
            ScanOver::Heads => self.has_heads(),
        }
    }

    // Is all granted that the statement reads or changes?
    fn is_granted(&self, stmt: &Stmt) -> bool
        ensures { result ≡ is_granted self.now stmt.now }
    {
        match stmt {
            Stmt::Insert { .. } => self.holds_alone(),
            Stmt::Update { .. } => self.holds_alone(),
            Stmt::Delete { .. } => self.holds_alone(),
            Stmt::Get { at, .. } => self.has_at(at),
            Stmt::Scan { over, .. } => self.has_over(over),
            Stmt::Join { first, second, .. } => self.has_both(first, second),
            Stmt::Minus { first, second, .. } => self.has_both(first, second),
            _ => false,
        }
    }

    /// Does it answer a statement by itself, of which it knows this? It does exactly where the statement
    /// is refused early, or where the branch and each version that the statement needs are granted. It
    /// takes no memory.
    pub fn covers(&self, stmt: &Stmt, known: &Known) -> bool
        requires known { known.now ≡ known_in self.now stmt.now }
        ensures { result ≡ covers self.now stmt.now }
    {
        if known.is_refused() {
            return true;
        }
        self.is_granted(stmt)
    }
}
