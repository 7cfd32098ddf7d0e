//! Questions of a granted transaction to versions.
ghost use Rattle.std.specs.Prelude.{◌≡◌, [], ℕ, List, None, Some, length, map, IfOk};
ghost use Rattle.branch_tx.specs.Keeping.{over_table};
ghost use Rattle.branch_tx.specs.Granted.{tx_in, acted, known_in};

use crate::Tx;
use crate::apart::are_apart;
use crate::ask::{condition, join_rows, list_rows, minus_rows, plain_names, scan_rows};
use crate::refuse::{refused, refused_by};
use db_store::{Seen, Store, Work};
use db_value::{Pred, Refusal, Reply, SharedList, Terms, VersionName, VersionNames};
use line_needs::Known;
use std::alloc::AllocError;
use stmt_text::{ScanOver, Stmt};

impl<St: Store> Tx<St> {
    ghost use Rattle.std.specs.Prelude.{◌<◌, IfNone, IfSome};
    ghost use Rattle.std.specs.List.{All};
    ghost use Rattle.db_value.specs.Pred.{pred_holds, condition_stop};
    ghost use Rattle.db_value.specs.Condition.{holds};
    ghost use Rattle.db_value.specs.Relations.{columns_at, widths_at};
    ghost use Rattle.db_store.specs.SeenState.{seen_table};
    ghost use Rattle.db_store.specs.Found.{plain};
    ghost use Rattle.branch_tx.specs.Found.{lacking, first_lacking};
    ghost use Rattle.branch_tx.specs.Act.{scan_versions};
    ghost use Rattle.branch_tx.specs.SeenFrom.{IsWorkOf, IsFrom, AreFrom};
    ghost use Rattle.branch_tx.specs.Granted.{source_in, names_or_none, table_from, scanned, joined, told_apart};

    // Its working table.
    fn working(&self) -> &Work<St::View>
        ensures { IsWorkOf self.now result.now }
    {
        &self.work
    }

    // What it sees under a name: its working table, or a version that was lent.
    #[tactic(auto, using(db_store::proofs::OverlayLemmas::length_laid))]
    fn see<'a>(
        &'a self,
        work: &'a Work<St::View>,
        version: &VersionName,
    ) -> Option<Seen<'a, St::View>>
        requires { IsWorkOf self.now work.now }
        ensures none { IfNone result (lacking (source_in self.now version.now)
            ≡ Some Refusal.Line) }
        ensures some { IfSome result (λ s. lacking (source_in self.now version.now) ≡ None) }
        ensures table { IfSome result (λ s.
            seen_table s ≡ table_from self.now (source_in self.now version.now)) }
        ensures wide { IfSome result (λ s. length (seen_table s) ≡ length self.now.schema) }
        ensures from { IfSome result (λ s. IsFrom self.now work.now s) }
    {
        if self.is_current(version) {
            return Some(Seen::Own { work });
        }
        match self.lent.find(version) {
            None => None,
            Some(view) => Some(Seen::Kept { view }),
        }
    }

    // What it sees under several names; none where one of them wasn't lent.
    fn see_all<'a>(
        &'a self,
        names: &[VersionName],
    ) -> Result<Option<Vec<Seen<'a, St::View>>>, AllocError>
        ensures none { IfOk result (λ o.
            IfNone o (first_lacking (map (source_in self.now) names.now) ≡ Some Refusal.Line)) }
        ensures some { IfOk result (λ o.
            IfSome o (λ v. first_lacking (map (source_in self.now) names.now) ≡ None)) }
        ensures tables { IfOk result (λ o. IfSome o (λ v. map seen_table v.items ≡ map (λ n.
            table_from self.now (source_in self.now n)) names.now)) }
        ensures wide { IfOk result (λ o.
            IfSome o (λ v. All (λ s. length (seen_table s) ≡ length self.now.schema) v.items)) }
        ensures from { IfOk result (λ o. IfSome o (λ v. AreFrom self.now v.items)) }
    {
        let work = self.working();
        let mut all = Vec::new(*self.lent.allocator());
        for name in names {
            match self.see(work, name) {
                None => return Ok(None),
                Some(seen) => all.push(seen)?,
            }
        }
        Ok(Some(all))
    }

    // A condition on a relation that has its columns, of the kinds of their values.
    fn condition(&self, relation: u8, terms: &Terms) -> Result<Pred, AllocError>
        requires relation { relation < length self.now.schema }
        requires asked { condition_stop (columns_at self.now.schema relation)
            (widths_at self.now.schema relation) terms.now ≡ None }
        ensures { IfOk result
            (λ p. pred_holds p ≡ holds (columns_at self.now.schema relation) terms.now) }
    {
        condition(*self.lent.allocator(), &self.schema, relation, terms)
    }

    // The names of a question that names no version.
    fn no_names(&self) -> Result<VersionNames, AllocError>
        ensures { IfOk result (λ names. names ≡ []) }
    {
        let alloc = *self.lent.allocator();
        let names = SharedList::of(alloc, Vec::new(alloc))?;
        Ok(names)
    }

    // The names of all branches, as versions.
    fn head_names(&self) -> Result<VersionNames, AllocError>
        ensures { IfOk result (λ names. names ≡ map plain (names_or_none self.now.heads)) }
    {
        let alloc = *self.lent.allocator();
        match &self.heads {
            None => self.no_names(),
            Some(heads) => plain_names(alloc, heads.as_slice()),
        }
    }

    // The rows of several versions, each with the versions that have it.
    fn scan_versions(
        &self,
        relation: u8,
        pred: &Pred,
        names: VersionNames,
    ) -> Result<Reply, AllocError>
        requires { relation < length self.now.schema }
        ensures { IfOk result (λ r. r ≡ (scan_versions (over_table self.now.head)
            (source_in self.now) (tx_in self.now) relation (pred_holds pred.now) names).reply) }
    {
        match self.see_all(names.as_slice())? {
            None => Ok(refused(Refusal::Line)),
            Some(views) => {
                if !are_apart(&views, relation) {
                    return Err(AllocError);
                }
                let rows = scan_rows(*self.lent.allocator(), &views, relation, pred)?;
                Ok(Reply::Listed { names, rows })
            }
        }
    }

    // The rows of the working table.
    #[tactic(auto, using(db_store::proofs::OverlayLemmas::length_laid))]
    fn scan_own(&self, relation: u8, pred: &Pred) -> Result<Reply, AllocError>
        requires { relation < length self.now.schema }
        ensures { IfOk result (λ r.
            r ≡ (scanned self.now relation (pred_holds pred.now) ScanOver.Current).reply) }
    {
        let rows = list_rows(*self.lent.allocator(), &self.work, relation, pred)?;
        let names = self.no_names()?;
        Ok(Reply::Listed { names, rows })
    }

    fn scan_over(&self, relation: u8, pred: &Pred, over: &ScanOver) -> Result<Reply, AllocError>
        requires { relation < length self.now.schema }
        ensures { IfOk result (λ r.
            r ≡ (scanned self.now relation (pred_holds pred.now) over.now).reply) }
    {
        match over {
            ScanOver::Current => self.scan_own(relation, pred),
            ScanOver::Named { names } => {
                let names = names.share()?;
                self.scan_versions(relation, pred, names)
            }
            ScanOver::Heads => {
                let names = self.head_names()?;
                self.scan_versions(relation, pred, names)
            }
        }
    }

    // The rows of whichever relation is known.
    pub(crate) fn scan(
        &self,
        known: &Known,
        over: &ScanOver,
        terms: &Terms,
    ) -> Result<Reply, AllocError>
        requires { (name : List ℕ)
            × (known.now ≡ known_in self.now (Stmt.Scan name over.now terms.now)) }
        ensures { IfOk result (λ r. (name : List ℕ)
            → known.now ≡ known_in self.now (Stmt.Scan name over.now terms.now)
            → r ≡ (acted self.now (Stmt.Scan name over.now terms.now)).reply) }
    {
        let Known::Of { relation } = known else {
            return Ok(refused_by(known));
        };
        let pred = self.condition(*relation, terms)?;
        let reply = self.scan_over(*relation, &pred, over)?;
        Ok(reply)
    }

    // The rows of relation r of one version beside those with their keys of relation s of another.
    fn join_in(
        &self,
        r: u8,
        s: u8,
        first: &VersionName,
        second: &VersionName,
        pred: &Pred,
    ) -> Result<Reply, AllocError>
        requires left { r < length self.now.schema }
        requires right { s < length self.now.schema }
        ensures { IfOk result (λ p.
            p ≡ (joined self.now r s first.now second.now (pred_holds pred.now)).reply) }
    {
        let Some(left) = self.see(self.working(), first) else {
            return Ok(refused(Refusal::Line));
        };
        let Some(right) = self.see(self.working(), second) else {
            return Ok(refused(Refusal::Line));
        };
        let pairs = join_rows(*self.lent.allocator(), &left, r, pred, &right, s)?;
        Ok(Reply::Paired { pairs })
    }

    // The rows of whichever relations are known.
    pub(crate) fn join(
        &self,
        known: &Known,
        first: &VersionName,
        second: &VersionName,
        terms: &Terms,
    ) -> Result<Reply, AllocError>
        requires { (left : List ℕ) × (right : List ℕ) × (known.now
            ≡ known_in self.now (Stmt.Join left right first.now second.now terms.now)) }
        ensures { IfOk result (λ r. (left right : List ℕ)
            → known.now ≡ known_in self.now (Stmt.Join left right first.now second.now terms.now)
            → r ≡ (acted self.now (Stmt.Join left right first.now second.now terms.now)).reply) }
    {
        let Known::Both { left, right } = known else {
            return Ok(refused_by(known));
        };
        let pred = self.condition(*left, terms)?;
        let reply = self.join_in(*left, *right, first, second, &pred)?;
        Ok(reply)
    }

    // The rows of a version that another one lacks or has changed.
    fn minus_in(
        &self,
        relation: u8,
        first: &VersionName,
        second: &VersionName,
    ) -> Result<Reply, AllocError>
        requires { relation < length self.now.schema }
        ensures { IfOk result (λ r. r ≡ (told_apart self.now relation first.now second.now).reply) }
    {
        let Some(left) = self.see(self.working(), first) else {
            return Ok(refused(Refusal::Line));
        };
        let Some(right) = self.see(self.working(), second) else {
            return Ok(refused(Refusal::Line));
        };
        let rows = minus_rows(*self.lent.allocator(), &left, &right, relation)?;
        let names = self.no_names()?;
        Ok(Reply::Listed { names, rows })
    }

    // The same of whichever relation is known.
    pub(crate) fn minus(
        &self,
        known: &Known,
        first: &VersionName,
        second: &VersionName,
    ) -> Result<Reply, AllocError>
        requires { (name : List ℕ)
            × (known.now ≡ known_in self.now (Stmt.Minus name first.now second.now)) }
        ensures { IfOk result (λ r. (name : List ℕ)
            → known.now ≡ known_in self.now (Stmt.Minus name first.now second.now)
            → r ≡ (acted self.now (Stmt.Minus name first.now second.now)).reply) }
    {
        let Known::Of { relation } = known else {
            return Ok(refused_by(known));
        };
        let reply = self.minus_in(*relation, first, second)?;
        Ok(reply)
    }
}
