//! Statements that a granted transaction answers by itself, by what is known of them.
ghost use Rattle.std.specs.Prelude.{◌≡◌, ◌<◌, ℕ, List, true, length, IfOk, OnOk, OnErr};
ghost use Rattle.branch_tx.specs.Act.{source_at};
ghost use Rattle.branch_tx.specs.Found.{Own};
ghost use Rattle.branch_tx.specs.Granted.{acted, known_in, left, lent_source, lent_table, looked_up, source_in, takes_memory, tells_far};
ghost use Rattle.branch_tx.specs.Keeping.{over_table};

use crate::Tx;
use crate::look::find_row;
use crate::refuse::{refusal_of, refused, refused_by, versions_full};
use db_store::Store;
use db_value::{KeptFields, Name, Record, Refusal, Reply, VersionName};
use line_needs::{Known, sets_of};
use std::alloc::AllocError;
use stmt_text::{NamedSets, Stmt};

// Reads a record that is kept as a key and fields.
fn read_row(key: u64, kept: &KeptFields, into: &mut Record)
    ensures { into.new ≡ record { key = key; fields = kept.now } }
{
    into.key = key;
    kept.read(&mut into.fields);
}

impl<St: Store> Tx<St> {
    // Inserts a record, whose fields meet the widths of the relation if it is known.
    fn insert(&mut self, known: &Known, name: Name, key: u64, kept: &KeptFields) -> Reply
        requires { known.now ≡ known_in self.old (Stmt.Insert name key kept.now) }
        ensures reply { result ≡ (acted self.old (Stmt.Insert name key kept.now)).reply }
        ensures left { self.new ≡ left self.old (Stmt.Insert name key kept.now) }
    {
        let Known::Of { relation } = known else {
            return refused_by(known);
        };
        if self.is_full() {
            return versions_full(self.current);
        }
        let mut row = Record::blank();
        read_row(key, kept, &mut row);
        match self.work.insert(*relation, &row) {
            Ok(()) => Reply::Done,
            Err(stop) => {
                let why = refusal_of(stop, name, key, self.work.room());
                refused(why)
            }
        }
    }

    // Gives a record new values.
    fn update(&mut self, known: &Known, name: Name, key: u64, named: &NamedSets) -> Reply
        requires { known.now ≡ known_in self.old (Stmt.Update name key named.now) }
        ensures reply { result ≡ (acted self.old (Stmt.Update name key named.now)).reply }
        ensures left { self.new ≡ left self.old (Stmt.Update name key named.now) }
    {
        let Known::With { relation, columns } = known else {
            return refused_by(known);
        };
        if self.is_full() {
            return versions_full(self.current);
        }
        let sets = sets_of(columns, named);
        match self.work.update(*relation, key, &sets) {
            Ok(()) => Reply::Done,
            Err(stop) => {
                let why = refusal_of(stop, name, key, self.work.room());
                refused(why)
            }
        }
    }

    // Takes a record away.
    fn delete(&mut self, known: &Known, name: Name, key: u64) -> Reply
        requires { known.now ≡ known_in self.old (Stmt.Delete name key) }
        ensures reply { result ≡ (acted self.old (Stmt.Delete name key)).reply }
        ensures left { self.new ≡ left self.old (Stmt.Delete name key) }
    {
        let Known::Of { relation } = known else {
            return refused_by(known);
        };
        if self.is_full() {
            return versions_full(self.current);
        }
        match self.work.delete(*relation, key) {
            Ok(()) => Reply::Done,
            Err(stop) => {
                let why = refusal_of(stop, name, key, self.work.room());
                refused(why)
            }
        }
    }

    // The record with a key in the working table.
    #[tactic(auto, using(db_store::proofs::OverlayLemmas::length_laid))]
    fn get_own(&self, relation: u8, key: u64) -> Result<Reply, AllocError>
        requires { relation < length self.now.schema }
        ensures reply { IfOk result (λ r. r ≡ (looked_up self.now relation key Own).reply) }
        ensures far { OnErr result (tells_far (looked_up self.now relation key Own).reply ≡ true) }
    {
        match find_row(self.allocator(), &self.work, relation, key) {
            Ok(row) => Ok(Reply::One { row }),
            Err(stop) => Err(stop),
        }
    }

    // The record with a key in a version that was lent.
    fn get_lent(&self, relation: u8, key: u64, version: &VersionName) -> Result<Reply, AllocError>
        requires { relation < length self.now.schema }
        ensures reply { IfOk result (λ r. r ≡ (looked_up self.now relation key
            (lent_source (lent_table self.now.lent version.now))).reply) }
        ensures far { OnErr result (tells_far (looked_up self.now relation key
            (lent_source (lent_table self.now.lent version.now))).reply ≡ true) }
    {
        match self.lent.find(version) {
            None => Ok(refused(Refusal::Line)),
            Some(view) => match find_row(self.allocator(), view, relation, key) {
                Ok(row) => Ok(Reply::One { row }),
                Err(stop) => Err(stop),
            },
        }
    }

    // The record with a key in a version that is named.
    fn get_named(&self, relation: u8, key: u64, version: &VersionName) -> Result<Reply, AllocError>
        requires { relation < length self.now.schema }
        ensures reply { IfOk result (λ r. r ≡ (looked_up self.now relation key
            (source_in self.now version.now)).reply) }
        ensures far { OnErr result (tells_far (looked_up self.now relation key
            (source_in self.now version.now)).reply ≡ true) }
    {
        if self.is_current(version) {
            return self.get_own(relation, key);
        }
        self.get_lent(relation, key, version)
    }

    // The record with a key, in a version where one is named.
    fn get_at(&self, relation: u8, key: u64, at: &Option<VersionName>) -> Result<Reply, AllocError>
        requires { relation < length self.now.schema }
        ensures reply { IfOk result (λ r. r ≡ (looked_up self.now relation key
            (source_at (over_table self.now.head) (source_in self.now) at.now)).reply) }
        ensures far { OnErr result (tells_far (looked_up self.now relation key
            (source_at (over_table self.now.head) (source_in self.now) at.now)).reply ≡ true) }
    {
        match at {
            None => self.get_own(relation, key),
            Some(version) => self.get_named(relation, key, version),
        }
    }

    // The record with a key, of whichever relation is known.
    fn get(&self, known: &Known, key: u64, at: &Option<VersionName>) -> Result<Reply, AllocError>
        requires { (name : List ℕ) × (known.now ≡ known_in self.now (Stmt.Get name key at.now)) }
        ensures reply { IfOk result (λ r. (name : List ℕ)
            → known.now ≡ known_in self.now (Stmt.Get name key at.now)
            → r ≡ (acted self.now (Stmt.Get name key at.now)).reply) }
        ensures far { OnErr result ((name : List ℕ)
            → known.now ≡ known_in self.now (Stmt.Get name key at.now)
            → tells_far (acted self.now (Stmt.Get name key at.now)).reply ≡ true) }
    {
        let Known::Of { relation } = known else {
            return Ok(refused_by(known));
        };
        self.get_at(*relation, key, at)
    }

    /// Answers a statement that it covers, by what it knows of the statement. A refused statement
    /// leaves everything as before, and so does want of memory, which only a statement has that lists
    /// rows or looks at a far record.
    #[tactic(auto, using(crate::proofs::SeenLemmas::get_left, crate::proofs::SeenLemmas::scan_left, crate::proofs::SeenLemmas::join_left, crate::proofs::SeenLemmas::minus_left))]
    pub fn act(&mut self, stmt: &Stmt, known: &Known) -> Result<Reply, AllocError>
        requires known { known.now ≡ known_in self.old stmt.now }
        ensures reply { IfOk result (λ r. r ≡ (acted self.old stmt.now).reply) }
        ensures left { OnOk result (self.new ≡ left self.old stmt.now) }
        ensures err { OnErr result (self.new ≡ self.old) }
        ensures sure { OnErr result (takes_memory self.old stmt.now ≡ true) }
    {
        match stmt {
            Stmt::Insert {
                relation,
                key,
                fields,
            } => Ok(self.insert(known, *relation, *key, fields)),
            Stmt::Update {
                relation,
                key,
                sets,
            } => Ok(self.update(known, *relation, *key, sets)),
            Stmt::Delete { relation, key } => Ok(self.delete(known, *relation, *key)),
            Stmt::Get { key, at, .. } => self.get(known, *key, at),
            Stmt::Scan { over, terms, .. } => self.scan(known, over, terms),
            Stmt::Join {
                first,
                second,
                terms,
                ..
            } => self.join(known, first, second, terms),
            Stmt::Minus { first, second, .. } => self.minus(known, first, second),
            Stmt::Begin { .. } => Ok(refused(Refusal::InTransaction)),
            Stmt::On { .. } => Ok(refused(Refusal::InTransaction)),
            Stmt::Checkpoint => Ok(refused(Refusal::InTransaction)),
            Stmt::Branch { .. } => Ok(refused(Refusal::InTransaction)),
            Stmt::Merge { .. } => Ok(refused(Refusal::NotFirst)),
            _ => Ok(refused(Refusal::Line)),
        }
    }
}
