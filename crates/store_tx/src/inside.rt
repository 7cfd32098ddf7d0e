//! Statements that are answered in an open transaction.
ghost use Rattle.std.specs.Prelude.{◌≡◌, ◌∷◌, [], true, false, IfOk, OnOk, OnErr};
ghost use Rattle.db_store.specs.State.{dataset_of};
ghost use Rattle.store_tx.specs.Ends.{is_end};
ghost use Rattle.store_tx.specs.Statements.{MayAct, MayActOrMerge, MayMergeHead, MayWork, GoesOn, acted_over, merged_over, step_in, told_on};
ghost use Rattle.branch_tx.specs.Granted.{AreAllOf, has_done};
ghost use Rattle.line_needs.specs.Known.{known_of};
ghost use Rattle.line_needs.specs.Needs.{lock_of, exclusive};
ghost use Rattle.store_tx.specs.Keeps.{IsBack, IsMore, needs_in};

use crate::granting::{grant, grant_head, head_place};
use branch_tx::Tx;
use db_store::Store;
use db_value::{Name, Prefer, Refusal, Reply};
use line_needs::Known;
use std::alloc::{AllocError, Global};
use stmt_text::Stmt;
use version_log::{graph, log_branch};

// Merges the head of another branch, in a transaction that has changed nothing.
fn merge_head<St: Store>(
    store: &St,
    tx: &mut Tx<St>,
    branch: u32,
    other: u32,
    prefer: Prefer,
) -> Result<Reply, AllocError>
    requires may { MayMergeHead (St.state store.now) branch other tx.old }
    ensures reply { IfOk result (λ r.
        r ≡ (merged_over (St.state store.now) branch tx.old prefer other).reply) }
    ensures tx { OnOk result (GoesOn (St.state store.now) branch
        (exclusive (lock_of branch) ∷ [])
        (merged_over (St.state store.now) branch tx.old prefer other) tx.old tx.new) }
    ensures shown { AreAllOf (St.state store.now) tx.new }
    ensures err { OnErr result (IsMore tx.old tx.new) }
{
    grant_head(store, tx, branch, true)?;
    let from = head_place(store, other);
    let at = store.common(head_place(store, branch), from)?;
    let base = store.view(at)?;
    let right = store.view(from)?;
    let reply = tx.merge(from, &base, &right, prefer)?;
    Ok(reply)
}

// Merges the branch with a name. Where it finds no memory, the transaction was granted more and
// changed nothing.
fn merge<St: Store>(
    store: &St,
    tx: &mut Tx<St>,
    branch: u32,
    name: &Name,
    prefer: Prefer,
) -> Result<Reply, AllocError>
    requires may { MayWork (St.state store.now) branch (Stmt.Merge name.now prefer) tx.old }
    ensures reply { IfOk result (λ r.
        r ≡ (acted_over (St.state store.now) branch tx.old (Stmt.Merge name.now prefer)).reply) }
    ensures tx { OnOk result (GoesOn (St.state store.now) branch
        (needs_in (St.state store.now) branch tx.old (Stmt.Merge name.now prefer))
        (acted_over (St.state store.now) branch tx.old (Stmt.Merge name.now prefer)) tx.old
        tx.new) }
    ensures shown { AreAllOf (St.state store.now) tx.new }
    ensures err { OnErr result (IsMore tx.old tx.new) }
{
    if tx.has_done() {
        return Ok(Reply::Refused {
            why: Refusal::NotFirst,
        });
    }
    match store.branch(name) {
        None => Ok(Reply::Refused {
            why: Refusal::NoBranch { branch: *name },
        }),
        Some(other) => {
            let reply = merge_head(store, tx, branch, other, prefer)?;
            Ok(reply)
        }
    }
}

// Answers a statement that reads or changes records. Where it finds no memory, the transaction was
// granted more and changed nothing.
fn act<St: Store>(
    store: &St,
    tx: &mut Tx<St>,
    branch: u32,
    stmt: &Stmt,
    known: &Known,
) -> Result<Reply, AllocError>
    requires may { MayAct (St.state store.now) branch stmt.now tx.old }
    requires known { known.now ≡ known_of (dataset_of (St.state store.now)).schema true
        (has_done tx.old) stmt.now }
    ensures reply { IfOk result (λ r.
        r ≡ (acted_over (St.state store.now) branch tx.old stmt.now).reply) }
    ensures tx { OnOk result (GoesOn (St.state store.now) branch
        (needs_in (St.state store.now) branch tx.old stmt.now)
        (acted_over (St.state store.now) branch tx.old stmt.now) tx.old tx.new) }
    ensures shown { AreAllOf (St.state store.now) tx.new }
    ensures err { OnErr result (IsMore tx.old tx.new) }
{
    if tx.covers(stmt, known) {
        let reply = tx.act(stmt, known)?;
        return Ok(reply);
    }
    match grant(store, tx, branch, stmt)? {
        Some(why) => Ok(Reply::Refused { why }),
        None => {
            let reply = tx.act(stmt, known)?;
            Ok(reply)
        }
    }
}

/// Answers a statement that reads or changes records, or merges. Where it finds no memory, the
/// transaction was granted more and changed nothing.
pub fn act_or_merge<St: Store>(
    store: &St,
    tx: &mut Tx<St>,
    branch: u32,
    stmt: &Stmt,
    known: &Known,
) -> Result<Reply, AllocError>
    requires may { MayActOrMerge (St.state store.now) branch stmt.now tx.old }
    requires known { known.now ≡ known_of (dataset_of (St.state store.now)).schema true
        (has_done tx.old) stmt.now }
    ensures reply { IfOk result (λ r.
        r ≡ (acted_over (St.state store.now) branch tx.old stmt.now).reply) }
    ensures tx { OnOk result (GoesOn (St.state store.now) branch
        (needs_in (St.state store.now) branch tx.old stmt.now)
        (acted_over (St.state store.now) branch tx.old stmt.now) tx.old tx.new) }
    ensures shown { AreAllOf (St.state store.now) tx.new }
    ensures err { OnErr result (IsMore tx.old tx.new) }
{
    match stmt {
        Stmt::Merge {
            branch: name,
            prefer,
        } => {
            let reply = merge(store, tx, branch, name, *prefer)?;
            Ok(reply)
        }
        _ => {
            let reply = act(store, tx, branch, stmt, known)?;
            Ok(reply)
        }
    }
}

// Answers a statement that reads or changes records, or merges. Want of memory takes back what was
// granted.
fn work_or_back<St: Store>(
    store: &St,
    tx: &mut Tx<St>,
    branch: u32,
    stmt: &Stmt,
    known: &Known,
) -> Result<Reply, AllocError>
    requires may { MayActOrMerge (St.state store.now) branch stmt.now tx.old }
    requires known { known.now ≡ known_of (dataset_of (St.state store.now)).schema true
        (has_done tx.old) stmt.now }
    ensures reply { IfOk result (λ r.
        r ≡ (acted_over (St.state store.now) branch tx.old stmt.now).reply) }
    ensures tx { OnOk result (GoesOn (St.state store.now) branch
        (needs_in (St.state store.now) branch tx.old stmt.now)
        (acted_over (St.state store.now) branch tx.old stmt.now) tx.old tx.new) }
    ensures shown { AreAllOf (St.state store.now) tx.new }
    ensures err { OnErr result (IsBack branch tx.old tx.new) }
{
    let mark = tx.mark();
    match act_or_merge(store, tx, branch, stmt, known) {
        Ok(answer) => Ok(answer),
        Err(stop) => {
            tx.back_to(mark);
            Err(stop)
        }
    }
}

/// Answers a statement in an open transaction, which goes on, by what is known of the statement. Want of
/// memory leaves the transaction.
pub fn go_on<St: Store>(
    alloc: Global,
    store: &St,
    tx: &mut Tx<St>,
    branch: u32,
    stmt: &Stmt,
    known: &Known,
) -> Result<Reply, AllocError>
    requires goes_on { is_end stmt.now ≡ false }
    requires may { MayWork (St.state store.now) branch stmt.now tx.old }
    requires known { known.now ≡ known_of (dataset_of (St.state store.now)).schema true
        (has_done tx.old) stmt.now }
    ensures reply { IfOk result (λ r. r ≡ told_on (St.state store.now) stmt.now
        (step_in (dataset_of (St.state store.now)) branch tx.old stmt.now).reply) }
    ensures tx { OnOk result (GoesOn (St.state store.now) branch
        (needs_in (St.state store.now) branch tx.old stmt.now)
        (step_in (dataset_of (St.state store.now)) branch tx.old stmt.now) tx.old tx.new) }
    ensures shown { AreAllOf (St.state store.now) tx.new }
    ensures err { OnErr result (IsBack branch tx.old tx.new) }
{
    match stmt {
        Stmt::Begin { .. } => Ok(Reply::Refused {
            why: Refusal::InTransaction,
        }),
        Stmt::On { .. } => Ok(Reply::Refused {
            why: Refusal::InTransaction,
        }),
        Stmt::Checkpoint => Ok(Reply::Refused {
            why: Refusal::InTransaction,
        }),
        Stmt::Branch { .. } => Ok(Reply::Refused {
            why: Refusal::InTransaction,
        }),
        Stmt::LogOf { branch } => {
            let reply = log_branch(alloc, store, branch)?;
            Ok(reply)
        }
        Stmt::Graph => {
            let reply = graph(alloc, store)?;
            Ok(reply)
        }
        Stmt::Segments => {
            let lines = store.layout_report()?;
            Ok(Reply::Layout { lines })
        }
        _ => {
            let answer = work_or_back(store, tx, branch, stmt, known)?;
            Ok(answer)
        }
    }
}
