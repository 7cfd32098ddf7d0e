//! What statements that are transactions of their own, and the ends of transactions, are to do.
ghost use Rattle.std.specs.Prelude.{◌≡◌, ◌<◌, None, true, false, length, IfOk};
ghost use Rattle.db_value.specs.Text.{is_name};
ghost use Rattle.db_store.specs.Body.{IsShortIf};
ghost use Rattle.db_store.specs.Dataset.{IsMade};
ghost use Rattle.db_store.specs.State.{dataset_of};
ghost use Rattle.line_needs.specs.Known.{known_of};
ghost use Rattle.branch_tx.specs.Granted.{tx_in};
ghost use Rattle.branch_tx.proofs.Acts.{is_done};
ghost use Rattle.store_tx.specs.Ends.{is_begin, is_end};
ghost use Rattle.store_tx.specs.Statements.{HasName, IsWork, step_in, step_out, entry_out, entry_over, commit_over, told_over, branched, branch_out, branch_entry, moved_out, told_on};
ghost use Rattle.store_tx.specs.Stored.{FitsIf, IsNamedIf, call_if, call_of, entry_called};

use crate::granting::open_tx;
use crate::inside::act_or_merge;
use crate::stored::{LogCall, Plan, plain};
use branch_tx::Tx;
use db_store::Store;
use db_value::{Entry, Name, Refusal, Reply, VersionName, VersionPlace};
use line_needs::Known;
use std::alloc::{AllocError, Global};
use stmt_text::Stmt;
use version_log::{find_version, graph, log_branch};

/// The room of a transaction for which none is told.
pub const USUAL_ROOM: u32 = 1024;

/// The most branches of a dataset.
pub const MOST_BRANCHES: u32 = 1024;

/// Ends a transaction with its entry, if it has one, and tells the version that this makes.
pub fn commit<St: Store>(store: &St, tx: &Tx<St>, branch: u32) -> Result<Plan, AllocError>
    requires branch { branch < length (dataset_of (St.state store.now)).branches }
    requires schema { tx.now.schema ≡ (dataset_of (St.state store.now)).schema }
    ensures told { IfOk result (λ p. p.told ≡
        told_over (dataset_of (St.state store.now)) branch (tx_in tx.now)) }
    ensures call { IfOk result (λ p. p.call ≡
        call_if (commit_over (dataset_of (St.state store.now)) branch (tx_in tx.now))) }
    ensures named { IfOk result (λ p. IsNamedIf (entry_called p.call)) }
    ensures short { IfOk result (λ p. IsShortIf (entry_called p.call)) }
    ensures stays { IfOk result (λ p. p.moved ≡ None) }
{
    let name = store.branch_name(branch);
    let position = store.last(branch) + 1;
    match tx.entry(branch)? {
        None => Ok(plain(Reply::Done)),
        Some(entry) => Ok(Plan {
            told: Reply::Made {
                branch: name,
                position,
            },
            call: LogCall::Append { entry },
            moved: None,
        }),
    }
}

/// Ends an open transaction, with its entry unless it is aborted.
pub fn end<St: Store>(store: &St, tx: &Tx<St>, branch: u32, stmt: &Stmt) -> Result<Plan, AllocError>
    requires branch { branch < length (dataset_of (St.state store.now)).branches }
    requires schema { tx.now.schema ≡ (dataset_of (St.state store.now)).schema }
    requires ends { is_end stmt.now ≡ true }
    ensures told { IfOk result (λ p. p.told ≡
        (step_in (dataset_of (St.state store.now)) branch tx.now stmt.now).reply) }
    ensures call { IfOk result (λ p. p.call ≡
        call_if (entry_over (dataset_of (St.state store.now)) branch stmt.now (tx_in tx.now))) }
    ensures named { IfOk result (λ p. IsNamedIf (entry_called p.call)) }
    ensures short { IfOk result (λ p. IsShortIf (entry_called p.call)) }
{
    match stmt {
        Stmt::Commit => commit(store, tx, branch),
        _ => Ok(plain(Reply::Done)),
    }
}

fn is_done(reply: &Reply) -> bool
    ensures { result ≡ is_done reply.now }
{
    match reply {
        Reply::Done => true,
        _ => false,
    }
}

// Answers a statement that reads or changes records, or merges, and is a transaction of its own.
fn alone<St: Store>(
    alloc: Global,
    store: &St,
    branch: u32,
    stmt: &Stmt,
    known: &Known,
) -> Result<Plan, AllocError>
    requires branch { branch < length (dataset_of (St.state store.now)).branches }
    requires works { IsWork stmt.now }
    requires known { known.now
        ≡ known_of (dataset_of (St.state store.now)).schema false false stmt.now }
    ensures told { IfOk result (λ p. p.told ≡
        (step_out (dataset_of (St.state store.now)) branch stmt.now).reply) }
    ensures call { IfOk result (λ p. p.call ≡
        call_if (entry_out (dataset_of (St.state store.now)) branch stmt.now)) }
    ensures named { IfOk result (λ p. IsNamedIf (entry_called p.call)) }
    ensures short { IfOk result (λ p. IsShortIf (entry_called p.call)) }
    ensures stays { IfOk result (λ p. p.moved ≡ None) }
{
    let mut tx = open_tx(alloc, store, branch, USUAL_ROOM)?;
    let told = act_or_merge(store, &mut tx, branch, stmt, known)?;
    if is_done(&told) {
        let committed = commit(store, &tx, branch)?;
        return Ok(committed);
    }
    Ok(plain(told))
}

// Makes a branch of a made place, where there is none of its name and room for one.
fn branch_at<St: Store>(store: &St, name: &Name, origin: VersionPlace) -> Plan
    requires { IsMade (dataset_of (St.state store.now)) origin }
    ensures told { result.told ≡
        (branched (dataset_of (St.state store.now)) name.now origin).reply }
    ensures call { result.call ≡ call_if (branch_entry
        (branched (dataset_of (St.state store.now)) name.now origin).tx.made) }
    ensures fits { FitsIf (dataset_of (St.state store.now)) (entry_called result.call) }
    ensures named { is_name name.now ≡ true → IsNamedIf (entry_called result.call) }
    ensures short { IsShortIf (entry_called result.call) }
    ensures stays { result.moved ≡ None }
{
    if store.branch(name).is_some() {
        return plain(Reply::Refused {
            why: Refusal::BranchThere { branch: *name },
        });
    }
    if store.branches() >= MOST_BRANCHES {
        return plain(Reply::Refused {
            why: Refusal::BranchesFull,
        });
    }
    Plan {
        told: Reply::Made {
            branch: *name,
            position: 0,
        },
        call: LogCall::Append {
            entry: Entry::Branch {
                name: *name,
                origin,
            },
        },
        moved: None,
    }
}

/// Makes a branch of a version.
pub fn branch_of<St: Store>(store: &St, name: &Name, origin: &VersionName) -> Plan
    ensures told { result.told ≡
        (branch_out (dataset_of (St.state store.now)) name.now origin.now).reply }
    ensures call { result.call ≡ call_if (branch_entry
        (branch_out (dataset_of (St.state store.now)) name.now origin.now).tx.made) }
    ensures fits { FitsIf (dataset_of (St.state store.now)) (entry_called result.call) }
    ensures named { is_name name.now ≡ true → IsNamedIf (entry_called result.call) }
    ensures short { IsShortIf (entry_called result.call) }
    ensures stays { result.moved ≡ None }
{
    match find_version(store, origin) {
        Err(why) => plain(Reply::Refused { why }),
        Ok(at) => branch_at(store, name, at),
    }
}

// Makes a branch the current one.
fn move_to<St: Store>(store: &St, name: &Name) -> Plan
    ensures told { result.told ≡ (moved_out (dataset_of (St.state store.now)) name.now).reply }
    ensures call { result.call ≡ LogCall.Nothing }
    ensures moved { result.moved ≡ (moved_out (dataset_of (St.state store.now)) name.now).tx.moved }
{
    match store.branch(name) {
        None => plain(Reply::Refused {
            why: Refusal::NoBranch { branch: *name },
        }),
        Some(branch) => Plan {
            told: Reply::Done,
            call: LogCall::Nothing,
            moved: Some(branch),
        },
    }
}

// Asks for an image of the state.
fn saved() -> Plan
    ensures told { result.told ≡ Reply.Done }
    ensures call { result.call ≡ LogCall.Save }
    ensures moved { result.moved ≡ None }
{
    Plan {
        told: Reply::Done,
        call: LogCall::Save,
        moved: None,
    }
}

/// What a statement is to do outside of a transaction, if it doesn't begin one, by what is known of the
/// statement.
pub fn own<St: Store>(
    alloc: Global,
    store: &St,
    current: u32,
    stmt: &Stmt,
    known: &Known,
) -> Result<Plan, AllocError>
    requires branch { current < length (dataset_of (St.state store.now)).branches }
    requires ends { is_begin stmt.now ≡ false }
    requires known { known.now
        ≡ known_of (dataset_of (St.state store.now)).schema false false stmt.now }
    ensures told { IfOk result (λ p. p.told ≡ told_on (St.state store.now) stmt.now
        (step_out (dataset_of (St.state store.now)) current stmt.now).reply) }
    ensures call { IfOk result (λ p. p.call ≡
        call_of stmt.now (entry_out (dataset_of (St.state store.now)) current stmt.now)) }
    ensures named { IfOk result (λ p. HasName stmt.now → IsNamedIf (entry_called p.call)) }
    ensures short { IfOk result (λ p. IsShortIf (entry_called p.call)) }
    ensures moved { IfOk result (λ p. p.moved ≡
        (step_out (dataset_of (St.state store.now)) current stmt.now).tx.moved) }
{
    match stmt {
        Stmt::Commit => Ok(plain(Reply::Refused {
            why: Refusal::NoTransaction,
        })),
        Stmt::Abort => Ok(plain(Reply::Refused {
            why: Refusal::NoTransaction,
        })),
        Stmt::On { branch } => Ok(move_to(store, branch)),
        Stmt::LogOf { branch } => {
            let told = log_branch(alloc, store, branch)?;
            Ok(plain(told))
        }
        Stmt::Graph => {
            let told = graph(alloc, store)?;
            Ok(plain(told))
        }
        Stmt::Segments => {
            let lines = store.layout_report()?;
            Ok(plain(Reply::Layout { lines }))
        }
        Stmt::Checkpoint => Ok(saved()),
        Stmt::Branch { name, origin } => Ok(branch_of(store, name, origin)),
        _ => {
            let plan = alone(alloc, store, current, stmt, known)?;
            Ok(plan)
        }
    }
}
