//! What a line needs of the locks.
ghost use Rattle.std.specs.Prelude.{◌≡◌, ◌<◌, ◌++◌, ◌∷◌, [], Bool, Some, length, IfOk, OnOk};
ghost use Rattle.db_store.specs.Dataset.{branch_named};
ghost use Rattle.db_store.specs.Found.{found, position_found};
ghost use Rattle.db_store.specs.State.{dataset_of};
ghost use Rattle.line_needs.specs.Known.{known_of};
ghost use Rattle.line_needs.specs.Needs.{shared, exclusive, found_needs, names_needs, branch_needs, all_needs, scan_needs, on_needs, log_needs, merge_needs, source_needs, stmt_needs, needs};

use crate::known::Known;
use db_store::Store;
use db_value::{Name, VersionName};
use lock_table::{Need, Needs};
use std::alloc::{AllocError, Global};
use stmt_text::{ScanOver, Stmt};

/// The lock of the catalogue, which is the list of branches. That of branch `b` is `b + 1`.
const CATALOGUE: u32 = 0;

// A lock that others may have too, behind other needs.
fn push_shared(needs: &mut Vec<Need>, lock: u32) -> Result<(), AllocError>
    ensures { OnOk result (needs.new.items ≡ needs.old.items ++ shared lock ∷ []) }
{
    needs.push(Need {
        lock,
        exclusive: false,
    })?;
    Ok(())
}

// A lock for the session alone, behind other needs.
fn push_exclusive(needs: &mut Vec<Need>, lock: u32) -> Result<(), AllocError>
    ensures { OnOk result (needs.new.items ≡ needs.old.items ++ exclusive lock ∷ []) }
{
    needs.push(Need {
        lock,
        exclusive: true,
    })?;
    Ok(())
}

// The needs of a position of a branch, behind others.
fn push_position<St: Store>(
    store: &St,
    name: &Name,
    branch: u32,
    position: u64,
    needs: &mut Vec<Need>,
) -> Result<(), AllocError>
    requires { branch < length (dataset_of (St.state store.now)).branches }
    ensures { OnOk result (needs.new.items ≡ needs.old.items ++ found_needs
        (position_found (dataset_of (St.state store.now)) name.now position (Some branch))) }
{
    if position > u64::from(store.last(branch)) {
        return push_shared(needs, branch + 1);
    }
    Ok(())
}

// The needs of a version's name, behind others.
fn push_found<St: Store>(
    store: &St,
    version: &VersionName,
    needs: &mut Vec<Need>,
) -> Result<(), AllocError>
    ensures { OnOk result (needs.new.items
        ≡ needs.old.items ++ found_needs (found (dataset_of (St.state store.now)) version.now)) }
{
    match store.branch(&version.branch) {
        None => push_shared(needs, CATALOGUE),
        Some(branch) => match version.position {
            None => push_shared(needs, branch + 1),
            Some(position) => push_position(store, &version.branch, branch, position, needs),
        },
    }
}

// The needs of a look-up, behind others.
fn push_source<St: Store>(
    store: &St,
    branch: u32,
    at: &Option<VersionName>,
    needs: &mut Vec<Need>,
) -> Result<(), AllocError>
    requires { branch < length (dataset_of (St.state store.now)).branches }
    ensures { OnOk result (needs.new.items
        ≡ needs.old.items ++ source_needs (dataset_of (St.state store.now)) branch at.now) }
{
    match at {
        None => push_shared(needs, branch + 1),
        Some(version) => push_found(store, version, needs),
    }
}

// The needs of several versions' names, behind others.
fn push_names<St: Store>(
    store: &St,
    names: &[VersionName],
    needs: &mut Vec<Need>,
) -> Result<(), AllocError>
    ensures { OnOk result (needs.new.items
        ≡ needs.old.items ++ names_needs (dataset_of (St.state store.now)) names.now) }
{
    for name in names {
        push_found(store, name, needs)?;
    }
    Ok(())
}

// The locks of the first few branches, behind others.
fn push_branches(needs: &mut Vec<Need>, count: u32) -> Result<(), AllocError>
    ensures { OnOk result (needs.new.items ≡ needs.old.items ++ branch_needs count) }
{
    for branch in 0..count {
        push_shared(needs, branch + 1)?;
    }
    Ok(())
}

// The needs of the catalogue and of all branches, behind others.
fn push_heads<St: Store>(store: &St, needs: &mut Vec<Need>) -> Result<(), AllocError>
    ensures { OnOk result (needs.new.items
        ≡ needs.old.items ++ all_needs (dataset_of (St.state store.now))) }
{
    push_shared(needs, CATALOGUE)?;
    push_branches(needs, store.branches())
}

// The needs of a scan, behind others.
fn push_scan<St: Store>(
    store: &St,
    branch: u32,
    over: &ScanOver,
    needs: &mut Vec<Need>,
) -> Result<(), AllocError>
    requires { branch < length (dataset_of (St.state store.now)).branches }
    ensures { OnOk result (needs.new.items
        ≡ needs.old.items ++ scan_needs (dataset_of (St.state store.now)) branch over.now) }
{
    match over {
        ScanOver::Current => push_shared(needs, branch + 1),
        ScanOver::Named { names } => push_names(store, names.as_slice(), needs),
        ScanOver::Heads => push_heads(store, needs),
    }
}

// The needs of two versions' names, behind others.
fn push_two<St: Store>(
    store: &St,
    first: &VersionName,
    second: &VersionName,
    needs: &mut Vec<Need>,
) -> Result<(), AllocError>
    ensures { OnOk result (needs.new.items ≡ needs.old.items
        ++ names_needs (dataset_of (St.state store.now)) (first.now ∷ second.now ∷ [])) }
{
    push_found(store, first, needs)?;
    push_found(store, second, needs)
}

// The needs of a new branch, behind others.
fn push_branch<St: Store>(
    store: &St,
    origin: &VersionName,
    needs: &mut Vec<Need>,
) -> Result<(), AllocError>
    ensures { OnOk result (needs.new.items ≡ needs.old.items
        ++ exclusive 0 ∷ found_needs (found (dataset_of (St.state store.now)) origin.now)) }
{
    push_exclusive(needs, CATALOGUE)?;
    push_found(store, origin, needs)
}

// The needs of a move to a branch, behind others.
fn push_on<St: Store>(store: &St, name: &Name, needs: &mut Vec<Need>) -> Result<(), AllocError>
    ensures { OnOk result (needs.new.items
        ≡ needs.old.items ++ on_needs (branch_named (dataset_of (St.state store.now)) name.now)) }
{
    match store.branch(name) {
        None => push_shared(needs, CATALOGUE),
        Some(_) => Ok(()),
    }
}

// The needs of the log of a branch, behind others.
fn push_log<St: Store>(store: &St, name: &Name, needs: &mut Vec<Need>) -> Result<(), AllocError>
    ensures { OnOk result (needs.new.items
        ≡ needs.old.items ++ log_needs (branch_named (dataset_of (St.state store.now)) name.now)) }
{
    match store.branch(name) {
        None => push_shared(needs, CATALOGUE),
        Some(branch) => push_shared(needs, branch + 1),
    }
}

// The needs of a merge of a branch into another one, behind others.
fn push_merge<St: Store>(
    store: &St,
    branch: u32,
    name: &Name,
    needs: &mut Vec<Need>,
) -> Result<(), AllocError>
    requires { branch < length (dataset_of (St.state store.now)).branches }
    ensures { OnOk result (needs.new.items ≡ needs.old.items
        ++ merge_needs branch (branch_named (dataset_of (St.state store.now)) name.now)) }
{
    match store.branch(name) {
        None => push_shared(needs, CATALOGUE),
        Some(other) => {
            push_exclusive(needs, branch + 1)?;
            push_shared(needs, other + 1)
        }
    }
}

// The needs of a statement that isn't refused early, behind others.
fn push_stmt<St: Store>(
    store: &St,
    branch: u32,
    stmt: &Stmt,
    needs: &mut Vec<Need>,
) -> Result<(), AllocError>
    requires { branch < length (dataset_of (St.state store.now)).branches }
    ensures { OnOk result (needs.new.items
        ≡ needs.old.items ++ stmt_needs (dataset_of (St.state store.now)) branch stmt.now) }
{
    match stmt {
        Stmt::On { branch: name } => push_on(store, name, needs),
        Stmt::LogOf { branch: name } => push_log(store, name, needs),
        Stmt::Graph => push_heads(store, needs),
        Stmt::Segments => push_heads(store, needs),
        Stmt::Branch { origin, .. } => push_branch(store, origin, needs),
        Stmt::Merge { branch: name, .. } => push_merge(store, branch, name, needs),
        Stmt::Insert { .. } => push_exclusive(needs, branch + 1),
        Stmt::Update { .. } => push_exclusive(needs, branch + 1),
        Stmt::Delete { .. } => push_exclusive(needs, branch + 1),
        Stmt::Get { at, .. } => push_source(store, branch, at, needs),
        Stmt::Scan { over, .. } => push_scan(store, branch, over, needs),
        Stmt::Join { first, second, .. } => push_two(store, first, second, needs),
        Stmt::Minus { first, second, .. } => push_two(store, first, second, needs),
        _ => Ok(()),
    }
}

/// The needs of a statement of a session on a branch, by what is known of the statement, whatever its
/// transaction was and did. A statement that is refused early has none.
pub fn needs_of<St: Store>(
    alloc: Global,
    store: &St,
    branch: u32,
    known: &Known,
    stmt: &Stmt,
) -> Result<Needs, AllocError>
    requires { branch < length (dataset_of (St.state store.now)).branches }
    ensures { IfOk result (λ ns. (begun changed : Bool)
        → known.now ≡ known_of (dataset_of (St.state store.now)).schema begun changed stmt.now
        → ns ≡ needs (dataset_of (St.state store.now)) branch begun changed stmt.now) }
{
    let mut needs = Vec::new(alloc);
    if known.is_refused() {
        return Ok(Needs::of(needs));
    }
    push_stmt(store, branch, stmt, &mut needs)?;
    Ok(Needs::of(needs))
}
