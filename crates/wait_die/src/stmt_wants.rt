//! What a statement wants.
ghost use Rattle.std.specs.Prelude.{◌≡◌, ◌++◌, ◌∷◌, [], IfOk, OnOk};
ghost use Rattle.wait_die.specs.Wants.{shared, exclusive, version_wants, names_wants, heads_wants, source_wants, scan_wants, wants};
ghost use Rattle.wait_die.specs.declared.want.WaitLock.TheVariants.{Catalogue, Branch};

use crate::want::{WaitLock, Want, Wants};
use db_value::{Name, VersionName};
use std::alloc::{AllocError, Global};
use stmt_text::{ScanOver, Stmt};

// A lock that others may have too, behind other wants.
fn push_shared(list: &mut Vec<Want>, lock: WaitLock) -> Result<(), AllocError>
    ensures { OnOk result (list.new.items ≡ list.old.items ++ shared lock ∷ []) }
{
    list.push(Want {
        lock,
        exclusive: false,
    })?;
    Ok(())
}

// A lock for the session alone, behind other wants.
fn push_exclusive(list: &mut Vec<Want>, lock: WaitLock) -> Result<(), AllocError>
    ensures { OnOk result (list.new.items ≡ list.old.items ++ exclusive lock ∷ []) }
{
    list.push(Want {
        lock,
        exclusive: true,
    })?;
    Ok(())
}

// The wants of a version's name, behind others.
fn push_version(list: &mut Vec<Want>, version: &VersionName) -> Result<(), AllocError>
    ensures { OnOk result (list.new.items ≡ list.old.items ++ version_wants version.now) }
{
    push_shared(list, WaitLock::Catalogue)?;
    push_shared(
        list,
        WaitLock::Branch {
            name: version.branch,
        },
    )
}

// The wants of several versions' names, behind others.
fn push_names(list: &mut Vec<Want>, names: &[VersionName]) -> Result<(), AllocError>
    ensures { OnOk result (list.new.items ≡ list.old.items ++ names_wants names.now) }
{
    for name in names {
        push_version(list, name)?;
    }
    Ok(())
}

// The wants of two versions' names, behind others.
fn push_two(
    list: &mut Vec<Want>,
    first: &VersionName,
    second: &VersionName,
) -> Result<(), AllocError>
    ensures { OnOk result (list.new.items
        ≡ list.old.items ++ names_wants (first.now ∷ second.now ∷ [])) }
{
    push_version(list, first)?;
    push_version(list, second)
}

// The catalogue and all branches, behind others.
fn push_heads(list: &mut Vec<Want>) -> Result<(), AllocError>
    ensures { OnOk result (list.new.items ≡ list.old.items ++ heads_wants) }
{
    push_shared(list, WaitLock::Catalogue)?;
    push_shared(list, WaitLock::Heads)
}

// The wants of a look-up, behind others.
fn push_source(
    list: &mut Vec<Want>,
    current: &Name,
    at: &Option<VersionName>,
) -> Result<(), AllocError>
    ensures { OnOk result (list.new.items
        ≡ list.old.items ++ source_wants current.now at.now) }
{
    match at {
        None => push_shared(list, WaitLock::Branch { name: *current }),
        Some(version) => push_version(list, version),
    }
}

// The wants of a scan, behind others.
fn push_scan(list: &mut Vec<Want>, current: &Name, over: &ScanOver) -> Result<(), AllocError>
    ensures { OnOk result (list.new.items
        ≡ list.old.items ++ scan_wants current.now over.now) }
{
    match over {
        ScanOver::Current => push_shared(list, WaitLock::Branch { name: *current }),
        ScanOver::Named { names } => push_names(list, names.as_slice()),
        ScanOver::Heads => push_heads(list),
    }
}

// The wants of a new branch, behind others.
fn push_branch(list: &mut Vec<Want>, origin: &VersionName) -> Result<(), AllocError>
    ensures { OnOk result (list.new.items
        ≡ list.old.items ++ exclusive Catalogue ∷ shared (Branch origin.now.branch) ∷ []) }
{
    push_exclusive(list, WaitLock::Catalogue)?;
    push_shared(
        list,
        WaitLock::Branch {
            name: origin.branch,
        },
    )
}

// The wants of the log of a branch, behind others.
fn push_log(list: &mut Vec<Want>, name: &Name) -> Result<(), AllocError>
    ensures { OnOk result (list.new.items
        ≡ list.old.items ++ shared Catalogue ∷ shared (Branch name.now) ∷ []) }
{
    push_shared(list, WaitLock::Catalogue)?;
    push_shared(list, WaitLock::Branch { name: *name })
}

// The wants of a merge of a branch into the current one, behind others.
fn push_merge(list: &mut Vec<Want>, current: &Name, name: &Name) -> Result<(), AllocError>
    ensures { OnOk result (list.new.items ≡ list.old.items
        ++ shared Catalogue ∷ shared (Branch name.now) ∷ exclusive (Branch current.now) ∷ []) }
{
    push_log(list, name)?;
    push_exclusive(list, WaitLock::Branch { name: *current })
}

// The wants of a change of the current branch, behind others.
fn push_change(list: &mut Vec<Want>, current: &Name) -> Result<(), AllocError>
    ensures { OnOk result (list.new.items
        ≡ list.old.items ++ exclusive (Branch current.now) ∷ []) }
{
    push_exclusive(list, WaitLock::Branch { name: *current })
}

// The wants of a statement, behind others.
fn push_stmt(list: &mut Vec<Want>, current: &Name, stmt: &Stmt) -> Result<(), AllocError>
    ensures { OnOk result (list.new.items
        ≡ list.old.items ++ wants current.now stmt.now) }
{
    match stmt {
        Stmt::On { .. } => push_shared(list, WaitLock::Catalogue),
        Stmt::LogOf { branch } => push_log(list, branch),
        Stmt::Graph => push_heads(list),
        Stmt::Segments => push_heads(list),
        Stmt::Branch { origin, .. } => push_branch(list, origin),
        Stmt::Merge { branch, .. } => push_merge(list, current, branch),
        Stmt::Insert { .. } => push_change(list, current),
        Stmt::Update { .. } => push_change(list, current),
        Stmt::Delete { .. } => push_change(list, current),
        Stmt::Get { at, .. } => push_source(list, current, at),
        Stmt::Scan { over, .. } => push_scan(list, current, over),
        Stmt::Join { first, second, .. } => push_two(list, first, second),
        Stmt::Minus { first, second, .. } => push_two(list, first, second),
        _ => Ok(()),
    }
}

/// What a statement wants of a session whose current branch has this name. It is given by the text
/// alone, whatever the dataset has.
pub fn wants(alloc: Global, current: &Name, stmt: &Stmt) -> Result<Wants, AllocError>
    ensures { IfOk result (λ ws. ws ≡ wants current.now stmt.now) }
{
    let mut list = Vec::new(alloc);
    push_stmt(&mut list, current, stmt)?;
    Ok(Wants::of(list))
}
