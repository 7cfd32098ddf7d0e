//! The log of a branch.
ghost use Rattle.std.specs.Prelude.{◌≡◌, ◌<◌, ◌++◌, length, IfOk, OnOk, IfSome};
ghost use Rattle.db_store.specs.Dataset.{branch_named, IsMade};
ghost use Rattle.db_store.specs.State.{dataset_of};
ghost use Rattle.version_log.specs.Log.{name_of, name_if, log_line, branch_log, log_of, made_line};

use db_store::Store;
use db_value::{LogLine, Name, Refusal, Reply, SharedList, VersionName, VersionPlace};
use std::alloc::{AllocError, Global};

// The name of a version by its place.
fn name_of<St: Store>(store: &St, at: VersionPlace) -> VersionName
    requires { at.branch < length (dataset_of (St.state store.now)).branches }
    ensures { result ≡ name_of (dataset_of (St.state store.now)) at }
{
    VersionName {
        branch: store.branch_name(at.branch),
        position: Some(u64::from(at.position)),
    }
}

// The name of a version, if there is one.
fn name_if<St: Store>(store: &St, at: Option<VersionPlace>) -> Option<VersionName>
    requires { IfSome at (λ p. p.branch < length (dataset_of (St.state store.now)).branches) }
    ensures { result ≡ name_if (dataset_of (St.state store.now)) at }
{
    match at {
        None => None,
        Some(at) => Some(name_of(store, at)),
    }
}

// Position 0 of a branch.
fn first_line<St: Store>(store: &St, branch: u32) -> LogLine
    requires { branch < length (dataset_of (St.state store.now)).branches }
    ensures { result ≡ log_line (dataset_of (St.state store.now)) branch 0 }
{
    if branch == 0 {
        return LogLine::Root;
    }
    let base = store.proper(VersionPlace {
        branch,
        position: 0,
    });
    LogLine::Same {
        branch: store.branch_name(branch),
        origin: name_of(store, base),
    }
}

// A version that a commit made.
fn made_line<St: Store>(store: &St, branch: u32, position: u32) -> LogLine
    requires made { IsMade (dataset_of (St.state store.now))
        (record { branch = branch; position = position }) }
    requires later { 0 < position }
    ensures { result ≡ log_line (dataset_of (St.state store.now)) branch position }
{
    let at = VersionPlace { branch, position };
    let parents = store.parents(at);
    match parents.first {
        None => LogLine::Root,
        Some(first) => LogLine::Made {
            at: name_of(store, at),
            first: name_of(store, first),
            second: name_if(store, parents.second),
        },
    }
}

// The version at a position of a branch.
fn line_at<St: Store>(store: &St, branch: u32, position: u32) -> LogLine
    requires { IsMade (dataset_of (St.state store.now))
        (record { branch = branch; position = position }) }
    ensures { result ≡ log_line (dataset_of (St.state store.now)) branch position }
{
    if position == 0 {
        first_line(store, branch)
    } else {
        made_line(store, branch, position)
    }
}

/// The versions of a branch from its last one down, behind other lines.
pub fn push_log<St: Store>(
    store: &St,
    branch: u32,
    lines: &mut Vec<LogLine>,
) -> Result<(), AllocError>
    requires { branch < length (dataset_of (St.state store.now)).branches }
    ensures { OnOk result (lines.new.items
        ≡ lines.old.items ++ branch_log (dataset_of (St.state store.now)) branch) }
{
    let mut left = store.last(branch);
    lines.push(line_at(store, branch, left))?;
    while left > 0 {
        left -= 1;
        lines.push(line_at(store, branch, left))?;
    }
    Ok(())
}

/// The reply to `log` of a branch.
pub fn log_branch<St: Store>(alloc: Global, store: &St, name: &Name) -> Result<Reply, AllocError>
    ensures { IfOk result (λ r. r ≡ log_of (dataset_of (St.state store.now)) name.now
        (branch_named (dataset_of (St.state store.now)) name.now)) }
{
    match store.branch(name) {
        None => Ok(Reply::Refused {
            why: Refusal::NoBranch { branch: *name },
        }),
        Some(branch) => {
            let mut lines = Vec::new(alloc);
            push_log(store, branch, &mut lines)?;
            Ok(Reply::Versions {
                lines: SharedList::of(alloc, lines)?,
                whole: false,
            })
        }
    }
}
