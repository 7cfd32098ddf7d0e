//! Lines of sessions at a table of waits. What each is told was worked out by hand.
ghost use Rattle.wait_die.specs.Waiting.{IsAdmitted};

use crate::asserts::holds;
use db_value::Name;
use std::alloc::Global;
use std::process::Abort;
use std::test::Fail;
use stmt_text::{Line, Stmt, read_line};
use wait_die::{Turn, WaitLock, Waits, wants};

/// What a line is to be told. An end and a beginning are granted.
#[derive(Clone, Copy)]
enum Told {
    Granted,
    Wait(u32),
    LostCatalogue(u32),
    LostHeads(u32),
    LostBranch(&'static str, u32),
}

use Told::{Granted, LostBranch, LostCatalogue, LostHeads, Wait};

// The session's current branch, its line, and what it is told.
type Row = (&'static str, &'static str, Told);

#[rattlefmt::skip]
const OLDER_WAITS: [Row; 7] = [
    ("master", "1 begin",          Granted),
    ("master", "2 begin",          Granted),
    ("master", "2 insert r 1 1",   Granted),
    ("master", "1 insert r 2 2",   Wait(2)),
    ("master", "2 commit",         Granted),
    ("master", "1 insert r 2 2",   Granted),
    ("master", "2 get r 1",        LostBranch("master", 1)),
];

#[rattlefmt::skip]
const YOUNGER_LOSES: [Row; 4] = [
    ("master", "1 begin",          Granted),
    ("master", "2 begin",          Granted),
    ("master", "1 insert r 2 2",   Granted),
    ("master", "2 insert r 1 1",   LostBranch("master", 1)),
];

#[rattlefmt::skip]
const LEAST_IS_NAMED: [Row; 12] = [
    ("master", "5 begin",          Granted),
    ("master", "3 begin",          Granted),
    ("master", "4 begin",          Granted),
    ("b",      "3 insert r 1 1",   Granted),
    ("a",      "3 insert r 1 1",   Granted),
    ("c",      "5 get r 1",        Granted),
    ("c",      "4 get r 1",        Granted),
    // The lower lock is named, though the other one is wanted first.
    ("d",      "4 minus r b a",    LostBranch("a", 3)),
    // The lesser session is named, though the other one is older.
    ("d",      "6 graph",          LostHeads(3)),
    ("c",      "6 delete r 1",     LostBranch("c", 4)),
    // To lose comes before to wait.
    ("c",      "3 delete r 1",     LostBranch("c", 5)),
    ("c",      "5 delete r 1",     Wait(4)),
];

#[rattlefmt::skip]
const ALL_BRANCHES: [Row; 9] = [
    ("master", "1 begin",          Granted),
    ("master", "2 begin",          Granted),
    ("master", "2 scan r in heads", Granted),
    ("master", "1 get r 1",        Granted),
    ("other",  "1 delete r 1",     Wait(2)),
    ("master", "3 branch c of b",  LostCatalogue(2)),
    ("master", "3 on b",           Granted),
    ("master", "2 abort",          Granted),
    ("master", "3 merge master",   LostBranch("master", 1)),
];

#[rattlefmt::skip]
const ENDS: [Row; 10] = [
    // A line outside a transaction leaves nothing.
    ("master", "3 insert r 1 1",   Granted),
    ("master", "1 begin",          Granted),
    ("master", "2 begin",          Granted),
    ("master", "2 insert r 1 1",   Granted),
    ("master", "2 get r 1",        Granted),
    ("master", "1 merge master",   Wait(2)),
    // Who ends doesn't wait any more, and begins as the youngest.
    ("master", "1 abort",          Granted),
    ("master", "1 begin",          Granted),
    ("master", "1 insert r 1 1",   LostBranch("master", 2)),
    ("master", "1 checkpoint",     Granted),
];

fn is_lock(lock: &WaitLock, name: &str) -> bool {
    match lock {
        WaitLock::Branch { name: branch } => branch.as_bytes() == name.as_bytes(),
        _ => false,
    }
}

fn is_loss(lock: &WaitLock, told: &Told) -> bool {
    match told {
        LostCatalogue(_) => matches!(lock, WaitLock::Catalogue),
        LostHeads(_) => matches!(lock, WaitLock::Heads),
        LostBranch(name, _) => is_lock(lock, name),
        _ => false,
    }
}

fn session_in(told: &Told) -> u32 {
    match told {
        Granted => 0,
        Wait(on) => *on,
        LostCatalogue(by) => *by,
        LostHeads(by) => *by,
        LostBranch(_, by) => *by,
    }
}

fn is_told(turn: &Turn, told: &Told) -> bool {
    match turn {
        Turn::Granted => matches!(told, Granted),
        Turn::Wait { on } => matches!(told, Wait(_)) && *on == session_in(told),
        Turn::Lost { lock, by } => is_loss(lock, told) && *by == session_in(told),
    }
}

fn begin(waits: &mut Waits, session: u32) -> Result<Turn, Fail>
    requires { IsAdmitted waits.old session }
{
    if waits.is_open(session) {
        return Err("it has a transaction".into());
    }
    waits.start(session);
    Ok(Turn::Granted)
}

fn ask(
    alloc: Global,
    waits: &mut Waits,
    session: u32,
    current: &str,
    stmt: &Stmt,
) -> Result<Turn, Fail>
    requires { IsAdmitted waits.old session }
{
    if waits.is_waiting(session) {
        return Err("it waits".into());
    }
    let Some(current) = Name::read(current.as_bytes()) else {
        return Err("no name".into());
    };
    let wants = wants(alloc, &current, stmt)?;
    let turn = waits.ask(session, &wants)?;
    Ok(turn)
}

fn say(alloc: Global, waits: &mut Waits, current: &str, text: &str) -> Result<Turn, Fail> {
    let Ok(line) = read_line(alloc, text.as_bytes()) else {
        return Err("no line".into());
    };
    let Line { session, stmt } = line;
    waits.admit(session)?;
    match &stmt {
        Stmt::Begin { .. } => begin(waits, session),
        Stmt::Commit => {
            waits.end(session);
            Ok(Turn::Granted)
        }
        Stmt::Abort => {
            waits.end(session);
            Ok(Turn::Granted)
        }
        other => ask(alloc, waits, session, current, other),
    }
}

fn say_all(rt: &impl Abort, alloc: Global, rows: &[Row]) -> Result<(), Fail> {
    let mut waits = Waits::new(alloc)?;
    for (current, text, told) in rows {
        let turn = say(alloc, &mut waits, current, text)?;
        holds(rt, text, is_told(&turn, told));
    }
    Ok(())
}

#[test]
fn an_older_transaction_waits_for_a_younger_one(rt: HostRuntime) -> Result<(), Fail> {
    say_all(&rt, rt.alloc(), &OLDER_WAITS)
}

#[test]
fn a_younger_transaction_is_lost_to_an_older_one(rt: HostRuntime) -> Result<(), Fail> {
    say_all(&rt, rt.alloc(), &YOUNGER_LOSES)
}

#[test]
fn the_least_lock_and_session_are_named(rt: HostRuntime) -> Result<(), Fail> {
    say_all(&rt, rt.alloc(), &LEAST_IS_NAMED)
}

#[test]
fn all_branches_together_conflict_with_each(rt: HostRuntime) -> Result<(), Fail> {
    say_all(&rt, rt.alloc(), &ALL_BRANCHES)
}

#[test]
fn what_ends_takes_its_wants_and_waits_along(rt: HostRuntime) -> Result<(), Fail> {
    say_all(&rt, rt.alloc(), &ENDS)
}
