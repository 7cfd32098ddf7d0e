//! A desk and its board. The replies are written by hand, and `tests/run` asks the program for them.
ghost use Rattle.std.specs.Prelude.{◌≡◌, false, IfOk, OnOk};
ghost use Rattle.db_outside.specs.Count.{counted};
ghost use Rattle.db_core.specs.Order.{said_of};
ghost use Rattle.db_core.specs.Kept.{Stands, new_kept};
ghost use Rattle.db_core.specs.Desk.{Agrees};
ghost use Rattle.db_core.specs.Sits.{heard};
ghost use Rattle.core_tests.specs.Desks.{IsBare, KeepsOthers};

use crate::asserts::{are_steps, holds, is_last, is_told, line_of};
use db_core::laws::{new_desk_law, other_lines_law, step_law};
use db_core::{Board, Desk, Opened};
use db_store::Store;
use db_value::{LineText, ListOf, Schema};
use entry_codec::{Log, NoLog};
use plain_store::PlainStore;
use std::alloc::Global;
use std::marker::Brand;
use std::process::Abort;
use std::test::Fail;
use stmt_text::{LineStop, Stmt, read_line};

// Session 2 has changed dev in an open transaction, and then session 1 has these lines. A row tells
// first who answers.
const ROWS: [&str; 37] = [
    "desk> 1 nonsense\nrefused 1 bad line\n",
    "desk> 1 commit\nrefused 11 no transaction\n",
    "desk> 1 get things 1\nrefused 2 no relation things\n",
    "desk> 1 update items 1 c=1\nrefused 3 no column c\n",
    "desk> 1 insert items 1 1\nrefused 21 value count items 2\n",
    "board> 1 get items 1\nnone\n",
    "board> 1 checkpoint\nok\n",
    "board> 1 branch sub of master\nok sub@0\n",
    "board> 1 on sub\nok\n",
    "board> 1 begin\nok\n",
    "desk> 1 begin\nrefused 10 in transaction\n",
    "desk> 1 on master\nrefused 10 in transaction\n",
    "desk> 1 checkpoint\nrefused 10 in transaction\n",
    "board> 1 get items 7\nnone\n",
    "desk> 1 get items 8\nnone\n",
    "board> 1 get items 7 in master\nnone\n",
    "desk> 1 get items 8 in master\nnone\n",
    "desk> 1 get items 8\nnone\n",
    "board> 1 insert items 7 1 1\nok\n",
    "desk> 1 insert items 8 2 2\nok\n",
    "desk> 1 get items 7\nrow 7 1 1\n",
    "desk> 1 nonsense\nrefused 1 bad line\n",
    "desk> 1 get items 8 in master\nnone\n",
    "desk> 1 scan items where b > 1\nrow 8 2 2\nrows 1\n",
    "desk> 1 scan items in sub,master\nrow 7 1 1 in sub\nrow 8 2 2 in sub\nrows 2\n",
    "board> 1 minus items sub sub@0\nrow 7 1 1\nrow 8 2 2\nrows 2\n",
    "desk> 1 get items 8 in sub@0\nnone\n",
    "board> 1 commit\nok sub@1\n",
    "board> 1 on dev\nok\n",
    "board> 1 begin\nok\n",
    "board> 1 get items 1 in master\nnone\n",
    "board> 1 insert items 1 1 1\nrefused 8 held dev by 2\n",
    "desk> 1 get items 1\nrefused 18 skipped\n",
    "desk> 1 nonsense\nrefused 18 skipped\n",
    "desk> 1 commit\nrefused 18 skipped\n",
    "desk> 1 commit\nrefused 11 no transaction\n",
    "desk> 1 abort\nrefused 11 no transaction\n",
];

pub fn new_store(alloc: Global) -> Result<PlainStore, Fail> {
    let (schema, _) = Schema::read(alloc, b"relation items a b\nend\n")?;
    Ok(PlainStore::new(alloc, schema)?)
}

pub fn text_of(alloc: Global, line: &str) -> Result<LineText, Fail>
    ensures { IfOk result (λ text. text ≡ line.now) }
{
    Ok(ListOf::of(Vec::from_slice(alloc, line.as_bytes())?))
}

/// The statement of a line of this session.
pub fn stmt_of(alloc: Global, text: &LineText, session: u32) -> Result<Stmt, Fail>
    ensures { IfOk result (λ stmt. said_of text.now false ≡ heard session stmt) }
{
    match read_line(alloc, text.as_slice()) {
        Err(_) => Err("a bad line".into()),
        Ok(read) => {
            if read.session != session {
                return Err("another session".into());
            }
            Ok(read.stmt)
        }
    }
}

fn new_board<St: Store, J: Log<St>, T: Opened>(
    alloc: Global,
    store: St,
    log: J,
) -> Result<Board<St, J, T>, Fail>
    requires { (T.opened ≡ St.state store) × (T.first ≡ counted (J.faults log)) }
    ensures { IfOk result
        (λ b. b.kept ≡ new_kept (St.state store) (counted (J.faults log))) }
{
    match Board::<St, J, T>::new(alloc, store, log) {
        Err(_) => Err("no board".into()),
        Ok(board) => Ok(board),
    }
}

// A board, and desks of the sessions 1 and 2.
fn two_desks<St: Store, J: Log<St>, T: Opened>(
    alloc: Global,
    store: St,
    log: J,
) -> Result<(Board<St, J, T>, Desk<St>, Desk<St>), Fail>
    requires { (T.opened ≡ St.state store) × (T.first ≡ counted (J.faults log)) }
    ensures first { IfOk result (λ p. IsBare 1 p.0.kept p.1) }
    ensures second { IfOk result (λ p. IsBare 2 p.0.kept p.2) }
{
    new_desk_law();
    let first = Desk::new(alloc, 1, store.schema())?;
    let second = Desk::new(alloc, 2, store.schema())?;
    let board = new_board::<St, J, T>(alloc, store, log)?;
    Ok((board, first, second))
}

// The board answers a statement. A desk of another session agrees with it after that.
fn visit_alone<St: Store, J: Log<St>, T: Opened>(
    rt: &impl Abort,
    alloc: Global,
    board: &mut Board<St, J, T>,
    desk: &mut Desk<St>,
    text: LineText,
    stmt: &Stmt,
    row: &str,
) -> Result<(), Fail>
    requires bare { IsBare desk.old.session board.old.kept desk.old }
    requires line { said_of text false ≡ heard desk.old.session stmt.now }
    ensures bare { OnOk result (IsBare desk.old.session board.new.kept desk.new) }
    ensures others { OnOk result
        (KeepsOthers desk.old.session board.old.kept board.new.kept) }
{
    other_lines_law();
    board.visit(desk, text, stmt)?;
    is_last(rt, alloc, board.steps(), row)?;
    Ok(())
}

// The board answers a line of session 2.
fn hold<St: Store, J: Log<St>, T: Opened>(
    rt: &impl Abort,
    alloc: Global,
    board: &mut Board<St, J, T>,
    desk: &mut Desk<St>,
    row: &str,
) -> Result<(), Fail>
    requires { IsBare 2 board.old.kept desk.old }
    ensures bare { OnOk result (IsBare 2 board.new.kept desk.new) }
    ensures others { OnOk result (KeepsOthers 2 board.old.kept board.new.kept) }
{
    let text = text_of(alloc, line_of(row)?)?;
    let stmt = stmt_of(alloc, &text, 2)?;
    visit_alone(rt, alloc, board, desk, text, &stmt, row)?;
    Ok(())
}

// Session 2 begins dev, and changes it in a transaction.
fn change_dev<St: Store, J: Log<St>, T: Opened>(
    rt: &impl Abort,
    alloc: Global,
    board: &mut Board<St, J, T>,
    desk: &mut Desk<St>,
) -> Result<(), Fail>
    requires { IsBare 2 board.old.kept desk.old }
    ensures bare { OnOk result (IsBare 2 board.new.kept desk.new) }
    ensures others { OnOk result (KeepsOthers 2 board.old.kept board.new.kept) }
{
    hold(
        rt,
        alloc,
        board,
        desk,
        "> 2 branch dev of master\nok dev@0\n",
    )?;
    hold(rt, alloc, board, desk, "> 2 on dev\nok\n")?;
    hold(rt, alloc, board, desk, "> 2 begin\nok\n")?;
    hold(rt, alloc, board, desk, "> 2 insert items 7 7 7\nok\n")?;
    Ok(())
}

/// A board, and desks of the sessions 1 and 2, of which the second one has changed dev in an open
/// transaction. No line waits at them. The board's names are given.
pub fn with_open<St: Store, J: Log<St>, T: Opened>(
    rt: &impl Abort,
    alloc: Global,
    store: St,
    log: J,
) -> Result<(Board<St, J, T>, Desk<St>, Desk<St>), Fail>
    requires { (T.opened ≡ St.state store) × (T.first ≡ counted (J.faults log)) }
    ensures first { IfOk result (λ p. IsBare 1 p.0.kept p.1) }
    ensures second { IfOk result (λ p. IsBare 2 p.0.kept p.2) }
{
    let (mut board, first, mut second) = two_desks::<St, J, T>(alloc, store, log)?;
    change_dev(rt, alloc, &mut board, &mut second)?;
    Ok((board, first, second))
}

// The desk answers a statement, or the board does.
fn tell_stmt<St: Store, J: Log<St>, T: Opened>(
    rt: &impl Abort,
    board: &mut Board<St, J, T>,
    desk: &mut Desk<St>,
    text: LineText,
    stmt: &Stmt,
    row: &str,
) -> Result<(), Fail>
    requires agree { Agrees board.old.kept desk.old }
    requires line { said_of text false ≡ heard desk.old.session stmt.now }
    ensures agree { OnOk result (Agrees board.new.kept desk.new) }
    ensures session { OnOk result (desk.new.session ≡ desk.old.session) }
{
    let known = desk.know(Some(stmt));
    match desk.local(text, Some(stmt), &known)? {
        None => {
            holds(rt, row, row.starts_with("desk"));
            Ok(())
        }
        Some(text) => {
            holds(rt, row, row.starts_with("board"));
            board.visit(desk, text, stmt)?;
            Ok(())
        }
    }
}

// A line of session 1: its desk answers it, or the board does.
fn tell_text<St: Store, J: Log<St>, T: Opened>(
    rt: &impl Abort,
    alloc: Global,
    board: &mut Board<St, J, T>,
    desk: &mut Desk<St>,
    text: LineText,
    row: &str,
) -> Result<(), Fail>
    requires agree { Agrees board.old.kept desk.old }
    requires session { desk.old.session ≡ 1 }
    ensures agree { OnOk result (Agrees board.new.kept desk.new) }
    ensures session { OnOk result (desk.new.session ≡ 1) }
{
    match read_line(alloc, text.as_slice()) {
        Ok(read) => {
            if read.session != 1 {
                return Err("another session".into());
            }
            tell_stmt(rt, board, desk, text, &read.stmt, row)
        }
        Err(LineStop::BadLine { session }) => {
            if session != 1 {
                return Err("a bad line of another session".into());
            }
            let known = desk.know(None);
            match desk.local(text, None, &known)? {
                None => {
                    holds(rt, row, row.starts_with("desk"));
                    Ok(())
                }
                Some(_) => Err("a bad line that doesn't wait".into()),
            }
        }
        Err(LineStop::Memory) => Err("no memory".into()),
    }
}

// The line of a row.
fn tell_row<St: Store, J: Log<St>, T: Opened>(
    rt: &impl Abort,
    alloc: Global,
    board: &mut Board<St, J, T>,
    desk: &mut Desk<St>,
    row: &str,
) -> Result<(), Fail>
    requires agree { Agrees board.old.kept desk.old }
    requires session { desk.old.session ≡ 1 }
    ensures agree { OnOk result (Agrees board.new.kept desk.new) }
    ensures session { OnOk result (desk.new.session ≡ 1) }
{
    let text = text_of(alloc, line_of(row)?)?;
    tell_text(rt, alloc, board, desk, text, row)
}

fn tell_all<St: Store, J: Log<St>, T: Opened>(
    rt: &impl Abort,
    alloc: Global,
    board: &mut Board<St, J, T>,
    desk: &mut Desk<St>,
    rows: &[&str],
) -> Result<(), Fail>
    requires agree { Agrees board.old.kept desk.old }
    requires session { desk.old.session ≡ 1 }
    ensures agree { OnOk result (Agrees board.new.kept desk.new) }
    ensures session { OnOk result (desk.new.session ≡ 1) }
{
    for row in rows {
        tell_row(rt, alloc, board, desk, row)?;
    }
    Ok(())
}

// The step at a place of the list is the line of a row, and has its reply.
fn is_step_of<St: Store, T: Opened>(
    rt: &impl Abort,
    alloc: Global,
    board: &Board<St, NoLog, T>,
    place: usize,
    row: &str,
) -> Result<(), Fail>
    requires { Stands board.now.kept }
{
    step_law();
    let Some(step) = board.steps().get(place) else {
        return Err("a row without a step".into());
    };
    let (word, _) = row.split_once("> ").ok_or("a row without an echo")?;
    is_told(rt, alloc, row, word, &step.line, &step.reply)
}

// The list has the lines and replies of all rows, behind the four of session 2.
fn has_rows<St: Store, T: Opened>(
    rt: &impl Abort,
    alloc: Global,
    board: &Board<St, NoLog, T>,
) -> Result<(), Fail>
    requires { Stands board.now.kept }
{
    for (i, row) in ROWS.iter().enumerate() {
        is_step_of(rt, alloc, board, i.saturating_add(4), row)?;
    }
    Ok(())
}

// The board has all lines in the end.
fn enters_all<St: Store, T: Opened>(
    rt: &impl Abort,
    alloc: Global,
    board: &mut Board<St, NoLog, T>,
    desk: &mut Desk<St>,
) -> Result<(), Fail>
    requires agree { Agrees board.old.kept desk.old }
    requires session { desk.old.session ≡ 1 }
{
    tell_all(rt, alloc, board, desk, &ROWS)?;
    holds(rt, "on dev", desk.current().as_bytes() == b"dev".as_slice());
    holds(rt, "no open transaction", !desk.is_open());
    board.enter(desk)?;
    are_steps(rt, board.steps().get(4..).unwrap_or(&[]), &ROWS)?;
    has_rows(rt, alloc, board)
}

fn run_on<St: Store, T: Opened>(rt: &impl Abort, alloc: Global, store: St) -> Result<(), Fail>
    requires { (T.opened ≡ St.state store) × (T.first ≡ 0) }
{
    let (mut board, mut desk, _second) = with_open::<St, NoLog, T>(rt, alloc, store, NoLog)?;
    enters_all(rt, alloc, &mut board, &mut desk)
}

// On a board under names that are picked for it.
fn run<St: Store>(rt: &impl Abort, alloc: Global, store: St) -> Result<(), Fail> {
    run_on::<St, Brand>(rt, alloc, store)
}

#[test]
fn answers_at_the_desk_or_the_board(rt: HostRuntime) -> Result<(), Fail> {
    run(&rt, rt.alloc(), new_store(rt.alloc())?)
}
