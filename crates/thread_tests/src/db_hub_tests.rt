//! A room on one thread. What is told was worked out by hand.
ghost use Rattle.std.specs.Prelude.{◌≡◌, ◌∷◌, [], false, Some, IfOk, OnOk};
ghost use Rattle.plain_store.specs.PlainStore.{state_of};
ghost use Rattle.history_note.specs.Shown.{new_pen};
ghost use Rattle.db_core.specs.Order.{said_of};
ghost use Rattle.db_core.specs.Sits.{heard};
ghost use Rattle.db_hub.specs.Rooms.{IsOut, IsUnused};
ghost use Rattle.thread_tests.specs.Said.{HasSaid, MayLeave, HasLeft};

use crate::asserts::holds;
use crate::boards::{new_board, new_store};
use db_hub::{LogTag, Room, Seat, Tag};
use db_value::{LineText, ListOf, Reply, Step};
use entry_codec::NoLog;
use history_note::{Note, Pen};
use plain_store::PlainStore;
use std::alloc::Global;
use std::marker::Brand;
use std::process::Abort;
use std::test::Fail;
use stmt_text::{Line, Stmt, read_line};

// A line of session 1, with the statement that it says.
fn line_from(alloc: Global, text: &str) -> Result<(LineText, Stmt), Fail>
    ensures { IfOk result (λ r. said_of r.0 false ≡ heard 1 r.1) }
{
    let Ok(line) = read_line(alloc, text.as_bytes()) else {
        return Err("no line".into());
    };
    if line.session != 1 {
        return Err("a line of another session".into());
    }
    let text = ListOf::of(text.as_bytes().to_vec(alloc)?);
    let Line { stmt, .. } = line;
    Ok((text, stmt))
}

// Session 1 says a line at the room.
fn say<T: LogTag<NoLog>>(
    alloc: Global,
    room: &mut Room<PlainStore, NoLog, T>,
    seat: &mut Seat<PlainStore, T>,
    text: &str,
) -> Result<(), Fail>
    requires out { IsOut room.old.out seat.old }
    requires session { seat.old.desk.session ≡ 1 }
    requires none { seat.old.desk.waiting ≡ [] }
    ensures { OnOk result (HasSaid 1 room.old room.new seat.old seat.new) }
{
    let (text, stmt) = line_from(alloc, text)?;
    room.visit(seat, text, &stmt)?;
    Ok(())
}

// Session 1 goes to another branch.
fn say_aside<T: LogTag<NoLog>>(
    alloc: Global,
    room: &mut Room<PlainStore, NoLog, T>,
    seat: &mut Seat<PlainStore, T>,
) -> Result<(), Fail>
    requires out { IsOut room.old.out seat.old }
    requires session { seat.old.desk.session ≡ 1 }
    requires none { seat.old.desk.waiting ≡ [] }
    ensures { OnOk result (HasSaid 2 room.old room.new seat.old seat.new) }
{
    say(alloc, room, seat, "1 branch side of master")?;
    say(alloc, room, seat, "1 on side")?;
    Ok(())
}

// The seat is closed.
fn leave<T: LogTag<NoLog>>(
    room: &mut Room<PlainStore, NoLog, T>,
    seat: Seat<PlainStore, T>,
) -> Result<(), Fail>
    requires leaves { T.stays ≡ false }
    requires may { MayLeave room.old seat }
    ensures { OnOk result (HasLeft room.new) }
{
    if seat.is_open() {
        return Err("a transaction is open".into());
    }
    match room.close(seat) {
        Ok(_) => Ok(()),
        Err(_) => Err("the seat wasn't closed".into()),
    }
}

// Session 1 goes to another branch, and its seat is closed.
fn go_aside<T: LogTag<NoLog>>(
    alloc: Global,
    room: &mut Room<PlainStore, NoLog, T>,
) -> Result<(), Fail>
    requires numbers { T.numbers ≡ (0, 1) ∷ (1, 1) ∷ [] }
    requires since { T.since 0 ≡ 0 }
    requires leaves { T.stays ≡ false }
    requires none { IsUnused room.old }
    ensures { OnOk result (HasLeft room.new) }
{
    let mut seat = room.seat(1)?;
    say_aside(alloc, room, &mut seat)?;
    leave(room, seat)
}

// Are the seats of these sessions out, and no other?
fn are_out<T: LogTag<NoLog>>(room: &Room<PlainStore, NoLog, T>, sessions: &[u32]) -> bool {
    match room.out() {
        Ok(out) => out.as_slice() == sessions,
        Err(_) => false,
    }
}

// Session 1 has its seat again. Is it where it was?
fn come_back<T: LogTag<NoLog>>(
    alloc: Global,
    room: &mut Room<PlainStore, NoLog, T>,
) -> Result<bool, Fail>
    requires numbers { T.numbers ≡ (0, 1) ∷ (1, 1) ∷ [] }
    requires since { T.since 1 ≡ 2 }
    requires left { HasLeft room.old }
{
    let was_gone = are_out(room, &[]);
    let mut seat = room.seat(1)?;
    let is_there = are_out(room, &[1]);
    let is_aside = seat.current().as_bytes() == b"side".as_slice();
    say(alloc, room, &mut seat, "1 insert items 1 1")?;
    Ok(was_gone && is_there && is_aside)
}

fn go_on<T: LogTag<NoLog>>(
    alloc: Global,
    room: &mut Room<PlainStore, NoLog, T>,
) -> Result<bool, Fail>
    requires numbers { T.numbers ≡ (0, 1) ∷ (1, 1) ∷ [] }
    requires since { (T.since 0 ≡ 0) × (T.since 1 ≡ 2) }
    requires leaves { T.stays ≡ false }
    requires none { IsUnused room.old }
{
    go_aside(alloc, room)?;
    come_back(alloc, room)
}

// That in a room of a new board, and the lines that it leaves.
fn go_on_named<T: LogTag<NoLog>>(
    alloc: Global,
    store: PlainStore,
    log: NoLog,
    note: Note<PlainStore>,
    pen: Pen<PlainStore>,
) -> Result<(Result<bool, Fail>, Vec<Step>), Fail>
    requires numbers { T.numbers ≡ (0, 1) ∷ (1, 1) ∷ [] }
    requires since { (T.since 0 ≡ 0) × (T.since 1 ≡ 2) }
    requires leaves { T.stays ≡ false }
    requires opened { (T.opened ≡ state_of store) × (T.first ≡ 0) }
    requires log { T.log ≡ Some log }
    requires note { (note ≡ record { note = T.note; opening = T.opened }) × (pen ≡ new_pen note) }
{
    let board = new_board::<PlainStore, NoLog, T>(alloc, store, log)?;
    let mut room = Room::<PlainStore, NoLog, T>::new(alloc, board, note, pen);
    let told = go_on(alloc, &mut room);
    let Room { board, .. } = room;
    let (_log, steps) = board.into_steps();
    Ok((told, steps))
}

// Is it told that this version was made?
fn is_made(reply: &Reply, name: &[u8], at: u32) -> bool {
    match reply {
        Reply::Made { branch, position } => branch.as_bytes() == name && *position == at,
        _ => false,
    }
}

// Are these the three lines with their replies?
fn are_said(steps: &[Step]) -> bool {
    match steps {
        [branch, on, insert] => {
            branch.line.as_slice() == b"1 branch side of master".as_slice()
                && is_made(&branch.reply, b"side", 0)
                && on.line.as_slice() == b"1 on side".as_slice()
                && matches!(on.reply, Reply::Done)
                && insert.line.as_slice() == b"1 insert items 1 1".as_slice()
                && is_made(&insert.reply, b"side", 1)
        }
        _ => false,
    }
}

#[test]
fn a_session_goes_on_where_its_seat_was_closed(rt: HostRuntime) -> Result<(), Fail> {
    let store = new_store(rt.alloc())?;
    let (note, pen) = Note::new(rt.alloc(), &store)?;
    let (told, steps) = go_on_named::<Brand>(rt.alloc(), store, NoLog, note, pen)?;
    holds(&rt, "the session is where it was", told?);
    holds(&rt, "the lines of the board", are_said(&steps));
    Ok(())
}
