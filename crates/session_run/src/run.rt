//! Sections, each on a thread of its own, at one board.
ghost use Rattle.std.specs.Prelude.{◌≡◌, ◌≤◌, ℕ, [], length, Some, IfOk, IfErr, MatchResult};
ghost use Rattle.stmt_text.specs.Sections.{AllOwn, Above};
ghost use Rattle.history_note.specs.Shown.{new_pen};
ghost use Rattle.db_outside.specs.Count.{counted};
ghost use Rattle.db_core.specs.Kept.{Stands, new_kept};
ghost use Rattle.db_core.specs.Runs.{StoresSteps};
ghost use Rattle.session_run.specs.Runs.{HasRun, IsNew, IsInterleaving, IsBeginning, IsNamed, AreReady, EndsWith, Ends};

use crate::jobs::{Jobs, run_jobs, seated};
use crate::tie::tie_all;
use db_core::Board;
use db_hub::{Hub, LineBatch, LogTag, Patience, Room, Shell, Whole};
use db_outside::Gate;
use db_store::Store;
use db_value::Step;
use entry_codec::Log;
use history_note::{Note, Pen};
use std::alloc::{AllocError, Global};
use std::marker::Brand;
use std::sync::{Mutex, Wait};
use std::thread::Threads;
use stmt_text::{Section, Sections};

/// Why not all sections were run to their ends. The board has the lines that were.
#[derive(Clone, Copy, PartialEq, Eq)]
pub enum Unfinished {
    /// There was no memory for a line. The list has a beginning of each section.
    Memory,
    /// There was no memory for a pass, so it isn't known how far its section came.
    PassLost,
}

// A hub at a board, and a job for each section with its seat; or the board, where there is no memory for these.
fn opened<St: Store, J: Log<St>, T: LogTag<J>>(
    alloc: Global,
    sections: Vec<Section>,
    board: Board<St, J, T>,
    note: Note<St>,
    pen: Pen<St>,
) -> Result<(Hub<St, J, T>, Jobs<St, T>), Board<St, J, T>>
    requires sections { (length sections.items ≤ 65) × AllOwn sections.items
        × Above 0 sections.items }
    requires board { IsNew board.kept }
    requires named { (note.opening ≡ board.kept.opening) × (pen ≡ new_pen note)
        × IsNamed T.note T.opened T.first T.numbers T.since T.stays note board.kept
        sections.items
        × (T.log ≡ Some board.log) }
    ensures jobs { IfOk result (λ made. AreReady 0 sections.items made.1) }
    ensures board { IfErr result (λ b. b ≡ board) }
{
    let Ok(batch) = LineBatch::<St>::new(alloc) else {
        return Err(board);
    };
    let mut room = Room::<St, J, T>::new(alloc, board, note, pen);
    match seated(alloc, &mut room, sections) {
        Err(AllocError) => {
            let Room { board, .. } = room;
            Err(board)
        }
        Ok(jobs) => {
            let whole = Whole {
                room: Shell { inner: room },
                batch,
                patience: Patience::new(),
            };
            let hub = Hub {
                lock: Mutex::new(whole),
            };
            Ok((hub, jobs))
        }
    }
}

// Runs sections on a new board. It gives the board back, and tells why not all were run to their ends, if so.
fn run_named<
    St: Store + Send + Sync,
    J: Log<St> + Send,
    T: LogTag<J> + Send + Sync,
    R: Threads + Wait + Sync,
    G: Gate + Sync,
>(
    rt: &R,
    alloc: Global,
    sections: Vec<Section>,
    board: Board<St, J, T>,
    note: Note<St>,
    pen: Pen<St>,
    gate: &G,
) -> Result<Board<St, J, T>, (Unfinished, Board<St, J, T>)>
where
    St::View: Send + Sync,
    St::Prepared: Send + Sync,
    St::PreparedBranch: Send + Sync,
    requires sections { (length sections.items ≤ 65) × AllOwn sections.items
        × Above 0 sections.items }
    requires board { IsNew board.kept }
    requires named { (note.opening ≡ board.kept.opening) × (pen ≡ new_pen note)
        × IsNamed T.note T.opened T.first T.numbers T.since T.stays note board.kept
        sections.items
        × (T.log ≡ Some board.log) }
    ensures ok { IfOk result (λ b. HasRun board.kept b.kept
        × IsInterleaving board.kept.opening sections.items b.kept.steps) }
    ensures err { IfErr result (λ e. HasRun board.kept e.1.kept
        × IsBeginning e.0 board.kept.opening sections.items e.1.kept.steps) }
    ensures stored { MatchResult result
        (λ b. StoresSteps J.Log board.log b) (λ e. StoresSteps J.Log board.log e.1) }
{
    match opened(alloc, sections, board, note, pen) {
        Err(board) => Err((Unfinished::Memory, board)),
        Ok((hub, jobs)) => {
            let run = run_jobs(rt, alloc, &hub, jobs, gate);
            let Hub { lock } = hub;
            let whole = lock.into_inner();
            let Whole { room: shell, .. } = whole;
            let Shell { inner: left } = shell;
            let Room {
                board,
                note,
                mut pen,
                ..
            } = left;
            match tie_all(&note, &mut pen, run) {
                Err(why) => Err((why, board)),
                Ok(()) => Ok(board),
            }
        }
    }
}

// Runs sections on a board, and tells why not all were run to their ends, if so.
fn run_to_end<
    St: Store + Send + Sync,
    J: Log<St> + Send,
    T: LogTag<J> + Send + Sync,
    R: Threads + Wait + Sync,
    G: Gate + Sync,
>(
    rt: &R,
    alloc: Global,
    sections: Vec<Section>,
    board: Board<St, J, T>,
    note: Note<St>,
    pen: Pen<St>,
    gate: &G,
) -> (Option<Unfinished>, Board<St, J, T>)
where
    St::View: Send + Sync,
    St::Prepared: Send + Sync,
    St::PreparedBranch: Send + Sync,
    requires sections { (length sections.items ≤ 65) × AllOwn sections.items
        × Above 0 sections.items }
    requires board { IsNew board.kept }
    requires named { (note.opening ≡ board.kept.opening) × (pen ≡ new_pen note)
        × IsNamed T.note T.opened T.first T.numbers T.since T.stays note board.kept
        sections.items
        × (T.log ≡ Some board.log) }
    ensures list { EndsWith result.0 board.kept.opening sections.items result.1.kept.steps }
    ensures ran { HasRun board.kept result.1.kept }
    ensures stored { StoresSteps J.Log board.log result.1 }
{
    match run_named(rt, alloc, sections, board, note, pen, gate) {
        Ok(board) => (None, board),
        Err((why, board)) => (Some(why), board),
    }
}

// It does nothing. A board on the state of a store stands before its first line.
fn new_stands<St: Store>(_store: &St)
    ensures { Stands (new_kept (St.state _store.now) 0) }
{}

// Runs sections on a new board under the names of a tag, with memory for so many lines if there is.
fn run_new<
    St: Store + Send + Sync,
    J: Log<St> + Send,
    T: LogTag<J> + Send + Sync,
    R: Threads + Wait + Sync,
    G: Gate + Sync,
>(
    rt: &R,
    alloc: Global,
    sections: Vec<Section>,
    lines: u32,
    store: St,
    log: J,
    note: Note<St>,
    pen: Pen<St>,
    gate: &G,
) -> (Option<Unfinished>, J, Vec<Step>)
where
    St::View: Send + Sync,
    St::Prepared: Send + Sync,
    St::PreparedBranch: Send + Sync,
    requires sections { (length sections.items ≤ 65) × AllOwn sections.items
        × Above 0 sections.items }
    requires named { (note.opening ≡ St.state store) × (pen ≡ new_pen note)
        × IsNamed T.note T.opened T.first T.numbers T.since T.stays note
        (new_kept (St.state store) (counted (J.faults log))) sections.items
        × (T.log ≡ Some log) }
    ensures { Ends J.Log (St.state store) log sections.items result.0 result.1
        result.2.items }
{
    new_stands(&store);
    match Board::<St, J, T>::new(alloc, store, log) {
        Err((AllocError, _, log)) => (Some(Unfinished::Memory), log, Vec::new(alloc)),
        Ok(board) => {
            let mut board = board;
            // Without room at once each line takes its own.
            let _ = board.reserve(lines);
            let (why, board) = run_to_end(rt, alloc, sections, board, note, pen, gate);
            let (log, steps) = board.into_steps();
            (why, log, steps)
        }
    }
}

/// Runs each section on a thread of its own, on a dataset with its log, with memory for so many lines
/// if there is. It gives the log back, and the list of lines with their replies: an interleaving of the
/// sections, in which each line has the reply of its whole transaction. A section whose thread can't be
/// started runs on the thread that would have started it. The gate is called before each line of a
/// section. After want of memory the list has a beginning of each section, unless a pass was lost. In
/// either case the log did for the lines of the list, as if they had been run one after another, what a
/// log does.
pub fn run_sessions<
    St: Store + Send + Sync,
    J: Log<St> + Send,
    R: Threads + Wait + Sync,
    G: Gate + Sync,
>(
    rt: &R,
    alloc: Global,
    sections: Sections,
    lines: u32,
    store: St,
    log: J,
    gate: &G,
) -> (Option<Unfinished>, J, Vec<Step>)
where
    St::View: Send + Sync,
    St::Prepared: Send + Sync,
    St::PreparedBranch: Send + Sync,
    ensures { Ends J.Log (St.state store) log sections result.0 result.1 result.2.items }
{
    new_stands(&store);
    match Note::new(alloc, &store) {
        Err(AllocError) => (Some(Unfinished::Memory), log, Vec::new(alloc)),
        Ok((note, pen)) => run_new::<St, J, Brand, R, G>(
            rt,
            alloc,
            sections.into_vec(),
            lines,
            store,
            log,
            note,
            pen,
            gate,
        ),
    }
}
