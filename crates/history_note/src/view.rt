// What the pen and the passes of a note know. No value of these types is made.
use db_value::{LineText, Step};
use std::collections::LinkedList;

/// A line of the list: its step, and the number that it was entered with.
pub struct NotedLine {
    pub number: u32,
    pub step: Step,
}

/// What a pass knows: its number, the session for which it was issued, a beginning of the list, the places in it of the lines that
/// were entered with the pass, and the line that waited to be written when the pass was handed out.
pub struct PassView<St> {
    pub opening: St,
    pub number: u32,
    pub session: u32,
    pub seen: LinkedList<NotedLine>,
    pub mine: LinkedList<u64>,
    pub left: Option<LineText>,
}

/// What a pen knows: the numbers that it noted, each with its session, the whole list, the places of lines that it owes to numbers, the
/// lines that it keeps for numbers until they are written, and the pass that it carries, with the line that it kept for this pass's number
/// when it took the pass in. A step that needs a number or a session takes the ones that the pen said last.
pub struct PenView<St> {
    pub opening: St,
    pub noted: LinkedList<(u32, u32)>,
    pub lines: LinkedList<NotedLine>,
    pub owed: LinkedList<(u32, u64)>,
    pub kept: LinkedList<(u32, LineText)>,
    pub carried: Option<PassView<St>>,
    pub kept_then: Option<LineText>,
    pub said_number: u32,
    pub said_session: u32,
}

/// What a seat of the note's table knows. A pass that was taken in is spent.
pub enum View<St> {
    Spent,
    OfPen(PenView<St>),
    OfPass(PassView<St>),
}
