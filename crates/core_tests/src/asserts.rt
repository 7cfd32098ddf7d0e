//! What the tests assert of a row of a table: a word, then the echo of a line and its reply, in one
//! text. A message that is written at each assertion costs more proof than the rest of its test, so
//! the message stands here.
ghost use Rattle.std.specs.Prelude.{IsTrue};
ghost use Rattle.reply_text.specs.Reply.{NamesItsRows};

use db_value::{LineText, Reply, Schema, Step};
use reply_text::{ReplyBytes, write_reply};
use std::alloc::Global;
use std::process::Abort;
use std::test::Fail;

/// What the name says is so.
pub fn holds(rt: &impl Abort, name: &str, is_so: bool) {
    assert!(rt; is_so, "{name}");
}

/// The line of a row.
pub fn line_of(row: &str) -> Result<&str, Fail> {
    let (_, row) = row.split_once("> ").ok_or("a row without an echo")?;
    let (line, _) = row.split_once('\n').ok_or("a row of one line")?;
    Ok(line)
}

/// Is the row this word, and then these bytes?
pub fn is_spelled(row: &str, word: &str, bytes: &[u8]) -> bool {
    row.starts_with(word)
        && row.as_bytes().ends_with(bytes)
        && row.len() == word.len().wrapping_add(bytes.len())
}

fn bytes_of(alloc: Global, text: &LineText, reply: &Reply) -> Result<ReplyBytes, Fail>
    requires { NamesItsRows reply.now }
{
    let (schema, _) = Schema::read(alloc, b"relation items a b\nend\n")?;
    Ok(write_reply(alloc, &schema, text, reply)?)
}

/// The row is this word, and then the line with its reply.
pub fn is_told(
    rt: &impl Abort,
    alloc: Global,
    row: &str,
    word: &str,
    text: &LineText,
    reply: &Reply,
) -> Result<(), Fail>
    requires { NamesItsRows reply.now }
{
    let bytes = bytes_of(alloc, text, reply)?;
    holds(rt, row, is_spelled(row, word, bytes.as_slice()));
    Ok(())
}

// Does the reply tell no rows?
fn tells_no_rows(reply: &Reply) -> bool
    ensures { IsTrue result → NamesItsRows reply.now }
{
    match reply {
        Reply::Listed { .. } => false,
        _ => true,
    }
}

/// The row is this word, and then the line with its reply, which tells no rows.
pub fn is_answered(
    rt: &impl Abort,
    alloc: Global,
    row: &str,
    word: &str,
    text: &LineText,
    reply: &Reply,
) -> Result<(), Fail> {
    if !tells_no_rows(reply) {
        return Err("a reply with rows".into());
    }
    is_told(rt, alloc, row, word, text, reply)
}

/// The last step is that of the row, with its reply, which tells no rows.
pub fn is_last(rt: &impl Abort, alloc: Global, steps: &[Step], row: &str) -> Result<(), Fail> {
    match steps.last() {
        None => Err("no step".into()),
        Some(step) => is_answered(rt, alloc, row, "", &step.line, &step.reply),
    }
}

// The step is the line of a row. It has the mark exactly if the row's word is `marked`.
fn is_step(rt: &impl Abort, step: &Step, row: &str) -> Result<(), Fail> {
    holds(rt, row, step.failed == row.starts_with("marked"));
    holds(rt, row, step.line.as_slice() == line_of(row)?.as_bytes());
    Ok(())
}

/// The steps are the lines of the rows.
pub fn are_steps(rt: &impl Abort, steps: &[Step], rows: &[&str]) -> Result<(), Fail> {
    holds(rt, "as many steps as rows", steps.len() == rows.len());
    for (step, row) in steps.iter().zip(rows.iter()) {
        is_step(rt, step, row)?;
    }
    Ok(())
}
