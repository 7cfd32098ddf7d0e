//! The echo of a line, and its reply.
ghost use Rattle.std.specs.Prelude.{◌≡◌, ◌++◌, IfOk, OnOk};
ghost use Rattle.db_value.specs.declared.reply.Reply.TheVariants.{One};
ghost use Rattle.reply_text.specs.Reply.{NamesItsRows, echo_text, reply_text};

use crate::refusal::write_refusal;
use crate::report::{write_log, write_log_end, write_segments};
use crate::rows::{write_pairs, write_rows};
use crate::writer::Writer;
use db_value::{LineText, ListOf, OneRow, Record, Reply, Schema};
use std::alloc::{AllocError, Global};

/// The bytes that answer a line.
pub type ReplyBytes = ListOf<u8>;

fn write_echo(out: &mut Writer, line: &[u8]) -> Result<(), AllocError>
    ensures { OnOk result (out.new ≡ out.old ++ echo_text line.now) }
{
    out.text(b"> ")?;
    out.text(line)?;
    out.end_line()
}

// The line of a record, or of none.
fn write_one(out: &mut Writer, row: &OneRow) -> Result<(), AllocError>
    ensures { OnOk result (out.new ≡ out.old ++ reply_text (One row.now)) }
{
    let mut found = Record::blank();
    if !row.read(&mut found) {
        return out.text(b"none\n");
    }
    out.record(&found)?;
    out.end_line()
}

fn write_answer(out: &mut Writer, reply: &Reply) -> Result<(), AllocError>
    requires { NamesItsRows reply.now }
    ensures { OnOk result (out.new ≡ out.old ++ reply_text reply.now) }
{
    match reply {
        Reply::Done => out.text(b"ok\n"),
        Reply::Made { branch, position } => {
            out.text(b"ok ")?;
            out.place(branch, Some(u64::from(*position)))?;
            out.end_line()
        }
        Reply::One { row } => write_one(out, row),
        Reply::Listed { names, rows } => {
            write_rows(out, names.as_slice(), rows)?;
            out.count(b"rows", rows.len())
        }
        Reply::Paired { pairs } => {
            write_pairs(out, pairs)?;
            out.count(b"rows", pairs.len())
        }
        Reply::Versions { lines, whole } => {
            let lines = lines.as_slice();
            write_log(out, lines)?;
            write_log_end(out, lines, *whole)
        }
        Reply::Layout { lines } => {
            let segments = lines.as_slice();
            write_segments(out, segments)?;
            out.count(b"segments", segments.len())
        }
        Reply::Refused { why } => {
            out.text(b"refused ")?;
            write_refusal(out, why)?;
            out.end_line()
        }
    }
}

/// Adds the bytes that answer a line: its echo, and its reply.
pub fn add_reply(out: &mut Writer, line: &LineText, reply: &Reply) -> Result<(), AllocError>
    requires { NamesItsRows reply.now }
    ensures { OnOk result (out.new ≡ out.old ++ (echo_text line.now ++ reply_text reply.now)) }
{
    write_echo(out, line.as_slice())?;
    write_answer(out, reply)
}

/// The echo of a line, and its reply.
///
/// The schema is that of the dataset which gave the reply. No text depends on it: a reply names its
/// relations and columns itself.
pub fn write_reply(
    alloc: Global,
    _schema: &Schema,
    line: &LineText,
    reply: &Reply,
) -> Result<ReplyBytes, AllocError>
    requires { NamesItsRows reply.now }
    ensures { IfOk result (λ bytes. bytes ≡ echo_text line.now ++ reply_text reply.now) }
{
    let mut out = Writer::new(alloc);
    add_reply(&mut out, line, reply)?;
    Ok(ListOf::of(out.into_bytes()))
}
