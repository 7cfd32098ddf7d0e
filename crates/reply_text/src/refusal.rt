//! The number and the text of each refusal.
ghost use Rattle.std.specs.Prelude.{◌≡◌, ◌++◌, OnOk};
ghost use Rattle.reply_text.specs.Piece.{numbered_text};
ghost use Rattle.reply_text.specs.Refusal.{differing_text, refusal_text};

use crate::writer::Writer;
use db_value::{Name, Refusal};
use std::alloc::AllocError;

fn write_named(out: &mut Writer, text: &[u8], name: &Name) -> Result<(), AllocError>
    ensures { OnOk result (out.new ≡ out.old ++ (text.now ++ name.now)) }
{
    out.text(text)?;
    out.name(name)
}

fn write_numbered(out: &mut Writer, text: &[u8], name: &Name, n: u64) -> Result<(), AllocError>
    ensures { OnOk result (out.new ≡ out.old ++ (text.now ++ numbered_text name.now n)) }
{
    out.text(text)?;
    out.numbered(name.as_bytes(), n)
}

fn write_differing(out: &mut Writer, field: &Option<Name>) -> Result<(), AllocError>
    ensures { OnOk result (out.new ≡ out.old ++ differing_text field.now) }
{
    match field {
        None => out.text(b"*"),
        Some(name) => out.name(name),
    }
}

/// The number of a refusal, and its text.
#[rattlefmt::skip]
pub fn write_refusal(out: &mut Writer, why: &Refusal) -> Result<(), AllocError>
    ensures { OnOk result (out.new ≡ out.old ++ refusal_text why.now) }
{
    match why {
        Refusal::Line => out.text(b"1 bad line"),
        Refusal::NoRelation { relation } => write_named(out, b"2 no relation ", relation),
        Refusal::NoColumn { column } => write_named(out, b"3 no column ", column),
        Refusal::NoBranch { branch } => write_named(out, b"4 no branch ", branch),
        Refusal::NoVersion { branch, position } => {
            out.text(b"5 no version ")?;
            out.place(branch, Some(*position))
        }
        Refusal::KeyThere { relation, key } => write_numbered(out, b"6 key there ", relation, *key),
        Refusal::KeyMissing { relation, key } => write_numbered(out, b"7 key missing ", relation, *key),
        Refusal::Held { lock, by } => {
            write_named(out, b"8 held ", lock)?;
            out.text(b" by ")?;
            out.number(u64::from(*by))
        }
        Refusal::Conflict { relation, key, field } => {
            write_numbered(out, b"9 conflict ", relation, *key)?;
            out.text(b" ")?;
            write_differing(out, field)
        }
        Refusal::InTransaction => out.text(b"10 in transaction"),
        Refusal::NoTransaction => out.text(b"11 no transaction"),
        Refusal::Room { room } => {
            out.text(b"12 room ")?;
            out.number(u64::from(*room))
        }
        Refusal::NotFirst => out.text(b"13 not first"),
        Refusal::BranchThere { branch } => write_named(out, b"14 branch there ", branch),
        Refusal::BranchesFull => out.text(b"15 branches full"),
        Refusal::VersionsFull { branch } => write_named(out, b"16 versions full ", branch),
        Refusal::TableFull { relation } => write_named(out, b"17 table full ", relation),
        Refusal::Skipped => out.text(b"18 skipped"),
        Refusal::FaultDisk => out.text(b"19 fault disk"),
        Refusal::BodyFull => out.text(b"20 body full"),
        Refusal::ValueCount { relation, columns } => write_numbered(out, b"21 value count ", relation, u64::from(*columns)),
        Refusal::WrongKind { column } => write_named(out, b"22 wrong kind ", column),
        Refusal::TextTooLong { column } => write_named(out, b"23 text too long ", column),
    }
}
