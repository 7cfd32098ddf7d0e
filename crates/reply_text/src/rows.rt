//! Rows with the versions that have them, and pairs.
ghost use Rattle.std.specs.Prelude.{◌≡◌, ◌<◌, ◌++◌, ◌∷◌, length, OnOk};
ghost use Rattle.std.specs.List.{All, flat_map};
ghost use Rattle.db_value.specs.Marks.{marked_here};
ghost use Rattle.db_value.specs.Pairs.{pair_here};
ghost use Rattle.reply_text.specs.Rows.{HasNames, name_at, next_name, in_text, marked_text, pair_text};

use crate::writer::Writer;
use db_value::{Pairs, Record, Rows, VersionName};
use std::alloc::AllocError;

fn write_name(out: &mut Writer, names: &[VersionName], place: u32) -> Result<(), AllocError>
    requires { place < length names.now }
    ensures { OnOk result (out.new ≡ out.old ++ name_at names.now place) }
{
    out.version(&names[place as usize])
}

fn write_next_names(
    out: &mut Writer,
    names: &[VersionName],
    places: &[u32],
) -> Result<(), AllocError>
    requires { All (λ p. p < length names.now) places.now }
    ensures { OnOk result (out.new ≡ out.old ++ flat_map (next_name names.now) places.now) }
{
    for place in places {
        out.text(b",")?;
        write_name(out, names, *place)?;
    }
    Ok(())
}

// The names of the versions that have a row: the first one, and others.
fn write_in(
    out: &mut Writer,
    names: &[VersionName],
    first: u32,
    others: &[u32],
) -> Result<(), AllocError>
    requires { HasNames names.now (first ∷ others.now) }
    ensures { OnOk result (out.new ≡ out.old ++ in_text names.now (first ∷ others.now)) }
{
    if names.is_empty() {
        return Ok(());
    }
    out.text(b" in ")?;
    write_name(out, names, first)?;
    write_next_names(out, names, others)
}

// The line of the row at a place, which is read first.
fn write_marked(
    out: &mut Writer,
    names: &[VersionName],
    rows: &Rows,
    index: usize,
    row: &mut Record,
) -> Result<(), AllocError>
    requires there { index < length rows.now }
    requires names { HasNames names.now (marked_here rows.now index).positions }
    ensures { OnOk result (out.new
        ≡ out.old ++ marked_text names.now (marked_here rows.now index)) }
{
    rows.read(index, row);
    let (first, others) = rows.positions(index);
    out.record(row)?;
    write_in(out, names, first, others)?;
    out.end_line()
}

/// The lines of rows.
pub fn write_rows(out: &mut Writer, names: &[VersionName], rows: &Rows) -> Result<(), AllocError>
    requires { All (λ m. HasNames names.now m.positions) rows.now }
    ensures { OnOk result (out.new ≡ out.old ++ flat_map (marked_text names.now) rows.now) }
{
    let mut row = Record::blank();
    for index in 0..rows.len() {
        write_marked(out, names, rows, index, &mut row)?;
    }
    Ok(())
}

// The line of the pair at a place, whose records are read first.
fn write_pair(
    out: &mut Writer,
    pairs: &Pairs,
    index: usize,
    left: &mut Record,
    right: &mut Record,
) -> Result<(), AllocError>
    requires { index < length pairs.now }
    ensures { OnOk result (out.new ≡ out.old ++ pair_text (pair_here pairs.now index)) }
{
    pairs.read(index, left, right);
    out.text(b"pair ")?;
    out.number(left.key)?;
    out.fields(&left.fields)?;
    out.text(b" |")?;
    out.fields(&right.fields)?;
    out.end_line()
}

/// The lines of pairs.
pub fn write_pairs(out: &mut Writer, pairs: &Pairs) -> Result<(), AllocError>
    ensures { OnOk result (out.new ≡ out.old ++ flat_map pair_text pairs.now) }
{
    let mut left = Record::blank();
    let mut right = Record::blank();
    for index in 0..pairs.len() {
        write_pair(out, pairs, index, &mut left, &mut right)?;
    }
    Ok(())
}
