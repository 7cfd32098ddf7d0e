//! Lists of records and of changes, and the rows and pairs of replies.
use crate::asserts::{holds, same};
use crate::rows::{number, row, text, widest_row};
use db_value::{Changes, OneRow, Pairs, Positions, Record, Records, Rows, Widths};
use std::alloc::{AllocError, Global};
use std::test::Fail;

fn three(alloc: Global) -> Result<Records, AllocError> {
    let mut rows = Records::new(alloc);
    rows.push(&row(2, &[text(b"b"), number(7)]))?;
    rows.push(&row(1, &[number(-1)]))?;
    rows.push(&row(2, &[text(b""), number(8)]))?;
    Ok(rows)
}

// Do the records read as these?
fn are(rows: &Records, expected: &[Record]) -> bool {
    let mut row = Record::blank();
    for at in 0..rows.len() {
        rows.read(at, &mut row);
        match expected.get(at) {
            None => return false,
            Some(other) => {
                if row != *other || rows.key(at) != other.key {
                    return false;
                }
            }
        }
    }
    rows.len() == expected.len()
}

#[test]
fn sorts_records_by_key_and_then_by_fields(rt: HostRuntime) -> Result<(), Fail> {
    let mut rows = three(rt.alloc())?;
    rows.sort();
    let expected = [
        row(1, &[number(-1)]),
        row(2, &[text(b""), number(8)]),
        row(2, &[text(b"b"), number(7)]),
    ];
    holds(&rt, "three records", are(&rows, &expected));
    holds(&rt, "an equal list", are(&rows.duplicate()?, &expected));
    Ok(())
}

#[test]
fn keeps_long_and_short_rows(rt: HostRuntime) -> Result<(), Fail> {
    let widths = Widths::of(&[64; 15]).expect(&rt, "the widest columns");
    let long = widest_row(7, &widths);
    let short = row(8, &[number(1); 6]);
    let mut read = Record::blank();
    for expected in &[long, short] {
        let one = OneRow::some(rt.alloc(), expected)?;
        holds(&rt, "a row", one.read(&mut read));
        holds(&rt, "its key and fields", read == *expected);
    }
    holds(&rt, "no row", !OneRow::none().read(&mut read));
    Ok(())
}

#[test]
fn keeps_changes(rt: HostRuntime) -> Result<(), Fail> {
    let widths = Widths::of(&[8, 0]).expect(&rt, "widths");
    let put = row(5, &[text(b"tag"), number(9)]);
    let mut changes = Changes::new(rt.alloc());
    changes.put(1, &put, &widths)?;
    changes.remove(2, 6)?;
    let mut read = Record::blank();
    holds(&rt, "a put", changes.read(0, &mut read));
    holds(&rt, "its record", read == put);
    same(&rt, "its relation", changes.relation(0), 1);
    holds(&rt, "a deletion", !changes.read(1, &mut read));
    same(&rt, "its key", changes.key(1), 6);
    same(&rt, "two changes", changes.duplicate()?.len(), 2);
    Ok(())
}

#[test]
fn marks_rows_and_pairs_them(rt: HostRuntime) -> Result<(), Fail> {
    let alloc = rt.alloc();
    let alone = Rows::alone(alloc, three(alloc)?)?;
    same(&rt, "three rows", alone.len(), 3);
    if alone.len() == 3 {
        let (first, others) = alone.positions(2);
        same(&rt, "the one version", (first, others.len()), (0, 0));
    }

    let left = three(alloc)?;
    let right = three(alloc)?;
    if left.len() == right.len() {
        let pairs = Pairs::of(alloc, left, right)?;
        let mut one = Record::blank();
        let mut other = Record::blank();
        if pairs.len() == 3 {
            pairs.read(1, &mut one, &mut other);
        }
        holds(&rt, "a pair", one == other && one.key == 1);
    }
    Ok(())
}

#[test]
fn tells_the_versions_of_a_row(rt: HostRuntime) -> Result<(), Fail> {
    let alloc = rt.alloc();
    let mut rows = Records::new(alloc);
    rows.push(&row(1, &[number(1)]))?;
    let mut marks = Vec::new(alloc);
    marks.push(Positions::of(2, Vec::from_slice(alloc, &[5, 9])?))?;
    if marks.len() == rows.len() {
        let marked = Rows::marked(alloc, rows, marks)?;
        if marked.len() == 1 {
            let (first, others) = marked.positions(0);
            holds(
                &rt,
                "three versions",
                first == 2 && others == [5u32, 9].as_slice(),
            );
        }
    }
    Ok(())
}
