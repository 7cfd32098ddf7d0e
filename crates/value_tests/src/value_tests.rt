//! Texts, values and their order, and widths, beside tables written by hand.
use crate::asserts::{holds, same};
use crate::rows::{number, row, text, widest_row};
use db_value::{ShortText, Value, Widths};

#[rattlefmt::skip]
const TEXTS: [(&str, &[u8], bool); 8] = [
    // what                 bytes            is a text
    ("no byte",             b"",             true),
    ("a space",             &[32],           true),
    ("below the space",     &[31],           false),
    ("a double quote",      b"a\"b",         false),
    ("the last byte",       &[126],          true),
    ("after the last",      &[127],          false),
    ("64 bytes",            &[b'x'; 64],     true),
    ("65 bytes",            &[b'x'; 65],     false),
];

#[test]
fn takes_texts_by_the_table(rt: HostRuntime) {
    for (name, bytes, is) in &TEXTS {
        holds(&rt, name, ShortText::of(bytes).is_some() == *is);
    }
}

fn ascend(values: &[Value]) -> bool {
    for at in 1..values.len() {
        if values[at - 1] >= values[at] || values[at - 1] == values[at] {
            return false;
        }
    }
    true
}

// Numbers by value and before all texts, and texts by their bytes, a proper prefix first.
#[test]
fn values_ascend(rt: HostRuntime) {
    let values = [
        number(i64::MIN),
        number(-1),
        number(0),
        number(i64::MAX),
        text(b""),
        text(b" "),
        text(b"9"),
        text(b"Z"),
        text(b"a"),
        text(b"aa"),
        text(b"ab"),
        text(b"b"),
    ];
    holds(&rt, "values", ascend(&values));
}

#[rattlefmt::skip]
const MEETINGS: [(&str, &[u8], bool, bool); 6] = [
    // widths                           of a row           3 and "ab"  "ab" and 3
    ("a number and a text",             &[0, 2],           true,       false),
    ("a text that is too long",         &[0, 1],           false,      false),
    ("two numbers",                     &[0, 0],           false,      false),
    ("two texts",                       &[8, 8],           false,      false),
    ("one column",                      &[0],              false,      false),
    ("the widest text and a number",    &[64, 0],          false,      true),
];

#[test]
fn rows_meet_widths_by_the_table(rt: HostRuntime) {
    let one = row(1, &[number(3), text(b"ab")]);
    let other = row(1, &[text(b"ab"), number(3)]);
    for (name, widths, first, second) in &MEETINGS {
        let meets = Widths::of(widths).map(|w| (w.meets(&one.fields), w.meets(&other.fields)));
        same(&rt, name, meets, Some((*first, *second)));
    }
    holds(&rt, "a width of 65", Widths::of(&[65]).is_none());
    holds(&rt, "no column", Widths::of(&[]).is_none());
    holds(&rt, "16 columns", Widths::of(&[0; 16]).is_none());
}

#[test]
fn longest_rows_meet_their_widths(rt: HostRuntime) {
    let widths = Widths::of(&[64; 15]).expect(&rt, "the widest columns");
    let row = widest_row(1, &widths);
    holds(&rt, "15 texts of 64 bytes", widths.meets(&row.fields));
    same(&rt, "their packed bytes", row.fields.packed().len(), 976);
}
