//! Lines of schemas, and conditions on rows with texts, beside tables written by hand.
use crate::asserts::holds;
use crate::rows::{number, text};
use db_value::{
    Column, Fields, ListOf, Name, Op, Pred, PredStop, Record, Schema, ShortText, Term, TermValue,
    Terms,
};
use std::alloc::Global;
use std::test::Fail;

#[rattlefmt::skip]
const LINES: [(&str, &str, &str); 19] = [
    // what                      the columns      their names and widths
    ("a column of numbers",      "a",             "a 0, "),
    ("a column of texts",        "a:1",           "a 1, "),
    ("texts and numbers",        "name:8 n",      "name 8, n 0, "),
    ("a width of two digits",    "a:10",          "a 10, "),
    ("the greatest width",       "a:64",          "a 64, "),
    ("a width too great",        "a:65",          "none"),
    ("three digits",             "a:100",         "none"),
    ("width 0",                  "a:0",           "none"),
    ("a leading zero",           "a:08",          "none"),
    ("no width",                 "a:",            "none"),
    ("a sign",                   "a:+8",          "none"),
    ("a letter",                 "a:x",           "none"),
    ("a letter behind a digit",  "a:6x",          "none"),
    ("two widths",               "a:8:8",         "none"),
    ("no name",                  ":8",            "none"),
    ("a reserved word",          "key:8",         "none"),
    ("a name twice",             "a a:8",         "none"),
    ("a space before the colon", "a :8",          "none"),
    ("a space behind the colon", "a: 8",          "none"),
];

fn spell_columns(text: &mut String, columns: &[Column]) -> Result<(), Fail> {
    for column in columns {
        text.push_str(str::from_utf8(column.name.as_bytes())?)?;
        write!(text, " {}, ", column.width)?;
    }
    Ok(())
}

// The names and widths of a relation with these columns, if it is one.
fn read_columns(alloc: Global, columns: &str) -> Result<String, Fail> {
    let schema = format!(in alloc; "relation r {columns}\nend\n")?;
    let mut text = String::new(alloc);
    match Schema::read(alloc, schema.as_bytes()) {
        Err(_) => text.push_str("none")?,
        Ok((schema, _)) => {
            for relation in schema.relations() {
                spell_columns(&mut text, relation.columns.as_slice())?;
            }
        }
    }
    Ok(text)
}

#[test]
fn reads_columns_by_the_table(rt: HostRuntime) -> Result<(), Fail> {
    for (name, columns, expected) in &LINES {
        let read = read_columns(rt.alloc(), columns)?;
        holds(&rt, name, read.as_str() == *expected);
    }
    Ok(())
}

// A text of a term.
fn against(bytes: &[u8]) -> Result<TermValue, Fail> {
    let text = ShortText::of(bytes).ok_or("text")?;
    Ok(TermValue::Text { text })
}

// Why a condition can't be asked.
fn told(stop: &PredStop) -> &'static str {
    match stop {
        PredStop::NoColumn { .. } => "no column",
        PredStop::WrongKind { column } => {
            if column.as_bytes() == b"n".as_slice() {
                return "wrong kind n";
            }
            "wrong kind name"
        }
        PredStop::Memory => "memory",
    }
}

// What a condition on the row `7 "ab" 5` of a relation with columns `name:4` and `n` says: yes, no, or
// the column for which it can't be asked.
fn ask(alloc: Global, terms: &Terms) -> Result<&'static str, Fail> {
    let (schema, _) = Schema::read(alloc, b"relation tags name:4 n\nend\n")?;
    let fields = Fields::of(&[text(b"ab"), number(5)]).ok_or("fields")?;
    match Pred::resolve(alloc, &schema, 0, terms) {
        Ok(pred) => {
            if pred.holds(&Record { key: 7, fields }) {
                return Ok("yes");
            }
            Ok("no")
        }
        Err(stop) => Ok(told(&stop)),
    }
}

// The same of one term.
fn ask_one(alloc: Global, term: Term) -> Result<&'static str, Fail> {
    let terms = ListOf::of(Vec::from_slice(alloc, &[term])?);
    ask(alloc, &terms)
}

#[rattlefmt::skip]
const TEXTS: [(&str, &str, Op, &[u8], &str); 14] = [
    // what                            column   comparison    text       the answer
    ("the text",                       "name",  Op::Equal,    b"ab",     "yes"),
    ("another text",                   "name",  Op::Equal,    b"ac",     "no"),
    ("another text, not equal",        "name",  Op::NotEqual, b"ac",     "yes"),
    ("a proper prefix",                "name",  Op::Greater,  b"a",      "yes"),
    ("a prefix of it",                 "name",  Op::Less,     b"abc",    "yes"),
    ("a longer text that is less",     "name",  Op::Greater,  b"aaaa",   "yes"),
    ("a shorter text that is more",    "name",  Op::Less,     b"b",      "yes"),
    ("longer than the column is wide", "name",  Op::Less,     b"abcdef", "yes"),
    ("longer, and equal",              "name",  Op::Equal,    b"abcdef", "no"),
    ("the empty text",                 "name",  Op::AtLeast,  b"",       "yes"),
    ("at most the text",               "name",  Op::AtMost,   b"ab",     "yes"),
    ("a number's column",              "n",     Op::Equal,    b"5",      "wrong kind n"),
    ("an unknown column",              "m",     Op::Equal,    b"5",      "no column"),
    ("an upper-case letter",           "name",  Op::Less,     b"AB",     "no"),
];

#[test]
fn compares_texts_by_the_table(rt: HostRuntime) -> Result<(), Fail> {
    for (name, column, op, bytes, expected) in &TEXTS {
        let term = Term {
            column: Name::read(column.as_bytes()),
            op: *op,
            value: against(bytes)?,
        };
        let said = ask_one(rt.alloc(), term)?;
        holds(&rt, name, said == *expected);
    }
    Ok(())
}

// A term that a column is a number, or a text.
fn equals(column: &str, number: Option<i128>) -> Result<Term, Fail> {
    let value = match number {
        Some(value) => TermValue::Number { value },
        None => against(b"5")?,
    };
    Ok(Term {
        column: Name::read(column.as_bytes()),
        op: Op::Equal,
        value,
    })
}

// What a condition of two such terms says.
fn ask_two(
    alloc: Global,
    (a, x): (&str, Option<i128>),
    (b, y): (&str, Option<i128>),
) -> Result<&'static str, Fail> {
    let terms = [equals(a, x)?, equals(b, y)?];
    let terms = ListOf::of(Vec::from_slice(alloc, &terms)?);
    ask(alloc, &terms)
}

#[rattlefmt::skip]
const STOPS: [(&str, [(&str, Option<i128>); 2], &str); 6] = [
    // what                                 two terms                        the answer
    ("both are of their kinds",             [("n", Some(5)), ("name", None)],   "no"),
    ("the first wrong one is told",         [("name", Some(5)), ("n", None)],   "wrong kind name"),
    ("the first wrong one, other order",    [("n", None), ("name", Some(5))],   "wrong kind n"),
    ("an unknown column comes first",       [("n", None), ("m", Some(5))],      "no column"),
    ("the key has no kind to be wrong",     [("key", Some(7)), ("n", Some(5))], "yes"),
    ("one of the two is wrong",             [("n", Some(5)), ("name", Some(5))], "wrong kind name"),
];

#[test]
fn stops_at_the_first_wrong_kind(rt: HostRuntime) -> Result<(), Fail> {
    for (name, [first, second], expected) in &STOPS {
        let said = ask_two(rt.alloc(), *first, *second)?;
        holds(&rt, name, said == *expected);
    }
    Ok(())
}
