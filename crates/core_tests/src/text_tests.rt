//! Texts that the program doesn't show: statements that are spelled again, sections of an input with
//! the numbers of their lines, load scripts, why values are refused, and a condition that no line has.
//! Texts and sums of load scripts were made by another program.
use crate::asserts::{holds, is_answered};
use db_value::{
    Fields, ListOf, Name, Op, Pred, Record, Refusal, Reply, Schema, Term, TermValue, Value,
};
use load_maker::script_of;
use std::alloc::Global;
use std::process::Abort;
use std::test::Fail;
use stmt_text::{LineStop, Section, read_line, sections_between, write_line};

const LINES: [&str; 54] = [
    "",
    "1 begin",
    "1 begin 1",
    "64 begin 65536",
    "1 commit",
    "2 abort",
    "3 graph",
    "4 segments",
    "5 checkpoint",
    "6 on dev",
    "6 on abcdefghijklmnopqrstuvwxyz_01234",
    "6 on key_of_all",
    "7 log master",
    "8 insert items 1 10",
    "8 insert items 18446744073709551615 -9223372036854775808 9223372036854775807 0",
    "8 insert items 0 1 2 3 4 5 6 7 8 9 10 11 12 13 14 -15",
    "9 update items 1 a=5",
    "1 update items 1 a=-5",
    "9 update items 1 a=1 b=2 c=3 d=4 e=5 f=6 g=7 h=8 i=9 j=10 k=11 l=12 m=13 n=14 o=-15",
    "10 delete items 7",
    "11 get items 7",
    "11 get items 7 in dev",
    "11 get items 7 in dev@18446744073709551615",
    "12 scan items",
    "12 scan items in heads",
    "1 scan items in master where a < -3",
    "12 scan items in dev@0,dev,dev",
    "12 scan items in heads where key >= 6",
    "12 scan items where a = 1 and b != 2 and c < 3 and d <= 4 and e > 5 and key >= 18446744073709551615",
    "1 scan items in master@2,master where key >= 1 and a != 2",
    "13 join items notes master dev@3",
    "1 join items items master@1 master",
    "13 join items notes master@1 dev where key > 4",
    "14 minus items master dev@2",
    "15 branch dev of master@0",
    "16 merge dev",
    "16 merge dev left",
    "16 merge dev right",
    "1 insert tags 1 \"ab\" 5",
    "1 insert tags 2 \"x, y\" 0",
    "1 insert tags 2 \"\"",
    "1 insert tags 2 \" \" \"  \" -1",
    "1 insert tags 2 \"where a = 1 and b\" \"# 1 commit\"",
    "1 insert tags 2 \" !#$%&'()*+,-./0123456789:;<=>?@ABCDEFGHIJKLMNOPQRSTUVWXYZ[]^_`\"",
    "1 insert tags 2 \"abcdefghijklmnopqrstuvwxyz{|}~\\\"",
    "1 insert tags 2 \"\" \"\" \"\" \"\" \"\" \"\" \"\" \"\" \"\" \"\" \"\" \"\" \"\" \"\" \"\"",
    "1 update tags 1 name=\"b=c\"",
    "1 update tags 1 name=\" = \" n=-3 other=\"\"",
    "1 scan tags where name >= \"b\"",
    "1 scan tags in heads where name != \"a and b\" and key < 7",
    "1 scan tags where n = \"5\"",
    "1 scan tags where a < \"\" and b <= \" \" and c > \"and\" and key = 0",
    "1 join tags tags master dev where name = \"  \"",
    "1 insert tags 1 \"0\"",
];

#[rattlefmt::skip]
const BAD: [(&str, &str); 26] = [
    // what                                 the line
    ("no quote at the end",                 "7 insert tags 1 \"ab"),
    ("no quote at the end of a first one",  "7 insert tags 1 \"ab 5"),
    ("no quote at the beginning",           "7 insert tags 1 ab\" 5"),
    ("a quote alone",                       "7 insert tags 1 \""),
    ("three quotes",                        "7 insert tags 1 \"\"\""),
    ("a quote in a text",                   "7 insert tags 1 \"a\"b\""),
    ("two texts in one",                    "7 insert tags 1 \"a\"\"b\""),
    ("a byte behind a text",                "7 insert tags 1 \"a\"b"),
    ("a byte before a text",                "7 insert tags 1 b\"a\""),
    ("two spaces before a text",            "7 insert tags 1  \"ab\""),
    ("two spaces behind a text",            "7 insert tags 1 \"ab\"  5"),
    ("a space at the end",                  "7 insert tags 1 \"ab\" "),
    ("byte 31",                             "7 insert tags 1 \"\u{1f}\""),
    ("byte 127",                            "7 insert tags 1 \"\u{7f}\""),
    ("a letter of two bytes",               "7 insert tags 1 \"\u{e9}\""),
    ("65 bytes",                            "7 insert tags 1 \"xxxxxxxxxxxxxxxxxxxxxxxxxxxxxxxxxxxxxxxxxxxxxxxxxxxxxxxxxxxxxxxxx\""),
    ("a text as a key",                     "7 insert tags \"1\" 5"),
    ("a text as a relation",                "7 insert \"tags\" 1 5"),
    ("a text as a column",                  "7 update tags 1 \"name\"=5"),
    ("a text as a pair",                    "7 update tags 1 \"name=5\""),
    ("a space in a pair",                   "7 update tags 1 name= \"b\""),
    ("a text for the key",                  "7 scan tags where key = \"1\""),
    ("a text as a comparison",              "7 scan tags where n \"=\" 5"),
    ("a text as `where`",                   "7 scan tags \"where\" n = 5"),
    ("a text as a verb",                    "7 \"commit\""),
    ("single quotes",                       "7 insert tags 1 'ab'"),
];

// Is a line spelled as it was read? No bytes are no line.
fn is_spelled_again(alloc: Global, line: &str) -> Result<bool, Fail> {
    match read_line(alloc, line.as_bytes()) {
        Err(stop) => Ok(line.is_empty() && stop == LineStop::BadLine { session: 0 }),
        Ok(read) => {
            let written = write_line(alloc, &read)?;
            Ok(written.as_slice() == line.as_bytes())
        }
    }
}

#[test]
fn reads_and_writes_each_form(rt: HostRuntime) -> Result<(), Fail> {
    for line in &LINES {
        holds(&rt, line, is_spelled_again(rt.alloc(), line)?);
    }
    Ok(())
}

#[test]
fn refuses_what_is_nearly_a_text(rt: HostRuntime) -> Result<(), Fail> {
    for (name, line) in &BAD {
        let stop = read_line(rt.alloc(), line.as_bytes()).err();
        holds(&rt, name, stop == Some(LineStop::BadLine { session: 7 }));
    }
    let stop = read_line(rt.alloc(), b"\"7\" commit").err();
    holds(
        &rt,
        "a text as a session",
        stop == Some(LineStop::BadLine { session: 0 }),
    );
    Ok(())
}

// The reply to a line `x` that is refused is the row.
fn is_refused(rt: &impl Abort, alloc: Global, row: &str, why: Refusal) -> Result<(), Fail> {
    let text = ListOf::of(Vec::from_slice(alloc, b"x")?);
    is_answered(rt, alloc, row, "", &text, &Reply::Refused { why })
}

#[test]
fn tells_why_a_value_is_refused(rt: HostRuntime) -> Result<(), Fail> {
    let alloc = rt.alloc();
    is_refused(&rt, alloc, "> x\nrefused 20 body full\n", Refusal::BodyFull)?;
    let column = Name::read(b"name").ok_or("name")?;
    let why = Refusal::WrongKind { column };
    is_refused(&rt, alloc, "> x\nrefused 22 wrong kind name\n", why)?;
    let column = Name::read(b"name").ok_or("name")?;
    let why = Refusal::TextTooLong { column };
    is_refused(&rt, alloc, "> x\nrefused 23 text too long name\n", why)
}

const INPUT: &str = "# sections\n2 begin\n\n1 get items 1\nx\n65 commit\n64 log master\n2 commit";

#[rattlefmt::skip]
const SECTIONS: [(u32, u32, &str); 3] = [
    // the first session and how many  their sections: session, then each line with its number
    (0, 65, "0: 5 x, 6 65 commit, ; 1: 4 1 get items 1, ; 2: 2 2 begin, 8 2 commit, ; 64: 7 64 log master, ; "),
    (1, 2, "1: 4 1 get items 1, ; 2: 2 2 begin, 8 2 commit, ; "),
    (3, 60, ""),
];

fn spell_section(text: &mut String, section: &Section) -> Result<(), Fail> {
    write!(text, "{}: ", section.session)?;
    for line in section.lines.as_slice() {
        write!(text, "{} ", line.line)?;
        text.push_str(str::from_utf8(line.text.as_slice())?)?;
        text.push_str(", ")?;
    }
    text.push_str("; ")?;
    Ok(())
}

fn spelled_sections(alloc: Global, first: u32, count: u32) -> Result<String, Fail> {
    if first > 65 || count > 65 - first {
        return Err("too many sessions".into());
    }
    let mut text = String::new(alloc);
    for section in &sections_between(alloc, INPUT.as_bytes(), first, count)? {
        spell_section(&mut text, section)?;
    }
    Ok(text)
}

#[test]
fn takes_an_input_apart(rt: HostRuntime) -> Result<(), Fail> {
    for (first, count, sections) in &SECTIONS {
        let text = spelled_sections(rt.alloc(), *first, *count)?;
        holds(&rt, sections, text.as_str() == *sections);
    }
    Ok(())
}

const FIRST: [(u32, &str); 5] = [
    (0, "relation items a b\nend\n1 scan items in heads\n"),
    (
        1,
        "relation items a b\nend\n2 insert items 4774 774 0\n1 scan items in heads\n",
    ),
    (
        2,
        "relation items a b\nend\n2 insert items 7740 740 0\n3 insert items 1882 882 0\n1 scan items in heads\n",
    ),
    (
        3,
        "relation items a b\nend\n2 insert items 7059 59 0\n3 insert items 5963 963 0\n4 insert items 9715 715 0\n1 scan items in heads\n",
    ),
    (
        9,
        "relation items a b\nend\n2 insert items 7563 563 0\n3 insert items 5041 41 0\n4 insert items 5272 272 0\n1 insert items 3940 940 0\n2 insert items 3715 715 0\n3 update items 3027 a=27\n4 delete items 4108\n1 get items 3267\n2 insert items 1739 739 0\n1 scan items in heads\n",
    ),
];

#[test]
fn the_first_scripts(rt: HostRuntime) -> Result<(), Fail> {
    for (n, expected) in &FIRST {
        let script = script_of(rt.alloc(), *n)?;
        holds(&rt, expected, script.as_slice() == expected.as_bytes());
    }
    Ok(())
}

// A sum that tells the order of bytes.
fn sum_of(bytes: &[u8]) -> u64 {
    let mut sum = 0u64;
    for byte in bytes {
        sum = sum
            .wrapping_mul(1_099_511_628_211)
            .wrapping_add(u64::from(*byte));
    }
    sum
}

const LONG: [(&str, u32, usize, u64); 2] = [
    ("512 lines", 512, 12_301, 8_690_516_680_475_139_718),
    ("20,000 lines", 20_000, 478_792, 17_935_673_103_481_957_622),
];

#[test]
fn long_scripts(rt: HostRuntime) -> Result<(), Fail> {
    for (name, n, length, sum) in &LONG {
        let script = script_of(rt.alloc(), *n)?;
        let bytes = script.as_slice();
        holds(&rt, name, bytes.len() == *length && sum_of(bytes) == *sum);
    }
    Ok(())
}

// Does the condition that a column `b` has at least this value hold of the row `7 10 -3`?
fn asks(alloc: Global, value: i128) -> Result<bool, Fail> {
    let (schema, _) = Schema::read(alloc, b"relation items a b\nend\n")?;
    let values = [Value::Number { value: 10 }, Value::Number { value: -3 }];
    let fields = Fields::of(&values).ok_or("fields")?;
    let term = Term {
        column: Name::read(b"b"),
        op: Op::AtLeast,
        value: TermValue::Number { value },
    };
    let terms = ListOf::of(Vec::from_slice(alloc, &[term])?);
    match Pred::resolve(alloc, &schema, 0, &terms) {
        Ok(pred) => Ok(pred.holds(&Record { key: 7, fields })),
        Err(_) => Err("no column".into()),
    }
}

#[test]
fn asks_a_row(rt: HostRuntime) -> Result<(), Fail> {
    holds(&rt, "its value", asks(rt.alloc(), -3)?);
    let most = 18_446_744_073_709_551_615;
    holds(&rt, "the most of a key", !asks(rt.alloc(), most)?);
    Ok(())
}
