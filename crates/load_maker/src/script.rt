//! How the script is written.
ghost use Rattle.std.specs.Prelude.{◌≡◌, ◌+◌, ◌*◌, ◌%◌, ◌^◌, ◌++◌, codes, IfOk, OnOk};
ghost use Rattle.std.specs.Fmt.{decimal};
ghost use Rattle.load_maker.specs.Script.{about_key, first_lines, key_in, line_with, script_of, value_in};

use db_value::ListOf;
use itoa::Buffer;
use std::alloc::{AllocError, Global};

/// The bytes of a script.
pub type ScriptBytes = ListOf<u8>;

/// Keys are below this number.
const KEYS: u64 = 10_000;

/// Values are below this number.
const VALUES: u64 = 1_000;

/// No line with its end has more bytes.
const WIDEST_LINE: usize = 28;

/// The bytes of the schema and of the last line.
const FRAME: usize = 46;

fn push_number(out: &mut Vec<u8>, n: u64) -> Result<(), AllocError>
    ensures { OnOk result (out.new.items ≡ out.old.items ++ decimal n) }
{
    let mut digits = Buffer::new();
    out.extend_from_slice(digits.format(n).as_bytes())
}

// What is drawn for a line, from what was drawn for the one before.
fn next_drawn(x: u64) -> u64
    ensures { result ≡ (x * 6364136223846793005 + 1442695040888963407) % 2 ^ 64 }
{
    x.wrapping_mul(6364136223846793005)
        .wrapping_add(1442695040888963407)
}

// The key that a drawn number says.
fn key_in(x: u64) -> u64
    ensures { result ≡ key_in x }
{
    x / (1 << 33) % KEYS
}

// The value that a drawn number says.
fn value_in(x: u64) -> u64
    ensures { result ≡ value_in x }
{
    x / (1 << 33) % VALUES
}

// A session's statement about a key.
fn push_about(out: &mut Vec<u8>, session: u32, verb: &[u8], key: u64) -> Result<(), AllocError>
    ensures { OnOk result (out.new.items ≡ out.old.items ++ about_key session verb.now key) }
{
    push_number(out, u64::from(session))?;
    out.extend_from_slice(b" ")?;
    out.extend_from_slice(verb)?;
    out.extend_from_slice(b" items ")?;
    push_number(out, key)
}

// A line that makes the next branch of master.
fn push_branch(out: &mut Vec<u8>, number: u32) -> Result<(), AllocError>
    ensures { OnOk result (out.new.items ≡ out.old.items
        ++ (codes "1 branch b" ++ decimal number ++ codes " of master")) }
{
    out.extend_from_slice(b"1 branch b")?;
    push_number(out, u64::from(number))?;
    out.extend_from_slice(b" of master")
}

// Line i, for which x is drawn.
fn push_line(out: &mut Vec<u8>, i: u32, x: u64) -> Result<(), AllocError>
    ensures { OnOk result (out.new.items ≡ out.old.items ++ line_with i x) }
{
    let session = 1 + i % 4;
    let key = key_in(x);
    if i % 512 == 0 {
        return push_branch(out, i / 512);
    }
    match i % 8 {
        0 => push_about(out, session, b"get", key),
        6 => {
            push_about(out, session, b"update", key)?;
            out.extend_from_slice(b" a=")?;
            push_number(out, value_in(x))
        }
        7 => push_about(out, session, b"delete", key),
        _ => {
            push_about(out, session, b"insert", key)?;
            out.extend_from_slice(b" ")?;
            push_number(out, value_in(x))?;
            out.extend_from_slice(b" 0")
        }
    }
}

// The lines from 1 to n, each with its end.
fn push_lines(out: &mut Vec<u8>, n: u32) -> Result<(), AllocError>
    ensures { OnOk result (out.new.items ≡ out.old.items ++ first_lines n n) }
{
    let mut x = u64::from(n);
    for before in 0..n {
        x = next_drawn(x);
        push_line(out, before + 1, x)?;
        out.extend_from_slice(b"\n")?;
    }
    Ok(())
}

/// The load script of a number, whose lines are as many as the number. Each line ends with the byte 10.
pub fn script_of(alloc: Global, n: u32) -> Result<ScriptBytes, AllocError>
    ensures { IfOk result (λ script. script ≡ script_of n) }
{
    let mut out = Vec::with_capacity(alloc, n as usize * WIDEST_LINE + FRAME)?;
    out.extend_from_slice(b"relation items a b\nend\n")?;
    push_lines(&mut out, n)?;
    out.extend_from_slice(b"1 scan items in heads\n")?;
    Ok(ListOf::of(out))
}
