//! Bitmaps against plain loops.
ghost use Rattle.std.specs.Prelude.{◌≡◌, ◌<◌, length, IfOk};

use crate::asserts::holds;
use plain_bits::Bits;
use std::alloc::{AllocError, Global};
use std::process::Abort;
use std::test::Fail;

// Past four vectors of words, with some places more.
const LONGEST: u32 = 300;

/// Whether a pattern has a place: none, all, the first of each word, the last of each, or as if at
/// random.
pub fn has(pattern: u32, place: u32) -> bool {
    match pattern {
        0 => false,
        1 => true,
        2 => place % 64 == 0,
        3 => place % 64 == 63,
        _ => ((pattern.wrapping_mul(40_503) ^ place).wrapping_mul(2_654_435_761) >> 13) % 5 < 2,
    }
}

/// So many places of a pattern.
pub fn bits_of(alloc: Global, pattern: u32, len: u32) -> Result<Bits, AllocError>
    ensures { IfOk result (λ bits. length bits ≡ len) }
{
    let mut bits = Bits::new(alloc);
    bits.grow(len)?;
    for place in 0..len {
        bits.set(place);
        if !has(pattern, place) {
            bits.clear(place);
        }
    }
    Ok(bits)
}

// What is put through a gate into another bitmap: exclusive or, and, or.
fn put(gate: u32, left: &Bits, into: &mut Bits)
    requires { length left.now ≡ length into.old }
    ensures { length into.new ≡ length into.old }
{
    match gate {
        0 => left.xor_into(into),
        1 => left.and(into),
        _ => left.or(into),
    }
}

fn of(gate: u32, a: bool, b: bool) -> bool {
    match gate {
        0 => a != b,
        1 => a && b,
        _ => a || b,
    }
}

// Whether a bitmap has the places that a gate makes of two patterns, as each of its readers tells.
fn is_made(bits: &Bits, gate: u32, first: u32, second: u32) -> bool {
    let (mut count, mut next) = (0u32, None);
    for place in (0..bits.len()).rev() {
        let is = of(gate, has(first, place), has(second, place));
        if is {
            count = count.wrapping_add(1);
            next = Some(place);
        }
        if bits.get(place) != is || bits.next_one(place) != next {
            return false;
        }
        if (bits.word(place / 64) >> (place % 64) & 1 == 1) != is {
            return false;
        }
    }
    bits.count() == count
}

fn compare(
    rt: &impl Abort,
    alloc: Global,
    len: u32,
    gate: u32,
    second: u32,
) -> Result<(), AllocError> {
    let left = bits_of(alloc, 4, len)?;
    let mut into = bits_of(alloc, second, len)?;
    put(gate, &left, &mut into);
    let is_so = into.len() == len && is_made(&into, gate, 4, second);
    assert!(rt; is_so, "{len} places, gate {gate}, pattern {second}");
    Ok(())
}

#[test]
fn bitmaps_equal_plain_loops(rt: HostRuntime) -> Result<(), Fail> {
    for len in 0..LONGEST + 1 {
        for second in 0..6 {
            for gate in 0..3 {
                compare(&rt, rt.alloc(), len, gate, second)?;
            }
        }
    }
    Ok(())
}

#[test]
fn a_bitmap_that_grew_keeps_its_places(rt: HostRuntime) -> Result<(), Fail> {
    let bits = bits_of(rt.alloc(), 4, 70)?;
    let mut longer = bits.duplicate()?;
    longer.grow(64)?;
    holds(&rt, "fewer than there are", is_made(&longer, 0, 4, 0));
    longer.grow(1000)?;
    assert!(rt; longer.len() == 1000 && longer.count() == bits.count());
    assert!(rt; bits.len() == 70 && longer.word(0) == bits.word(0));
    Ok(())
}
