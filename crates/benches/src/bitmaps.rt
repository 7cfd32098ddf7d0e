//! The calls of a bitmap, over one of 262,144 places.
ghost use Rattle.std.specs.Prelude.{◌≡◌, length, IfOk};

use crate::row::{Kind, Row};
use crate::timing::{Round, time};
use anyhow::Result;
use plain_bits::Bits;
use std::alloc::{AllocError, Global};
use std::rt::Clock;

const PLACES: u32 = 262_144;

#[derive(Drop)]
struct Pair {
    kind: Kind,
    calls: u32,
    from: Bits,
    into: Bits,
    ghost from_places: { length from ≡ 262144 },
    ghost into_places: { length into ≡ 262144 },
}

// A bitmap in which about half of the places are true.
fn filled(alloc: Global, seed: u32) -> Result<Bits, AllocError>
    ensures { IfOk result (λ bits. length bits ≡ 262144) }
{
    let mut bits = Bits::new(alloc);
    bits.grow(PLACES)?;
    let mut x = seed;
    for place in 0..PLACES {
        x ^= x << 13;
        x ^= x >> 17;
        x ^= x << 5;
        if x % 2 == 1 {
            bits.set(place);
        }
    }
    Ok(bits)
}

// A place is set before each count, so that no count serves for two.
fn count_once(bits: &mut Bits, turn: u32) -> u32
    requires { length bits.old ≡ 262144 }
    ensures { length bits.new ≡ 262144 }
{
    bits.set(turn % PLACES);
    bits.count()
}

// The count, or nothing of a combination.
fn call(kind: Kind, from: &Bits, into: &mut Bits, turn: u32) -> u32
    requires from { length from.now ≡ 262144 }
    requires into { length into.old ≡ 262144 }
    ensures { length into.new ≡ 262144 }
{
    match kind {
        Kind::Xor => from.xor_into(into),
        Kind::And => from.and(into),
        Kind::Or => from.or(into),
        _ => return count_once(into, turn),
    }
    0
}

fn call_often(kind: Kind, from: &Bits, into: &mut Bits, calls: u32) -> u64
    requires from { length from.now ≡ 262144 }
    requires into { length into.old ≡ 262144 }
    ensures { length into.new ≡ 262144 }
{
    let mut sum = 0u64;
    for turn in 0..calls {
        sum = sum.wrapping_add(u64::from(call(kind, from, into, turn)));
    }
    sum.wrapping_add(u64::from(into.count()))
}

impl Round for Pair {
    fn make(&mut self, _alloc: Global) -> Result<u64, AllocError> {
        Ok(call_often(self.kind, &self.from, &mut self.into, self.calls))
    }
}

/// Times a combination, or a count.
pub fn time_bitmaps<R: Clock + Print + AllocGlobal>(rt: &R, row: &Row, rounds: u32) -> Result<()> {
    let from = filled(rt.alloc(), 2_463_534_242)?;
    let into = filled(rt.alloc(), 1_234_567)?;
    let mut pair = Pair {
        kind: row.kind,
        calls: row.calls,
        from,
        into,
    };
    time(rt, row, rounds, &mut pair)
}
