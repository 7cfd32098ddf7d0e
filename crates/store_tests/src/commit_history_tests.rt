//! Histories against a plain loop over their deltas.
use crate::asserts::holds;
use crate::plain_bits_tests::{bits_of, has};
use commit_history::History;
use std::alloc::{AllocError, Global};
use std::process::Abort;
use std::test::Fail;

// How long a delta is: up to two words, and a place more.
fn len_of(delta: u32) -> u32 {
    delta.wrapping_mul(7_919) % 66
}

// Whether a delta changes a place.
fn changes(delta: u32, place: u32) -> bool {
    place < len_of(delta) && has(delta.wrapping_add(4), place)
}

// Whether a place is set after so many deltas.
fn is_set(count: u32, place: u32) -> bool {
    let mut is = false;
    for delta in 0..count {
        is = is != changes(delta, place);
    }
    is
}

// The length of the longest of so many deltas.
fn longest(count: u32) -> u32 {
    let mut len = 0;
    for delta in 0..count {
        len = len.max(len_of(delta));
    }
    len
}

// Is the bitmap after so many commits what a plain loop over the deltas makes?
fn is_at(history: &History, count: u32) -> Result<bool, AllocError> {
    if history.len() < count {
        return Ok(false);
    }
    let bits = history.at(count)?;
    for place in 0..bits.len() {
        if bits.get(place) != is_set(count, place) {
            return Ok(false);
        }
    }
    Ok(bits.len() == longest(count))
}

fn push(history: &mut History, alloc: Global, delta: u32) -> Result<(), AllocError> {
    if u32::MAX - 1 <= history.len() {
        return Err(AllocError);
    }
    let bits = bits_of(alloc, delta.wrapping_add(4), len_of(delta))?;
    let next = history.ready(bits)?;
    history.push(next);
    Ok(())
}

fn fill(history: &mut History, alloc: Global, count: u32) -> Result<(), AllocError> {
    for delta in 0..count {
        push(history, alloc, delta)?;
    }
    Ok(())
}

// Lengths around those at which a level gets its first composite, or its second.
const TURNS: [u32; 12] = [
    100, 101, 255, 256, 257, 511, 512, 513, 4_095, 4_096, 4_097, 4_200,
];

fn combines(rt: &impl Abort, history: &History) -> Result<(), AllocError> {
    for count in 0..50 {
        holds(rt, "a short one", is_at(history, count)?);
    }
    for count in &TURNS {
        holds(rt, "a long one", is_at(history, *count)?);
    }
    Ok(())
}

#[test]
fn combines_as_a_plain_loop(rt: HostRuntime) -> Result<(), Fail> {
    let mut history = History::new(rt.alloc());
    fill(&mut history, rt.alloc(), 4_200)?;
    combines(&rt, &history)?;
    Ok(())
}
