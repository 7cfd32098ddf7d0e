//! How it is tried that each branch has distinct keys at each of its positions.
//!
//! 1. The records of all segments of a relation stand one after another, each with a bit. Its key is
//!    told by a number: the place of the first record with this key.
//! 2. For a branch, all bits are clear at first. The deltas of each position change them in order.
//! 3. A bit that is set counts its number up, and one that is cleared counts it down. So it is known
//!    after each position how many bits are set, and how many of these have a key that another has.
//!
//! No position takes a table of its own, and no branch a map: a delta costs its words and a step for
//! each bit.
ghost use Rattle.std.specs.Prelude.{◌≡◌, ◌<◌, ◌≤◌, ◌+◌, ◌*◌, ◌==◌, ◌&&◌, suc, zero, nat_le, cond, true, false, not, ℕ, length, map, set, replicate, IfOk, IfNone, IfSome, OnOk, List, Bool, Some, ◌++◌, []};
ghost use Rattle.std.proofs.Common.{get_or};
ghost use Rattle.image_text.specs.Reading.{no_row};
ghost use Rattle.image_parts.specs.Whole.{word_bit, delta_bit, lane_of, is_keyed, keys_once};
ghost use Rattle.image_parts.specs.Walk.{weigh, AreSmall, Agrees, Flips, word_at, turned, own_keys, all_keys, first_of, Shows};
ghost use Rattle.image_parts.specs.Order.{ArePlaced, IsOrder, number_after};

use crate::words::next_bit;
use image_text::{Delta, RowPart, SegmentPart};
use std::alloc::{AllocError, Global};

const MOST_KEYS: u64 = 262144;

// What one branch has at one position, of the records of all segments.
#[derive(Drop)]
struct Walk {
    bits: Vec<bool>,
    // how many of the set bits have the key with this number
    counts: Vec<u64>,
    // how many bits are set
    live: u64,
    // how many of these have a key that another one after them has
    again: u64,
}

fn weigh(counts: bool) -> u64
    ensures { result ≡ weigh counts }
{
    if counts { 1 } else { 0 }
}

// What a row changes at a position.
fn delta_at(rows: &[RowPart], lane: usize, n: u64) -> Option<&Delta>
    ensures none { IfNone result ((slot : ℕ) → turned (get_or rows.now lane no_row) n slot
        ≡ false) }
    ensures some { IfSome result (λ delta. (slot : ℕ)
        → turned (get_or rows.now lane no_row) n slot ≡ delta_bit delta.now slot) }
{
    match rows.get(lane) {
        None => None,
        Some(row) => {
            if n < row.from as u64 {
                return None;
            }
            row.deltas.as_slice().get((n - row.from as u64) as usize)
        }
    }
}

fn clear_bits(alloc: Global, size: usize) -> Result<Vec<bool>, AllocError>
    ensures { IfOk result (λ bits. bits.items ≡ replicate size false) }
{
    Ok(vec![in alloc; false; size]?)
}

fn no_counts(alloc: Global, size: usize) -> Result<Vec<u64>, AllocError>
    ensures { IfOk result (λ counts. counts.items ≡ replicate size 0) }
{
    Ok(vec![in alloc; 0; size]?)
}

impl Walk {
    // All bits are clear.
    fn of(alloc: Global, size: usize) -> Result<Walk, AllocError>
        ensures clear { IfOk result (λ walk. walk.bits.items ≡ replicate size false) }
        ensures agrees { IfOk result (λ walk. (numbers : List ℕ) → length numbers ≡ size
            → AreSmall numbers → Agrees numbers walk) }
    {
        Ok(Walk {
            bits: clear_bits(alloc, size)?,
            counts: no_counts(alloc, size)?,
            live: 0,
            again: 0,
        })
    }

    fn add(&mut self, numbers: &[usize], place: usize)
        requires within { place < length numbers.now }
        requires agrees { Agrees numbers.now self.old }
        requires clear { get_or self.old.bits.items place false ≡ false }
        ensures agrees { Agrees numbers.now self.new }
        ensures added { self.new.bits.items ≡ set self.old.bits.items place true }
    {
        let number = numbers[place];
        let count = self.counts[number];
        self.counts[number] = count + 1;
        self.again += weigh(count > 0);
        self.live += 1;
        self.bits[place] = true;
    }

    fn clear(&mut self, numbers: &[usize], place: usize)
        requires within { place < length numbers.now }
        requires agrees { Agrees numbers.now self.old }
        requires set_one { get_or self.old.bits.items place false ≡ true }
        ensures agrees { Agrees numbers.now self.new }
        ensures cleared { self.new.bits.items ≡ set self.old.bits.items place false }
    {
        let number = numbers[place];
        let count = self.counts[number];
        self.counts[number] = count - 1;
        self.again -= weigh(count > 1);
        self.live -= 1;
        self.bits[place] = false;
    }

    fn turn(&mut self, numbers: &[usize], place: usize)
        requires within { place < length numbers.now }
        requires agrees { Agrees numbers.now self.old }
        ensures agrees { Agrees numbers.now self.new }
        ensures turned { self.new.bits.items
            ≡ set self.old.bits.items place (not (get_or self.old.bits.items place false)) }
    {
        if self.bits[place] {
            self.clear(numbers, place);
        } else {
            self.add(numbers, place);
        }
    }

    // Changes the bits of one word of a delta.
    fn apply_word(&mut self, numbers: &[usize], base: usize, size: usize, at: usize, word: u64)
        requires within { base + size ≤ length numbers.now }
        requires room { 64 * at ≤ size }
        requires agrees { Agrees numbers.now self.old }
        ensures agrees { Agrees numbers.now self.new }
        ensures flips { Flips base size (word_at at word) self.old.bits.items self.new.bits.items }
    {
        let mut k = next_bit(word, 0);
        'bits: while k < 64 {
            let slot = 64 * at + k as usize;
            if slot < size {
                self.turn(numbers, base + slot);
            }
            k = next_bit(word, k + 1);
        }
    }

    // Changes the bits of a delta. Those past the records of its segment are no bits.
    fn apply(&mut self, numbers: &[usize], base: usize, size: usize, delta: &Delta)
        requires within { base + size ≤ length numbers.now }
        requires agrees { Agrees numbers.now self.old }
        ensures agrees { Agrees numbers.now self.new }
        ensures flips { Flips base size (delta_bit delta.now)
            self.old.bits.items self.new.bits.items }
    {
        let words = delta.words.as_slice();
        'words: for i in 0..words.len() {
            let at = delta.first as usize + i;
            if at <= size / 64 {
                self.apply_word(numbers, base, size, at, words[i]);
            }
        }
    }

    // Changes the bits of a segment from one position to the next.
    fn step_in(&mut self, numbers: &[usize], base: usize, part: &SegmentPart, lane: usize, n: u64)
        requires within { base + length part.now.records ≤ length numbers.now }
        requires agrees { Agrees numbers.now self.old }
        ensures agrees { Agrees numbers.now self.new }
        ensures flips { Flips base (length part.now.records)
            (turned (get_or part.now.rows lane no_row) n)
            self.old.bits.items self.new.bits.items }
    {
        let size = part.records.len() as usize;
        match delta_at(part.rows.as_slice(), lane, n) {
            None => {}
            Some(delta) => self.apply(numbers, base, size, delta),
        }
    }

    // Changes the bits of all segments from one position of a branch to the next.
    #[tactic(auto, using(crate::proofs::Steps::segment_next, crate::proofs::Steps::between_start, crate::proofs::Steps::between_end, crate::proofs::Steps::row_is, crate::proofs::Steps::base_next, crate::proofs::Steps::base_start, crate::proofs::Steps::base_within))]
    fn step(&mut self, numbers: &[usize], segments: &[SegmentPart], lanes: &[usize], n: u64)
        requires numbers { length numbers.now ≡ length (all_keys segments.now) }
        requires lanes { length lanes.now ≡ length segments.now }
        requires agrees { Agrees numbers.now self.old }
        ensures agrees { Agrees numbers.now self.new }
        ensures shows { (b : ℕ) → lanes.now ≡ map (λ s. lane_of b s.rows) segments.now
            → Shows b segments.now n self.old.bits.items
            → Shows b segments.now (suc n) self.new.bits.items }
    {
        let mut base = 0usize;
        'segments: for i in 0..segments.len() {
            self.step_in(numbers, base, &segments[i], lanes[i], n);
            base += segments[i].records.len() as usize;
        }
    }

    // Have the set records distinct keys, and are they few enough?
    fn is_table(&self) -> bool
        ensures { result ≡ ((self.now.again == 0) && nat_le self.now.live 262144) }
    {
        self.again == 0 && self.live <= MOST_KEYS
    }
}

// The keys with their places.
fn places_of(alloc: Global, keys: &[u64]) -> Result<Vec<(u64, usize)>, AllocError>
    ensures { IfOk result (λ places. ArePlaced keys.now places.items) }
{
    let mut places: Vec<(u64, usize)> = Vec::with_capacity(alloc, keys.len())?;
    'keys: for i in 0..keys.len() {
        places.push((keys[i], i))?;
    }
    Ok(places)
}

// The keys with their places, by key, and by place if keys are equal.
fn ordered(alloc: Global, keys: &[u64]) -> Result<Vec<(u64, usize)>, AllocError>
    ensures { IfOk result (λ order. IsOrder keys.now order.items) }
{
    let mut order = places_of(alloc, keys)?;
    order.sort_by_key(|item| item.0)?;
    Ok(order)
}

// The number of a key in order, if the one before it has this number.
fn number_at(order: &[(u64, usize)], i: usize, last: usize) -> usize
    requires { i < length order.now }
    ensures { result ≡ number_after order.now i last }
{
    let (key, place) = order[i];
    if i == 0 {
        return place;
    }
    if order[i - 1].0 == key { last } else { place }
}

// For each key the place of the first one that is equal.
fn numbers_of(alloc: Global, keys: &[u64]) -> Result<Vec<usize>, AllocError>
    ensures { IfOk result (λ numbers. numbers.items ≡ map (first_of keys.now) keys.now) }
{
    let order = ordered(alloc, keys)?;
    let mut numbers: Vec<usize> = vec![in alloc; 0; keys.len()]?;
    let mut number = 0usize;
    'order: for i in 0..order.len() {
        number = number_at(&order, i, number);
        numbers[order[i].1] = number;
    }
    Ok(numbers)
}

// The keys of all records, segment by segment.
fn keys_of(alloc: Global, segments: &[SegmentPart]) -> Result<Vec<u64>, AllocError>
    ensures { IfOk result (λ keys. keys.items ≡ all_keys segments.now) }
{
    let mut keys: Vec<u64> = Vec::new(alloc);
    for part in segments {
        part.records.put_keys(&mut keys)?;
    }
    Ok(keys)
}

#[tactic(auto, using(crate::proofs::Steps::lane_goes, crate::proofs::Steps::lane_stops, crate::proofs::Steps::lane_ends))]
fn lane_of(rows: &[RowPart], branch: usize) -> usize
    ensures { result ≡ lane_of branch rows.now }
{
    'rows: for i in 0..rows.len() {
        if rows[i].branch as usize == branch {
            return i;
        }
    }
    rows.len()
}

// Where the row of a branch stands in each segment.
fn lanes_of(
    alloc: Global,
    segments: &[SegmentPart],
    branch: usize,
) -> Result<Vec<usize>, AllocError>
    ensures { IfOk result (λ lanes. lanes.items
        ≡ map (λ s. lane_of branch s.rows) segments.now) }
{
    let mut lanes: Vec<usize> = Vec::new(alloc);
    for part in segments {
        lanes.push(lane_of(part.rows.as_slice(), branch))?;
    }
    Ok(lanes)
}

// Do the records that a branch has at each position up to its last one have distinct keys?
fn is_keyed(
    alloc: Global,
    numbers: &[usize],
    segments: &[SegmentPart],
    last: u32,
    branch: usize,
) -> Result<bool, AllocError>
    requires { numbers.now ≡ map (first_of (all_keys segments.now)) (all_keys segments.now) }
    ensures { IfOk result (λ ok. ok ≡ is_keyed segments.now last branch) }
{
    let lanes = lanes_of(alloc, segments, branch)?;
    let mut walk = Walk::of(alloc, numbers.len())?;
    'positions: for n in 0..last as u64 + 1 {
        walk.step(numbers, segments, &lanes, n);
        if !walk.is_table() {
            return Ok(false);
        }
    }
    Ok(true)
}

// The numbers of the keys of all records, segment by segment.
fn all_numbers(alloc: Global, segments: &[SegmentPart]) -> Result<Vec<usize>, AllocError>
    ensures { IfOk result (λ numbers.
        numbers.items ≡ map (first_of (all_keys segments.now)) (all_keys segments.now)) }
{
    let keys = keys_of(alloc, segments)?;
    numbers_of(alloc, &keys)
}

/// Have the records that are set distinct keys, at each position of each branch?
#[tactic(auto, using(crate::proofs::Tables::goes, crate::proofs::Tables::stops, crate::proofs::Tables::ends, crate::proofs::Tables::last_is))]
pub fn keys_once(alloc: Global, lasts: &[u32], segments: &[SegmentPart]) -> Result<bool, AllocError>
    ensures { IfOk result (λ ok. ok ≡ keys_once lasts.now segments.now) }
{
    let numbers = all_numbers(alloc, segments)?;
    'branches: for i in 0..lasts.len() {
        if !is_keyed(alloc, &numbers, segments, lasts[i], i)? {
            return Ok(false);
        }
    }
    Ok(true)
}
