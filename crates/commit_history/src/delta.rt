//! What one commit changes in a bitmap.
ghost use Rattle.std.specs.Prelude.{◌≡◌, ℕ, ◌*◌, ◌<◌, ◌/◌, ◌≤◌, ◌==◌, length, set, take, OnOk, OnErr, IfOk, IfSome};
ghost use Rattle.std.specs.List.{All};
ghost use Rattle.std.proofs.Common.{get_or};
ghost use Rattle.plain_bits.specs.Truth.{bit_of, differ, IsClearFrom};
ghost use Rattle.plain_bits.specs.Word.{word_bit, FitsAt};
ghost use Rattle.commit_history.specs.Combined.{xor_of};
ghost use Rattle.commit_history.specs.Sparse.{flipped, is_flipped, bit_in, IsWithin};

use plain_bits::Bits;
use std::alloc::{AllocError, Global};
use std::marker::Model;

const WORD_BITS: u32 = 64;

// So many words are made room for at once: few deltas have more.
const FEW_WORDS: usize = 8;

/// A word of a delta, which has the 64 places from 64 times `at` on.
#[derive(Clone, Copy)]
pub(crate) struct DeltaWord {
    pub(crate) at: u32,
    pub(crate) word: u64,
}

/// A delta is a list of truth values: which places of a bitmap one commit changes. Only its words in
/// which a value is true are kept, so a delta of two places is as small in a bitmap of any length.
#[derive(Drop)]
pub struct Delta {
    len: u32,
    words: Vec<DeltaWord>,
}

impl Model for Delta {
    ghost use Rattle.std.specs.Prelude.{Bool, List};
    ghost use Rattle.std.specs.List.{All};
    ghost use Rattle.commit_history.specs.Sparse.{values_of, IsWithin};

    ghost Value = { List Bool };

    ghost view = { λ d. values_of d.len d.words.items };

    ghost invariant = { λ d. All (IsWithin d.len) d.words.items };
}

// Puts a word after the others, unless it is zero.
fn push_word(words: &mut Vec<DeltaWord>, at: u32, word: u64) -> Result<(), AllocError>
    ensures bits { OnOk result ((place : ℕ)
        → bit_in words.new.items place
        ≡ differ (word_bit at word place) (bit_in words.old.items place)) }
    ensures within { (len : ℕ) → All (IsWithin len) words.old.items → 64 * at < len
        → FitsAt at word len
        → OnOk result (All (IsWithin len) words.new.items) }
{
    if word != 0 {
        words.push(DeltaWord { at, word })?;
    }
    Ok(())
}

// The words of a bitmap that are not zero, where no place is true from `len` on.
fn words_in(alloc: Global, bits: &Bits, len: u32) -> Result<Vec<DeltaWord>, AllocError>
    requires { IsClearFrom bits.now len }
    ensures bits { IfOk result (λ words. (place : ℕ)
        → bit_in words.items place ≡ bit_of bits.now place) }
    ensures within { IfOk result (λ words. All (IsWithin len) words.items) }
{
    let mut words = Vec::new(alloc);
    for at in 0..len.div_ceil(WORD_BITS) {
        push_word(&mut words, at, bits.word(at))?;
    }
    words.shrink_to_fit();
    Ok(words)
}

// The bit of a place in its word.
fn bit_at(place: u32) -> u64
    ensures bit { (k : ℕ) → word_bit (place / WORD_BITS) result k ≡ (place == k) }
    ensures fits { (len : ℕ) → place < len → FitsAt (place / WORD_BITS) result len }
{
    1 << (place % WORD_BITS)
}

// Where the last word stands, if it is the one with this number.
fn last_at(words: &[DeltaWord], at: u32) -> Option<usize>
    ensures within { IfSome result (λ i. i < length words.now) }
    ensures at { IfSome result (λ i. (d : DeltaWord) → (get_or words.now i d).at ≡ at) }
{
    let last = words.len().checked_sub(1)?;
    if words[last].at == at {
        return Some(last);
    }
    None
}

// Changes one place: in the last word, if it has the place, and otherwise in a new one.
fn flip(words: &mut Vec<DeltaWord>, place: u32) -> Result<(), AllocError>
    ensures bits { OnOk result ((k : ℕ)
        → bit_in words.new.items k ≡ differ (place == k) (bit_in words.old.items k)) }
    ensures within { (len : ℕ) → All (IsWithin len) words.old.items → place < len
        → OnOk result (All (IsWithin len) words.new.items) }
{
    let at = place / WORD_BITS;
    let bit = bit_at(place);
    if let Some(last) = last_at(words, at) {
        words[last].word ^= bit;
        return Ok(());
    }
    words.push(DeltaWord { at, word: bit })?;
    Ok(())
}

fn words_at(alloc: Global, places: &[u32]) -> Result<Vec<DeltaWord>, AllocError>
    ensures bits { IfOk result (λ words. (k : ℕ) → bit_in words.items k ≡ is_flipped places.now k) }
    ensures within { (len : ℕ) → All (λ place. place < len) places.now
        → IfOk result (λ words. All (IsWithin len) words.items) }
{
    let mut words = Vec::with_capacity(alloc, places.len().min(FEW_WORDS))?;
    for place in places {
        flip(&mut words, *place)?;
    }
    words.shrink_to_fit();
    Ok(words)
}

// Changes in a bitmap the places that the words have.
fn flip_all(words: &[DeltaWord], bits: &mut Bits)
    requires { All (IsWithin (length bits.old)) words.now }
    ensures bits { (place : ℕ)
        → bit_of bits.new place ≡ differ (bit_in words.now place) (bit_of bits.old place) }
    ensures len { length bits.new ≡ length bits.old }
{
    for word in words {
        bits.xor_word(word.at, word.word);
    }
}

impl Delta {
    /// The delta that changes the places which are true in a bitmap.
    pub fn of_bits(alloc: Global, bits: &Bits) -> Result<Delta, AllocError>
        ensures { IfOk result (λ delta. delta ≡ bits.now) }
    {
        Delta::of_front(alloc, bits, bits.len())
    }

    /// The same, cut to the first `len` places: no later one is true.
    pub fn of_front(alloc: Global, bits: &Bits, len: u32) -> Result<Delta, AllocError>
        requires within { len ≤ length bits.now }
        requires clear { IsClearFrom bits.now len }
        ensures { IfOk result (λ delta. delta ≡ take len bits.now) }
    {
        let words = words_in(alloc, bits, len)?;
        Ok(Delta { len, words })
    }

    /// The delta of `len` places that changes these ones. It is smallest if they ascend. A place that
    /// stands there twice is changed back.
    pub fn of_places(alloc: Global, len: u32, places: &[u32]) -> Result<Delta, AllocError>
        requires { All (λ place. place < len) places.now }
        ensures { IfOk result (λ delta. delta ≡ flipped len places.now) }
    {
        let words = words_at(alloc, places)?;
        Ok(Delta { len, words })
    }

    /// How many places the delta has.
    pub fn len(&self) -> u32
        ensures { result ≡ length self.now }
    {
        self.len
    }

    /// The delta as a bitmap.
    pub fn bits(&self, alloc: Global) -> Result<Bits, AllocError>
        ensures { IfOk result (λ bits. bits ≡ self.now) }
    {
        let mut bits = Bits::new(alloc);
        self.combine(&mut bits)?;
        Ok(bits)
    }

    /// Changes in a bitmap the places of the delta, after lengthening it where the delta is longer.
    pub fn combine(&self, bits: &mut Bits) -> Result<(), AllocError>
        ensures combined { OnOk result (bits.new ≡ xor_of self.now bits.old) }
        ensures unchanged { OnErr result (bits.new ≡ bits.old) }
    {
        bits.grow(self.len)?;
        self.combine_into(bits);
        Ok(())
    }

    fn combine_into(&self, bits: &mut Bits)
        requires { length self.now ≤ length bits.old }
        ensures { bits.new ≡ xor_of self.now bits.old }
    {
        flip_all(&self.words, bits);
    }

    /// A delta of its own with the same places.
    pub fn duplicate(&self) -> Result<Delta, AllocError>
        ensures { IfOk result (λ copy. copy ≡ self.now) }
    {
        let mut words = Vec::with_capacity(*self.words.allocator(), self.words.len())?;
        words.extend_from_slice(&self.words)?;
        Ok(Delta {
            len: self.len,
            words,
        })
    }
}
