//! The deltas of an image, from those of a store.
ghost use Rattle.std.specs.Prelude.{◌≡◌, ◌-◌, ◌<◌, ◌≤◌, ◌^◌, length, map, IfOk};
ghost use Rattle.std.specs.List.{All, range_with_len};
ghost use Rattle.hybrid_view.specs.Deltas.{slots_of};
ghost use Rattle.db_image.specs.Images.{first_word, end_word, word_in, delta_image};

use commit_history::{Delta, History};
use db_value::ListOf;
use image_text::Delta as DeltaRead;
use plain_bits::Bits;
use std::alloc::{AllocError, Global};

const WORD_BITS: u32 = 64;

// The number of the first word in which a bit is set, or 0 if none is.
#[tactic(auto, using(crate::proofs::ImageWords::first_none, crate::proofs::ImageWords::first_some))]
fn first_word(bits: &Bits) -> u32
    ensures { result ≡ first_word (slots_of bits.now) }
{
    match bits.next_one(0) {
        None => 0,
        Some(place) => place / WORD_BITS,
    }
}

// One past the number of the last word in which a bit is set, or 0 if none is.
fn end_word(bits: &Bits) -> u32
    ensures { result ≡ end_word (slots_of bits.now) }
{
    let count = bits.len().div_ceil(WORD_BITS);
    for index in 0..count {
        if bits.word(count - 1 - index) != 0 {
            return count - index;
        }
    }
    0
}

// The words from one up to another.
fn words_from(alloc: Global, bits: &Bits, first: u32, end: u32) -> Result<Vec<u64>, AllocError>
    ensures { IfOk result (λ words. words.items
        ≡ map (word_in (slots_of bits.now)) (range_with_len first (end - first))) }
{
    let mut words = Vec::with_capacity(alloc, end.saturating_sub(first) as usize)?;
    for at in first..end {
        words.push(bits.word(at))?;
    }
    Ok(words)
}

/// The delta of an image that changes the same slots.
pub fn delta_image(alloc: Global, delta: &Delta) -> Result<DeltaRead, AllocError>
    ensures value { IfOk result (λ made. made ≡ delta_image (slots_of delta.now)) }
    ensures few { IfOk result (λ made. length made.words < 2 ^ 32) }
{
    let bits = delta.bits(alloc)?;
    let first = first_word(&bits);
    let end = end_word(&bits);
    let words = words_from(alloc, &bits, first, end)?;
    Ok(DeltaRead {
        first,
        words: ListOf::of(words),
    })
}

/// The deltas of a history.
pub fn deltas_image(alloc: Global, history: &History) -> Result<ListOf<DeltaRead>, AllocError>
    ensures value { IfOk result (λ made. made ≡ map delta_image (map slots_of history.now)) }
    ensures few { IfOk result (λ made. All (λ d. length d.words < 2 ^ 32) made) }
{
    let mut made = Vec::with_capacity(alloc, history.len() as usize)?;
    for index in 0..history.len() {
        made.push(delta_image(alloc, history.delta(index))?)?;
    }
    Ok(ListOf::of(made))
}
