//! The deltas of a layout, from those of an image.
ghost use Rattle.std.specs.Prelude.{◌≡◌, ℕ, ◌<◌, ◌==◌, true, length, IfOk};
ghost use Rattle.plain_bits.specs.Truth.{bit_of, differ};
ghost use Rattle.plain_bits.specs.Word.{is_set};
ghost use Rattle.image_parts.specs.Whole.{delta_bit};
ghost use Rattle.image_parts.specs.Walk.{word_at};
ghost use Rattle.db_image.specs.Parts.{bits_of};

use commit_history::Delta;
use image_text::Delta as DeltaRead;
use plain_bits::Bits;
use std::alloc::{AllocError, Global};

const WORD_BITS: u32 = 64;

// The lowest bits of a word, as many as asked for.
fn low_bits(word: u64, many: u32) -> u64
    requires { many < 64 }
    ensures fits { (k : ℕ) → is_set result k ≡ true → k < many }
    ensures same { (k : ℕ) → k < many → is_set result k ≡ is_set word k }
{
    word % (1 << many)
}

// Changes the places of a bitmap whose bits are set in the word with this number. Bits past its end
// are no places.
fn put_word(bits: &mut Bits, at: u64, word: u64)
    ensures len { length bits.new ≡ length bits.old }
    ensures bits { (k : ℕ) → k < length bits.old
        → bit_of bits.new k ≡ differ (word_at at word k) (bit_of bits.old k) }
{
    let whole = bits.len() / WORD_BITS;
    if word == 0 || at > whole as u64 {
        return;
    }
    if at < whole as u64 {
        bits.xor_word(at as u32, word);
        return;
    }
    let many = bits.len() % WORD_BITS;
    if many > 0 {
        bits.xor_word(whole, low_bits(word, many));
    }
}

// Changes the places of a bitmap that are slots of a delta.
fn put_words(bits: &mut Bits, delta: &DeltaRead)
    ensures len { length bits.new ≡ length bits.old }
    ensures bits { (k : ℕ) → k < length bits.old
        → bit_of bits.new k ≡ differ (delta_bit delta.now k) (bit_of bits.old k) }
{
    let words = delta.words.as_slice();
    'words: for i in 0..words.len() {
        put_word(bits, delta.first as u64 + i as u64, words[i]);
    }
}

// The bitmap of so many places that are slots of a delta.
fn bits_in(alloc: Global, delta: &DeltaRead, size: u32) -> Result<Bits, AllocError>
    ensures { IfOk result (λ bits. bits ≡ bits_of size delta.now) }
{
    let mut bits = Bits::new(alloc);
    bits.grow(size)?;
    put_words(&mut bits, delta);
    Ok(bits)
}

/// A delta over so many records.
pub fn delta_of(alloc: Global, delta: &DeltaRead, size: u32) -> Result<Delta, AllocError>
    ensures { IfOk result (λ bits. bits ≡ bits_of size delta.now) }
{
    let bits = bits_in(alloc, delta, size)?;
    let made = Delta::of_bits(alloc, &bits)?;
    Ok(made)
}
