//! The bits of a word that are set, one after another.
ghost use Rattle.std.specs.Prelude.{◌≡◌, ℕ, ◌<◌, ◌≤◌, true, false};
ghost use Rattle.image_parts.specs.Whole.{word_bit};

/// The place of the first bit that is set from this place on, or 64 if there is none.
#[tactic(auto, using(crate::proofs::Bits::none_ahead, crate::proofs::Bits::clear_ahead, crate::proofs::Bits::found_ahead))]
pub(crate) fn next_bit(word: u64, from: u32) -> u32
    requires { from ≤ 64 }
    ensures further { from ≤ result }
    ensures within { result ≤ 64 }
    ensures clear { (k : ℕ) → from ≤ k → k < result → word_bit word k ≡ false }
    ensures found { result < 64 → word_bit word result ≡ true }
{
    if from == 64 {
        return 64;
    }
    let ahead = word >> from;
    if ahead == 0 {
        return 64;
    }
    from + ahead.trailing_zeros()
}
