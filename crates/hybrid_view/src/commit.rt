//! What a commit makes of the bits of a branch.
ghost use Rattle.std.specs.Prelude.{◌≡◌, ℕ, ◌+◌, ◌<◌, ◌≤◌, ◌&&◌, ◌∷◌, [], cond, not, false, nat_lt, length, IfOk, OnOk};
ghost use Rattle.plain_bits.specs.Truth.{bit_of, differ};
ghost use Rattle.hybrid_view.specs.Struck.{struck};

use plain_bits::Bits;
use std::alloc::AllocError;

// Makes the bit of a place false, where the place is of the segment.
fn clear_at(bits: &mut Bits, segment: u32, place: &Option<(u32, u32)>)
    ensures bits { (slot : ℕ) → bit_of bits.new slot
        ≡ (bit_of bits.old slot && not (struck (place.now ∷ []) segment slot)) }
    ensures len { length bits.new ≡ length bits.old }
{
    match place {
        None => {}
        Some((of, slot)) => {
            if *of == segment && *slot < bits.len() {
                bits.clear(*slot);
            }
        }
    }
}

/// The bits of a segment without those of some places.
pub fn cleared(bits: &Bits, segment: u32, places: &[Option<(u32, u32)>]) -> Result<Bits, AllocError>
    ensures bits { IfOk result (λ b. (slot : ℕ)
        → bit_of b slot ≡ (bit_of bits.now slot && not (struck places.now segment slot))) }
    ensures len { IfOk result (λ b. length b ≡ length bits.now) }
{
    let mut new = bits.duplicate()?;
    for place in places {
        clear_at(&mut new, segment, place);
    }
    Ok(new)
}

/// Sets the bits of new records, which stand from one slot up to another.
#[tactic(auto, using(crate::proofs::ClearLemmas::put_none, crate::proofs::ClearLemmas::put_more))]
pub fn put_bits(bits: &mut Bits, from: u32, to: u32) -> Result<(), AllocError>
    requires behind { length bits.old ≤ from }
    requires order { from ≤ to }
    ensures bits { OnOk result ((slot : ℕ)
        → bit_of bits.new slot ≡ cond (nat_lt slot from) (bit_of bits.old slot) (nat_lt slot to)) }
    ensures len { OnOk result (length bits.new ≡ to) }
{
    bits.grow(to)?;
    for slot in from..to {
        bits.set(slot);
    }
    Ok(())
}

/// The bits in which two bitmaps differ.
pub fn difference(old: &Bits, new: &Bits) -> Result<Bits, AllocError>
    requires { length old.now ≤ length new.now }
    ensures bits { IfOk result (λ d. (slot : ℕ)
        → bit_of d slot ≡ differ (bit_of old.now slot) (bit_of new.now slot)) }
    ensures len { IfOk result (λ d. length d ≡ length new.now) }
{
    let mut delta = old.duplicate()?;
    delta.grow(new.len())?;
    new.xor_into(&mut delta);
    Ok(delta)
}

/// Is one of the places in the segment?
pub fn strikes(segment: u32, places: &[Option<(u32, u32)>]) -> bool
    ensures { result ≡ false → (slot : ℕ) → struck places.now segment slot ≡ false }
{
    for place in places {
        if is_in(segment, place) {
            return true;
        }
    }
    false
}

fn is_in(segment: u32, place: &Option<(u32, u32)>) -> bool
    ensures { result ≡ false → (slot : ℕ) → struck (place.now ∷ []) segment slot ≡ false }
{
    match place {
        None => false,
        Some((of, _)) => *of == segment,
    }
}
