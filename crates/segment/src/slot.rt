//! Slots with the keys of their records.
ghost use Rattle.std.specs.Prelude.{◌≡◌, ◌<◌, ◌++◌, ◌∷◌, ◌==◌, [], List, cond, Some, None};
ghost use Rattle.std.specs.List.Sorted.{IsNonDecreasingBy};
ghost use Rattle.segment.specs.Slots.{IsGreatest, rank};
ghost use Rattle.segment.specs.declared.slot.KeyedSlot.{KeyedSlot};

/// A keyed slot is a slot with the key of the record in it.
#[derive(Clone, Copy)]
pub(crate) struct KeyedSlot {
    pub(crate) key: u64,
    pub(crate) slot: u32,
}

// One more than the greatest slot.
const SLOTS: u128 = 0x1_0000_0000;

impl KeyedSlot {
    /// The number by which keyed slots ascend: by key, and then by slot.
    pub(crate) fn rank(&self) -> u128
        ensures { result ≡ rank self.now }
    {
        u128::from(self.key) * SLOTS + u128::from(self.slot)
    }
}

// The slot, if the key that was found is the one that is looked for.
fn slot_if(found: u64, slot: u32, key: u64) -> Option<u32>
    ensures value { result ≡ cond (found == key) (Some slot) None }
    ensures fits { slot < 4294967296 }
{
    if found == key { Some(slot) } else { None }
}

// The greater of a slot and another one, if that has the key and is below the bound.
fn later(last: Option<u32>, keyed: &KeyedSlot, key: u64, bound: u32) -> Option<u32>
    ensures { (slots : List KeyedSlot) → IsGreatest slots key bound last
        → IsGreatest (slots ++ keyed.now ∷ []) key bound result }
{
    if keyed.key != key {
        return last;
    }
    if keyed.slot >= bound {
        return last;
    }
    match last {
        None => Some(keyed.slot),
        Some(slot) => {
            if slot > keyed.slot {
                return last;
            }
            Some(keyed.slot)
        }
    }
}

/// The greatest slot below a bound with a key, of keyed slots in any order.
pub(crate) fn look_through(slots: &[KeyedSlot], key: u64, bound: u32) -> Option<u32>
    ensures { IsGreatest slots.now key bound result }
{
    let mut last = None;
    for keyed in slots {
        last = later(last, keyed, key, bound);
    }
    last
}

/// The same, of keyed slots that ascend.
pub(crate) fn search(slots: &[KeyedSlot], key: u64, bound: u32) -> Option<u32>
    requires { IsNonDecreasingBy rank slots.now }
    ensures { IsGreatest slots.now key bound result }
{
    let limit = KeyedSlot { key, slot: bound }.rank();
    let at = slots.partition_point(|keyed| keyed.rank() < limit);
    if at == 0 {
        return None;
    }
    let keyed = slots[at - 1];
    slot_if(keyed.key, keyed.slot, key)
}
