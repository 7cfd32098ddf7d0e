//! The index that is made anew of parts.
ghost use Rattle.std.specs.Prelude.{◌≡◌, ◌<◌, ◌++◌, ◌∷◌, [], length, IfOk, OnOk};
ghost use Rattle.plain_bits.specs.Truth.{bit_of};
ghost use Rattle.record_page.specs.Page.{record_at};
ghost use Rattle.hybrid_view.specs.Spots.{places_anew, spots_in, spots_of_piece, spots_of_pieces};

use crate::part::LivePart;
use db_value::{Record, Steps};
use key_index::{KeyIndex, SpotChange, SpotChanges};
use std::alloc::{AllocError, Global};
use std::marker::Brand;
use std::sync::ledger::{Blank, Ledger};

// The place of the record in a slot of a part, if it is live.
fn put_spot<L: Ledger>(
    spots: &mut Vec<SpotChange>,
    part: &LivePart,
    slot: u32,
    steps: &mut Steps<L>,
) -> Result<(), AllocError>
    requires { slot < length part.now.rows.records }
    ensures { OnOk result (spots.new.items
        ≡ spots.old.items ++ spots_in part.now.segment slot
        (record_at part.now.rows.records slot ∷ []) (bit_of part.now.bits)) }
{
    if !part.live(slot) {
        return Ok(());
    }
    let mut row = Record::blank();
    part.read(slot, &mut row, steps);
    spots.push(SpotChange {
        key: row.key,
        place: Some((part.segment(), slot)),
    })?;
    Ok(())
}

// The places of all live records of a part, where nobody counts the steps.
#[tactic(auto, using(crate::proofs::SpotLemmas::spots_drop))]
fn put_counted<L: Ledger>(
    spots: &mut Vec<SpotChange>,
    part: &LivePart,
    blank: Blank,
) -> Result<(), AllocError>
    requires name { blank.name ≡ L.name }
    requires parts { blank.parts ≡ L.parts }
    requires some { 0 < L.parts }
    ensures { OnOk result (spots.new.items ≡ spots.old.items ++ spots_of_piece part.now) }
{
    let mut steps = Steps::<L>::open(blank);
    for slot in 0..part.slots() {
        put_spot(spots, part, slot, &mut steps)?;
    }
    Ok(())
}

fn put_spots(spots: &mut Vec<SpotChange>, part: &LivePart) -> Result<(), AllocError>
    ensures { OnOk result (spots.new.items ≡ spots.old.items ++ spots_of_piece part.now) }
{
    put_counted::<Brand>(spots, part, Blank::new(1))
}

/// An index of the live records of parts.
#[tactic(auto, using(crate::proofs::SpotLemmas::spots_more))]
pub(crate) fn index_anew(alloc: Global, parts: &[LivePart]) -> Result<KeyIndex, AllocError>
    ensures { IfOk result (λ index. index ≡ places_anew parts.now) }
{
    let mut spots = Vec::new(alloc);
    for part in parts {
        put_spots(&mut spots, part)?;
    }
    KeyIndex::new(alloc).with_changes(&SpotChanges::of(spots))
}
