//! The widths of all relations, and how many bytes their rows may take.
ghost use Rattle.std.specs.Prelude.{[], ◌∷◌, ◌≡◌, IfOk};
ghost use Rattle.db_store.specs.RowWidths.{widths_or, all_widths, most_of, most_from};

use db_value::row_form::size_of_row;
use db_value::{Schema, Widths};
use std::alloc::{AllocError, Global};

// The widths of one column of numbers.
fn number_widths() -> Widths
    ensures { result ≡ 0 ∷ [] }
{
    match Widths::of(&[0]) {
        Some(widths) => widths,
        None => unreachable!(),
    }
}

// The widths of a relation, or those of one column of numbers.
fn widths_or(schema: &Schema, relation: u8) -> Widths
    ensures { result ≡ widths_or schema.now relation }
{
    if (relation as usize) < schema.relations().len() {
        return schema.widths(relation);
    }
    number_widths()
}

/// The widths of all relations that there can be.
#[tactic(auto, unfolding(crate::specs::RowWidths::all_widths))]
pub fn all_widths(alloc: Global, schema: &Schema) -> Result<Vec<Widths>, AllocError>
    ensures { IfOk result (λ all. all.items ≡ all_widths schema.now) }
{
    let mut all = Vec::with_capacity(alloc, 8)?;
    for relation in 0..8u8 {
        all.push(widths_or(schema, relation))?;
    }
    Ok(all)
}

// The most bytes that the fields of a row take by these widths.
fn most_of(widths: &Widths) -> u16
    ensures { result ≡ most_of widths.now }
{
    let widths = widths.as_slice();
    (1 + widths.len() + size_of_row(widths)) as u16
}

/// The most bytes that the fields of a row take in any relation, or those that one number takes.
pub fn most_in(all: &[Widths]) -> u16
    ensures { result ≡ most_from 10 all.now }
{
    let mut most = 10;
    for widths in all {
        let own = most_of(widths);
        if most >= own {
            continue;
        }
        most = own;
    }
    most
}
