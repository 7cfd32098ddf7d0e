//! Places at which views show their parts.
ghost use Rattle.std.specs.Prelude.{◌≡◌, ◌<◌, ◌≤◌, ◌++◌, length, map, OnOk, IfOk};
ghost use Rattle.std.specs.List.{All};
ghost use Rattle.std.specs.List.Sorted.{IsPermutation, IsSorted};
ghost use Rattle.multi_scan.specs.Places.{places_from, places_in, id_run, place_cmp};

use db_store::View;
use std::alloc::{AllocError, Global};

/// The id of a part, the position of the view that shows it, and its number there. Places are
/// compared in this order.
#[derive(Clone, Copy, PartialEq, Eq, PartialOrd, Ord)]
pub struct Place {
    pub id: u64,
    pub position: u32,
    pub index: u32,
}

// The places of the parts of a view, behind those of the views before it.
fn add_view<V: View>(
    view: &V,
    relation: u8,
    position: u32,
    places: &mut Vec<Place>,
) -> Result<(), AllocError>
    requires { relation < length (V.table view.now) }
    ensures { OnOk result (places.new.items
        ≡ places.old.items ++ places_from position 0 (V.parts_of view.now relation)) }
{
    for index in 0..view.parts(relation) {
        let id = view.part(relation, index).id;
        places.push(Place {
            id,
            position,
            index,
        })?;
    }
    Ok(())
}

/// The places of all parts, view by view. More than 2^32 views are answered as want of memory.
pub fn list_places<V: View>(
    alloc: Global,
    views: &[V],
    relation: u8,
) -> Result<Vec<Place>, AllocError>
    requires { All (λ v. relation < length (V.table v)) views.now }
    ensures { IfOk result (λ places.
        places.items ≡ places_in 0 (map (λ v. V.parts_of v relation) views.now)) }
{
    let mut places = Vec::new(alloc);
    for (index, view) in views.iter().enumerate() {
        let Ok(position) = u32::try_from(index) else {
            return Err(AllocError);
        };
        add_view(view, relation, position, &mut places)?;
    }
    Ok(places)
}

/// In order, so that places of one part are neighbours.
pub fn by_id(mut places: Vec<Place>) -> Vec<Place>
    ensures permutation { IsPermutation places.items result.items }
    ensures sorted { IsSorted place_cmp result.items }
{
    places.sort_unstable();
    places
}

/// How many places at the front show this id.
pub fn count_id(id: u64, places: &[Place]) -> usize
    ensures value { result ≡ id_run id places.now }
    ensures within { result ≤ length places.now }
{
    let mut count = 0;
    for place in places {
        if place.id != id {
            return count;
        }
        count += 1;
    }
    count
}
