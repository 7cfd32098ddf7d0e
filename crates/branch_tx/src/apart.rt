//! Whether the own part of a working table can be told from all others by its id.
ghost use Rattle.std.specs.Prelude.{◌≡◌, ◌<◌, ◌≤◌, true, length};
ghost use Rattle.std.specs.List.{All};
ghost use Rattle.db_store.specs.SeenState.{seen_table};
ghost use Rattle.branch_tx.specs.SeenFrom.{LackOwnId, IsApart};

use db_store::{Seen, View};

/// The id of a working table's own part.
const OWN_ID: u64 = 0xffff_ffff_ffff_ffff;

// Has none of the first parts of a relation this id?
fn lacks_own_id<V: View>(view: &V, relation: u8, count: u32) -> bool
    requires relation { relation < length (V.table view.now) }
    requires count { count ≤ length (V.parts_of view.now relation) }
    ensures { result ≡ true → LackOwnId (V.parts_of view.now relation) count }
{
    for index in 0..count {
        if view.part(relation, index).id == OWN_ID {
            return false;
        }
    }
    true
}

// The same of what a transaction sees, but for a working table's own part.
fn is_apart<V: View>(seen: &Seen<V>, relation: u8) -> bool
    requires { relation < length (seen_table seen.now) }
    ensures { result ≡ true → IsApart seen.now relation }
{
    match seen {
        Seen::Kept { view } => {
            let count = view.parts(relation);
            lacks_own_id(*view, relation, count)
        }
        Seen::Own { work } => {
            let count = work.parts(relation) - 1;
            lacks_own_id(*work, relation, count)
        }
    }
}

/// The same of all that a transaction sees. A store would give this id only to a segment of a number
/// that no segment has.
pub fn are_apart<V: View>(views: &[Seen<V>], relation: u8) -> bool
    requires { All (λ s. relation < length (seen_table s)) views.now }
    ensures { result ≡ true → All (λ s. IsApart s relation) views.now }
{
    for seen in views {
        if !is_apart(seen, relation) {
            return false;
        }
    }
    true
}
