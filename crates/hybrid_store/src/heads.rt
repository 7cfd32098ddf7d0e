//! The head of a branch among the segments of a relation.
ghost use Rattle.std.specs.Prelude.{◌≡◌, map, IfOk};
ghost use Rattle.std.specs.Arc.{arc_value};
ghost use Rattle.db_store.specs.LayoutGrowth.{is_head_of};
ghost use Rattle.hybrid_store.specs.Lanes.{segment_of};
ghost use Rattle.hybrid_store.specs.Stored.{head_in, HasHead, HasPiece, IsOwnOf};

use bit_rows::{BitRows, KeptSegment, KeptSegments};
use hybrid_view::LiveRelation;
use segment::Segment;
use std::alloc::AllocError;
use std::sync::Arc;

// Is the segment the head of a branch?
fn is_head(kept: &KeptSegment, branch: u32) -> bool
    ensures { result ≡ is_head_of branch kept.now.head }
{
    match kept.head() {
        None => false,
        Some(other) => branch == other,
    }
}

/// The number of a branch's head, by its rows. In most relations it is the segment of the last row.
#[tactic(auto, using(crate::proofs::OwnLemmas::head_first, crate::proofs::OwnLemmas::head_found, crate::proofs::OwnLemmas::head_earlier, crate::proofs::OwnLemmas::head_next))]
pub(crate) fn head_of_rows(rows: &BitRows, kept: &KeptSegments, branch: u32) -> u32
    requires { HasHead branch kept.now.all rows.now }
    ensures { result ≡ head_in branch (map segment_of kept.now.all) }
{
    let mut index = rows.len() - 1;
    while !is_head(kept.segment(rows.row(index).segment()), branch) {
        index -= 1;
    }
    rows.row(index).segment()
}

/// A link to the records of the part of a segment. In most relations it is the last part.
#[tactic(auto, using(crate::proofs::OwnLemmas::piece_first, crate::proofs::OwnLemmas::piece_earlier, crate::proofs::OwnLemmas::piece_next))]
pub(crate) fn own_records(live: &LiveRelation, segment: u32) -> Result<Arc<Segment>, AllocError>
    requires { HasPiece segment live.now.pieces }
    ensures { IfOk result (λ s. IsOwnOf segment live.now.pieces (arc_value s)) }
{
    let mut index = live.parts() - 1;
    while live.part(index).segment() != segment {
        index -= 1;
    }
    live.part(index).share_records()
}
