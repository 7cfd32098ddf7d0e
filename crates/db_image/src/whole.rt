//! The parts of a layout, from an image.
ghost use Rattle.std.specs.Prelude.{◌≡◌, ◌<◌, true, length, IfOk};
ghost use Rattle.db_value.specs.Relations.{is_counted, widths_at};
ghost use Rattle.db_image.specs.Parts.{parts_of, segments_from, AllFit};
ghost use Rattle.db_image.specs.Read.{IsFit};

use crate::segments::put_segments;
use crate::versions::{branches_of, versions_of};
use db_value::schema::widths_of;
use db_value::{ListOf, Relation, Schema, Widths};
use hybrid_store::{LayoutParts, SegmentParts};
use image_text::{Image, SegmentPart as SegmentRead};
use std::alloc::{AllocError, Global};

// The widths of a relation.
#[tactic(auto, using(db_value::proofs::SchemaLemmas::relation_widths))]
fn widths_at(relations: &[Relation], at: usize) -> Widths
    requires counted { is_counted relations.now ≡ true }
    requires within { at < length relations.now }
    ensures { result ≡ widths_at relations.now at }
{
    widths_of(relations[at].columns.as_slice())
}

// The segments by relation, in one list.
fn segments_of(
    alloc: Global,
    relations: &[Relation],
    lists: &[ListOf<SegmentRead>],
) -> Result<SegmentParts, AllocError>
    requires counted { is_counted relations.now ≡ true }
    requires same { length lists.now ≡ length relations.now }
    requires fit { AllFit relations.now lists.now }
    ensures { IfOk result (λ parts. parts ≡ segments_from relations.now 0 lists.now) }
{
    let mut made = Vec::new(alloc);
    for r in 0..lists.len() {
        let widths = widths_at(relations, r);
        put_segments(alloc, &mut made, r as u8, &widths, lists[r].as_slice())?;
    }
    Ok(ListOf::of(made))
}

/// The parts that an image stands for.
pub fn parts_of_image(alloc: Global, image: Image) -> Result<LayoutParts, AllocError>
    requires { IsFit image }
    ensures { IfOk result (λ p. p ≡ parts_of image) }
{
    let branches = branches_of(alloc, image.branches.as_slice())?;
    let versions = versions_of(alloc, image.versions.as_slice())?;
    let segments = segments_of(alloc, image.relations.as_slice(), image.segments.as_slice())?;
    Ok(LayoutParts {
        schema: Schema::of(image.relations.into_vec()),
        branches,
        versions,
        segments,
    })
}
