//! How an image is written.
ghost use Rattle.std.specs.Prelude.{◌≡◌, ◌<◌, ◌≤◌, ◌^◌, ◌++◌, length, OnOk, IfOk};
ghost use Rattle.std.specs.List.{flat_map, All};
ghost use Rattle.image_text.specs.declared.image.Format.TheVariants.{Two};
ghost use Rattle.image_text.specs.Reading.{pages_for};
ghost use Rattle.image_text.specs.Spelling.{Fits, FitsRelation, FitsRow, FitsSegment, FitsSegments, AllFit, widths_of, counted, name_bytes, column_bytes, relation_bytes, relations_bytes, place_bytes, branch_bytes, second_bytes, version_bytes, pages_bytes, word_bytes, delta_bytes, row_bytes, segment_bytes, segments_bytes, spelling};

use db_value::schema::widths_of;
use db_value::{Column, ListOf, Name, Relation, VersionPlace, Widths};
use image_text::{BranchPart, Delta, Image, MadeVersion, RowPart, SegmentPart};
use segment::Segment;
use std::alloc::{AllocError, Global};

fn put_name(out: &mut Vec<u8>, name: &Name) -> Result<(), AllocError>
    requires { length name.now ≤ 32 }
    ensures { OnOk result (out.new.items ≡ out.old.items ++ name_bytes name.now) }
{
    out.push(name.as_bytes().len() as u8)?;
    out.extend_from_slice(name.as_bytes())?;
    Ok(())
}

fn put_column(out: &mut Vec<u8>, column: &Column) -> Result<(), AllocError>
    requires { length column.now.name ≤ 32 }
    ensures { OnOk result (out.new.items ≡ out.old.items ++ column_bytes Two column.now) }
{
    put_name(out, &column.name)?;
    out.push(column.width)?;
    Ok(())
}

fn put_columns(out: &mut Vec<u8>, columns: &[Column]) -> Result<(), AllocError>
    requires { All (λ c. length c.name ≤ 32) columns.now }
    ensures { OnOk result (out.new.items
        ≡ out.old.items ++ flat_map (column_bytes Two) columns.now) }
{
    for column in columns {
        put_column(out, column)?;
    }
    Ok(())
}

fn put_relation(out: &mut Vec<u8>, relation: &Relation) -> Result<(), AllocError>
    requires { FitsRelation relation.now }
    ensures { OnOk result (out.new.items ≡ out.old.items ++ relation_bytes Two relation.now) }
{
    put_name(out, &relation.name)?;
    out.push(relation.columns.as_slice().len() as u8)?;
    put_columns(out, relation.columns.as_slice())
}

fn put_relations(out: &mut Vec<u8>, relations: &[Relation]) -> Result<(), AllocError>
    requires few { length relations.now ≤ 8 }
    requires each { All FitsRelation relations.now }
    ensures { OnOk result (out.new.items ≡ out.old.items ++ relations_bytes Two relations.now) }
{
    out.push(relations.len() as u8)?;
    for relation in relations {
        put_relation(out, relation)?;
    }
    Ok(())
}

fn put_place(out: &mut Vec<u8>, at: VersionPlace) -> Result<(), AllocError>
    ensures { OnOk result (out.new.items ≡ out.old.items ++ place_bytes at) }
{
    out.extend_from_slice(&at.branch.to_le_bytes())?;
    out.extend_from_slice(&at.position.to_le_bytes())?;
    Ok(())
}

fn put_branch(out: &mut Vec<u8>, branch: &BranchPart) -> Result<(), AllocError>
    requires { length branch.now.name ≤ 32 }
    ensures { OnOk result (out.new.items ≡ out.old.items ++ branch_bytes branch.now) }
{
    put_name(out, &branch.name)?;
    put_place(out, branch.origin)
}

fn put_branches(out: &mut Vec<u8>, branches: &[BranchPart]) -> Result<(), AllocError>
    requires few { length branches.now < 2 ^ 32 }
    requires names { All (λ b. length b.name ≤ 32) branches.now }
    ensures { OnOk result (out.new.items ≡ out.old.items ++ counted branch_bytes branches.now) }
{
    out.extend_from_slice(&(branches.len() as u32).to_le_bytes())?;
    for branch in branches {
        put_branch(out, branch)?;
    }
    Ok(())
}

fn put_version(out: &mut Vec<u8>, version: &MadeVersion) -> Result<(), AllocError>
    ensures { OnOk result (out.new.items ≡ out.old.items ++ version_bytes version.now) }
{
    out.extend_from_slice(&version.branch.to_le_bytes())?;
    match version.second {
        None => out.push(0)?,
        Some(at) => {
            out.push(1)?;
            put_place(out, at)?;
        }
    }
    Ok(())
}

fn put_versions(out: &mut Vec<u8>, versions: &[MadeVersion]) -> Result<(), AllocError>
    requires { length versions.now < 2 ^ 32 }
    ensures { OnOk result (out.new.items ≡ out.old.items ++ counted version_bytes versions.now) }
{
    out.extend_from_slice(&(versions.len() as u32).to_le_bytes())?;
    for version in versions {
        put_version(out, version)?;
    }
    Ok(())
}

fn put_words(out: &mut Vec<u8>, words: &[u64]) -> Result<(), AllocError>
    ensures { OnOk result (out.new.items ≡ out.old.items ++ flat_map word_bytes words.now) }
{
    for word in words {
        out.extend_from_slice(&word.to_le_bytes())?;
    }
    Ok(())
}

fn put_deltas(out: &mut Vec<u8>, deltas: &[Delta]) -> Result<(), AllocError>
    requires { All (λ d. length d.words < 2 ^ 32) deltas.now }
    ensures { OnOk result (out.new.items ≡ out.old.items ++ flat_map delta_bytes deltas.now) }
{
    for delta in deltas {
        put_delta(out, delta)?;
    }
    Ok(())
}

// The pages of a segment, which are full but the last.
#[tactic(auto, using(crate::proofs::Write::page_next, crate::proofs::Write::no_page))]
fn put_pages(out: &mut Vec<u8>, segment: &Segment) -> Result<(), AllocError>
    ensures { OnOk result (out.new.items ≡ out.old.items ++ pages_bytes segment.now.widths
        (pages_for segment.now.widths (length segment.now.records)) segment.now.records) }
{
    for index in 0..segment.pages() {
        out.extend_from_slice(segment.page(index).bytes())?;
    }
    Ok(())
}

fn put_delta(out: &mut Vec<u8>, delta: &Delta) -> Result<(), AllocError>
    requires { length delta.now.words < 2 ^ 32 }
    ensures { OnOk result (out.new.items ≡ out.old.items ++ delta_bytes delta.now) }
{
    out.extend_from_slice(&delta.first.to_le_bytes())?;
    out.extend_from_slice(&(delta.words.as_slice().len() as u32).to_le_bytes())?;
    put_words(out, delta.words.as_slice())
}

fn put_row(out: &mut Vec<u8>, row: &RowPart) -> Result<(), AllocError>
    requires { FitsRow row.now }
    ensures { OnOk result (out.new.items ≡ out.old.items ++ row_bytes row.now) }
{
    out.extend_from_slice(&row.branch.to_le_bytes())?;
    out.extend_from_slice(&row.from.to_le_bytes())?;
    put_deltas(out, row.deltas.as_slice())
}

fn put_rows(out: &mut Vec<u8>, rows: &[RowPart]) -> Result<(), AllocError>
    requires few { length rows.now < 2 ^ 32 }
    requires each { All FitsRow rows.now }
    ensures { OnOk result (out.new.items ≡ out.old.items ++ counted row_bytes rows.now) }
{
    out.extend_from_slice(&(rows.len() as u32).to_le_bytes())?;
    for row in rows {
        put_row(out, row)?;
    }
    Ok(())
}

fn put_segment(out: &mut Vec<u8>, widths: &Widths, segment: &SegmentPart) -> Result<(), AllocError>
    requires { FitsSegment widths.now segment.now }
    ensures { OnOk result (out.new.items ≡ out.old.items ++ segment_bytes widths.now segment.now) }
{
    out.extend_from_slice(&segment.head.to_le_bytes())?;
    out.extend_from_slice(&segment.records.len().to_le_bytes())?;
    let pages = segment.records.as_segment(*out.allocator(), widths)?;
    put_pages(out, &pages)?;
    put_rows(out, segment.rows.as_slice())
}

fn put_segments(
    out: &mut Vec<u8>,
    widths: &Widths,
    segments: &[SegmentPart],
) -> Result<(), AllocError>
    requires { FitsSegments widths.now segments.now }
    ensures { OnOk result (out.new.items ≡ out.old.items ++ counted (segment_bytes widths.now)
        segments.now) }
{
    out.extend_from_slice(&(segments.len() as u32).to_le_bytes())?;
    for segment in segments {
        put_segment(out, widths, segment)?;
    }
    Ok(())
}

// The segments of one relation.
#[tactic(auto, using(db_value::proofs::SchemaLemmas::columns_widths))]
fn put_part(
    out: &mut Vec<u8>,
    relation: &Relation,
    segments: &ListOf<SegmentPart>,
) -> Result<(), AllocError>
    requires relation { FitsRelation relation.now }
    requires fits { FitsSegments (widths_of relation.now) segments.now }
    ensures { OnOk result (out.new.items ≡ out.old.items
        ++ counted (segment_bytes (widths_of relation.now)) segments.now) }
{
    let widths = widths_of(relation.columns.as_slice());
    put_segments(out, &widths, segments.as_slice())
}

#[tactic(auto, using(crate::proofs::Write::part_more, crate::proofs::Write::no_part, crate::proofs::Write::fits_here))]
fn put_all(
    out: &mut Vec<u8>,
    relations: &[Relation],
    segments: &[ListOf<SegmentPart>],
) -> Result<(), AllocError>
    requires count { length segments.now ≡ length relations.now }
    requires relations { All FitsRelation relations.now }
    requires fits { AllFit relations.now segments.now }
    ensures { OnOk result (out.new.items ≡ out.old.items ++ segments_bytes relations.now
        segments.now) }
{
    for i in 0..relations.len() {
        put_part(out, &relations[i], &segments[i])?;
    }
    Ok(())
}

/// The one spelling of an image in format two.
#[tactic(auto, unfolding(image_text::specs::Spelling::spelling))]
pub fn encode(alloc: Global, image: &Image) -> Result<Vec<u8>, AllocError>
    requires { Fits image.now }
    ensures { IfOk result (λ out. out.items ≡ spelling Two image.now) }
{
    let mut out = Vec::new(alloc);
    put_relations(&mut out, image.relations.as_slice())?;
    put_branches(&mut out, image.branches.as_slice())?;
    put_versions(&mut out, image.versions.as_slice())?;
    put_all(
        &mut out,
        image.relations.as_slice(),
        image.segments.as_slice(),
    )?;
    Ok(out)
}
