//! The rows and the segments of an image, from those of a store.
ghost use Rattle.std.specs.Prelude.{◌≡◌, ℕ, ◌+◌, ◌<◌, ◌≤◌, ◌^◌, ◌++◌, [], length, IfOk, IfSome, OnOk};
ghost use Rattle.std.specs.List.{All};
ghost use Rattle.std.proofs.Common.{get_or};
ghost use Rattle.db_value.specs.Relations.{widths_at};
ghost use Rattle.segment.specs.Pages.{AreWide};
ghost use Rattle.db_store.specs.Layout.{by_relation, segments_at};
ghost use Rattle.hybrid_store.specs.Store.{layout_of};
ghost use Rattle.image_text.specs.Spelling.{FitsRow, FitsSegment, FitsSegments};
ghost use Rattle.db_image.specs.Imaged.{IsRanged, AreRanged, AllAreRanged};
ghost use Rattle.db_image.specs.Images.{row_image, rows_image, head_image, segment_image, segments_image};

use crate::image_deltas::deltas_image;
use crate::image_records::fits_its_types;
use db_store::Store;
use db_value::{ListOf, Record, Steps};
use hybrid_store::HybridStore;
use image_text::{PagedRecords, RowPart as RowRead, SegmentPart as SegmentRead};
use segment::Segment;
use std::alloc::{AllocError, Global};
use std::marker::Brand;
use std::sync::ledger::{Blank, Ledger};

/// How many branches a store has.
pub(crate) fn branch_count(store: &HybridStore) -> u32
    ensures count { result ≡ length (layout_of store.now).lanes }
    ensures few { result ≤ 1024 }
{
    store.branches()
}

/// How many relations a store has.
pub(crate) fn relation_count(store: &HybridStore) -> u8
    ensures { result ≡ length (layout_of store.now).schema }
{
    store.schema().relations().len() as u8
}

// Puts the row that a branch has of a segment after others, if it has one.
fn put_row(
    alloc: Global,
    rows: &mut Vec<RowRead>,
    store: &HybridStore,
    relation: u8,
    segment: u32,
    branch: u32,
) -> Result<(), AllocError>
    requires relation { relation < length (layout_of store.now).schema }
    requires branch { branch < length (layout_of store.now).lanes }
    ensures rows { OnOk result (rows.new.items
        ≡ rows.old.items ++ row_image (layout_of store.now) relation segment branch) }
    ensures fits { All FitsRow rows.old.items → OnOk result (All FitsRow rows.new.items) }
    ensures few { OnOk result (length rows.new.items ≤ length rows.old.items + 1) }
{
    let Some(from) = store.row_from(relation, segment, branch) else {
        return Ok(());
    };
    let deltas = deltas_image(alloc, store.row_history(relation, segment, branch))?;
    rows.push(RowRead {
        branch,
        from,
        deltas,
    })?;
    Ok(())
}

// The rows of a segment, by ascending branch.
fn rows_image(
    alloc: Global,
    store: &HybridStore,
    relation: u8,
    segment: u32,
) -> Result<ListOf<RowRead>, AllocError>
    requires { relation < length (layout_of store.now).schema }
    ensures rows { IfOk result (λ rows.
        rows ≡ rows_image (layout_of store.now) relation segment) }
    ensures fits { IfOk result (λ rows. All FitsRow rows) }
    ensures few { IfOk result (λ rows. length rows < 2 ^ 32) }
{
    let mut rows = Vec::new(alloc);
    for branch in 0..branch_count(store) {
        put_row(alloc, &mut rows, store, relation, segment, branch)?;
    }
    Ok(ListOf::of(rows))
}

// The numbers of a segment's records have the ranges of their types. It does nothing.
fn fit_their_types<L: Ledger>(segment: &Segment, blank: Blank)
    requires name { blank.name ≡ L.name }
    requires parts { blank.parts ≡ L.parts }
    requires some { 0 < L.parts }
    ensures { All IsRanged segment.now.records }
{
    let mut steps = Steps::<L>::open(blank);
    let mut row = Record::blank();
    for slot in 0..segment.len() {
        segment.read(slot, &mut row, &mut steps);
        fits_its_types(&row);
    }
}

// The records of a segment, on the same pages.
fn records_image(segment: &Segment) -> Result<PagedRecords, AllocError>
    ensures value { IfOk result (λ records. records ≡ segment.now.records) }
    ensures ranged { IfOk result (λ records. All IsRanged records) }
    ensures few { length segment.now.records < 2 ^ 32 }
    ensures wide { AreWide segment.now.widths segment.now.records }
{
    let _count = segment.len();
    fit_their_types::<Brand>(segment, Blank::new(1));
    Ok(PagedRecords::of(segment.duplicate()?))
}

// How an image tells the branch whose head a segment is.
fn head_image(head: Option<u32>) -> u32
    requires { IfSome head (λ branch. branch < 1024) }
    ensures { result ≡ head_image head }
{
    match head {
        None => 0,
        Some(branch) => branch + 1,
    }
}

// A segment of a relation.
fn segment_image(
    alloc: Global,
    store: &HybridStore,
    relation: u8,
    index: u32,
) -> Result<SegmentRead, AllocError>
    requires relation { relation < length (layout_of store.now).schema }
    requires index { index < length (segments_at (layout_of store.now).segments relation) }
    ensures value { IfOk result (λ made.
        made ≡ segment_image (layout_of store.now) relation index) }
    ensures fits { IfOk result (FitsSegment (widths_at (layout_of store.now).schema relation)) }
    ensures ranged { IfOk result AreRanged }
{
    let head = head_image(store.head(relation, index));
    let records = records_image(store.segment(relation, index))?;
    let rows = rows_image(alloc, store, relation, index)?;
    Ok(SegmentRead {
        head,
        records,
        rows,
    })
}

// The segments of a relation.
fn segments_image(
    alloc: Global,
    store: &HybridStore,
    relation: u8,
) -> Result<ListOf<SegmentRead>, AllocError>
    requires { relation < length (layout_of store.now).schema }
    ensures value { IfOk result (λ made. made ≡ segments_image (layout_of store.now) relation) }
    ensures fits { IfOk result (FitsSegments (widths_at (layout_of store.now).schema relation)) }
    ensures ranged { IfOk result (λ made. All AreRanged made) }
{
    let mut made = Vec::new(alloc);
    for index in 0..store.segments(relation) {
        made.push(segment_image(alloc, store, relation, index)?)?;
    }
    Ok(ListOf::of(made))
}

/// The segments of each relation.
pub(crate) fn all_segments(
    alloc: Global,
    store: &HybridStore,
) -> Result<ListOf<ListOf<SegmentRead>>, AllocError>
    ensures value { IfOk result (λ made. made
        ≡ by_relation (layout_of store.now).schema (segments_image (layout_of store.now))) }
    ensures fits { IfOk result (λ made. (r : ℕ) → r < length (layout_of store.now).schema
        → FitsSegments (widths_at (layout_of store.now).schema r) (get_or made r [])) }
    ensures ranged { IfOk result (λ made. All AllAreRanged made) }
{
    let mut made = Vec::new(alloc);
    for relation in 0..relation_count(store) {
        made.push(segments_image(alloc, store, relation)?)?;
    }
    Ok(ListOf::of(made))
}
