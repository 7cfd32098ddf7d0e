//! The segments of a store, told as lines.
ghost use Rattle.std.specs.Prelude.{◌≡◌, ℕ, ◌<◌, ◌≤◌, ◌++◌, Some, length, IfOk, OnOk};
ghost use Rattle.std.proofs.Common.{get_or};
ghost use Rattle.db_store.specs.Report.{relation_name};
ghost use Rattle.bit_rows.specs.Kept.{no_kept};
ghost use Rattle.bit_rows.specs.Segments.{list_at};
ghost use Rattle.bit_rows.specs.Told.{live_of_piece, lives_by, lives_among, name_of_head, line_told, lines_told, all_told, CanTell};

use crate::kept::KeptSegments;
use crate::lane::HybridLane;
use db_value::{LayoutLine, LayoutLines, Live, Lives, Name, Schema};
use hybrid_view::LivePart;
use std::alloc::{AllocError, Global};

// How many records of a part are live, if it is of the segment.
fn put_part(
    lives: &mut Vec<Live>,
    name: Name,
    segment: u32,
    part: &LivePart,
) -> Result<(), AllocError>
    ensures { OnOk result (lives.new.items
        ≡ lives.old.items ++ live_of_piece name segment part.now) }
{
    if part.segment() != segment {
        return Ok(());
    }
    lives.push(Live {
        branch: name,
        bits: part.bits().count(),
    })?;
    Ok(())
}

// How many records of a segment are live in a branch, where it has a row of it.
fn put_lane(
    lives: &mut Vec<Live>,
    lane: &HybridLane,
    relation: u8,
    segment: u32,
) -> Result<(), AllocError>
    requires { relation < length lane.now.head }
    ensures { OnOk result (lives.new.items
        ≡ lives.old.items ++ lives_by relation segment lane.now) }
{
    let live = lane.head().relation(relation);
    for index in 0..live.parts() {
        put_part(lives, lane.name(), segment, live.part(index))?;
    }
    Ok(())
}

// The same of all branches.
fn lives_told(
    alloc: Global,
    lanes: &[HybridLane],
    relation: u8,
    segment: u32,
) -> Result<Lives, AllocError>
    requires { (b : ℕ) → b < length lanes.now
        → relation < length (get_or lanes.now b no_kept).head }
    ensures { IfOk result (λ lives. lives ≡ lives_among relation segment lanes.now) }
{
    let mut lives = Vec::new(alloc);
    for lane in lanes {
        put_lane(&mut lives, lane, relation, segment)?;
    }
    Ok(Lives::of(lives))
}

// The name of the branch whose head a segment is.
fn name_of(lanes: &[HybridLane], head: Option<u32>) -> Option<Name>
    requires { (b : ℕ) → head ≡ Some b → b < length lanes.now }
    ensures { result ≡ name_of_head lanes.now head }
{
    match head {
        None => None,
        Some(branch) => Some(lanes[branch as usize].name()),
    }
}

// What is told of a segment.
fn told(
    alloc: Global,
    name: Name,
    lanes: &[HybridLane],
    relation: u8,
    kept: &KeptSegments,
    index: u32,
) -> Result<LayoutLine, AllocError>
    requires can { CanTell lanes.now relation kept.now.all }
    requires index { index < length kept.now.all }
    ensures { IfOk result (λ line. line ≡ line_told name lanes.now relation kept.now.all index) }
{
    let own = kept.segment(index);
    let head = name_of(lanes, own.head());
    let count = own.records().len();
    let live = lives_told(alloc, lanes, relation, index)?;
    Ok(LayoutLine {
        relation: name,
        index,
        head,
        records: count,
        live,
    })
}

// What is told of the segments of a relation.
fn put_lines(
    alloc: Global,
    lines: &mut Vec<LayoutLine>,
    name: Name,
    lanes: &[HybridLane],
    relation: u8,
    kept: &KeptSegments,
) -> Result<(), AllocError>
    requires { CanTell lanes.now relation kept.now.all }
    ensures { OnOk result (lines.new.items
        ≡ lines.old.items ++ lines_told name lanes.now relation kept.now.all) }
{
    for index in 0..kept.count() {
        let line = told(alloc, name, lanes, relation, kept, index)?;
        lines.push(line)?;
    }
    Ok(())
}

// How many relations.
fn width_of(lists: &[KeptSegments]) -> u8
    requires { length lists.now ≤ 8 }
    ensures { result ≡ length lists.now }
{
    lists.len() as u8
}

// The segments of a relation.
fn list_of(lists: &[KeptSegments], relation: u8) -> &KeptSegments
    requires { relation < length lists.now }
    ensures { result.now.all ≡ list_at lists.now relation }
{
    &lists[relation as usize]
}

// The name of a relation.
fn name_at(schema: &Schema, relation: u8) -> Name
    requires { relation < length schema.now }
    ensures { result ≡ relation_name schema.now relation }
{
    schema.relations()[relation as usize].name
}

/// What is told of the segments of all relations, by relation and then by number.
pub fn layout_lines(
    alloc: Global,
    schema: &Schema,
    lanes: &[HybridLane],
    lists: &[KeptSegments],
) -> Result<LayoutLines, AllocError>
    requires wide { length lists.now ≡ length schema.now }
    requires few { length lists.now ≤ 8 }
    requires can { (r : ℕ) → r < length lists.now → CanTell lanes.now r (list_at lists.now r) }
    ensures { IfOk result (λ lines. lines ≡ all_told schema.now lanes.now lists.now) }
{
    let mut lines = Vec::new(alloc);
    for relation in 0..width_of(lists) {
        let kept = list_of(lists, relation);
        let name = name_at(schema, relation);
        put_lines(alloc, &mut lines, name, lanes, relation, kept)?;
    }
    let told = LayoutLines::of(alloc, lines)?;
    Ok(told)
}
