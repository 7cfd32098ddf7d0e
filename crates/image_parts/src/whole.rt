//! How the rules over the whole are tried.
ghost use Rattle.std.specs.Prelude.{◌≡◌, ◌<◌, ◌==◌, ◌&&◌, ◌||◌, ◌-◌, ◌+◌, ◌≤◌, cond, length, replicate, IfOk, OnOk, set, true, [], drop};
ghost use Rattle.std.specs.List.{list_all, All};
ghost use Rattle.std.proofs.Common.{get_or};
ghost use Rattle.image_parts.specs.Whole.{are_made, has_row, is_kept, one_more, counts_from, heads_once, keys_once, is_whole};

use crate::keys::keys_once;
use db_value::ListOf;
use image_text::{BranchPart, Image, RowPart, SegmentPart, is_there, zeros};
use std::alloc::{AllocError, Global};

fn are_made(lasts: &[u32], branches: &[BranchPart]) -> bool
    ensures { result ≡ are_made lasts.now branches.now }
{
    branches.iter().all(|b| is_there(lasts, b.origin))
}

fn has_row(rows: &[RowPart], branch: u32) -> bool
    ensures { result ≡ has_row rows.now branch }
{
    rows.iter().any(|r| r.branch == branch)
}

fn is_kept(segment: &SegmentPart) -> bool
    ensures { result ≡ is_kept segment.now }
{
    segment.head == 0 || has_row(segment.rows.as_slice(), segment.head - 1)
}

fn count_head(counts: &mut Vec<u32>, head: u32)
    ensures { counts.new.items ≡ cond (head == 0) counts.old.items
        (set counts.old.items (head - 1) (one_more (get_or counts.old.items (head - 1) 0))) }
{
    if head != 0 {
        let branch = head as usize - 1;
        if branch < counts.len() {
            counts[branch] = if counts[branch] == 0 { 1 } else { 2 };
        }
    }
}

fn counts_of(
    alloc: Global,
    branches: usize,
    segments: &[SegmentPart],
) -> Result<Vec<u32>, AllocError>
    ensures { IfOk result (λ v. v.items ≡ counts_from (replicate branches 0) segments.now) }
{
    let mut counts = zeros(alloc, branches)?;
    for segment in segments {
        count_head(&mut counts, segment.head);
    }
    Ok(counts)
}

fn are_kept(segments: &[SegmentPart]) -> bool
    ensures { result ≡ list_all is_kept segments.now }
{
    segments.iter().all(|s| is_kept(s))
}

fn are_one(counts: &[u32]) -> bool
    ensures { result ≡ list_all (λ c. c == 1) counts.now }
{
    counts.iter().all(|c| *c == 1)
}

fn heads_once(alloc: Global, branches: usize, segments: &[SegmentPart]) -> Result<bool, AllocError>
    ensures { IfOk result (λ b. b ≡ heads_once branches segments.now) }
{
    let counts = counts_of(alloc, branches, segments)?;
    Ok(are_kept(segments) && are_one(&counts))
}

fn is_laid(alloc: Global, lasts: &[u32], segments: &ListOf<SegmentPart>) -> Result<bool, AllocError>
    ensures { IfOk result (λ b. b ≡ (heads_once (length lasts.now) segments.now && keys_once
        lasts.now segments.now)) }
{
    if !heads_once(alloc, lasts.len(), segments.as_slice())? {
        return Ok(false);
    }
    keys_once(alloc, lasts, segments.as_slice())
}

#[tactic(auto, using(crate::proofs::Heads::all_goes, crate::proofs::Heads::all_stops, crate::proofs::Heads::all_ends))]
fn all_laid(
    alloc: Global,
    lasts: &[u32],
    segments: &[ListOf<SegmentPart>],
) -> Result<bool, AllocError>
    ensures { IfOk result (λ b. b ≡ list_all (λ ss. heads_once (length lasts.now) ss && keys_once
        lasts.now ss) segments.now) }
{
    for part in segments {
        if !is_laid(alloc, lasts, part)? {
            return Ok(false);
        }
    }
    Ok(true)
}

/// Do the rules over the whole hold?
#[tactic(auto, unfolding(crate::specs::Whole::is_whole))]
pub fn is_whole(alloc: Global, image: &Image, lasts: &[u32]) -> Result<bool, AllocError>
    ensures { IfOk result (λ b. b ≡ is_whole image.now lasts.now) }
{
    if !are_made(lasts, image.branches.as_slice()) {
        return Ok(false);
    }
    all_laid(alloc, lasts, image.segments.as_slice())
}
