//! The rows of all branches.
ghost use Rattle.std.specs.Prelude.{◌≡◌, ◌<◌, ◌≤◌, ◌++◌, ◌∷◌, [], cond, length, IfOk, OnOk};
ghost use Rattle.branch_segments.specs.Marks.{is_marked, with_mark, ids_where, any_marked, SameMarks};

use crate::bitmaps::Bitmaps;
use crate::ids::{BranchIds, Ids, SegmentIds};
use std::alloc::{AllocError, Global};
use std::marker::Model;

/// A row of bits for each branch: which segments it has. There is room for some numbers of branches
/// and segments, within which a bit can be set without taking memory.
#[derive(Drop)]
pub struct BranchSegments {
    alloc: Global,
    segments: u32,
    rows: Bitmaps,
}

impl Model for BranchSegments {
    ghost use Rattle.std.specs.Prelude.{◌≤◌, length};
    ghost use Rattle.std.specs.List.{All};
    ghost use Rattle.branch_segments.specs.Marks.{Marks, marks_code};

    ghost Value = { Marks };

    ghost coded = { marks_code };

    ghost view = { λ m. record { rows = m.rows; segments = m.segments } };

    ghost invariant = { λ m. All (λ row. m.segments ≤ length row) m.rows };
}

// Puts a number after the others, if it is wanted.
fn push_if(ids: &mut Vec<u32>, id: u32, wanted: bool) -> Result<(), AllocError>
    ensures { OnOk result (ids.new.items ≡ ids.old.items ++ cond wanted (id ∷ []) []) }
{
    if wanted {
        ids.push(id)?;
    }
    Ok(())
}

impl BranchSegments {
    /// Rows without room.
    pub fn new(alloc: Global) -> BranchSegments
        ensures { result ≡ record { rows = []; segments = 0 } }
    {
        BranchSegments {
            alloc,
            segments: 0,
            rows: Bitmaps::new(alloc),
        }
    }

    /// Raises the room to at least these numbers of branches and segments. No bit changes, and after an
    /// error the room may have grown in part.
    pub fn reserve(&mut self, branches: u32, segments: u32) -> Result<(), AllocError>
        ensures same { SameMarks self.old self.new }
        ensures branches { OnOk result (branches ≤ length self.new.rows) }
        ensures segments { OnOk result (segments ≤ self.new.segments) }
        ensures kept { (length self.old.rows ≤ length self.new.rows) }
        ensures wide { self.old.segments ≤ self.new.segments }
    {
        self.rows.grow(segments)?;
        if self.segments < segments {
            self.segments = segments;
        }
        self.rows.push(branches as usize, self.segments)
    }

    /// Sets the bit of a branch and a segment for which there is room. It takes no memory.
    pub fn mark(&mut self, branch: u32, segment: u32)
        requires branch { branch < length self.old.rows }
        requires segment { segment < self.old.segments }
        ensures { self.new ≡ with_mark self.old branch segment }
    {
        self.rows.set(branch as usize, segment);
    }

    /// Whether the branch has the segment. It has none past the room.
    pub fn has(&self, branch: u32, segment: u32) -> bool
        ensures { result ≡ is_marked self.now branch segment }
    {
        self.rows.has(branch as usize, segment)
    }

    /// The segments of a branch, in ascending order.
    #[tactic(auto, using(crate::proofs::MarkLemmas::ids_more))]
    pub fn segments_of(&self, branch: u32) -> Result<SegmentIds, AllocError>
        ensures { IfOk result (λ ids.
            ids ≡ ids_where (is_marked self.now branch) self.now.segments) }
    {
        let mut ids = Vec::new(self.alloc);
        for segment in 0..self.segments {
            push_if(&mut ids, segment, self.has(branch, segment))?;
        }
        Ok(Ids::of(ids))
    }

    fn any_has(&self, branches: &[u32], segment: u32) -> bool
        ensures { result ≡ any_marked self.now branches.now segment }
    {
        branches.iter().any(|branch| self.has(*branch, segment))
    }

    /// The segments that one of the branches has, or more of them, in ascending order and each once.
    #[tactic(auto, using(crate::proofs::MarkLemmas::ids_more))]
    pub fn union(&self, branches: &BranchIds) -> Result<SegmentIds, AllocError>
        ensures { IfOk result (λ ids.
            ids ≡ ids_where (any_marked self.now branches.now) self.now.segments) }
    {
        let mut ids = Vec::new(self.alloc);
        for segment in 0..self.segments {
            push_if(
                &mut ids,
                segment,
                self.any_has(branches.as_slice(), segment),
            )?;
        }
        Ok(Ids::of(ids))
    }

    /// Rows of their own with the same bits, and as much room.
    pub fn duplicate(&self) -> Result<BranchSegments, AllocError>
        ensures { IfOk result (λ copy. copy ≡ self.now) }
    {
        let rows = self.rows.duplicate()?;
        Ok(BranchSegments {
            alloc: self.alloc,
            segments: self.segments,
            rows,
        })
    }
}
