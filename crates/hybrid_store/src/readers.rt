//! What the layout of a store has, part by part. No reader takes memory.
ghost use Rattle.std.specs.Prelude.{◌≡◌, ◌-◌, ◌<◌, ◌+◌, length, map, IfSome};
ghost use Rattle.std.proofs.Common.{get_or};
ghost use Rattle.db_value.specs.Relations.{widths_at};
ghost use Rattle.db_store.specs.Layout.{lane_at, records_at, segments_at};
ghost use Rattle.db_store.specs.LaidOut.{head_at};
ghost use Rattle.hybrid_view.specs.Deltas.{slots_of};
ghost use Rattle.bit_rows.specs.Rows.{laid_row};
ghost use Rattle.hybrid_store.specs.Readers.{made_version, place_from, HasRow, row_from, row_deltas};

use crate::made::MadeVersion;
use crate::store::HybridStore;
use bit_rows::BitRows;
use commit_history::History;
use db_value::VersionPlace;
use segment::Segment;

// The place of the row of a segment, if there is one.
#[tactic(auto, using(crate::proofs::ReaderLemmas::place_next, crate::proofs::ReaderLemmas::place_last))]
fn place_in(rows: &BitRows, segment: u32) -> Option<usize>
    ensures place { result ≡ place_from 0 (map laid_row rows.now) segment }
    ensures within { IfSome result (λ i. i < length rows.now) }
{
    for index in 0..rows.len() {
        if rows.row(index).segment() == segment {
            return Some(index);
        }
    }
    None
}

impl HybridStore {
    ghost use Rattle.hybrid_store.specs.Store.{layout_of};

    /// The place from which a branch was made. That of master is master's position 0.
    pub fn origin(&self, branch: u32) -> VersionPlace
        requires { branch < length (layout_of self.now).lanes }
        ensures { result ≡ (lane_at (layout_of self.now) branch).origin }
    {
        self.lane(branch).origin()
    }

    /// How many versions there are after the root.
    pub fn versions(&self) -> u32
        ensures { result + 1 ≡ length (layout_of self.now).order }
    {
        (self.order.len() - 1) as u32
    }

    /// A version after the root, by its number in the order made. Its position is the next one of its
    /// branch.
    pub fn version(&self, index: u32) -> MadeVersion
        requires { index + 1 < length (layout_of self.now).order }
        ensures { result ≡ made_version (layout_of self.now) index }
    {
        let at = self.order[index as usize + 1];
        MadeVersion {
            branch: at.branch,
            second: self.lane(at.branch).second(at.position as usize),
        }
    }

    /// How many segments a relation has.
    pub fn segments(&self, relation: u8) -> u32
        requires { relation < length (layout_of self.now).schema }
        ensures { result ≡ length (segments_at (layout_of self.now).segments relation) }
    {
        self.next_segment(relation)
    }

    /// The records of a segment.
    pub fn segment(&self, relation: u8, index: u32) -> &Segment
        requires relation { relation < length (layout_of self.now).schema }
        requires index { index < length (segments_at (layout_of self.now).segments relation) }
        ensures records { result.now.records
            ≡ records_at (segments_at (layout_of self.now).segments relation) index }
        ensures widths { result.now.widths ≡ widths_at (layout_of self.now).schema relation }
    {
        self.list(relation).segment(index).records()
    }

    /// The branch whose head a segment is, or `None` for an internal one.
    pub fn head(&self, relation: u8, index: u32) -> Option<u32>
        requires relation { relation < length (layout_of self.now).schema }
        requires index { index < length (segments_at (layout_of self.now).segments relation) }
        ensures { result ≡ head_at (segments_at (layout_of self.now).segments relation) index }
    {
        self.list(relation).segment(index).head()
    }

    /// The position at which a branch's row of a segment begins, or `None` if it has no such row.
    pub fn row_from(&self, relation: u8, index: u32, branch: u32) -> Option<u32>
        requires relation { relation < length (layout_of self.now).schema }
        requires branch { branch < length (layout_of self.now).lanes }
        ensures { result ≡ row_from (layout_of self.now) relation index branch }
    {
        let rows = self.lane(branch).rows(relation);
        match place_in(rows, index) {
            None => None,
            Some(place) => Some(rows.row(place).from()),
        }
    }

    /// What each position of a branch's row of a segment changes in it, from the position on at which the
    /// row begins.
    pub fn row_history(&self, relation: u8, index: u32, branch: u32) -> &History
        requires relation { relation < length (layout_of self.now).schema }
        requires branch { branch < length (layout_of self.now).lanes }
        requires there { HasRow (layout_of self.now) relation index branch }
        ensures { map slots_of result.now ≡ row_deltas (layout_of self.now) relation index branch }
    {
        let rows = self.lane(branch).rows(relation);
        let place = place_in(rows, index).unwrap_or(0);
        rows.row(place).deltas()
    }
}
