//! How segments, and the whole image, are read.
ghost use Rattle.std.specs.Prelude.{◌≡◌, ◌≤◌, ◌<◌, ◌*◌, ◌+◌, [], length, true, OnOk};
ghost use Rattle.db_value.specs.Relations.{widths_at, is_counted};
ghost use Rattle.image_text.specs.Reading.{Gives, repeat, has_room, next_segment, next_segments, parts_at};

use crate::image::{Format, Image, SegmentPart, Stop};
use crate::numbers::Reader;
use crate::pages::pages_for;
use crate::versions::last_of;
use db_value::schema::widths_of;
use db_value::{ListOf, Relation, Widths};
use std::alloc::Global;

const VERSIONS: u64 = 65536;

fn has_room(lasts: &[u32], head: u32, count: u32) -> bool
    ensures { result ≡ has_room lasts.now head count }
{
    match head {
        0 => true,
        _ => count as u64 <= VERSIONS * last_of(lasts, head - 1) as u64,
    }
}

impl<'a> Reader<'a> {
    #[tactic(auto, unfolding(crate::specs::Reading::next_segment))]
    fn next_segment(
        &mut self,
        alloc: Global,
        widths: &Widths,
        lasts: &[u32],
        segments: &mut Vec<SegmentPart>,
    ) -> Result<(), Stop>
        ensures { Gives (λ x. (segments.new.items, self.new.rest.now)) result
            (next_segment widths.now lasts.now segments.old.items self.old.rest.now) }
    {
        let left = self.left();
        let head = self.u32()?;
        if head as usize > lasts.len() {
            return Err(Stop::Fault(left));
        }
        let left = self.left();
        let count = self.u32()?;
        if !has_room(lasts, head, count) {
            return Err(Stop::Fault(left));
        }
        let (_more, records) = self.pages(alloc, widths, pages_for(widths, count), count)?;
        let left = self.left();
        let rows = self.u32()?;
        if rows as usize > lasts.len() {
            return Err(Stop::Fault(left));
        }
        let rows = ListOf::of(self.rows(alloc, lasts, count, rows)?);
        segments.push(SegmentPart {
            head,
            records,
            rows,
        })?;
        Ok(())
    }

    #[tactic(auto, using(crate::proofs::Loop::goes_on, crate::proofs::Loop::ends, crate::proofs::Loop::is_done))]
    fn segments_of(
        &mut self,
        alloc: Global,
        widths: &Widths,
        lasts: &[u32],
        count: u32,
    ) -> Result<Vec<SegmentPart>, Stop>
        ensures { Gives (λ x. (x.items, self.new.rest.now)) result
            (repeat (next_segment widths.now lasts.now) count [] self.old.rest.now) }
    {
        let mut segments: Vec<SegmentPart> = Vec::new(alloc);
        for _ in 0..count {
            self.next_segment(alloc, widths, lasts, &mut segments)?;
        }
        Ok(segments)
    }

    #[tactic(auto, unfolding(crate::specs::Reading::next_segments))]
    fn next_segments(
        &mut self,
        alloc: Global,
        relations: &[Relation],
        lasts: &[u32],
        segments: &mut Vec<ListOf<SegmentPart>>,
    ) -> Result<(), Stop>
        requires counted { is_counted relations.now ≡ true }
        requires within { length segments.old.items < length relations.now }
        ensures exact { Gives (λ x. (segments.new.items, self.new.rest.now)) result
            (next_segments relations.now lasts.now segments.old.items self.old.rest.now) }
        ensures one { OnOk result (length segments.new.items ≡ length segments.old.items + 1) }
    {
        let left = self.left();
        let count = self.u32()?;
        if count as usize >= 2 * lasts.len() {
            return Err(Stop::Fault(left));
        }
        let widths = widths_at(relations, segments.len());
        let made = self.segments_of(alloc, &widths, lasts, count)?;
        segments.push(ListOf::of(made))?;
        Ok(())
    }

    #[tactic(auto, using(crate::proofs::Loop::goes_on, crate::proofs::Loop::ends, crate::proofs::Loop::is_done))]
    fn segments(
        &mut self,
        alloc: Global,
        relations: &[Relation],
        lasts: &[u32],
    ) -> Result<Vec<ListOf<SegmentPart>>, Stop>
        requires { is_counted relations.now ≡ true }
        ensures { Gives (λ x. (x.items, self.new.rest.now)) result
            (repeat (next_segments relations.now lasts.now) (length relations.now) []
            self.old.rest.now) }
    {
        let mut segments: Vec<ListOf<SegmentPart>> = Vec::new(alloc);
        let count = relations.len();
        for _ in 0..count {
            self.next_segments(alloc, relations, lasts, &mut segments)?;
        }
        Ok(segments)
    }
}

// The widths of a relation.
#[tactic(auto, using(db_value::proofs::SchemaLemmas::relation_widths))]
fn widths_at(relations: &[Relation], at: usize) -> Widths
    requires counted { is_counted relations.now ≡ true }
    requires within { at < length relations.now }
    ensures { result ≡ widths_at relations.now at }
{
    widths_of(relations[at].columns.as_slice())
}

/// The parts of an image in a format that the bytes are, and the last position of each branch. The
/// rules over the whole are not tried.
#[tactic(auto, unfolding(crate::specs::Reading::parts_at), using(crate::proofs::Counted::relations_counted))]
pub fn parts(alloc: Global, bytes: &[u8], format: Format) -> Result<(Image, Vec<u32>), Stop>
    ensures { Gives (λ x. (x.0, x.1.items)) result (parts_at format bytes.now) }
{
    let mut reader = Reader { rest: bytes };
    let relations = reader.relations(alloc, format)?;
    let (branches, bases) = reader.branches(alloc)?;
    let (lasts, versions) = reader.versions(alloc, &bases)?;
    let segments = reader.segments(alloc, &relations, &lasts)?;
    if reader.left() != 0 {
        return Err(Stop::Fault(reader.left()));
    }
    let relations = ListOf::of(relations);
    let branches = ListOf::of(branches);
    let versions = ListOf::of(versions);
    let segments = ListOf::of(segments);
    Ok((
        Image {
            relations,
            branches,
            versions,
            segments,
        },
        lasts,
    ))
}
