//! How pages of records are read.
ghost use Rattle.std.specs.Prelude.{◌≡◌, ◌≤◌, ◌<◌, ◌-◌, ◌+◌, ◌^◌, [], length, true, false, IfOk, IfSome, IfNone};
ghost use Rattle.record_page.specs.Page.{rows_in};
ghost use Rattle.image_text.specs.Reading.{Gives, repeat, is_page_of, on_page, next_page, pages_for};

use crate::image::Stop;
use crate::numbers::Reader;
use crate::records::{PagedRecords, put_page};
use db_value::Widths;
use record_page::{Page, capacity_of};
use segment::{LongerSegment, Segment};
use std::alloc::{AllocError, Global};

const PAGE: usize = 4096;

/// How many of the records that are still to come stand on the next page.
pub fn on_page(widths: &Widths, more: u32) -> u32
    ensures exact { result ≡ on_page widths.now more }
    ensures within { result ≤ more }
{
    let capacity = capacity_of(widths.as_slice()) as u32;
    if more < capacity { more } else { capacity }
}

/// How many pages so many records take.
#[tactic(auto, using(record_page::proofs::Pages::capacity_some))]
pub fn pages_for(widths: &Widths, count: u32) -> u32
    ensures { result ≡ pages_for widths.now count }
{
    let capacity = capacity_of(widths.as_slice()) as u64;
    ((count as u64 + (capacity - 1)) / capacity) as u32
}

// The page that bytes are, if they are one with so many records.
fn page_of(
    alloc: Global,
    widths: &Widths,
    count: u32,
    bytes: &[u8],
) -> Result<Option<Page>, AllocError>
    ensures none { IfOk result (λ o. IfNone o (is_page_of widths.now count bytes.now ≡ false)) }
    ensures is { IfOk result (λ o. IfSome o (λ _. is_page_of widths.now count bytes.now ≡ true)) }
    ensures page { IfOk result (λ o. IfSome o (λ page. page ≡ rows_in widths.now bytes.now)) }
{
    let Some(page) = Page::of(alloc, widths, bytes)? else {
        return Ok(None);
    };
    if u32::from(page.len()) != count {
        return Ok(None);
    }
    Ok(Some(page))
}

impl<'a> Reader<'a> {
    // Puts the records of the next page after others, and tells how many are still to come behind it.
    #[tactic(auto, using(crate::proofs::Seen::page_ended))]
    fn next_page(
        &mut self,
        alloc: Global,
        widths: &Widths,
        more: u32,
        longer: LongerSegment,
    ) -> Result<(u32, LongerSegment), Stop>
        requires widths { longer.widths ≡ widths.now }
        requires few { length longer.records + more < 2 ^ 32 }
        ensures exact { Gives (λ x. ((x.0, x.1.records), self.new.rest.now)) result
            (next_page widths.now (more, longer.records) self.old.rest.now) }
        ensures widths { IfOk result (λ x. x.1.widths ≡ widths.now) }
        ensures count { IfOk result (λ x.
            length x.1.records + x.0 ≡ length longer.records + more) }
    {
        let left = self.left();
        if left < PAGE {
            return Err(Stop::Fault(0));
        }
        let (bytes, rest) = self.rest.split_at(PAGE);
        let count = on_page(widths, more);
        let Some(page) = page_of(alloc, widths, count, bytes)? else {
            return Err(Stop::Fault(left));
        };
        self.rest = rest;
        let all = put_page(longer, &page)?;
        Ok((more - count, all))
    }

    // No more of so many records than the bytes that are left can have.
    fn room_for(&self, count: u32) -> usize {
        let most = self.left() / 9;
        if most < count as usize {
            most
        } else {
            count as usize
        }
    }

    /// So many records, on their pages.
    #[tactic(auto, using(crate::proofs::Loop::goes_on, crate::proofs::Loop::ends, crate::proofs::Loop::is_done))]
    pub fn pages(
        &mut self,
        alloc: Global,
        widths: &Widths,
        pages: u32,
        count: u32,
    ) -> Result<(u32, PagedRecords), Stop>
        ensures { Gives (λ x. ((x.0, x.1), self.new.rest.now)) result
            (repeat (next_page widths.now) pages (count, []) self.old.rest.now) }
    {
        let room = self.room_for(count);
        let mut longer = Segment::new(alloc, widths)?.longer(room)?;
        let mut more = count;
        for _ in 0..pages {
            let (after, all) = self.next_page(alloc, widths, more, longer)?;
            more = after;
            longer = all;
        }
        let records = PagedRecords::of(longer.closed()?);
        Ok((more, records))
    }
}
