//! The end of a segment that is being made.
ghost use Rattle.std.specs.Prelude.{◌≡◌, ◌-◌, ◌<◌, ◌≤◌, ◌++◌, ◌∷◌, [], length, map, true, false, IfOk, OnOk};
ghost use Rattle.std.specs.Arc.{arc_value};
ghost use Rattle.db_value.specs.Widths.{are_widths, meets};
ghost use Rattle.record_page.specs.Page.{capacity};
ghost use Rattle.segment.specs.Pages.{AreAllFull, AreWhole, IsLaid, page_at, pages_of, records_of};

use crate::block::{BLOCK_PAGES, Blocks, front_of, page_in, put_page};
use db_value::{Record, Widths};
use record_page::{Page, capacity_of};
use std::alloc::{AllocError, Global};
use std::sync::Arc;

// Full pages, and one after them that may have room.
#[derive(Drop)]
pub(crate) struct Tail {
    pub(crate) alloc: Global,
    pub(crate) widths: Widths,
    pub(crate) blocks: Arc<Blocks>,
    pub(crate) pages: Vec<Arc<Page>>,
    pub(crate) last: Page,
    ghost same: { last.widths ≡ widths },
    ghost full: { AreAllFull widths (pages_of (arc_value blocks) ++ map arc_value pages.items) },
    ghost whole: { AreWhole (arc_value blocks) },
    ghost few: { length pages.items ≤ 64 },
}

// Whether there is a last page that isn't full. A full one isn't made again: segments go on to share it.
fn has_room(widths: &Widths, links: &[Arc<Page>]) -> bool
    ensures some { result ≡ true → 0 < length links.now }
    ensures room { result ≡ true →
        length (page_at (map arc_value links.now) (length links.now - 1)).records
        < capacity widths.now }
    ensures full { result ≡ false → 0 < length links.now → capacity widths.now
        ≤ length (page_at (map arc_value links.now) (length links.now - 1)).records }
{
    if links.is_empty() {
        return false;
    }
    (page_in(links, links.len() - 1).len() as usize) < capacity_of(widths.as_slice())
}

impl Tail {
    ghost use Rattle.segment.specs.Tails.{rows_in, full_in};

    // The full pages, and the last one again.
    fn in_last(
        alloc: Global,
        widths: &Widths,
        blocks: &Arc<Blocks>,
        links: &[Arc<Page>],
    ) -> Result<Tail, AllocError>
        requires laid { IsLaid widths.now (arc_value blocks.now) (map arc_value links.now) }
        requires some { 0 < length links.now }
        requires room { length (page_at (map arc_value links.now)
            (length links.now - 1)).records < capacity widths.now }
        ensures rows { IfOk result (λ t.
            rows_in t ≡ records_of (pages_of (arc_value blocks.now) ++ map arc_value links.now)) }
        ensures widths { IfOk result (λ t. t.widths ≡ widths.now) }
    {
        let count = links.len() - 1;
        let last = page_in(links, count).duplicate()?;
        let pages = front_of(alloc, links, count)?;
        let blocks = Arc::try_clone(blocks)?;
        Ok(Tail {
            alloc,
            widths: *widths,
            blocks,
            pages,
            last,
        })
    }

    // The pages, and an empty one after them.
    fn after_last(
        alloc: Global,
        widths: &Widths,
        blocks: &Arc<Blocks>,
        links: &[Arc<Page>],
    ) -> Result<Tail, AllocError>
        requires laid { IsLaid widths.now (arc_value blocks.now) (map arc_value links.now) }
        requires full { AreAllFull widths.now
            (pages_of (arc_value blocks.now) ++ map arc_value links.now) }
        ensures rows { IfOk result (λ t.
            rows_in t ≡ records_of (pages_of (arc_value blocks.now) ++ map arc_value links.now)) }
        ensures widths { IfOk result (λ t. t.widths ≡ widths.now) }
    {
        let last = Page::new(alloc, widths)?;
        let pages = front_of(alloc, links, links.len())?;
        let blocks = Arc::try_clone(blocks)?;
        Ok(Tail {
            alloc,
            widths: *widths,
            blocks,
            pages,
            last,
        })
    }

    /// The pages of a segment: all that are full, and the last one again if it has room.
    pub(crate) fn of(
        alloc: Global,
        widths: &Widths,
        blocks: &Arc<Blocks>,
        links: &[Arc<Page>],
    ) -> Result<Tail, AllocError>
        requires { IsLaid widths.now (arc_value blocks.now) (map arc_value links.now) }
        ensures rows { IfOk result (λ t.
            rows_in t ≡ records_of (pages_of (arc_value blocks.now) ++ map arc_value links.now)) }
        ensures widths { IfOk result (λ t. t.widths ≡ widths.now) }
    {
        if has_room(widths, links) {
            return Tail::in_last(alloc, widths, blocks, links);
        }
        Tail::after_last(alloc, widths, blocks, links)
    }

    /// Makes a block of the pages, if they are as many as a block has.
    pub(crate) fn fold(&mut self) -> Result<(), AllocError>
        ensures rows { OnOk result (rows_in self.new ≡ rows_in self.old) }
        ensures last { self.new.last ≡ self.old.last }
        ensures room { OnOk result (length self.new.pages.items < 64) }
        ensures widths { self.new.widths ≡ self.old.widths }
    {
        if self.pages.len() < BLOCK_PAGES {
            return Ok(());
        }
        let pages = std::mem::replace(&mut self.pages, Vec::new(self.alloc));
        let blocks = self.blocks.with_block(self.alloc, pages)?;
        self.blocks = Arc::new(self.alloc, blocks)?;
        Ok(())
    }

    // Begins another page, if the last one is full.
    fn turn(&mut self) -> Result<(), AllocError>
        requires { capacity self.old.widths ≤ length self.old.last.records }
        ensures rows { OnOk result (rows_in self.new ≡ rows_in self.old) }
        ensures room { OnOk result (length self.new.last.records < capacity self.new.widths) }
        ensures widths { self.new.widths ≡ self.old.widths }
    {
        self.fold()?;
        let _count = self.last.len();
        let fresh = Page::new(self.alloc, &self.widths)?;
        let full = std::mem::replace(&mut self.last, fresh);
        put_page(self.alloc, &mut self.pages, full)?;
        Ok(())
    }

    // Puts a record on the last page.
    fn put(&mut self, row: &Record)
        requires meets { meets self.old.widths row.now.fields ≡ true }
        requires room { length self.old.last.records < capacity self.old.widths }
        ensures rows { rows_in self.new ≡ rows_in self.old ++ row.now ∷ [] }
        ensures widths { self.new.widths ≡ self.old.widths }
    {
        match self.last.push(row) {
            Ok(_) => {}
            Err(_) => unreachable!(),
        }
    }

    /// Puts a record after the others.
    pub(crate) fn push(&mut self, row: &Record) -> Result<(), AllocError>
        requires { meets self.old.widths row.now.fields ≡ true }
        ensures rows { OnOk result (rows_in self.new ≡ rows_in self.old ++ row.now ∷ []) }
        ensures widths { self.new.widths ≡ self.old.widths }
    {
        if self.last.is_full() {
            self.turn()?;
        }
        self.put(row);
        Ok(())
    }
}
