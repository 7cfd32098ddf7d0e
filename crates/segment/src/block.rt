//! Links to pages, in blocks that several segments share.
ghost use Rattle.std.specs.Prelude.{◌≡◌, ◌+◌, ◌*◌, ◌<◌, ◌≤◌, ◌++◌, ◌∷◌, [], length, map, take, IfOk, OnOk};
ghost use Rattle.std.proofs.Common.{◌⊎◌};
ghost use Rattle.std.specs.Arc.{arc_value};
ghost use Rattle.std.proofs.Common.{get_or};
ghost use Rattle.segment.specs.Pages.{page_at};

use record_page::Page;
use std::alloc::{AllocError, Global};
use std::marker::Model;
use std::sync::Arc;

/// How many links a block has.
pub(crate) const BLOCK_PAGES: usize = 64;

/// A block is links to full pages.
#[derive(Drop)]
pub(crate) struct Block {
    pages: Vec<Arc<Page>>,
}

impl Model for Block {
    ghost use Rattle.std.specs.Prelude.{List, map};
    ghost use Rattle.std.specs.Arc.{arc_value};
    ghost use Rattle.std.specs.Coded.{coded_list};
    ghost use Rattle.record_page.specs.Page.{Rows, rows_code};

    ghost Value = { List Rows };

    ghost coded = { coded_list rows_code };

    ghost view = { λ block. map arc_value block.pages.items };
}

/// Blocks are links to blocks.
#[derive(Drop)]
pub(crate) struct Blocks {
    items: Vec<Arc<Block>>,
}

impl Model for Blocks {
    ghost use Rattle.std.specs.Prelude.{List, map};
    ghost use Rattle.std.specs.Arc.{arc_value};
    ghost use Rattle.std.specs.Coded.{coded_list};
    ghost use Rattle.record_page.specs.Page.{Rows, rows_code};

    ghost Value = { List (List Rows) };

    ghost coded = { coded_list (coded_list rows_code) };

    ghost view = { λ blocks. map arc_value blocks.items.items };
}

/// Puts further links to the same things after those in `to`.
pub(crate) fn share<T: Drop>(to: &mut Vec<Arc<T>>, links: &[Arc<T>]) -> Result<(), AllocError>
    ensures { OnOk result (map arc_value to.new.items
        ≡ map arc_value to.old.items ++ map arc_value links.now) }
{
    to.reserve(links.len())?;
    for link in links {
        to.push(Arc::try_clone(link)?)?;
    }
    Ok(())
}

/// Links to the first pages, as many as asked for.
pub(crate) fn front_of(
    alloc: Global,
    links: &[Arc<Page>],
    count: usize,
) -> Result<Vec<Arc<Page>>, AllocError>
    requires { count ≤ length links.now }
    ensures { IfOk result (λ front.
        map arc_value front.items ≡ take count (map arc_value links.now)) }
{
    // One more than there are, for the page that is put after them.
    let mut front = Vec::with_capacity(alloc, count + 1)?;
    share(&mut front, &links[..count])?;
    Ok(front)
}

/// Puts a page after those that the links lead to.
pub(crate) fn put_page(
    alloc: Global,
    links: &mut Vec<Arc<Page>>,
    page: Page,
) -> Result<(), AllocError>
    ensures put { OnOk result (map arc_value links.new.items
        ≡ map arc_value links.old.items ++ page ∷ []) }
    ensures either { (map arc_value links.new.items ≡ map arc_value links.old.items)
        ⊎ (map arc_value links.new.items ≡ map arc_value links.old.items ++ page ∷ []) }
{
    let page = Arc::new(alloc, page)?;
    links.push(page)?;
    Ok(())
}

/// The page that a link leads to.
pub(crate) fn page_in(links: &[Arc<Page>], at: usize) -> &Page
    requires { at < length links.now }
    ensures { result.now ≡ page_at (map arc_value links.now) at }
{
    &links[at]
}

impl Block {
    fn page(&self, at: usize) -> &Page
        requires { at < length self.now }
        ensures { result.now ≡ page_at self.now at }
    {
        page_in(self.pages.as_slice(), at)
    }
}

// The block that a link leads to.
fn block_in(links: &[Arc<Block>], at: usize) -> &Block
    requires { at < length links.now }
    ensures { result.now ≡ get_or (map arc_value links.now) at [] }
{
    &links[at]
}

impl Blocks {
    /// No blocks.
    pub(crate) fn new(alloc: Global) -> Blocks
        ensures { result ≡ [] }
    {
        Blocks {
            items: Vec::new(alloc),
        }
    }

    /// How many blocks there are.
    pub(crate) fn count(&self) -> usize
        ensures { result ≡ length self.now }
    {
        self.items.len()
    }

    /// A page of a block.
    pub(crate) fn page(&self, block: usize, at: usize) -> &Page
        requires block { block < length self.now }
        requires page { at < length (get_or self.now block []) }
        ensures { result.now ≡ page_at (get_or self.now block []) at }
    {
        block_in(self.items.as_slice(), block).page(at)
    }

    /// These blocks, and after them one with these pages.
    pub(crate) fn with_block(
        &self,
        alloc: Global,
        pages: Vec<Arc<Page>>,
    ) -> Result<Blocks, AllocError>
        ensures { IfOk result (λ blocks. blocks ≡ self.now ++ map arc_value pages.items ∷ []) }
    {
        let block = Arc::new(alloc, Block { pages })?;
        let mut items = Vec::with_capacity(alloc, self.items.len() + 1)?;
        share(&mut items, self.items.as_slice())?;
        items.push(block)?;
        Ok(Blocks { items })
    }
}
