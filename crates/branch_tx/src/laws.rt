//! Laws of the definitions: each function does nothing, and its contract is the law.
ghost use Rattle.branch_tx.specs.Laws.{PrivateLaw, TableLaw, EntryLaw, ShortLaw};
ghost use Rattle.branch_tx.specs.Frame.{FrameLaw};
ghost use Rattle.branch_tx.specs.Covers.{CoveredLaw};

/// A whole private table and changes over the branch's head are one.
pub fn private_law()
    ensures { PrivateLaw }
{}

/// The changes of a transaction make its private table of the head.
pub fn table_law()
    ensures { TableLaw }
{}

/// The entry of a transaction fits.
pub fn entry_law()
    ensures { EntryLaw }
{}

/// The entry of a transaction isn't too large.
pub fn short_law()
    ensures { ShortLaw }
{}

/// A transaction doesn't notice what others do outside its needs.
pub fn frame_law()
    ensures { FrameLaw }
{}

/// What a granted transaction answers to a statement that it covers is what the rules give.
pub fn covered_law()
    ensures { CoveredLaw }
{}
