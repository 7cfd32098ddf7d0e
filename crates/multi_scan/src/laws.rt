//! The law of scans. It is the contract of a function that does nothing.
ghost use Rattle.multi_scan.specs.Laws.{OneTable};

/// A scan of one view is the list of its rows.
#[tactic(auto, using(crate::proofs::Views::one_table))]
pub fn simple_scans()
    ensures one_table { OneTable }
{}
