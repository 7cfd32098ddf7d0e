//! What ties the spelling of entries to reading them.
ghost use Rattle.entry_codec.specs.Laws.{CodecLaws, FittingLaw};

/// What is spelled is read, and no spelling is a proper front of another.
pub fn codec_laws()
    ensures { CodecLaws }
{}

/// An entry that fits a dataset, whose numbers have the ranges of their types, is within the rules of
/// spelling.
pub fn fitting_law()
    ensures { FittingLaw }
{}
