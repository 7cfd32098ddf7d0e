//! What the words of the table's clauses mean, and how wants cover needs.
ghost use Rattle.wait_die.specs.Laws.{TurnLaw, AddedLaw, IncludesLaw, EndedLaw};
ghost use Rattle.wait_die.specs.Covers.{NeedsLaw, ConflictLaw, CoverLaw, StaysLaw, LinesLaw};

/// It does nothing. Its clauses are laws for callers' proofs: what an answer says, and what a grant and
/// an end leave, want by want.
pub fn wait_laws()
    ensures turn { TurnLaw }
    ensures added { AddedLaw }
    ensures includes { IncludesLaw }
    ensures ended { EndedLaw }
{}

/// It does nothing. Its clauses are laws for callers' proofs: the wants of a line cover its needs, so
/// lines with conflicting needs have conflicting wants.
pub fn cover_laws()
    ensures needs { NeedsLaw }
    ensures conflict { ConflictLaw }
    ensures cover { CoverLaw }
    ensures stays { StaysLaw }
    ensures lines { LinesLaw }
{}
