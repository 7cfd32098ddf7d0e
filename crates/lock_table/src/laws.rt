//! What the words of the table's clauses mean.
ghost use Rattle.lock_table.specs.Laws.{HolderLaw, CoverLaw, AddedLaw, WithoutLaw};

/// It does nothing. Its clauses are laws for callers' proofs: what `holder`, `added` and `without`
/// say of a single row, and that who holds a lock depends on the set of rows alone.
pub fn row_laws()
    ensures holder { HolderLaw }
    ensures cover { CoverLaw }
    ensures added { AddedLaw }
    ensures without { WithoutLaw }
{}
