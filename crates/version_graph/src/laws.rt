//! What reaching says when a graph grows.
ghost use Rattle.version_graph.specs.Laws.{StepsLaw, OrderLaw, GrowthLaw, NewLaw, OneLaw, LastLaw, StaysLaw};

/// It does nothing. Its clauses are laws for callers' proofs: which versions are ancestors of which
/// when a graph grows, and that one pass finds the one last common ancestor.
pub fn ancestor_laws()
    ensures steps { StepsLaw }
    ensures order { OrderLaw }
    ensures growth { GrowthLaw }
    ensures new { NewLaw }
    ensures one { OneLaw }
    ensures last { LastLaw }
    ensures stays { StaysLaw }
{}
