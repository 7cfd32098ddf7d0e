//! The parents of one version.
ghost use Rattle.std.specs.Prelude.{◌≡◌, ◌≤◌, length};
ghost use Rattle.version_graph.specs.Parents.{list_of};

/// The versions that a version was made from, by number.
#[derive(Clone, Copy)]
pub enum Parents {
    Root,
    One(u32),
    Two(u32, u32),
}

/// These parents, at most two.
pub fn parents_from(parents: &[u32]) -> Parents
    requires { length parents.now ≤ 2 }
    ensures { list_of result ≡ parents.now }
{
    match parents {
        [] => Parents::Root,
        [only] => Parents::One(*only),
        [first, second, ..] => Parents::Two(*first, *second),
    }
}
