//! Names of versions in an order.
ghost use Rattle.std.specs.Prelude.{◌≡◌};

use db_value::VersionName;
use std::cmp::Ordering;

/// The name of a version as the key of a map. Keys are ordered by the name of the branch and then by
/// position, a plain name before those with one.
#[derive(Clone, Copy)]
pub struct NameKey {
    pub name: VersionName,
}

impl NameKey {
    /// The key of a name.
    pub fn of(name: &VersionName) -> NameKey
        ensures { result ≡ record { name = name.now } }
    {
        NameKey { name: *name }
    }
}

impl PartialEq for NameKey {
    ghost use Rattle.std.specs.Ordering.{eq_by_cmp};
    ghost use Rattle.std.specs.Cmp.{partial_equiv_from_equiv, eq_by_cmp_equiv};
    ghost use Rattle.branch_tx.specs.Lending.{key_cmp, key_total};

    ghost eq = { eq_by_cmp key_cmp };

    ghost laws = { partial_equiv_from_equiv (eq_by_cmp_equiv key_total) };

    fn eq(&self, other: &NameKey) -> bool {
        self.cmp(other).is_eq()
    }
}

impl Eq for NameKey {
    ghost use Rattle.std.specs.Cmp.{eq_by_cmp_equiv};
    ghost use Rattle.branch_tx.specs.Lending.{key_total};

    ghost laws = { eq_by_cmp_equiv key_total };
}

impl PartialOrd for NameKey {
    ghost use Rattle.std.specs.Prelude.{refl};
    ghost use Rattle.std.specs.Ordering.{as_partial_cmp};
    ghost use Rattle.std.specs.Cmp.{partial_order_from_agreeing_total};
    ghost use Rattle.branch_tx.specs.Lending.{key_cmp, key_total};

    ghost partial_cmp = { as_partial_cmp key_cmp };

    ghost laws = { partial_order_from_agreeing_total key_cmp key_total (λ x y. refl) (λ x y. refl) };

    fn partial_cmp(&self, other: &NameKey) -> Option<Ordering> {
        Some(self.cmp(other))
    }
}

impl Ord for NameKey {
    ghost use Rattle.std.specs.Prelude.{refl};
    ghost use Rattle.branch_tx.specs.Lending.{key_cmp, key_total};

    ghost cmp = { key_cmp };

    ghost total = { key_total };

    ghost matches_partial_cmp = { λ x y. refl };

    ghost matches_eq = { λ x y. refl };

    fn cmp(&self, other: &NameKey) -> Ordering {
        let branch = self
            .name
            .branch
            .as_bytes()
            .cmp(other.name.branch.as_bytes());
        branch.then(self.name.position.cmp(&other.name.position))
    }
}
