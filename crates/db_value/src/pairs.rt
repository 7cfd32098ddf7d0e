//! The pairs of a reply.
ghost use Rattle.std.specs.Prelude.{◌≡◌, ◌<◌, length, IfOk};
ghost use Rattle.db_value.specs.Pairs.{beside, paired, pair_here};

use crate::Fields;
use crate::record::Record;
use crate::records::Records;
use std::alloc::{AllocError, Global};
use std::marker::Model;
use std::sync::Arc;

/// Two records with one key.
#[derive(Clone, Copy)]
pub struct Pair {
    pub key: u64,
    pub left: Fields,
    pub right: Fields,
}

/// Pairs of records with one key, in order: two lists of records, side by side.
#[derive(Drop)]
pub struct Pairs {
    left: Arc<Records>,
    right: Arc<Records>,
}

impl Model for Pairs {
    ghost use Rattle.std.specs.Prelude.{◌≡◌, List, length};
    ghost use Rattle.std.specs.Arc.{arc_value};
    ghost use Rattle.std.specs.Coded.{coded_list};
    ghost use Rattle.db_value.specs.declared.pairs.Pair.{Pair};
    ghost use Rattle.db_value.specs.Pairs.{pair_code, paired};

    ghost Value = { List Pair };

    ghost coded = { coded_list pair_code };

    ghost view = { λ p. paired (arc_value p.left) (arc_value p.right) };

    ghost invariant = { λ p. length (arc_value p.right) ≡ length (arc_value p.left) };
}

impl Pairs {
    /// Records, each beside the one at its place in another list. No record is copied.
    pub fn of(alloc: Global, left: Records, right: Records) -> Result<Pairs, AllocError>
        requires { length right ≡ length left }
        ensures { IfOk result (λ p. p ≡ paired left right) }
    {
        let left = Arc::new(alloc, left)?;
        let right = Arc::new(alloc, right)?;
        Ok(Pairs { left, right })
    }

    /// How many there are.
    pub fn len(&self) -> usize
        ensures { result ≡ length self.now }
    {
        self.left.len()
    }

    /// Reads the two records of a pair.
    pub fn read(&self, index: usize, left: &mut Record, right: &mut Record)
        requires { index < length self.now }
        ensures { beside left.new right.new ≡ pair_here self.now index }
    {
        self.left.read(index, left);
        self.right.read(index, right);
    }
}
