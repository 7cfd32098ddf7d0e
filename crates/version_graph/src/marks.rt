//! The marks of a walk: from which of two sides each version was reached.
ghost use Rattle.std.specs.Prelude.{◌≡◌, ◌+◌, ◌-◌, ◌<◌, ◌≤◌, All, IfOk, length, replicate, slice_index_or};
ghost use Rattle.version_graph.specs.Parents.{list_of};
ghost use Rattle.version_graph.specs.Marked.{unmarked, marked, all_marked};

use crate::parents::Parents;
use std::alloc::{AllocError, Global};
use std::marker::Model;

/// From which sides a version was reached.
#[derive(Clone, Copy)]
pub struct Mark {
    pub left: bool,
    pub right: bool,
}

/// The marks of the versions from `low` on.
#[derive(Drop)]
pub struct Marks {
    low: u32,
    marks: Vec<Mark>,
}

impl Model for Marks {
    ghost use Rattle.version_graph.specs.Marked.{Marked};

    ghost Value = { Marked };

    ghost view = { λ m. record { low = m.low; marks = m.marks.items } };
}

impl Marks {
    /// No marks, for the versions from `low` to `high`.
    pub fn new(alloc: Global, low: u32, high: u32) -> Result<Marks, AllocError>
        requires { low ≤ high }
        ensures { IfOk result
            (λ m. m ≡ record { low = low; marks = replicate (high - low + 1) unmarked }) }
    {
        let none = Mark {
            left: false,
            right: false,
        };
        let marks = vec![in alloc; none; (high - low) as usize + 1]?;
        Ok(Marks { low, marks })
    }

    /// The sides from which a version was reached.
    pub fn at(&self, version: u32) -> Mark
        requires from { self.now.low ≤ version }
        requires there { version < self.now.low + length self.now.marks }
        ensures { result ≡ slice_index_or self.now.marks (version - self.now.low) unmarked }
    {
        self.marks[(version - self.low) as usize]
    }

    /// Marks a version, unless it is below the first.
    pub fn set(&mut self, sides: Mark, version: u32)
        requires { version < self.old.low + length self.old.marks }
        ensures { self.new
            ≡ record self.old { marks = marked self.old.low sides version self.old.marks } }
    {
        if version >= self.low {
            let at = (version - self.low) as usize;
            let old = self.marks[at];
            self.marks[at] = Mark {
                left: old.left || sides.left,
                right: old.right || sides.right,
            };
        }
    }

    /// Marks all parents of a version with its sides.
    pub fn set_all(&mut self, sides: Mark, parents: Parents)
        requires { All (λ p. p < self.old.low + length self.old.marks) (list_of parents) }
        ensures { self.new
            ≡ record self.old {
              marks = all_marked self.old.low sides (list_of parents) self.old.marks;
            } }
    {
        match parents {
            Parents::Root => {}
            Parents::One(only) => self.set(sides, only),
            Parents::Two(first, second) => {
                self.set(sides, first);
                self.set(sides, second);
            }
        }
    }
}
