//! The rows of a reply.
ghost use Rattle.std.proofs.Common.{get_or};
ghost use Rattle.std.specs.Prelude.{◌≡◌, ◌<◌, ◌∷◌, [], List, length, map, Option, None, Some, IfOk, IfSome, IfNone};
ghost use Rattle.db_value.specs.Marks.{alone, marked_here, mark};

use crate::SharedList;
use crate::record::{Positions, Record};
use crate::records::Records;
use std::alloc::{AllocError, Global};
use std::marker::Model;
use std::sync::Arc;

/// Rows in order, each with the versions that have it. Where no version was named, each is of the first
/// version alone, and that takes no memory.
#[derive(Drop)]
pub struct Rows {
    rows: Arc<Records>,
    marks: Option<SharedList<Positions>>,
}

impl Model for Rows {
    ghost use Rattle.std.specs.Prelude.{List};
    ghost use Rattle.std.specs.Arc.{arc_value};
    ghost use Rattle.std.specs.Coded.{coded_list};
    ghost use Rattle.db_value.specs.declared.record.Marked.{Marked};
    ghost use Rattle.db_value.specs.Marks.{marked_code, marked_rows, AreMarks};

    ghost Value = { List Marked };

    ghost coded = { coded_list marked_code };

    ghost view = { λ r. marked_rows (arc_value r.rows) r.marks };

    ghost invariant = { λ r. AreMarks (arc_value r.rows) r.marks };
}

// The versions of the row at a place.
fn positions_at(marks: &[Positions], index: usize) -> (u32, &[u32])
    requires { index < length marks.now }
    ensures { get_or marks.now index [] ≡ result.0 ∷ result.1.now }
{
    marks[index].parts()
}

impl Rows {
    /// Records of the first version alone. No row is copied.
    pub fn alone(alloc: Global, rows: Records) -> Result<Rows, AllocError>
        ensures { IfOk result (λ r. r ≡ map alone rows) }
    {
        let rows = Arc::new(alloc, rows)?;
        Ok(Rows { rows, marks: None })
    }

    /// Records, each with the versions that have it. No row is copied.
    pub fn marked(alloc: Global, rows: Records, marks: Vec<Positions>) -> Result<Rows, AllocError>
        requires { length marks.items ≡ length rows }
        ensures { IfOk result (λ r. r ≡ mark rows marks.items) }
    {
        let rows = Arc::new(alloc, rows)?;
        let marks = SharedList::of(alloc, marks)?;
        Ok(Rows {
            rows,
            marks: Some(marks),
        })
    }

    /// How many there are.
    pub fn len(&self) -> usize
        ensures { result ≡ length self.now }
    {
        self.rows.len()
    }

    /// Reads a row.
    pub fn read(&self, index: usize, into: &mut Record)
        requires { index < length self.now }
        ensures { into.new ≡ (marked_here self.now index).row }
    {
        self.rows.read(index, into);
    }

    /// The versions that have a row: the least of their numbers, and the others.
    pub fn positions(&self, index: usize) -> (u32, &[u32])
        requires { index < length self.now }
        ensures { (marked_here self.now index).positions ≡ result.0 ∷ result.1.now }
    {
        match &self.marks {
            None => (0, &[]),
            Some(marks) => positions_at(marks.as_slice(), index),
        }
    }
}
