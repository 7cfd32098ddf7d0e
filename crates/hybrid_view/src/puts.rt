//! The records that a commit puts into a relation.
ghost use Rattle.std.specs.Prelude.{◌≡◌, ◌+◌, ◌<◌, ◌≤◌, ◌^◌, ◌++◌, ◌∷◌, [], length, IfOk};
ghost use Rattle.db_value.specs.PackedChanges.{change_here};
ghost use Rattle.segment.specs.Pages.{AreWide};
ghost use Rattle.db_store.specs.LayoutGrowth.{puts};

use db_value::{Changes, Record};
use segment::{LongerSegment, Segment};
use std::alloc::AllocError;
use std::marker::Model;

/// Put rows are the records that changes put into a relation, in order, and how many they are told to be, for which
/// room is taken at once. Each is read where its change stands, so no list of them takes memory.
#[derive(Drop)]
pub struct PutRows<'a> {
    changes: &'a Changes,
    relation: u8,
    count: usize,
}

impl<'a> Model for PutRows<'a> {
    ghost use Rattle.std.specs.Prelude.{List};
    ghost use Rattle.db_value.specs.declared.record.Record.{Record};
    ghost use Rattle.db_store.specs.LayoutGrowth.{puts};

    ghost Value = { List Record };

    ghost view = { λ p. puts p.changes.now p.relation };
}

/// How many records a change puts into a relation.
pub(crate) fn count_put(changes: &Changes, at: usize, relation: u8) -> usize
    requires { at < length changes.now }
    ensures count { result ≡ length (puts (change_here changes.now at ∷ []) relation) }
    ensures few { result ≤ 1 }
{
    let own = changes.relation(at);
    if own != relation {
        return 0;
    }
    if changes.puts(at) { 1 } else { 0 }
}

// Puts what a change puts into a relation after the records of a segment. The row is one to read into.
fn with_put(
    longer: LongerSegment,
    changes: &Changes,
    at: usize,
    relation: u8,
    row: &mut Record,
) -> Result<LongerSegment, AllocError>
    requires at { at < length changes.now }
    requires wide { AreWide longer.widths (puts (change_here changes.now at ∷ []) relation) }
    requires few { length longer.records
        + length (puts (change_here changes.now at ∷ []) relation) < 2 ^ 32 }
    ensures { IfOk result (λ l. l ≡ record longer
        { records = longer.records ++ puts (change_here changes.now at ∷ []) relation }) }
{
    let own = changes.relation(at);
    if own != relation {
        return Ok(longer);
    }
    if !changes.read(at, row) {
        return Ok(longer);
    }
    longer.with(row)
}

// A segment with what changes put into a relation after its records, which are told to be so many.
fn with_puts(
    segment: &Segment,
    changes: &Changes,
    relation: u8,
    count: usize,
) -> Result<Segment, AllocError>
    requires wide { AreWide segment.now.widths (puts changes.now relation) }
    requires few { length segment.now.records + length (puts changes.now relation) < 2 ^ 32 }
    ensures { IfOk result (λ s. s
        ≡ record segment.now { records = segment.now.records ++ puts changes.now relation }) }
{
    let mut longer = segment.longer(count)?;
    let mut row = Record::blank();
    for at in 0..changes.len() {
        longer = with_put(longer, changes, at, relation, &mut row)?;
    }
    longer.closed()
}

impl<'a> PutRows<'a> {
    /// Those of these changes, of which there are so many.
    pub fn of(changes: &'a Changes, relation: u8, count: usize) -> PutRows<'a>
        ensures { result ≡ puts changes.now relation }
    {
        PutRows {
            changes,
            relation,
            count,
        }
    }

    /// A segment with these records after its own.
    pub fn behind(&self, segment: &Segment) -> Result<Segment, AllocError>
        requires wide { AreWide segment.now.widths self.now }
        requires few { length segment.now.records + length self.now < 2 ^ 32 }
        ensures { IfOk result (λ s.
            s ≡ record segment.now { records = segment.now.records ++ self.now }) }
    {
        with_puts(segment, self.changes, self.relation, self.count)
    }
}
