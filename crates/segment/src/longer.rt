//! A segment that gets further records.
ghost use Rattle.std.specs.Prelude.{◌≡◌, ◌+◌, ◌^◌, ◌<◌, ◌++◌, ◌∷◌, [], true, length, IfOk};
ghost use Rattle.db_value.specs.Widths.{meets};
ghost use Rattle.segment.specs.Keys.{AreSlots};
ghost use Rattle.segment.specs.Pages.{AreWide};
ghost use Rattle.segment.specs.Tails.{rows_in};

use crate::keys::KeySlots;
use crate::segment::Segment;
use crate::tail::Tail;
use db_value::Record;
use std::alloc::AllocError;
use std::marker::Model;

/// A longer segment is the records of a segment and those that were put after them so far. It shares
/// all pages that are full there.
#[derive(Drop)]
pub struct LongerSegment {
    tail: Tail,
    slots: KeySlots,
    len: u32,
}

impl Model for LongerSegment {
    ghost use Rattle.std.specs.Prelude.{◌≡◌, length};
    ghost use Rattle.record_page.specs.Page.{Rows, rows_code};
    ghost use Rattle.segment.specs.Keys.{AreSlots};
    ghost use Rattle.segment.specs.Pages.{AreWide};
    ghost use Rattle.segment.specs.Tails.{rows_in};

    ghost Value = { Rows };

    ghost coded = { rows_code };

    ghost view = { λ l. record { widths = l.tail.widths; records = rows_in l.tail } };

    ghost invariant = { λ l. (l.len ≡ length (rows_in l.tail)) × (AreWide l.tail.widths (rows_in l.tail) × AreSlots l.slots (rows_in l.tail)) };
}

impl LongerSegment {
    /// That of a tail's records.
    pub(crate) fn of(tail: Tail, slots: KeySlots, len: u32) -> LongerSegment
        requires len { len ≡ length (rows_in tail) }
        requires wide { AreWide tail.widths (rows_in tail) }
        requires slots { AreSlots slots (rows_in tail) }
        ensures { result ≡ record { widths = tail.widths; records = rows_in tail } }
    {
        LongerSegment { tail, slots, len }
    }

    /// The same with a record after the others.
    pub fn with(self, row: &Record) -> Result<LongerSegment, AllocError>
        requires meets { meets self.widths row.now.fields ≡ true }
        requires few { length self.records + 1 < 2 ^ 32 }
        ensures { IfOk result (λ l. l ≡ record self { records = self.records ++ row.now ∷ [] }) }
    {
        let LongerSegment {
            mut tail,
            mut slots,
            len,
        } = self;
        slots.push(row.key, len)?;
        tail.push(row)?;
        Ok(LongerSegment::of(tail, slots, len + 1))
    }

    /// The segment of these records.
    pub fn closed(self) -> Result<Segment, AllocError>
        ensures { IfOk result (λ s. s ≡ self) }
    {
        let LongerSegment { tail, slots, len } = self;
        let slots = slots.settled(tail.alloc, len)?;
        Segment::closed(tail, slots, len)
    }
}
