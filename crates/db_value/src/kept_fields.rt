//! Fields in memory of their own.
ghost use Rattle.std.specs.Prelude.{◌≡◌, ◌<◌, ◌≤◌, length, IfOk};
ghost use Rattle.db_value.specs.Widths.{meets};

use crate::fields::{Fields, MOST_FIELDS};
use crate::packing::count_in;
use crate::widths::{Widths, packed_meet};
use std::alloc::{AllocError, Global};
use std::marker::Model;

/// Fields that take the bytes that they spell. A statement keeps them so: as a plain value they are
/// about a thousand bytes.
#[derive(Drop)]
pub struct KeptFields {
    bytes: Vec<u8>,
}

impl Model for KeptFields {
    ghost use Rattle.std.specs.Prelude.{◌<◌, List, length};
    ghost use Rattle.std.specs.Coded.{coded_list};
    ghost use Rattle.db_value.specs.Value.{Value as FieldValue, coded_value};
    ghost use Rattle.db_value.specs.Spelling.{IsSpelling, fields_in};

    ghost Value = { List FieldValue };

    ghost coded = { coded_list coded_value };

    ghost view = { λ k. fields_in k.bytes.items };

    ghost invariant = { λ k. IsSpelling k.bytes.items × (0 < length (fields_in k.bytes.items)) };
}

impl KeptFields {
    /// These fields.
    pub fn of(alloc: Global, fields: &Fields) -> Result<KeptFields, AllocError>
        ensures { IfOk result (λ kept. kept ≡ fields.now) }
    {
        let bytes = Vec::from_slice(alloc, fields.packed())?;
        Ok(KeptFields { bytes })
    }

    /// How many there are.
    #[tactic(auto, using(crate::proofs::Places::many_values))]
    pub fn count(&self) -> usize
        ensures value { result ≡ length self.now }
        ensures some { 0 < result }
        ensures few { result ≤ MOST_FIELDS }
    {
        count_in(&self.bytes)
    }

    /// Do they meet widths? They are not read for it.
    pub fn meets(&self, widths: &Widths) -> bool
        ensures { result ≡ meets widths.now self.now }
    {
        packed_meet(widths.as_slice(), &self.bytes)
    }

    /// Reads them. It touches their bytes, and those that were there.
    pub fn read(&self, into: &mut Fields)
        ensures { into.new ≡ self.now }
    {
        into.unpack(&self.bytes);
    }
}
