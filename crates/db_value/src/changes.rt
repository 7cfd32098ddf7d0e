//! Lists of changes, packed.
ghost use Rattle.std.specs.Prelude.{◌≡◌, ◌<◌, ◌≤◌, ◌+◌, ◌^◌, ◌++◌, ◌∷◌, [], Some, None, true, false, length, map, is_some, OnOk, OnErr, IfOk, IfSome};
ghost use Rattle.db_value.specs.Widths.{meets};
ghost use Rattle.db_value.specs.PackedChanges.{change_here, AreKept};

use crate::entry::Change;
use crate::record::Record;
use crate::records::{Slot, part_of};
use crate::widths::{Widths, packed_meet};
use std::alloc::{AllocError, Global};
use std::marker::Model;

/// The most bytes that come before a row.
const MOST_START: usize = 4_294_967_295;

/// A change whose fields are packed: its relation, where its row stands, whether it puts that row or
/// deletes what has its key, and the widths.
#[derive(Clone, Copy)]
pub struct Kept {
    pub(crate) row: Slot,
    pub(crate) relation: u8,
    pub(crate) live: bool,
    pub(crate) widths: Option<Widths>,
}

/// A list of changes. A change takes 40 bytes and those that its fields spell: 9 for a number, and one
/// more than its length for a text.
#[derive(Drop)]
pub struct Changes {
    bytes: Vec<u8>,
    kept: Vec<Kept>,
}

impl Model for Changes {
    ghost use Rattle.std.specs.Prelude.{List, map};
    ghost use Rattle.std.specs.Coded.{coded_list};
    ghost use Rattle.db_value.specs.declared.entry.Change.{Change};
    ghost use Rattle.db_value.specs.PackedChanges.{change_code, change_at, AreKept};

    ghost Value = { List Change };

    ghost coded = { coded_list change_code };

    ghost view = { λ c. map (change_at c.bytes.items) c.kept.items };

    ghost invariant = { λ c. AreKept c.bytes.items c.kept.items };
}

impl Changes {
    /// No change yet. It takes no memory.
    pub fn new(alloc: Global) -> Changes
        ensures { result ≡ [] }
    {
        Changes {
            bytes: Vec::new(alloc),
            kept: Vec::new(alloc),
        }
    }

    /// No change yet, and the memory for so many of so many bytes.
    pub fn with_room(alloc: Global, changes: usize, bytes: usize) -> Result<Changes, AllocError>
        ensures { IfOk result (λ c. c ≡ []) }
    {
        Ok(Changes {
            bytes: Vec::with_capacity(alloc, bytes)?,
            kept: Vec::with_capacity(alloc, changes)?,
        })
    }

    /// How many there are.
    pub fn len(&self) -> usize
        ensures count { result ≡ length self.now }
        ensures few { result < 2 ^ 63 }
    {
        self.kept.as_slice().len()
    }

    /// The relation of a change.
    pub fn relation(&self, index: usize) -> u8
        requires { index < length self.now }
        ensures { result ≡ (change_here self.now index).relation }
    {
        self.kept[index].relation
    }

    /// The key of a change.
    pub fn key(&self, index: usize) -> u64
        requires { index < length self.now }
        ensures { result ≡ (change_here self.now index).key }
    {
        self.kept[index].row.key
    }

    /// The widths of a change.
    pub fn widths(&self, index: usize) -> Option<Widths>
        requires { index < length self.now }
        ensures { result ≡ (change_here self.now index).widths }
    {
        self.kept[index].widths
    }

    /// Does a change put a record?
    pub fn puts(&self, index: usize) -> bool
        requires { index < length self.now }
        ensures { result ≡ is_some (change_here self.now index).fields }
    {
        self.kept[index].live
    }

    /// Do the fields that a change puts meet widths? They are not read for it.
    pub fn meets(&self, index: usize, widths: &Widths) -> bool
        requires { index < length self.now }
        ensures { IfSome (change_here self.now index).fields (λ fields. result ≡ meets widths.now fields) }
    {
        packed_meet(
            widths.as_slice(),
            part_of(&self.bytes, self.kept[index].row),
        )
    }

    /// Does a change put a record? If so, the record is read.
    pub fn read(&self, index: usize, into: &mut Record) -> bool
        requires { index < length self.now }
        ensures puts { result ≡ is_some (change_here self.now index).fields }
        ensures key { into.new.key ≡ (change_here self.now index).key }
        ensures fields { IfSome (change_here self.now index).fields (λ fields. into.new.fields ≡ fields) }
    {
        let kept = self.kept[index];
        into.key = kept.row.key;
        if kept.live {
            into.fields.unpack(part_of(&self.bytes, kept.row));
        }
        kept.live
    }

    /// Puts the change that puts a record behind the others.
    pub fn put(&mut self, relation: u8, row: &Record, widths: &Widths) -> Result<(), AllocError>
        ensures put { OnOk result (self.new ≡ self.old
            ++ record { relation = relation; key = row.now.key; fields = Some row.now.fields; widths = Some widths.now } ∷ []) }
        ensures same { OnErr result (self.new ≡ self.old) }
    {
        let start = self.bytes.len();
        if start > MOST_START {
            return Err(AllocError);
        }
        let packed = row.fields.packed();
        let len = packed.len() as u16;
        self.bytes.extend_from_slice(packed)?;
        self.kept.push(Kept {
            row: Slot {
                key: row.key,
                start: start as u32,
                len,
            },
            relation,
            live: true,
            widths: Some(*widths),
        })?;
        Ok(())
    }

    /// Puts the change that deletes the record with a key behind the others.
    pub fn remove(&mut self, relation: u8, key: u64) -> Result<(), AllocError>
        ensures removed { OnOk result (self.new ≡ self.old
            ++ record { relation = relation; key = key; fields = None; widths = None } ∷ []) }
        ensures same { OnErr result (self.new ≡ self.old) }
    {
        self.kept.push(Kept {
            row: Slot {
                key,
                start: 0,
                len: 0,
            },
            relation,
            live: false,
            widths: None,
        })?;
        Ok(())
    }

    /// An equal list of its own.
    pub fn duplicate(&self) -> Result<Changes, AllocError>
        ensures { IfOk result (λ list. list ≡ self.now) }
    {
        let alloc = *self.kept.allocator();
        Ok(Changes {
            bytes: Vec::from_slice(alloc, &self.bytes)?,
            kept: Vec::from_slice(alloc, &self.kept)?,
        })
    }
}
