//! A region of frames for rows.
ghost use Rattle.std.specs.Prelude.{◌≡◌, ◌<◌, ◌≤◌, ◌+◌, ◌++◌, ◌∷◌, ◌^◌, ◌-◌, [], length, set, replicate, vec_len, vec_capacity, IfOk, OnOk, OnErr};
ghost use Rattle.db_value.specs.Spelling.{fields_bytes};
ghost use Rattle.work_region.specs.Rows.{frame_here, head_bytes, over};

use crate::region::RegionFull;
use db_value::Record;
use std::alloc::{AllocError, Global};
use std::marker::Model;

/// What a frame has: a row of a relation, and whether it is there in the end.
#[derive(Clone, Copy)]
pub struct RowFrame {
    pub relation: u8,
    pub row: Record,
    pub live: bool,
}

/// A frame's row among the bytes of the region: it begins where the frame does.
#[derive(Clone, Copy)]
pub struct Head {
    pub(crate) key: u64,
    pub(crate) start: u32,
    pub(crate) len: u16,
    pub(crate) relation: u8,
    pub(crate) live: bool,
}

/// A region of frames for rows of at most so many bytes. Frames are given out one after another, and
/// given up all at once. A frame takes 16 bytes and those that a row may have; all memory is taken
/// when the region is, and that of a frame that wasn't given out is never touched.
#[derive(Drop)]
pub struct RowRegion {
    bytes: Vec<u8>,
    heads: Vec<Head>,
    room: u32,
    most: u16,
}

impl Model for RowRegion {
    ghost use Rattle.std.specs.Prelude.{map};
    ghost use Rattle.work_region.specs.Rows.{RowFrames, frames_code, head_frame, AreFrames, IsRoomy};

    ghost Value = { RowFrames };

    ghost coded = { frames_code };

    ghost view = { λ r. record { room = r.room; most = r.most; frames = map (head_frame r.bytes.items) r.heads.items } };

    ghost invariant = { λ r. AreFrames r.most r.bytes.items r.heads.items
        × IsRoomy r.room r.most r.bytes r.heads };
}

// The bytes of a frame's row.
fn bytes_of(bytes: &[u8], head: Head) -> &[u8]
    ensures { result.now ≡ head_bytes bytes.now head }
{
    let start = head.start as usize;
    if start > bytes.len() {
        return &bytes[bytes.len()..];
    }
    let rest = &bytes[start..];
    let len = head.len as usize;
    if len < rest.len() { &rest[..len] } else { rest }
}

// Adds packed bytes, and zeros up to the end of their frame.
fn append(bytes: &mut Vec<u8>, packed: &[u8], most: usize)
    requires room { vec_len bytes.old + most ≤ vec_capacity bytes.old }
    requires short { length packed.now ≤ most }
    ensures items { bytes.new.items
        ≡ bytes.old.items ++ (packed.now ++ replicate (most - length packed.now) 0) }
    ensures capacity { vec_capacity bytes.old ≤ vec_capacity bytes.new }
{
    let end = bytes.len() + most;
    if bytes.extend_from_slice(packed).is_err() {
        unreachable!();
    }
    if bytes.resize(end, 0).is_err() {
        unreachable!();
    }
}

// Puts packed bytes over those from a place on.
fn overwrite(bytes: &mut [u8], start: usize, packed: &[u8])
    requires { start + length packed.now ≤ length bytes.old }
    ensures { bytes.new ≡ over start packed.now bytes.old }
{
    let end = start + packed.len();
    bytes[start..end].copy_from_slice(packed);
}

impl RowRegion {
    /// A region of so many frames for rows of at most so many bytes, none of them given out.
    pub fn take(alloc: Global, room: u32, most: u16) -> Result<RowRegion, AllocError>
        ensures { IfOk result (λ r. r ≡ record { room = room; most = most; frames = [] }) }
    {
        let size = room as u64 * most as u64;
        if size > 4_294_967_295 {
            return Err(AllocError);
        }
        Ok(RowRegion {
            bytes: Vec::with_capacity(alloc, size as usize)?,
            heads: Vec::with_capacity(alloc, room as usize)?,
            room,
            most,
        })
    }

    /// How many frames are given out.
    pub fn len(&self) -> u32
        ensures count { result ≡ length self.now.frames }
        ensures room { result ≤ self.now.room }
    {
        self.heads.len() as u32
    }

    /// How many frames there are.
    pub fn room(&self) -> u32
        ensures { result ≡ self.now.room }
    {
        self.room
    }

    /// Where it took its memory.
    pub fn allocator(&self) -> Global {
        *self.heads.allocator()
    }

    /// The key in a frame.
    pub fn key(&self, frame: u32) -> u64
        requires { frame < length self.now.frames }
        ensures { result ≡ (frame_here self.now.frames frame).row.key }
    {
        self.heads[frame as usize].key
    }

    /// The relation of the row in a frame.
    pub fn relation(&self, frame: u32) -> u8
        requires { frame < length self.now.frames }
        ensures { result ≡ (frame_here self.now.frames frame).relation }
    {
        self.heads[frame as usize].relation
    }

    /// Is the row in a frame there in the end?
    pub fn is_live(&self, frame: u32) -> bool
        requires { frame < length self.now.frames }
        ensures { result ≡ (frame_here self.now.frames frame).live }
    {
        self.heads[frame as usize].live
    }

    /// Reads the row in a frame.
    pub fn row(&self, frame: u32, into: &mut Record)
        requires { frame < length self.now.frames }
        ensures { into.new ≡ (frame_here self.now.frames frame).row }
    {
        let head = self.heads[frame as usize];
        into.key = head.key;
        into.fields.unpack(bytes_of(&self.bytes, head));
    }

    /// Puts a row on a frame that wasn't given out, and tells its number. It takes no memory.
    pub fn place(&mut self, relation: u8, row: &Record, live: bool) -> Result<u32, RegionFull>
        requires { length (fields_bytes row.now.fields) ≤ self.old.most }
        ensures number { IfOk result (λ frame. frame ≡ length self.old.frames) }
        ensures placed { OnOk result (self.new ≡ record self.old {
          frames = self.old.frames
              ++ record { relation = relation; row = row.now; live = live } ∷ [];
        }) }
        ensures full { OnErr result (self.old.room ≤ length self.old.frames) }
        ensures same { OnErr result (self.new ≡ self.old) }
    {
        let frame = self.heads.len() as u32;
        if frame >= self.room {
            return Err(RegionFull);
        }
        let packed = row.fields.packed();
        let head = Head {
            key: row.key,
            start: self.bytes.len() as u32,
            len: packed.len() as u16,
            relation,
            live,
        };
        append(&mut self.bytes, packed, self.most as usize);
        self.heads.push_reserved(head);
        Ok(frame)
    }

    /// Puts another row on a frame that was given out. It takes no memory.
    pub fn set(&mut self, frame: u32, relation: u8, row: &Record, live: bool)
        requires frame { frame < length self.old.frames }
        requires most { length (fields_bytes row.now.fields) ≤ self.old.most }
        ensures { self.new ≡ record self.old {
          frames = set self.old.frames frame
              (record { relation = relation; row = row.now; live = live });
        } }
    {
        let at = frame as usize;
        let start = self.heads[at].start;
        let packed = row.fields.packed();
        overwrite(self.bytes.as_mut_slice(), start as usize, packed);
        self.heads[at] = Head {
            key: row.key,
            start,
            len: packed.len() as u16,
            relation,
            live,
        };
    }
}
