//! A reader of bytes, and how it reads numbers.
ghost use Rattle.std.specs.Prelude.{◌≡◌, length};
ghost use Rattle.std.specs.Int.{w32, w64};
ghost use Rattle.image_text.specs.Reading.{Gives, byte_at, number_at};

use crate::image::Stop;

/// A reader has the bytes that weren't read yet.
#[derive(Clone, Copy)]
pub struct Reader<'a> {
    pub rest: &'a [u8],
}

impl<'a> Reader<'a> {
    /// How many bytes weren't read yet.
    pub fn left(&self) -> usize
        ensures { result ≡ length self.now.rest.now }
    {
        self.rest.len()
    }

    /// The next byte.
    pub fn u8(&mut self) -> Result<u8, Stop>
        ensures { Gives (λ x. (x, self.new.rest.now)) result (byte_at self.old.rest.now) }
    {
        match self.rest {
            [] => Err(Stop::Fault(0)),
            [b, rest @ ..] => {
                self.rest = rest;
                Ok(*b)
            }
        }
    }

    /// A number of 4 bytes, the lowest first.
    pub fn u32(&mut self) -> Result<u32, Stop>
        ensures { Gives (λ x. (x, self.new.rest.now)) result (number_at w32 self.old.rest.now) }
    {
        if self.rest.len() < 4 {
            return Err(Stop::Fault(0));
        }
        let (front, rest) = self.rest.split_at(4);
        self.rest = rest;
        Ok(u32::from_le_bytes([front[0], front[1], front[2], front[3]]))
    }

    /// A number of 8 bytes, the lowest first.
    pub fn u64(&mut self) -> Result<u64, Stop>
        ensures { Gives (λ x. (x, self.new.rest.now)) result (number_at w64 self.old.rest.now) }
    {
        if self.rest.len() < 8 {
            return Err(Stop::Fault(0));
        }
        let (front, rest) = self.rest.split_at(8);
        self.rest = rest;
        Ok(u64::from_le_bytes([
            front[0], front[1], front[2], front[3], front[4], front[5], front[6], front[7],
        ]))
    }
}
