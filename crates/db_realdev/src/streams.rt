//! A reader as a source, and a writer as a sink.
ghost use Rattle.std.specs.Prelude.{◌≡◌, ◌≤◌, ◌<◌, length, IfOk};

use db_outside::{Failed, Sink, Source};
use std::io::{ErrorKind, Read, Write};

/// A source is over a reader, as standard input.
#[derive(Drop)]
pub struct RealSource<R> {
    reader: R,
    faults: u64,
}

impl<R: Read> RealSource<R> {
    /// A source that has not failed yet.
    pub fn new(reader: R) -> RealSource<R>
        ensures { result ≡ record { reader = reader; faults = 0 } }
    {
        RealSource { reader, faults: 0 }
    }
}

// Reads until a call is not interrupted.
fn read_once<R: Read>(reader: &mut R, into: &mut [u8]) -> Result<usize, Failed>
    ensures { IfOk result (λ n. n ≤ length into.old) }
{
    for _ in 0..u64::MAX {
        match reader.read(into) {
            Ok(n) => return Ok(n),
            Err(error) => {
                if error.kind() != ErrorKind::Interrupted {
                    return Err(Failed);
                }
            }
        }
    }
    Err(Failed)
}

impl<R: Read> Source for RealSource<R> {
    ghost use Rattle.std.specs.Prelude.{None};

    ghost faults = { λ s. s.faults };

    ghost left = { λ _. None };

    fn take(&mut self, into: &mut [u8]) -> Result<usize, Failed> {
        let taken = read_once(&mut self.reader, into);
        if taken.is_err() {
            self.faults = self.faults.saturating_add(1);
        }
        taken
    }
}

/// A sink is over a writer, as standard output.
#[derive(Drop)]
pub struct RealSink<W> {
    writer: W,
    faults: u64,
}

impl<W: Write> RealSink<W> {
    /// A sink that has not failed yet.
    pub fn new(writer: W) -> RealSink<W>
        ensures { result ≡ record { writer = writer; faults = 0 } }
    {
        RealSink { writer, faults: 0 }
    }
}

// Writes until a call is not interrupted. One that takes nothing has failed.
fn write_once<W: Write>(writer: &mut W, bytes: &[u8]) -> Result<usize, Failed>
    ensures count { IfOk result (λ n. n ≤ length bytes.now) }
    ensures some { IfOk result (λ n. 0 < n) }
{
    for _ in 0..u64::MAX {
        match writer.write(bytes) {
            Ok(n) => {
                if n == 0 {
                    return Err(Failed);
                }
                return Ok(n);
            }
            Err(error) => {
                if error.kind() != ErrorKind::Interrupted {
                    return Err(Failed);
                }
            }
        }
    }
    Err(Failed)
}

impl<W: Write> Sink for RealSink<W> {
    ghost use Rattle.std.specs.Prelude.{None};

    ghost faults = { λ s. s.faults };

    ghost written = { λ _. None };

    fn put(&mut self, bytes: &[u8]) -> Result<usize, Failed> {
        let put = write_once(&mut self.writer, bytes);
        if put.is_err() {
            self.faults = self.faults.saturating_add(1);
        }
        put
    }
}
