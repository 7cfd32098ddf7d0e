//! Batches of one body, which have its digest, and the digest alone.
ghost use Rattle.std.specs.Prelude.{◌≡◌, IfOk};

use crate::row::{Kind, Row};
use crate::timing::{Round, time};
use anyhow::Result;
use db_outside::Batch;
use sha2::{Digest, Sha256};
use std::alloc::{AllocError, Global};
use std::rt::Clock;

#[derive(Drop)]
struct Body {
    kind: Kind,
    bytes: Vec<u8>,
}

// Bytes in which each number below 256 stands as often as any other.
fn body_of(alloc: Global, bytes: u32) -> Result<Vec<u8>, AllocError> {
    let mut body = Vec::with_capacity(alloc, bytes as usize)?;
    for place in 0..bytes {
        body.push((place % 256) as u8)?;
    }
    Ok(body)
}

/// A batch of this body.
pub fn batch_of(alloc: Global, body: &[u8]) -> Result<Batch, AllocError>
    ensures { IfOk result (λ b. b ≡ body.now) }
{
    let mut batch = Batch::new(alloc)?;
    match batch.add(body) {
        Ok(()) => Ok(batch),
        Err(_) => Err(AllocError),
    }
}

// The sum of a digest's bytes.
fn sum_of(digest: &[u8]) -> u64 {
    let mut sum = 0u64;
    for byte in digest {
        sum = sum.wrapping_add(u64::from(*byte));
    }
    sum
}

fn sum_in_batch(alloc: Global, body: &[u8]) -> Result<u64, AllocError> {
    let batch = batch_of(alloc, body)?;
    match batch.bytes().get(4..36) {
        Some(digest) => Ok(sum_of(digest)),
        None => Ok(0),
    }
}

impl Round for Body {
    fn make(&mut self, alloc: Global) -> Result<u64, AllocError> {
        match self.kind {
            Kind::Batch => sum_in_batch(alloc, &self.bytes),
            _ => Ok(sum_of(&Sha256::digest(self.bytes.as_slice()))),
        }
    }
}

/// Times a batch of one body, or the digest of the same body alone.
pub fn time_bodies<R: Clock + Print + AllocGlobal>(rt: &R, row: &Row, rounds: u32) -> Result<()> {
    let mut body = Body {
        kind: row.kind,
        bytes: body_of(rt.alloc(), row.size)?,
    };
    time(rt, row, rounds, &mut body)
}
