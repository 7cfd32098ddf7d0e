//! The bytes of a file with an image.
ghost use Rattle.std.specs.Prelude.{◌≡◌, ◌+◌, ◌<◌, ◌^◌, ◌∷◌, ◌++◌, [], true, length, IfOk};
ghost use Rattle.std.specs.Int.{w64, to_le_bytes};
ghost use Rattle.sha2.specs.Sha256.{sha256};
ghost use Rattle.generations.specs.Written.{behind_gate};

use gate_journal::Journal;
use sha2::{Digest, Sha256};
use std::alloc::{AllocError, Global};

/// A closed gate, and the name of format two.
const SHUT_MARK: [u8; 9] = [0, 68, 69, 67, 73, 66, 69, 76, 50];

/// The name of format two.
const NAME: [u8; 8] = [68, 69, 67, 73, 66, 69, 76, 50];

// Behind these bytes the rest of a header, an image, and the closed gate of the first record.
fn with_image(
    alloc: Global,
    front: &[u8],
    generation: u64,
    image: &[u8],
) -> Result<Vec<u8>, AllocError>
    ensures bytes { IfOk result (λ v.
        v.items ≡ ((((front.now ++ to_le_bytes w64 generation)
        ++ to_le_bytes w64 (length image.now)) ++ sha256 image.now) ++ image.now) ++ 0 ∷ []) }
    ensures long { IfOk result (λ v.
        length v.items ≡ length front.now + 49 + length image.now) }
{
    let digest = Sha256::digest(image);
    let mut bytes: Vec<u8> = Vec::new(alloc);
    bytes.extend_from_slice(front)?;
    bytes.extend_from_slice(&generation.to_le_bytes())?;
    bytes.extend_from_slice(&(image.len() as u64).to_le_bytes())?;
    bytes.extend_from_slice(&digest)?;
    bytes.extend_from_slice(image)?;
    bytes.push(0)?;
    Ok(bytes)
}

/// The bytes of a new file whose gate is closed, of generation 1, and where its first record goes.
pub fn new_bytes(alloc: Global, image: &[u8]) -> Result<(Vec<u8>, Journal), AllocError>
    ensures bytes { IfOk result (λ r. r.0.items ≡ 0 ∷ (behind_gate 1 image.now ++ 0 ∷ [])) }
    ensures few { IfOk result (λ r. length image.now < 2 ^ 64) }
    ensures at { IfOk result (λ r. r.1.at ≡ 57 + length image.now) }
    ensures clean { IfOk result (λ r. r.1.clean ≡ true) }
{
    let bytes = with_image(alloc, &SHUT_MARK, 1, image)?;
    let at = bytes.len() as u64 - 1;
    Ok((bytes, Journal { at, clean: true }))
}

/// The bytes of a file behind its gate, of this generation, and where its first record goes.
pub fn next_bytes(
    alloc: Global,
    generation: u64,
    image: &[u8],
) -> Result<(Vec<u8>, Journal), AllocError>
    ensures bytes { IfOk result (λ r. r.0.items ≡ behind_gate generation image.now ++ 0 ∷ []) }
    ensures few { IfOk result (λ r. length image.now < 2 ^ 64) }
    ensures at { IfOk result (λ r. r.1.at ≡ 57 + length image.now) }
    ensures long { IfOk result (λ r. length r.0.items ≡ r.1.at) }
    ensures clean { IfOk result (λ r. r.1.clean ≡ true) }
{
    let bytes = with_image(alloc, &NAME, generation, image)?;
    let at = bytes.len() as u64;
    Ok((bytes, Journal { at, clean: true }))
}
