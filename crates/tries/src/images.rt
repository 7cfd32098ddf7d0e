//! What is answered to an image of which each byte is changed to each other value in turn.

use anyhow::Result;
use db_image::decode;
use image_parts::ImageStop;
use image_text::Format;
use std::alloc::{AllocError, Global};
use std::fs::{self, File};
use std::rt::Files;

// The place of the fault, or the greatest number of 32 bits for an image.
fn answer(alloc: Global, bytes: &[u8]) -> Result<u32, AllocError> {
    match decode(alloc, bytes, Format::Two) {
        Ok(_) => Ok(u32::MAX),
        Err(ImageStop::NotAnImage { at }) => Ok(u32::try_from(at).unwrap_or(u32::MAX)),
        Err(ImageStop::Memory) => Err(AllocError),
    }
}

// The answers for each other value of a byte, 4 bytes each.
fn push_answers(
    alloc: Global,
    image: &mut [u8],
    at: usize,
    answers: &mut Vec<u8>,
) -> Result<(), AllocError> {
    if at >= image.len() {
        return Ok(());
    }
    let old = image[at];
    for value in 0..=255u8 {
        if value != old {
            image[at] = value;
            let told = answer(alloc, image)?;
            answers.extend_from_slice(&told.to_le_bytes())?;
        }
    }
    image[at] = old;
    Ok(())
}

// The answers for each byte in turn.
fn answers_of(alloc: Global, image: &mut [u8]) -> Result<Vec<u8>, AllocError> {
    let mut answers = Vec::new(alloc);
    for at in 0..image.len() {
        push_answers(alloc, image, at, &mut answers)?;
    }
    Ok(answers)
}

/// Reads the image in one file, and writes the answers into another, 4 bytes each.
pub fn try_image<R: Files<File = File> + AllocGlobal>(rt: &R, from: &str, to: &str) -> Result<()> {
    let mut image = fs::read(rt, from)?;
    let answers = answers_of(rt.alloc(), &mut image)?;
    fs::write(rt, to, answers.as_slice())?;
    Ok(())
}
