//! How bytes are read as an image.
ghost use Rattle.std.specs.Prelude.{◌≡◌, IfOk};
ghost use Rattle.image_text.specs.Laws.{IsSpelled};
ghost use Rattle.image_parts.specs.Whole.{Decodes, stop_of};

use crate::whole::is_whole;
use image_text::{Format, Image, Stop, parts};
use std::alloc::Global;

/// Why there is no image.
#[derive(Clone, Copy)]
pub enum ImageStop {
    /// 1: the bytes aren't an image. The first item that breaks a rule begins here.
    NotAnImage { at: u64 },
    /// 2: want of memory.
    Memory,
}

fn stop_of(len: usize, stop: Stop) -> ImageStop
    ensures { result ≡ stop_of len stop }
{
    match stop {
        Stop::Memory => ImageStop::Memory,
        Stop::Fault(left) => ImageStop::NotAnImage {
            at: len.saturating_sub(left) as u64,
        },
    }
}

/// The image in a format that the bytes are, or the place of the first item that breaks a rule. The length of the
/// bytes is told if they end too early, or if a rule over the whole is broken.
#[tactic(auto, unfolding(crate::specs::Whole::image_at))]
pub fn decode(alloc: Global, bytes: &[u8], format: Format) -> Result<Image, ImageStop>
    ensures exact { Decodes format bytes.now result }
    ensures spelled { IfOk result (λ image. IsSpelled format bytes.now image) }
{
    let (image, lasts) = match parts(alloc, bytes, format) {
        Err(stop) => return Err(stop_of(bytes.len(), stop)),
        Ok(found) => found,
    };
    match is_whole(alloc, &image, &lasts) {
        Err(_) => Err(ImageStop::Memory),
        Ok(true) => Ok(image),
        Ok(false) => Err(ImageStop::NotAnImage {
            at: bytes.len() as u64,
        }),
    }
}
