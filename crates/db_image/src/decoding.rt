//! How bytes are read as an image of a store.
ghost use Rattle.std.specs.Prelude.{◌≡◌, ℕ, List, Ok, IfOk, IfErr};
ghost use Rattle.db_store.specs.State.{laid};
ghost use Rattle.hybrid_store.specs.Store.{state_of};
ghost use Rattle.hybrid_store.specs.Parts.{layout_of_parts};
ghost use Rattle.image_text.specs.declared.image.Format.{Format};
ghost use Rattle.image_text.specs.Laws.{IsBytes};
ghost use Rattle.image_parts.specs.Whole.{image_at};
ghost use Rattle.db_image.specs.Parts.{parts_of};
ghost use Rattle.db_image.specs.Stores.{IsImageOf, IsNoImage};

use crate::whole::parts_of_image;
use hybrid_store::HybridStore;
use image_parts::ImageStop;
use image_text::{Format, Image};
use std::alloc::{AllocError, Global};

// The store of the layout that an image stands for.
fn store_of(alloc: Global, image: Image) -> Result<HybridStore, AllocError>
    requires { (format : Format) × (bytes : List ℕ) × IsBytes bytes
        × (image_at format bytes ≡ Ok image) }
    ensures { IfOk result (λ s. state_of s ≡ laid (layout_of_parts (parts_of image))) }
{
    let parts = parts_of_image(alloc, image)?;
    HybridStore::assemble(alloc, parts)
}

/// The store of which the bytes are an image in a format, or the place of the first item that breaks a
/// rule. The length of the bytes is told if they end too early, or if a rule over the whole is broken.
pub fn decode(alloc: Global, bytes: &[u8], format: Format) -> Result<HybridStore, ImageStop>
    ensures store { IfOk result (λ s. IsImageOf format bytes.now (state_of s)) }
    ensures stop { IfErr result (IsNoImage format bytes.now) }
{
    let image = image_parts::decode(alloc, bytes, format)?;
    match store_of(alloc, image) {
        Err(AllocError) => Err(ImageStop::Memory),
        Ok(store) => Ok(store),
    }
}
