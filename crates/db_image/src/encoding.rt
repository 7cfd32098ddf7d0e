//! How the image of a store is written.
ghost use Rattle.std.specs.Prelude.{◌≡◌, IfOk};
ghost use Rattle.std.specs.List.{All};
ghost use Rattle.hybrid_store.specs.Store.{layout_of, state_of};
ghost use Rattle.image_text.specs.declared.image.Format.TheVariants.{Two};
ghost use Rattle.image_text.specs.Spelling.{Fits, spelling};
ghost use Rattle.db_image.specs.Images.{image_of};
ghost use Rattle.db_image.specs.Imaged.{AllAreRanged, IsImaged};
ghost use Rattle.db_image.specs.Stores.{IsImageOf};

use crate::image_segments::all_segments;
use crate::image_versions::{branches_image, relations_image, versions_image};
use db_store::Store;
use db_value::ListOf;
use hybrid_store::HybridStore;
use image_text::Image;
use std::alloc::{AllocError, Global};

/// The bytes of an image.
pub type ImageBytes = ListOf<u8>;

/// The image of a store's layout.
pub fn image_of_store(alloc: Global, store: &HybridStore) -> Result<Image, AllocError>
    ensures value { IfOk result (λ image. image ≡ image_of (layout_of store.now)) }
    ensures fits { IfOk result Fits }
    ensures ranged { IfOk result (λ image. All AllAreRanged image.segments) }
{
    let relations = relations_image(alloc, store.schema().relations())?;
    let branches = branches_image(alloc, store)?;
    let versions = versions_image(alloc, store)?;
    let segments = all_segments(alloc, store)?;
    Ok(Image {
        relations,
        branches,
        versions,
        segments,
    })
}

/// The one spelling of the image of a store's layout, in format two. It is read as an image of the store
/// if each column of the schema is one of numbers.
pub fn encode(alloc: Global, store: &HybridStore) -> Result<ImageBytes, AllocError>
    ensures spelled { IfOk result
        (λ bytes. bytes ≡ spelling Two (image_of (layout_of store.now))) }
    ensures image { IsImaged (layout_of store.now)
        → IfOk result (λ bytes. IsImageOf Two bytes (state_of store.now)) }
{
    let image = image_of_store(alloc, store)?;
    let bytes = image_parts::encode(alloc, &image)?;
    Ok(ListOf::of(bytes))
}
