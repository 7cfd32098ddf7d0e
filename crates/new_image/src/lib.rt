//! The image of a new dataset, as bytes.
//!
//! The layer above relies on one statement: relations are spelled as the image of their new dataset
//! (`image_of` in `specs/Image.antt`). `generations` proves that it is read as the layout of that
//! dataset. What a text declares is a schema (`IsSchema` in `specs/Schemas.antt`).
#![tactic(auto)]

mod image;

pub use image::image_bytes;
