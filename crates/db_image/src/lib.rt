//! The layout of a store, from an image of it, and the image of a store's layout.
//!
//! The layer above relies on two statements: what is read as an image stands for sound parts of a
//! layout (`parts_of` in `specs/Parts.antt`), and what is written is the one spelling of the image of a
//! store's layout (`image_of` in `specs/Images.antt`).
//!
//! | file | has |
//! |---|---|
//! | `specs/Parts.antt` | the parts of a layout that an image stands for |
//! | `specs/Read.antt` | the images of which the parts can be made |
//! | `src/versions.rt` | branches and versions, from those of an image |
//! | `src/deltas.rt`, `src/rows.rt`, `src/segments.rt` | deltas, rows and segments, from those of an image |
//! | `src/whole.rt` | the parts of a layout, from an image |
//! | `specs/Stores.antt`, `src/decoding.rt` | the store of which bytes are an image |
//! | `src/laws.rt` | these parts are sound, and can be made |
//! | `specs/Images.antt` | the image of a layout |
//! | `specs/Rules.antt` | the rules of an image, part by part |
//! | `specs/Imaged.antt` | the layouts of which an image tells all, and those of which it keeps the rules |
//! | `src/image_versions.rt` | relations, branches and versions of an image, from those of a store |
//! | `src/image_deltas.rt`, `src/image_segments.rt` | deltas, rows and segments, from those of a store |
//! | `src/image_records.rt` | the ranges that the numbers of a record have |
//! | `src/encoding.rt` | the bytes of the image of a store |
#![tactic(auto)]

mod decoding;
mod deltas;
mod encoding;
mod image_deltas;
mod image_records;
mod image_segments;
mod image_versions;
mod laws;
mod rows;
mod segments;
mod versions;
mod whole;

pub use decoding::decode;
pub use deltas::delta_of;
pub use encoding::{ImageBytes, encode, image_of_store};
pub use image_deltas::{delta_image, deltas_image};
pub use laws::{
    delta_law, fit_law, imaged_law, layout_law, lines_law, order_law, parts_law, read_law,
    rules_law, segments_law, whole_law, within_law,
};
pub use rows::{history_of, row_of, rows_of};
pub use segments::{put_segments, segment_of};
pub use versions::{branches_of, versions_of};
pub use whole::parts_of_image;
