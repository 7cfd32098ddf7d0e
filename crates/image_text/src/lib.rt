//! The text of an image of a dataset: its grammar, its one spelling, and how its parts are read.
//!
//! The layer above relies on one statement: `parts` gives what the grammar of a format makes of the bytes, or
//! how many bytes are left at the first fault (`parts_at` in `specs/Reading.antt`). What is read
//! stands in its one spelling (`spelling` in `specs/Spelling.antt`).
//!
//! | file | has |
//! |---|---|
//! | `specs/Reading.antt` | the grammar: what bytes are read as, or where the first fault is |
//! | `specs/Spelling.antt` | the one spelling of each image |
//! | `src/image.rt` | the parts of an image, and its two formats |
//! | `src/numbers.rt` | a reader, and how it reads numbers |
//! | `src/names.rt`, `src/versions.rt` | how relations, branches and versions are read |
//! | `src/records.rt` | the records of a segment, on its pages |
//! | `src/pages.rt`, `src/rows.rt` | how records and rows of bits are read |
//! | `src/reading.rt` | how segments, and all parts, are read |
//! | `src/laws.rt` | what is read is spelled so |
#![tactic(auto)]

mod image;
mod laws;
mod names;
mod numbers;
mod pages;
mod reading;
mod records;
mod rows;
mod versions;

pub use image::{BranchPart, Delta, Format, Image, MadeVersion, RowPart, SegmentPart, Stop};
pub use pages::{on_page, pages_for};
pub use reading::parts;
pub use records::PagedRecords;
pub use versions::{is_there, last_of, zeros};
