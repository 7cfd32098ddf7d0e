//! A dataset in two files, of which one counts.
//!
//! The layer above relies on one statement: every pair of files that a crash may leave opens to the
//! state of the acknowledged entries, or to that state with the entries of one batch more. `Keeps` in
//! `specs/Fronts.antt` says what a dataset keeps for it, and `reads` in `specs/Files.antt` what two
//! files stand for. An image may be written into the file that doesn't count, which counts then:
//! a crash at any moment of that opens to the same state (`checkpoint_bytes`).
//!
//! | file | has |
//! |---|---|
//! | `specs/Files.antt` | what the bytes of two files stand for |
//! | `specs/Created.antt` | the files of a new dataset |
//! | `specs/Fronts.antt`, `specs/Ends.antt` | what a dataset keeps, by entries and byte by byte |
//! | `specs/Datasets.antt`, `specs/Reopens.antt` | what a dataset says of itself, and what opening gives |
//! | `src/dataset.rt` | a dataset, as a log |
//! | `specs/Asides.antt`, `specs/BesideKeeps.antt` | how the file stands that doesn't count, by its gate |
//! | `src/file.rt`, `src/file_append.rt` | the file that counts, and how it takes a record |
//! | `src/other_gate.rt`, `src/beside.rt`, `src/beside_publish.rt` | the file that doesn't count, and how it takes an image |
//! | `src/checkpoint.rt`, `src/bytes.rt` | how the two files change places, and the bytes of one |
//! | `src/new.rt`, `src/again.rt` | a new dataset, and one opened again |
//! | `src/look.rt`, `src/pick.rt`, `src/open.rt`, `src/header.rt` | two files looked at, and one opened |
//! | `src/replay.rt` | entries taken into a store |
//! | `src/pair.rt`, `src/store.rt` | two disks at once, and the store that opening gives |
#![tactic(auto)]

mod again;
mod beside;
mod beside_publish;
mod bytes;
mod checkpoint;
mod dataset;
mod file;
mod file_append;
mod header;
mod look;
mod new;
mod open;
mod other_gate;
mod pair;
mod pick;
mod replay;
mod store;

pub use again::reopen;
pub use beside::Beside;
pub use dataset::Dataset;
pub use file::File;
pub use look::OpenStop;
pub use new::{CreateStop, create};
pub use other_gate::OtherGate;
pub use pair::Pair;
pub use store::DatasetStore;
