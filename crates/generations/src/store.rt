//! The store that the entries of a dataset are taken into. No other file names its type.

use hybrid_store::HybridStore;

/// The store that opening two files gives.
pub type DatasetStore = HybridStore;
