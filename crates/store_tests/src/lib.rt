//! Tests of what a dataset in memory is made of: the structures that stand alone, entries, stores and
//! their images, and how much questions read. Nothing here is called.
#![tactic(auto)]

#[cfg(test)]
mod asserts;
#[cfg(test)]
mod branch_segments_tests;
#[cfg(test)]
mod commit_history_tests;
#[cfg(test)]
mod entry_codec_tests;
#[cfg(test)]
mod image_tests;
#[cfg(test)]
mod key_index_tests;
#[cfg(test)]
mod lock_table_tests;
#[cfg(test)]
mod made;
#[cfg(test)]
mod plain_bits_tests;
#[cfg(test)]
mod plain_store_tests;
#[cfg(test)]
mod read_tests;
#[cfg(test)]
mod version_graph_tests;
#[cfg(test)]
mod watched;
