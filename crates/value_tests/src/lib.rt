//! Tests of values and of what keeps them: lists, frames, pages and segments. Nothing here is called.
#![tactic(auto)]

#[cfg(test)]
mod asserts;
#[cfg(test)]
mod list_tests;
#[cfg(test)]
mod record_page_tests;
#[cfg(test)]
mod rows;
#[cfg(test)]
mod schema_tests;
#[cfg(test)]
mod segment_tests;
#[cfg(test)]
mod value_tests;
#[cfg(test)]
mod work_region_tests;
