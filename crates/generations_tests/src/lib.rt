//! Tests of devices, of a journal, and of a dataset in two files. Nothing here is called.
#![tactic(auto)]

#[cfg(test)]
mod asserts;
#[cfg(test)]
mod crash_tests;
#[cfg(test)]
mod db_memdev_tests;
#[cfg(test)]
mod db_outside_tests;
#[cfg(test)]
mod db_realdev_tests;
#[cfg(test)]
mod files;
#[cfg(test)]
mod format_tests;
