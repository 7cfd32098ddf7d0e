//! Tests of what threads share. Nothing here is called.
#![tactic(auto)]

#[cfg(test)]
mod asserts;
#[cfg(test)]
mod boards;
#[cfg(test)]
mod db_hub_tests;
#[cfg(test)]
mod history_note_tests;
#[cfg(test)]
mod wait_die_tests;
