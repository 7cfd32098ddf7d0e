//! Tests of the top call on devices in memory that fail or stop, and of a gate that it calls. Nothing
//! here is called.
#![tactic(auto)]

#[cfg(test)]
mod asserts;
#[cfg(test)]
mod calls;
#[cfg(test)]
mod device_tests;
#[cfg(test)]
mod file_tests;
#[cfg(test)]
mod sessions_tests;
