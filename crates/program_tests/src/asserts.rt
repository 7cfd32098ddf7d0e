//! What the tests assert of a call. A message that is written at each assertion costs more proof than
//! the rest of its test, so the messages stand here.
use decibel_main::Status;
use std::process::Abort;

/// What the name says is so.
pub fn holds(rt: &impl Abort, name: &str, is_so: bool) {
    assert!(rt; is_so, "{name}");
}

/// The same, if this call of a file fails.
pub fn holds_at(rt: &impl Abort, name: &str, call: u64, is_so: bool) {
    assert!(rt; is_so, "{name}, call {call}");
}

/// A call of the program ended so.
pub fn is_status(rt: &impl Abort, name: &str, ended: Status, status: Status) {
    assert!(rt; ended == status, "{name}: {ended}");
}
