//! What the tests assert of a row of a table, or of another thing that has a name. A message that
//! is written at each assertion costs more proof than the rest of its test, so the messages stand
//! here.
use std::process::Abort;

/// What the name says is so.
pub fn holds(rt: &impl Abort, name: &str, is_so: bool) {
    assert!(rt; is_so, "{name}");
}

/// The same at a number: of a call, say.
pub fn holds_at(rt: &impl Abort, name: &str, number: u64, is_so: bool) {
    assert!(rt; is_so, "{name}, {number}");
}

/// The same at a call of each of two disks.
pub fn holds_at_calls(rt: &impl Abort, name: &str, first: u64, second: u64, is_so: bool) {
    assert!(rt; is_so, "{name}, {first} and {second}");
}
