//! What the tests assert of a row of a table, or of another thing that has a name. A message that
//! is written at each assertion costs more proof than the rest of its test, so the messages stand
//! here.
ghost use Rattle.std.specs.Prelude.{◌≡◌, true};

use std::fmt::Debug;
use std::process::Abort;

/// The value is the one that was written by hand.
pub fn same<T: PartialEq + Debug + Drop>(rt: &impl Abort, name: &str, value: T, expected: T) {
    assert_eq!(rt; value, expected, "{name}");
}

/// What the name says is so.
pub fn holds(rt: &impl Abort, name: &str, is_so: bool)
    ensures { is_so ≡ true }
{
    assert!(rt; is_so, "{name}");
}
