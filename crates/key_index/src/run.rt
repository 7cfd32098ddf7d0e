//! How many changes are made together.
ghost use Rattle.std.specs.Prelude.{◌≡◌, ◌<◌, ◌≤◌, length, take};
ghost use Rattle.key_index.specs.Runs.{Each, IsUnder, IsWithin, first_of, is_under};

use crate::changes::SpotChange;

// Whether a key stands below an end, if there is one.
fn is_under(key: u64, end: Option<u64>) -> bool
    ensures { result ≡ is_under key end }
{
    match end {
        Some(end) => key < end,
        None => true,
    }
}

/// How many changes from the first one on have keys that rise and stand below an end.
pub(crate) fn run_of(changes: &[SpotChange], end: Option<u64>) -> usize
    requires some { 0 < length changes.now }
    requires under { IsUnder (first_of changes.now) end }
    ensures some { 0 < result }
    ensures within { result ≤ length changes.now }
    ensures keys { Each (IsWithin (first_of changes.now) end) (take result changes.now) }
{
    let mut last = changes[0].key;
    let mut n = 1;
    while n < changes.len() {
        let key = changes[n].key;
        if key <= last {
            return n;
        }
        if !is_under(key, end) {
            return n;
        }
        last = key;
        n += 1;
    }
    n
}
