//! Where the next record goes, and whether the gate there is surely closed.
ghost use Rattle.std.specs.Prelude.{◌-◌, ◌^◌, ◌<◌};

/// The place of the gate behind the last record.
#[derive(Drop)]
pub struct Journal {
    pub at: u64,
    pub clean: bool,
    ghost room: { at < 2 ^ 64 - 1 },
}
