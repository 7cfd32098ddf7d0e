//! The gate of the file that doesn't count.
ghost use Rattle.std.specs.Prelude.{◌≡◌};
ghost use Rattle.generations.specs.Asides.{is_unread, is_shut, is_owed, gate_after};

/// What is known of the gate of the file that doesn't count.
#[derive(Clone, Copy)]
pub enum OtherGate {
    /// It is what a read tells.
    Unread,
    /// It may be open, but nothing that would count stands behind it.
    Low,
    /// It is surely closed.
    Shut,
    /// It is still to be closed, since a checkpoint failed when it opened it.
    Owed,
}

impl OtherGate {
    pub fn is_unread(self) -> bool
        ensures { result ≡ is_unread self }
    {
        match self {
            OtherGate::Unread => true,
            OtherGate::Low | OtherGate::Shut | OtherGate::Owed => false,
        }
    }

    pub fn is_shut(self) -> bool
        ensures { result ≡ is_shut self }
    {
        match self {
            OtherGate::Shut => true,
            OtherGate::Unread | OtherGate::Low | OtherGate::Owed => false,
        }
    }

    pub fn is_owed(self) -> bool
        ensures { result ≡ is_owed self }
    {
        match self {
            OtherGate::Owed => true,
            OtherGate::Unread | OtherGate::Low | OtherGate::Shut => false,
        }
    }
}

/// The gate after bytes were written behind it, which weren't opened or may have been.
pub fn gate_after(shut: bool) -> OtherGate
    ensures { result ≡ gate_after shut }
{
    if shut {
        OtherGate::Shut
    } else {
        OtherGate::Owed
    }
}
