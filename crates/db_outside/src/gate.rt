//! What a thread calls before each line of its section.

/// A gate is called before each line of a section that runs on a thread. It can hold the thread back,
/// as a test does, and can change nothing else: no contract asks or promises anything of it.
pub trait Gate {
    /// Before the line with this number, of the section of this session.
    fn before(&self, session: u32, line: u64);
}

/// The gate that is always open: it returns at once.
pub struct OpenGate;

impl Gate for OpenGate {
    fn before(&self, _session: u32, _line: u64) {}
}
