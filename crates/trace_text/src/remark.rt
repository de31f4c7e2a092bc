//! What a line says beside its packet.

/// What is beside a packet in its line: the time that it makes known.
#[derive(Clone, Copy, Drop)]
pub enum Remark {
    /// Nothing.
    None,
    /// Beside a local timestamp: the sum of the source's local timestamps, in their ticks.
    Clock(u64),
    /// Beside a global timestamp: the global time after it, where it is known.
    Time(Option<u64>),
}
