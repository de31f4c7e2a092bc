//! How a call ended.

ghost use Rattle.std.specs.Prelude.{◌≡◌};

/// How a call ended: the number of its status, and how many bytes it wrote to the output and to the notes.
#[repr(C)]
#[derive(Drop)]
pub struct Ended {
    /// The number of the run's status, or 11 if there was no run.
    pub status: u64,
    /// How many bytes of the output's room are written, from its front.
    pub output: usize,
    /// How many bytes of the notes' room are written, from its front.
    pub notes: usize,
}

impl Ended {
    /// The end of a call that was no run.
    pub(crate) fn unwritten() -> Ended
        ensures status { result.status ≡ 11 }
        ensures output { result.output ≡ 0 }
        ensures notes { result.notes ≡ 0 }
    {
        Ended {
            status: 11,
            output: 0,
            notes: 0,
        }
    }
}
