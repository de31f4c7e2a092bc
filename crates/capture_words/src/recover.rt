//! Whether reading goes on after a fault.

ghost use Rattle.std.specs.Prelude.{◌≡◌};
ghost use Rattle.capture_words.specs.Values.{recover_named, guesses_of};

/// What is done at a fault of a capture.
#[derive(Clone, Copy, Drop)]
pub enum Recover {
    /// The reading ends there.
    Off,
    /// What it was in hunts again: the port with its sources, or one source.
    On,
    /// The same, and what a source that hunts may have said is told besides, as a guess.
    Near,
}

impl Recover {
    /// What this name says: `off`, `on` or `near`.
    pub(crate) fn named(name: &str) -> Option<Recover>
        ensures { result ≡ recover_named name.now }
    {
        match name {
            "off" => Some(Recover::Off),
            "on" => Some(Recover::On),
            "near" => Some(Recover::Near),
            _ => None,
        }
    }

    /// Whether guesses are told, where reading goes on.
    pub fn guesses(self) -> Option<bool>
        ensures { result ≡ guesses_of self }
    {
        match self {
            Recover::Off => None,
            Recover::On => Some(false),
            Recover::Near => Some(true),
        }
    }
}
