//! The version of a script, which its first line tells.

ghost use Rattle.std.specs.Prelude.{◌≡◌, bytes_eq};
ghost use Rattle.script_rebuild.specs.Versions.{header, version_after};

/// What is known of a script's version.
#[derive(Clone, Copy, Drop)]
pub(crate) enum Version {
    /// Nothing: its first line isn't there yet.
    Unknown,
    /// Version 1: its first line is no header.
    First,
    /// Version 2: its first line is `trace-script 2`.
    Second,
}

/// Whether a first line is that of a script of version 2.
pub(crate) fn is_header(text: &[u8]) -> bool
    ensures { result ≡ bytes_eq header text.now }
{
    "trace-script 2".as_bytes() == text
}

impl Version {
    /// What is known with one more line.
    #[inline(always)]
    pub(crate) fn after(self, text: &[u8]) -> Version
        ensures { result ≡ version_after self text.now }
    {
        match self {
            Version::Unknown => {
                if is_header(text) {
                    Version::Second
                } else {
                    Version::First
                }
            }
            known => known,
        }
    }
}
