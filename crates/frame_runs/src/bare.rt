//! A capture with no formatter, whose bytes are those of source 1.

ghost use Rattle.std.specs.Prelude.{◌≡◌};

use trace_values::SourceId;

/// The source of all bytes where there is no formatter.
pub fn bare_source() -> SourceId
    ensures { result ≡ 1 }
{
    match SourceId::new(1) {
        Some(id) => id,
        None => unreachable!(),
    }
}
