//! Rows of `source_events`.

use crate::notation::Words;
use crate::out::Out;
use crate::plans::sources_of;

/// Runs the row of this call: `is_sound ITM STP`, whether a plan that maps these sources is sound.
pub fn run(call: &str, mut words: Words<'_>, out: &mut Out) {
    match call {
        "is_sound" => out.value(&sources_of(&mut words).is_sound()),
        _ => out.put("  ? no such call\n"),
    }
}
