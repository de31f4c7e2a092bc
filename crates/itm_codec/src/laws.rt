//! Laws of the reading of a source's bytes, over its definitions alone.

ghost use Rattle.std.specs.Prelude.{List, true};
ghost use Rattle.itm_codec.specs.Names.{Placed};
ghost use Rattle.itm_codec.specs.Reading.{packets_in, IsHunt};

/// In a hunt the bytes before the least place of `00 00 00 00 00 80` are skipped, and the reading begins
/// there; without such a place all bytes are skipped.
pub fn hunt_law()
    ensures { (u : List Placed) → IsHunt u (packets_in true u) }
{}
