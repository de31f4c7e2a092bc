//! Laws of the reading of a source's bytes, over its definitions alone.

ghost use Rattle.std.specs.Prelude.{List, true};
ghost use Rattle.stp_codec.specs.Names.{Placed, Order};
ghost use Rattle.stp_codec.specs.Reading.{packets_in, IsHunt};

/// In a hunt the nibbles before the least place of 21 nibbles F and a nibble 0 are skipped, and the reading begins
/// there; without such a place all nibbles are skipped.
pub fn hunt_law()
    ensures { (order : Order) (n : List Placed) → IsHunt order n (packets_in order true n) }
{}
