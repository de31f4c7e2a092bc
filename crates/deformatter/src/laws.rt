//! Laws of the reading of a port's bytes item by item, over its definitions alone.

ghost use Rattle.std.specs.Prelude.{◌≡◌, ◌++◌, ◌∷◌, [], ℕ, List, Bool, true, false, is_none};
ghost use Rattle.deformatter.specs.Names.{Placed, byte_at};
ghost use Rattle.deformatter.specs.Reading.{port_stream, IsHunt};
ghost use Rattle.deformatter.specs.Growth.{PortSettled, PortRises};

/// In a hunt the bytes before the least place of `FF FF FF 7F` are skipped, and the reading begins there;
/// without such a place all bytes are skipped.
pub fn hunt_law()
    ensures { (u : List Placed) → IsHunt u (port_stream true u) }
{}

/// A fault is the end of a reading.
pub fn settled_law()
    ensures { (hunts : Bool) (u w : List Placed) → is_none (port_stream hunts u).fault ≡ false →
        PortSettled (port_stream hunts u) (port_stream hunts (u ++ w)) }
{}

/// With one more byte there is more, what is more is at that byte, and nothing is taken back.
pub fn rising_law()
    ensures { (hunts : Bool) (u : List Placed) (at byte : ℕ) →
        PortRises (port_stream hunts u) (port_stream hunts (u ++ byte_at at byte ∷ [])) at }
{}
