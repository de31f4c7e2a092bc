//! Laws of port captures whose front is lost, over the definitions alone.

ghost use Rattle.std.specs.Prelude.{◌≡◌, ◌<◌, List, ◌++◌, None};
ghost use Rattle.std.specs.List.{AllByRecursion};
ghost use Rattle.resync_grammars.specs.Names.{Cell, Placed, pattern_of, FramesMode, Full, Spells, why, pattern};
ghost use Rattle.resync_grammars.specs.Names.{port_reading, cells_of, BeginsOnly, IsRestInWords};
ghost use Rattle.resync_grammars.specs.Port.{BeginsNamed, HasId, IsPortRest, rest_mode, CellsRest};

/// In a list of frames and synchronisations followed by a tail, `FF FF FF 7F` is at the first byte of each full
/// synchronisation, and nowhere else.
pub fn port_pattern_law()
    ensures { BeginsOnly Spells why (pattern_of pattern) Full }
{}

/// Where a whole capture has no fault, any of its rests is read by a hunt as the whole is, from the first full
/// synchronisation on that is in the rest: with the same cells, but that those before the first ID of the rest have
/// none. After the first cell that has an ID, all have one.
pub fn port_rest_law()
    ensures words { IsRestInWords Spells why (pattern_of pattern) Full }
    ensures rest { (mode : FramesMode) (lost rest : List Placed) → (port_reading mode (lost ++ rest)).fault ≡ None →
        IsPortRest mode lost rest }
    ensures cells { (mode : FramesMode) (lost rest : List Placed) → (port_reading mode (lost ++ rest)).fault ≡ None →
        CellsRest (cells_of (port_reading mode (lost ++ rest))) (cells_of (port_reading (rest_mode mode) rest)) }
    ensures named { (mode : FramesMode) (u : List Placed) → AllByRecursion (λ b. b.unit < 256) u →
        (before later : List Cell) → cells_of (port_reading mode u) ≡ before ++ later → BeginsNamed later →
        AllByRecursion HasId later }
{}
