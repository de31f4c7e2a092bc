//! Worked rows of captures and their rests, which the checker computes.

ghost use Rattle.std.specs.Prelude.{◌≡◌, ◌++◌, List, [], ◌∷◌, None, Some, true, false, is_none};
ghost use Rattle.std.specs.List.{list_any};
ghost use Rattle.resync_grammars.specs.Names.{Cell, Placed, Hunt, Aligned, port_reading, cells_of, Full, Spells, why};
ghost use Rattle.resync_grammars.specs.Names.{BeginsOnly};
ghost use Rattle.resync_grammars.specs.PortRows.{whole, left, frames_of, syncs_of, end_of};
ghost use Rattle.resync_grammars.specs.PortRows.{two_frames, three_synchronisations, packets_in_frames};

/// Two frames, each after a full synchronisation. The first names ID 1 at once, and the second ID 2 at its index 4.
///
/// With the first ten bytes lost, in the middle of the first frame, the hunt skips the rest of it, and locks at the
/// second full synchronisation. The bytes before the second frame's ID are then of no known source.
pub fn cut_in_a_frame()
    ensures whole { frames_of (whole two_frames) ≡
        ((5, Some 1, 1, 65) ∷ (6, Some 1, 1, 0) ∷ (7, Some 1, 1, 0) ∷ (8, Some 1, 1, 0) ∷ (9, Some 1, 1, 0)
        ∷ (10, Some 1, 1, 0) ∷ (11, Some 1, 1, 0) ∷ (12, Some 1, 1, 0) ∷ (13, Some 1, 1, 0) ∷ (14, Some 1, 1, 0)
        ∷ (15, Some 1, 1, 0) ∷ (16, Some 1, 1, 0) ∷ (17, Some 1, 1, 0) ∷ (18, Some 1, 1, 0) ∷ [])
        ∷ ((24, Some 1, 0, 66) ∷ (25, Some 1, 0, 67) ∷ (26, Some 1, 0, 68) ∷ (27, Some 1, 0, 69) ∷ (29, Some 2, 1, 70)
        ∷ (30, Some 2, 1, 0) ∷ (31, Some 2, 1, 0) ∷ (32, Some 2, 1, 0) ∷ (33, Some 2, 1, 0) ∷ (34, Some 2, 1, 0)
        ∷ (35, Some 2, 1, 0) ∷ (36, Some 2, 1, 0) ∷ (37, Some 2, 1, 0) ∷ (38, Some 2, 1, 0) ∷ []) ∷ [] }
    ensures rest { frames_of (left 10 two_frames) ≡
        ((24, None, 0, 66) ∷ (25, None, 0, 67) ∷ (26, None, 0, 68) ∷ (27, None, 0, 69) ∷ (29, Some 2, 1, 70)
        ∷ (30, Some 2, 1, 0) ∷ (31, Some 2, 1, 0) ∷ (32, Some 2, 1, 0) ∷ (33, Some 2, 1, 0) ∷ (34, Some 2, 1, 0)
        ∷ (35, Some 2, 1, 0) ∷ (36, Some 2, 1, 0) ∷ (37, Some 2, 1, 0) ∷ (38, Some 2, 1, 0) ∷ []) ∷ [] }
    ensures end { end_of (left 10 two_frames) ≡ (true, 10, 0, None) }
{}

/// At the lock the rest does not know the ID in force yet: its cells are not those of the whole from there on.
pub fn ids_are_not_known_at_once()
    ensures whole { list_any (λ c. is_none c.id) (cells_of (whole two_frames)) ≡ false }
    ensures rest { list_any (λ c. is_none c.id) (cells_of (left 10 two_frames)) ≡ true }
    ensures law { ((lost rest : List Placed) → (port_reading Aligned (lost ++ rest)).fault ≡ None →
        (gone : List Cell)
        × (cells_of (port_reading Aligned (lost ++ rest)) ≡ gone ++ cells_of (port_reading Hunt rest))) → ⊥ }
{}

/// A half synchronisation between two full ones, without the bytes before it, without its first byte too, and with only
/// three bytes of the second full one left, which are none.
pub fn cut_at_a_half_synchronisation()
    ensures whole { (syncs_of (whole three_synchronisations) ≡ (2, 1))
        × (end_of (whole three_synchronisations) ≡ (true, 0, 0, None)) }
    ensures before { (syncs_of (left 4 three_synchronisations) ≡ (1, 0))
        × (end_of (left 4 three_synchronisations) ≡ (true, 2, 0, None)) }
    ensures inside { (syncs_of (left 5 three_synchronisations) ≡ (1, 0))
        × (end_of (left 5 three_synchronisations) ≡ (true, 1, 0, None)) }
    ensures none { (syncs_of (left 7 three_synchronisations) ≡ (0, 0))
        × (end_of (left 7 three_synchronisations) ≡ (false, 3, 0, None)) }
{}

/// Two full synchronisations, each with a frame after it, without the first byte: the first one is not whole, and its
/// frame is skipped.
pub fn cut_in_a_full_synchronisation()
    ensures { end_of (left 1 packets_in_frames) ≡ (true, 19, 0, None) }
{}

/// With one FF less the pattern would not tell: `FF FF 7F` is in the middle of a full synchronisation too.
pub fn shorter_pattern()
    ensures { BeginsOnly Spells why (0xFF ∷ (0xFF ∷ (0x7F ∷ []))) Full → ⊥ }
{}
