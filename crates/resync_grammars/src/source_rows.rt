//! Worked rows of sources and their rests, which the checker computes.

ghost use Rattle.std.specs.Prelude.{◌≡◌, ◌++◌, [], ◌∷◌, List, None, Some, Bool, codes, drop, true, false, replicate};
ghost use Rattle.std.specs.List.{list_any};
ghost use Rattle.resync_grammars.specs.Names.{Place, Placed, units_of, InUnits, Said, Notice, Kept, Four, Sync};
ghost use Rattle.resync_grammars.specs.Names.{Overflow, Software, packets_in, Eight, SixtyFour, Msn, Async};
ghost use Rattle.resync_grammars.specs.Names.{None as NoStamp, Datum as DatumItem, StpItem, items_in, EndsOnly, IsRest};
ghost use Rattle.itm_grammar.specs.Spelling as itm_spelling;
ghost use Rattle.stp_grammar.specs.declared.item.StpItem.TheVariants.{Async as AsyncItem, Version as VersionItem};
ghost use Rattle.stp_grammar.specs.Spelling as stp_spelling;
ghost use Rattle.resync_grammars.specs.Stp.{OnlyInAsync};
ghost use Rattle.resync_grammars.specs.Itm.{hunting};
ghost use Rattle.resync_grammars.specs.SourceRows.{itm_whole, itm_left, stp_whole, stp_left, given_of, end_of};
ghost use Rattle.resync_grammars.specs.SourceRows.{has_no_master};
ghost use Rattle.resync_grammars.specs.SourceRows.{ones, two_versions};

/// A packet with a payload of four bytes, a synchronisation packet and an overflow packet, whole and without the first
/// three bytes: two bytes 00 of the payload are skipped.
pub fn cut_in_a_payload()
    ensures whole { given_of (itm_whole (codes "03 41 00 00 00 00 00 00 00 00 80 70")) ≡
        (Kept (Software 0 Four 65), 4, 0) ∷ (Kept Sync, 10, 0) ∷ (Kept Overflow, 11, 0) ∷ [] }
    ensures rest { given_of (itm_left 3 (codes "03 41 00 00 00 00 00 00 00 00 80 70")) ≡
        (Notice 2, 10, 0) ∷ (Kept Sync, 10, 0) ∷ (Kept Overflow, 11, 0) ∷ [] }
    ensures end { end_of (itm_left 3 (codes "03 41 00 00 00 00 00 00 00 00 80 70")) ≡ (true, 2, 0, None) }
{}

/// A payload of bytes 00 before a synchronisation packet: without the first byte the rest is nine bytes 00 and 80, of
/// which the last six are the pattern. With five bytes 00 left the pattern is all of the rest, and with four there is
/// no pattern in it.
pub fn cut_in_zeros()
    ensures whole { given_of (itm_whole (codes "03 00 00 00 00 00 00 00 00 00 80")) ≡
        (Kept (Software 0 Four 0), 4, 0) ∷ (Kept Sync, 10, 0) ∷ [] }
    ensures nine { given_of (itm_left 1 (codes "03 00 00 00 00 00 00 00 00 00 80")) ≡
        (Notice 4, 10, 0) ∷ (Kept Sync, 10, 0) ∷ [] }
    ensures five { given_of (itm_left 5 (codes "03 00 00 00 00 00 00 00 00 00 80")) ≡
        (Notice 0, 10, 0) ∷ (Kept Sync, 10, 0) ∷ [] }
    ensures four { given_of (itm_left 6 (codes "03 00 00 00 00 00 00 00 00 00 80")) ≡ [] }
    ensures end { (end_of (itm_left 1 (codes "03 00 00 00 00 00 00 00 00 00 80")) ≡ (true, 4, 0, None))
        × (end_of (itm_left 6 (codes "03 00 00 00 00 00 00 00 00 00 80")) ≡ (false, 5, 0, None)) }
{}

/// With fewer bytes 00 the pattern would not tell: three of them and 80 end a payload too.
pub fn shorter_itm_pattern()
    ensures row { given_of (itm_whole (codes "03 00 00 00 80")) ≡ (Kept (Software 0 Four 2147483648), 4, 0) ∷ [] }
    ensures law { EndsOnly (InUnits itm_spelling.Spells) (λ r. itm_spelling.why (units_of r))
        (0 ∷ (0 ∷ (0 ∷ (0x80 ∷ [])))) Sync → ⊥ }
{}

/// The pattern's own six bytes are not skipped.
pub fn pattern_is_not_skipped()
    ensures row { end_of (itm_left 0 (codes "00 00 00 00 00 80")) ≡ (true, 0, 0, None) }
    ensures law { ((lost rest : List Placed) → (packets_in false (lost ++ rest)).fault ≡ None →
        IsRest (record (hunting false) { size = 0 }) lost rest) → ⊥ }
{}

/// A D64 of nibbles F, an ASYNC and a VERSION. Without the first byte, the opcode of the D64 and the first nibble of
/// its payload, the rest begins with 36 nibbles F, of which the last 21 are the pattern's.
#[tactic(auto, unfolding(stp_grammar::specs::Attribution::version_of, stp_grammar::specs::Attribution::master_of, stp_grammar::specs::Attribution::channel_of, stp_grammar::specs::Attribution::last_word_of,))]
pub fn cut_in_ones()
    ensures whole { given_of (stp_whole Msn ones) ≡
        (Kept (DatumItem (record { master = None; channel = None }) SixtyFour 18446744073709551615 false NoStamp), 8, 0)
        ∷ (Kept AsyncItem, 19, 0) ∷ (Kept (VersionItem 4), 21, 0) ∷ [] }
    ensures rest { given_of (stp_left Msn 1 ones) ≡
        (Notice 15, 19, 0) ∷ (Kept AsyncItem, 19, 0) ∷ (Kept (VersionItem 4), 21, 0) ∷ [] }
    ensures end { end_of (stp_left Msn 1 ones) ≡ (true, 15, 0, None) }
{}

/// VERSION 3, M8 5, a D8, an ASYNC, a D8, VERSION 3, a D8. With the first four bytes lost, in the middle of the first
/// D8, the hunt locks at the ASYNC. The master and the channel of the D8 after it are not known; from the second
/// VERSION on all is as in the whole.
#[tactic(auto, unfolding(stp_grammar::specs::Attribution::version_of, stp_grammar::specs::Attribution::master_of, stp_grammar::specs::Attribution::channel_of, stp_grammar::specs::Attribution::last_word_of,))]
pub fn cut_before_a_version()
    ensures whole { given_of (stp_whole Msn two_versions) ≡
        (Kept (VersionItem 3), 1, 1)
        ∷ (Kept (DatumItem (record { master = Some 5; channel = Some 0 }) Eight 65 false NoStamp), 4, 1)
        ∷ (Kept AsyncItem, 15, 1)
        ∷ (Kept (DatumItem (record { master = Some 5; channel = Some 0 }) Eight 66 false NoStamp), 17, 0)
        ∷ (Kept (VersionItem 3), 19, 0)
        ∷ (Kept (DatumItem (record { master = Some 0; channel = Some 0 }) Eight 67 false NoStamp), 20, 1) ∷ [] }
    ensures rest { given_of (stp_left Msn 4 two_versions) ≡
        (Notice 2, 15, 1) ∷ (Kept AsyncItem, 15, 1)
        ∷ (Kept (DatumItem (record { master = None; channel = None }) Eight 66 false NoStamp), 17, 0)
        ∷ (Kept (VersionItem 3), 19, 0)
        ∷ (Kept (DatumItem (record { master = Some 0; channel = Some 0 }) Eight 67 false NoStamp), 20, 1) ∷ [] }
{}

/// With fewer nibbles F the pattern would not tell: 17 of them and a 0 are in a D64 of nibbles F and a VERSION after
/// it.
#[tactic(auto, unfolding(stp_grammar::specs::Attribution::version_of, stp_grammar::specs::Attribution::master_of, stp_grammar::specs::Attribution::channel_of, stp_grammar::specs::Attribution::last_word_of,))]
pub fn shorter_stp_pattern()
    ensures row { given_of (stp_whole Msn (codes "F7 FF FF FF FF FF FF FF FF 00 04")) ≡
        (Kept (DatumItem (record { master = None; channel = None }) SixtyFour 18446744073709551615 false NoStamp), 8, 0)
        ∷ (Kept (VersionItem 4), 10, 0) ∷ [] }
    ensures law { EndsOnly (InUnits (stp_spelling.Spells Msn)) (λ r. stp_spelling.why (units_of r))
        (replicate 17 15 ++ 0 ∷ []) Async → ⊥ }
    ensures few { OnlyInAsync Msn 17 → ⊥ }
{}

/// At the lock the rest does not know the master yet: its items are not those of the whole from there on.
#[tactic(auto, unfolding(stp_grammar::specs::Attribution::version_of, stp_grammar::specs::Attribution::master_of, stp_grammar::specs::Attribution::channel_of, stp_grammar::specs::Attribution::last_word_of,))]
pub fn places_are_not_known_at_once()
    ensures whole { list_any has_no_master (stp_whole Msn two_versions).given ≡ false }
    ensures rest { list_any has_no_master (stp_left Msn 4 two_versions).given ≡ true }
    ensures law { ((lost rest : List Placed) → (items_in Msn false (lost ++ rest)).fault ≡ None →
        (gone : List (Said StpItem × Place)) × ((items_in Msn false (lost ++ rest)).given
        ≡ gone ++ drop 1 (items_in Msn true rest).given)) → ⊥ }
{}
