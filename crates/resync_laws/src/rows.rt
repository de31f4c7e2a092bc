//! Worked rows of captures and their rests, which the checker computes.

ghost use Rattle.std.specs.Prelude.{◌≡◌, [], ◌∷◌, None, Some, false};
ghost use Rattle.itm_grammar.specs.declared.packet.Size.TheVariants.{One, Four};
ghost use Rattle.resync_laws.specs.Names.{Sync, Software, None as NoStamp, Async, Version, Datum, BadSync};
ghost use Rattle.stp_grammar.specs.declared.packet.Width.TheVariants.{Eight};
ghost use Rattle.source_events.specs.declared.event.What.TheVariants.{Locked, Packet};
ghost use Rattle.source_events.specs.declared.packet.Packet.TheVariants.{Itm, Stp};
ghost use Rattle.resync_grammars.specs.PortRows.{packets_in_frames};
ghost use Rattle.resync_laws.specs.Rows.{itm_plan, stp_plan, whole, left, from, from_port, stop_of, two_versions};

/// Two frames with packets of one source, each after a full synchronisation. Without the first byte the port locks at
/// the second full synchronisation, and the source at its last synchronisation packet.
pub fn packets_of_a_port()
    ensures whole { whole itm_plan 1 packets_in_frames ≡
        (10, 0, Some 1, Packet (Itm Sync)) ∷ (15, 0, Some 1, Packet (Itm (Software 0 Four 0)))
        ∷ (27, 0, Some 1, Packet (Itm Sync)) ∷ (29, 0, Some 1, Packet (Itm (Software 0 One 65)))
        ∷ (35, 0, Some 1, Packet (Itm Sync)) ∷ [] }
    ensures rest { left itm_plan 1 packets_in_frames ≡
        (23, 0, None, Locked 19) ∷ (35, 0, Some 1, Locked 5) ∷ (35, 0, Some 1, Packet (Itm Sync)) ∷ [] }
    ensures from { from itm_plan 1 packets_in_frames ≡ (35, 0, Some 1, Packet (Itm Sync)) ∷ [] }
{}

/// The same without the first 21 bytes, so that no full synchronisation is whole: nothing is read, and no source has a
/// point.
pub fn nothing_of_a_port()
    ensures rest { left itm_plan 21 packets_in_frames ≡ [] }
    ensures from { from itm_plan 21 packets_in_frames ≡ [] }
    ensures port { from_port itm_plan 21 packets_in_frames ≡ [] }
{}

/// What the laws do not say, since it is not so. Of the first row's rest, read from its first byte on and not hunted,
/// the reading has a fault. And from the port's own point on the whole has packets that the rest has not, which are
/// before the source's point. (That an STP item before the first VERSION may have another place is in the row of an STP
/// source.)
pub fn neighbours()
    ensures not_hunted { stop_of itm_plan 1 packets_in_frames ≡ Some (2, BadSync) }
    ensures from_the_port { from_port itm_plan 1 packets_in_frames ≡
        (27, 0, Some 1, Packet (Itm Sync)) ∷ (29, 0, Some 1, Packet (Itm (Software 0 One 65)))
        ∷ (35, 0, Some 1, Packet (Itm Sync)) ∷ [] }
{}

/// An STP source without a formatter, without the first four bytes: the items from the VERSION after its lock on are
/// the whole's. The item between the two is not: its master is not known.
#[tactic(auto, unfolding(stp_grammar::specs::Attribution::version_of, stp_grammar::specs::Attribution::master_of, stp_grammar::specs::Attribution::channel_of, stp_grammar::specs::Attribution::last_word_of,))]
pub fn items_of_a_source()
    ensures whole { whole stp_plan 4 two_versions ≡
        (1, 1, Some 1, Packet (Stp (Version 3)))
        ∷ (4, 1, Some 1, Packet (Stp (Datum (record { master = Some 5; channel = Some 0 }) Eight 65 false NoStamp)))
        ∷ (15, 1, Some 1, Packet (Stp Async))
        ∷ (17, 0, Some 1, Packet (Stp (Datum (record { master = Some 5; channel = Some 0 }) Eight 66 false NoStamp)))
        ∷ (19, 0, Some 1, Packet (Stp (Version 3)))
        ∷ (20, 1, Some 1, Packet (Stp (Datum (record { master = Some 0; channel = Some 0 }) Eight 67 false NoStamp)))
        ∷ [] }
    ensures rest { left stp_plan 4 two_versions ≡
        (15, 1, Some 1, Locked 2) ∷ (15, 1, Some 1, Packet (Stp Async))
        ∷ (17, 0, Some 1, Packet (Stp (Datum (record { master = None; channel = None }) Eight 66 false NoStamp)))
        ∷ (19, 0, Some 1, Packet (Stp (Version 3)))
        ∷ (20, 1, Some 1, Packet (Stp (Datum (record { master = Some 0; channel = Some 0 }) Eight 67 false NoStamp)))
        ∷ [] }
    ensures from { from stp_plan 4 two_versions ≡
        (19, 0, Some 1, Packet (Stp (Version 3)))
        ∷ (20, 1, Some 1, Packet (Stp (Datum (record { master = Some 0; channel = Some 0 }) Eight 67 false NoStamp)))
        ∷ [] }
{}
