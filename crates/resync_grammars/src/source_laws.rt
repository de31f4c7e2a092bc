//! Laws of sources whose front is lost, over the definitions alone.

ghost use Rattle.std.specs.Prelude.{◌≡◌, ℕ, List, ◌++◌, Bool, None};
ghost use Rattle.resync_grammars.specs.Names.{Placed, units_of, InUnits, nibbles_of, pattern_of, FramesMode};
ghost use Rattle.resync_grammars.specs.Names.{port_reading, Sync, Async, EndsOnly, IsRest, IsRestInWords};
ghost use Rattle.itm_grammar.specs.Spelling as itm_spelling;
ghost use Rattle.itm_codec.specs.Reading as itm_reading;
ghost use Rattle.stp_grammar.specs.Spelling as stp_spelling;
ghost use Rattle.stp_codec.specs.Reading as stp_reading;
ghost use Rattle.resync_grammars.specs.Port.{rest_mode};
ghost use Rattle.resync_grammars.specs.Capture.{source_bytes};
ghost use Rattle.resync_grammars.specs.Itm as itm;
ghost use Rattle.resync_grammars.specs.Stp as stp;

use stp_grammar::packet::Order;

/// In a list of ITM packets followed by a tail, `00 00 00 00 00 80` ends at the last byte of each synchronisation
/// packet, and nowhere else.
pub fn itm_pattern_law()
    ensures { EndsOnly (InUnits itm_spelling.Spells) (λ r. itm_spelling.why (units_of r))
        (pattern_of itm_reading.pattern) Sync }
{}

/// Where all bytes of a source read as ITM packets without a fault, from the first one on or after a hunt, a hunt in
/// any rest of them reads what the whole reads, from the first synchronisation packet on that has its last six bytes
/// in the rest.
pub fn itm_rest_law()
    ensures words { IsRestInWords (InUnits itm_spelling.Spells) (λ r. itm_spelling.why (units_of r))
        (pattern_of itm_reading.pattern) Sync }
    ensures rest { (hunts : Bool) (lost rest : List Placed) →
        (itm_reading.packets_in hunts (lost ++ rest)).fault ≡ None → IsRest (itm.hunting hunts) lost rest }
    ensures capture { (mode : FramesMode) (hunts : Bool) (id : ℕ) (lost rest : List Placed) →
        (port_reading mode (lost ++ rest)).fault ≡ None →
        (itm_reading.packets_in hunts (source_bytes mode id (lost ++ rest))).fault ≡ None →
        (early : List Placed)
        × (source_bytes mode id (lost ++ rest) ≡ early ++ source_bytes (rest_mode mode) id rest)
        × IsRest (itm.hunting hunts) early (source_bytes (rest_mode mode) id rest) }
{}

/// In a list of STP packets followed by a tail, 21 nibbles F and a nibble 0 end at the last nibble of each ASYNC, and
/// nowhere else. No more than 17 nibbles F are in succession but in an ASYNC, or in the front of one at the end.
pub fn stp_pattern_law(order: Order)
    ensures pattern { EndsOnly (InUnits (stp_spelling.Spells order)) (λ r. stp_spelling.why (units_of r))
        (pattern_of stp_reading.pattern) Async }
    ensures few { stp.OnlyInAsync order 18 }
{}

/// Where all nibbles of a source read as STP packets without a fault, from the first one on or after a hunt, a hunt in
/// any rest of them reads the packets that the whole reads, from the first ASYNC on that has its last 22 nibbles in
/// the rest. The items are those of the whole from the first VERSION after that ASYNC on, and between the two those of
/// the same packets with nothing known before them.
pub fn stp_rest_law(order: Order)
    ensures words { IsRestInWords (InUnits (stp_spelling.Spells order)) (λ r. stp_spelling.why (units_of r))
        (pattern_of stp_reading.pattern) Async }
    ensures packets { (hunts : Bool) (lost rest : List Placed) →
        (stp_reading.packets_in order hunts (lost ++ rest)).fault ≡ None → IsRest (stp.hunting order hunts) lost rest }
    ensures items { (hunts : Bool) (lost rest : List Placed) →
        (stp_reading.items_at order hunts (lost ++ rest)).fault ≡ None → stp.IsItemsRest order hunts lost rest }
    ensures capture { (mode : FramesMode) (hunts : Bool) (id : ℕ) (lost rest : List Placed) →
        (port_reading mode (lost ++ rest)).fault ≡ None →
        (stp_reading.items_in order hunts (source_bytes mode id (lost ++ rest))).fault ≡ None →
        (early : List Placed)
        × (source_bytes mode id (lost ++ rest) ≡ early ++ source_bytes (rest_mode mode) id rest)
        × stp.IsItemsRest order hunts (nibbles_of early) (nibbles_of (source_bytes (rest_mode mode) id rest)) }
{}
