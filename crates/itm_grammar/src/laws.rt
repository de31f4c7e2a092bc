//! Laws of the grammar, over its definitions alone.

ghost use Rattle.std.specs.Prelude.{◌≡◌, ◌↔◌, ◌⊎◌, ℕ, ◌<◌, ◌≤◌, List, All, length};
ghost use Rattle.itm_grammar.specs.Names.{Placed, units_of, PrefixLaw, InUnits, Decides, Within, walk, by_unit};
ghost use Rattle.itm_grammar.specs.Names.{Reading, IsReading, reading};
ghost use Rattle.itm_grammar.specs.declared.packet.ItmPacket.{ItmPacket};
ghost use Rattle.itm_grammar.specs.declared.partial.Partial.{Partial};
ghost use Rattle.itm_grammar.specs.declared.partial.Partial.TheVariants.{Header};
ghost use Rattle.itm_grammar.specs.Spelling.{Spells, why};
ghost use Rattle.itm_grammar.specs.Rule.{rule};
ghost use Rattle.itm_grammar.specs.Proper.{IsProper};
ghost use Rattle.itm_grammar.specs.Shortest.{HasShortest};

/// One list of bytes spells at most one packet, and no spelling begins another.
pub fn prefix_law()
    ensures { PrefixLaw Spells }
{}

/// The rule, byte by byte, ends a packet exactly with the bytes that spell it, goes on exactly while a
/// packet goes on so, and gives each fault its reason.
pub fn rule_law()
    ensures { Decides Spells why rule Header }
{}

/// Each list of placed bytes has one reading, and reading them byte by byte computes it.
pub fn reading_law()
    ensures { (u : List Placed) (r : Reading ItmPacket) →
        IsReading (InUnits Spells) (λ r. why (units_of r)) u r ↔ (r ≡ reading (by_unit rule) Header u) }
{}

/// What bytes spell has its numbers in their ranges.
pub fn proper_law()
    ensures { (packet : ItmPacket) (r : List ℕ) → Spells packet r → All (λ b. b < 256) r → IsProper packet }
{}

/// Each packet with its numbers in their ranges has a spelling, and this is the shortest. Its ignored bits are 0.
pub fn shortest_law()
    ensures { (packet : ItmPacket) → IsProper packet → HasShortest packet }
{}

/// The bytes of an unfinished packet are at most six, or all 00.
pub fn holding_law()
    ensures { (s : Partial) (r : List ℕ) → walk rule Header r ≡ Within s → (length r ≤ 6) ⊎ All (λ b. b ≡ 0) r }
{}
