//! Laws of the grammar and of attribution, over their definitions alone.

ghost use Rattle.std.specs.Prelude.{◌≡◌, ◌↔◌, ◌⊎◌, ◌≤◌, ℕ, ◌+◌, ◌<◌, All, length, List, [], ◌∷◌, ◌++◌, None};
ghost use Rattle.std.specs.Option.{ForSome};
ghost use Rattle.stp_grammar.specs.Names.{Placed, units_of, PrefixLaw, InUnits, Decides, Within, walk, by_unit};
ghost use Rattle.stp_grammar.specs.Names.{Reading, IsReading, reading, Go};
ghost use Rattle.stp_grammar.specs.declared.packet.Order.{Order};
ghost use Rattle.stp_grammar.specs.declared.packet.StpPacket.{StpPacket};
ghost use Rattle.stp_grammar.specs.declared.partial.Partial.{Partial};
ghost use Rattle.stp_grammar.specs.declared.partial.Partial.TheVariants.{Start};
ghost use Rattle.stp_grammar.specs.declared.packet.Row.{Row};
ghost use Rattle.stp_grammar.specs.Opcodes.{line_of, row_at, Whole, opening_of};
ghost use Rattle.stp_grammar.specs.Spelling.{Spells, why};
ghost use Rattle.stp_grammar.specs.Rule.{rule, count_of};
ghost use Rattle.stp_grammar.specs.Proper.{IsProper, IsProperItem};
ghost use Rattle.stp_grammar.specs.Shortest.{IsByRow, HasShortest};
ghost use Rattle.stp_grammar.specs.Attribution.{version_of, master_of, channel_of, last_word_of, item_of};
ghost use Rattle.stp_grammar.specs.NextState.{next_version, next_master, next_channel, next_last};

/// In both orders one list of nibbles spells at most one packet, and no spelling begins another.
pub fn prefix_law()
    ensures { (order : Order) → PrefixLaw (Spells order) }
{}

/// In both orders the rule, nibble by nibble, ends a packet exactly with the nibbles that spell it, goes on exactly
/// while a packet goes on so, and gives each fault its reason.
pub fn rule_law()
    ensures { (order : Order) → Decides (Spells order) why (rule order) Start }
{}

/// In both orders each list of placed nibbles has one reading, and reading them nibble by nibble computes it.
pub fn reading_law()
    ensures { (order : Order) (u : List Placed) (r : Reading StpPacket) →
        IsReading (InUnits (Spells order)) (λ r. why (units_of r)) u r ↔ (r ≡ reading (by_unit (rule order)) Start u) }
{}

/// In both orders the nibbles of an unfinished packet are at most 34, or all F.
pub fn holding_law()
    ensures { (order : Order) (s : Partial) (r : List ℕ) → walk (rule order) Start r ≡ Within s →
        (length r ≤ 34) ⊎ All (λ b. b ≡ 15) r }
{}

/// In both orders the state of an unfinished packet counts its nibbles, and a nibble with which it goes on is one more.
pub fn counting_law()
    ensures step { (order : Order) (s t : Partial) (b : ℕ) → rule order s b ≡ Go t → count_of t ≡ count_of s + 1 }
    ensures list { (order : Order) (s : Partial) (r : List ℕ) → walk (rule order) Start r ≡ Within s →
        count_of s ≡ length r }
{}

/// Before the first packet version, master and channel are unknown, and the last word is 0. What packets tell of them
/// is what the packets before the last tell, changed by the last.
pub fn attribution_law()
    ensures unknown { (version_of [] ≡ None) × (master_of [] ≡ None) × (channel_of [] ≡ None) }
    ensures no_word { last_word_of [] ≡ 0 }
    ensures version { (packets : List StpPacket) (p : StpPacket) →
        version_of (packets ++ p ∷ []) ≡ next_version (version_of packets) p }
    ensures master { (packets : List StpPacket) (p : StpPacket) → IsProper p →
        master_of (packets ++ p ∷ []) ≡ next_master (master_of packets) p }
    ensures channel { (packets : List StpPacket) (p : StpPacket) → IsProper p →
        channel_of (packets ++ p ∷ []) ≡ next_channel (channel_of packets) p }
    ensures word { (packets : List StpPacket) (p : StpPacket) → IsProper p →
        last_word_of (packets ++ p ∷ []) ≡ next_last (version_of packets) (last_word_of packets) p }
{}

/// The rows of the table are at their numbers, and nibbles begin with at most one opcode: with that of a row they
/// begin the row, whatever follows.
pub fn opcode_law()
    ensures number { (n : ℕ) → n < 35 → (line_of (row_at n)).number ≡ n }
    ensures row { (row : Row) → ((line_of row).number < 35) × (row_at (line_of row).number ≡ row) }
    ensures opcode { (row : Row) (r : List ℕ) → opening_of ((line_of row).opcode ++ r) ≡ Whole row }
{}

/// What nibbles spell has its numbers in their ranges and a timestamp exactly where its row has one, and the item of a
/// packet with its numbers in their ranges, after such packets, has its numbers in theirs.
pub fn proper_law()
    ensures packet { (order : Order) (p : StpPacket) (r : List ℕ) → Spells order p r → All (λ b. b < 16) r →
        IsProper p }
    ensures row { (order : Order) (p : StpPacket) (r : List ℕ) → Spells order p r → IsByRow p }
    ensures item { (packets : List StpPacket) (p : StpPacket) → All IsProper packets → IsProper p →
        ForSome (item_of packets p) IsProperItem }
{}

/// In both orders each packet with its numbers in their ranges, and a timestamp exactly where its row has one, has a
/// spelling, and this is the shortest.
pub fn shortest_law()
    ensures { (order : Order) (p : StpPacket) → IsProper p → IsByRow p → HasShortest order p }
{}
