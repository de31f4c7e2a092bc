//! The law of the times of a value dump, over its definitions alone.

ghost use Rattle.std.specs.Prelude.{◌≡◌, ◌≤◌, ◌++◌, ℕ, List, Some, flat_map, length, sum};
ghost use Rattle.itm_grammar.specs.declared.packet.ItmPacket.{ItmPacket};
ghost use Rattle.trace_stream.specs.declared.limits.TheConstants.{GREATEST_CAPTURE};
ghost use Rattle.value_dump.specs.Names.{deltas_in, local_after, source_of};
ghost use Rattle.value_dump.specs.Vcd.{packets_of};
ghost use Rattle.value_dump.specs.declared.vcd_plan.VcdPlan.{VcdPlan};

/// In a capture of at most 2^36 bytes the time at a local timestamp is the plain sum of the ticks of all packets of the
/// source up to it.
pub fn clock_law()
    ensures { (p : VcdPlan) (bytes : List ℕ) (source : ℕ) (before after : List ItmPacket) →
        length bytes ≤ GREATEST_CAPTURE → source_of p.plan ≡ Some source →
        packets_of p bytes ≡ before ++ after → local_after before ≡ sum (flat_map deltas_in before) }
{}
