//! Laws of the times of local timestamps in recovering reports, over their definitions alone.

ghost use Rattle.std.specs.Prelude.{◌≡◌, ◌*◌, ◌<◌, ◌≤◌, ◌^◌, ◌++◌, ℕ, List, [], Some, true, flat_map, length, sum};
ghost use Rattle.trace_values.specs.Placed.{placed};
ghost use Rattle.itm_grammar.specs.declared.packet.ItmPacket.{ItmPacket};
ghost use Rattle.source_events.specs.declared.event.Event.{Event};
ghost use Rattle.source_events.specs.declared.packet.Packet.{Packet};
ghost use Rattle.source_events.specs.declared.plan.Plan.{Plan};
ghost use Rattle.stretch_readings.specs.declared.heard.Heard.{Heard};
ghost use Rattle.trace_stream.specs.declared.limits.TheConstants.{GREATEST_CAPTURE};
ghost use Rattle.capture_actions.specs.Listing.{itm_packets};
ghost use Rattle.capture_actions.specs.PortText.{source_of};
ghost use Rattle.capture_actions.specs.Remarks.{deltas_in, local_after};
ghost use Rattle.value_dump.specs.declared.vcd_plan.VcdPlan.{VcdPlan};
ghost use Rattle.recovery_listing.specs.Dump.{packets_of};
ghost use Rattle.recovering_machines.specs.Hearing.{seen_in};
ghost use Rattle.recovery_listing.specs.Listing.{clocked_from};
ghost use Rattle.recovery_listing.specs.Near.{guess_clocked};
ghost use Rattle.recovery_listing.specs.declared.going_on.GoingOn.{GoingOn};
ghost use Rattle.recovery_report.specs.Report.{report, report_with, sure_events};

/// No source has more ITM packets in the recovering report of a capture than two for each of its bytes, and with
/// guesses than four.
pub fn packets_law()
    ensures sure { (plan : Plan) (bytes : List ℕ) (source : ℕ) →
        length (itm_packets (Some source) (seen_in (report plan (placed bytes)))) ≤ 2 * length bytes }
    ensures guesses { (plan : Plan) (bytes : List ℕ) (source : ℕ) →
        length (itm_packets (Some source) (seen_in (report_with true plan (placed bytes)))) ≤ 4 * length bytes }
{}

/// In a capture of at most 2^36 bytes the time beside a local timestamp is the plain sum of the ticks that the clock of
/// its source has taken, up to this one: without guesses, with them for what is sure, and with them for a guess. None
/// of these sums reaches 2^64.
pub fn clock_law()
    ensures on { (plan : Plan) (bytes : List ℕ) (source : ℕ) (before after : List (Event (Heard Packet))) →
        length bytes ≤ GREATEST_CAPTURE → report plan (placed bytes) ≡ before ++ after →
        let packets = itm_packets (Some source) (clocked_from [] before) in
        local_after packets ≡ sum (flat_map deltas_in packets) }
    ensures sure { (plan : Plan) (bytes : List ℕ) (source : ℕ) (before after : List (Event (Heard Packet))) →
        length bytes ≤ GREATEST_CAPTURE → report_with true plan (placed bytes) ≡ before ++ after →
        let packets = itm_packets (Some source) (clocked_from [] (sure_events before)) in
        local_after packets ≡ sum (flat_map deltas_in packets) }
    ensures guessed { (plan : Plan) (bytes : List ℕ) (source : ℕ) (before after : List (Event (Heard Packet))) →
        length bytes ≤ GREATEST_CAPTURE → report_with true plan (placed bytes) ≡ before ++ after →
        let packets = itm_packets (Some source) (guess_clocked before) in
        local_after packets ≡ sum (flat_map deltas_in packets) }
    ensures below { (plan : Plan) (bytes : List ℕ) (source : ℕ) (before after : List (Event (Heard Packet))) →
        length bytes ≤ GREATEST_CAPTURE → report_with true plan (placed bytes) ≡ before ++ after →
        sum (flat_map deltas_in (itm_packets (Some source) (guess_clocked before))) < 2 ^ 64 }
{}

/// So is the time in a value dump of a capture of at most 2^36 bytes: the sum of the ticks of all packets up to there.
/// It goes on over faults.
pub fn dump_clock_law()
    ensures { (p : GoingOn VcdPlan) (bytes : List ℕ) (source : ℕ) (before after : List ItmPacket) →
        length bytes ≤ GREATEST_CAPTURE → source_of p.plan.plan ≡ Some source →
        packets_of p bytes ≡ before ++ after → local_after before ≡ sum (flat_map deltas_in before) }
{}
