//! Laws of listings, over their definitions alone.

ghost use Rattle.std.specs.Prelude.{◌≡◌, ◌+◌, ◌*◌, ◌<◌, ◌≤◌, ◌^◌, ◌&&◌, ◌∷◌, ◌++◌, ℕ, List, length, sum, Some};
ghost use Rattle.std.specs.Prelude.{filter, flat_map};
ghost use Rattle.itm_grammar.specs.Spelling.{Spells, size_bits};
ghost use Rattle.itm_grammar.specs.declared.packet.Size.{Size};
ghost use Rattle.itm_grammar.specs.declared.packet.ItmPacket.TheVariants.{Software};
ghost use Rattle.item_tap.specs.declared.choice.Choice.TheVariants.{Port};
ghost use Rattle.capture_actions.specs.Names.{placed, GREATEST_CAPTURE, Event, Packet, Plan, is_of, report_of, holds};
ghost use Rattle.capture_actions.specs.Names.{IsProper, Itm};
ghost use Rattle.source_events.specs.declared.event.What.TheVariants.{Packet as Said};
ghost use Rattle.capture_actions.specs.declared.list_plan.ListPlan.{ListPlan};
ghost use Rattle.capture_actions.specs.Filtered.{unfiltered, marked, all_lines, listed_lines};
ghost use Rattle.capture_actions.specs.Listing.{ending, itm_packets, listed};
ghost use Rattle.capture_actions.specs.PortText.{source_of, port_text, written_by};
ghost use Rattle.capture_actions.specs.Remarks.{deltas_in, local_after};
ghost use Rattle.capture_actions.specs.declared.port_text_plan.PortTextPlan.{PortTextPlan};

/// With a choice or a window the lines of events are those of all events without those of the events that are not
/// listed, and what comes after them is the same. So it is for the bytes of any run: where all is read or a fault ends
/// it, where a read fails, and where the capture goes on past the limit.
pub fn filter_law()
    ensures all { (p : ListPlan) (bytes : List ℕ) → listed (unfiltered p) bytes ≡ all_lines (marked p bytes) }
    ensures some { (p : ListPlan) (bytes : List ℕ) → listed p bytes ≡ listed_lines (marked p bytes) }
    ensures ending { (p : ListPlan) (bytes : List ℕ) → ending (unfiltered p) bytes ≡ ending p bytes }
{}

/// No source has more ITM packets in the report of a capture than the capture has bytes.
pub fn packets_law()
    ensures { (plan : Plan) (bytes : List ℕ) (source : ℕ) →
        length (itm_packets (Some source) (report_of plan (placed bytes))) ≤ length bytes }
{}

/// In a capture of at most 2^36 bytes no sum of local timestamps reaches 2^64: the time beside one is the sum of the
/// ticks of all that its source had so far, whatever events of the report come after it.
pub fn clock_law()
    ensures below { (plan : Plan) (bytes : List ℕ) (source : ℕ) (before after : List (Event Packet)) →
        length bytes ≤ GREATEST_CAPTURE → report_of plan (placed bytes) ≡ before ++ after →
        sum (flat_map deltas_in (itm_packets (Some source) before)) < 2 ^ 64 }
    ensures clock { (plan : Plan) (bytes : List ℕ) (source : ℕ) (before after : List (Event Packet)) →
        length bytes ≤ GREATEST_CAPTURE → report_of plan (placed bytes) ≡ before ++ after →
        local_after (itm_packets (Some source) before) ≡
        sum (flat_map deltas_in (itm_packets (Some source) before)) }
{}

/// What `text` writes are the values of the events of its source that `show` lists with `--only port=P`, in order. That
/// of a packet is what comes after the header in its spelling.
pub fn port_text_law()
    ensures listed { (p : PortTextPlan) (bytes : List ℕ) → port_text p bytes ≡ flat_map (λ e. written_by e.what)
        (filter (λ e. is_of (source_of p.plan) e.source && holds (Port p.port) e) (report_of p.plan (placed bytes))) }
    ensures payload { (port value : ℕ) (size : Size) → IsProper (Software port size value) →
        let packet = Software port size value in
        Spells packet ((8 * port + size_bits size) ∷ written_by (Said (Itm packet))) }
{}
