//! What is written of the counts of a recovering report.

ghost use Rattle.std.specs.Prelude.{◌≡◌, ◌+◌, ◌*◌, ◌<◌, ◌≤◌, ◌++◌, ℕ, List, length, get_or};
ghost use Rattle.trace_values.specs.Placed.{placed};
ghost use Rattle.source_events.specs.declared.tails.TheConstants.{GREATEST_COUNT};
ghost use Rattle.trace_text.specs.CountText.{faults_line, port_counts_text};
ghost use Rattle.capture_actions.specs.Kinds.{none};
ghost use Rattle.capture_actions.specs.Summary.{source_text, sources_text};
ghost use Rattle.recovery_engine.specs.Heard.{heard_of};
ghost use Rattle.recovery_report.specs.Counts.{faults_of, port_counts_of, source_counts_of};
ghost use Rattle.recovery_listing.specs.Counting.{HasTallied, plan_of};

use capture_actions::{SOURCE_ROOM, put_source_line};
use recovery_engine::{HeardCounts, Recovery};
use source_counts::Counts;
use trace_stream::{OUTLET_ROOM, Outlet, TEXT_ROOM};
use trace_text::{FaultCountLine, PortCountsLines};
use trace_values::{ID_COUNT, SourceId};

/// A source of which nothing is counted.
const NONE: Counts = Counts { bytes: 0, items: 0 };

/// How many bytes a source has, and how many items: its packets, or the runs of one that is not mapped. Notices of
/// locks and faults are none.
fn counts_of(engine: &Recovery, heard: &HeardCounts, id: SourceId) -> Counts
    requires few { heard_of heard.now ≤ GREATEST_COUNT }
    ensures value { (seen : List ℕ) → HasTallied engine.now heard.now seen →
        result ≡ source_counts_of (plan_of engine.now) (placed seen) id }
    ensures few { (result.bytes ≤ GREATEST_COUNT) × (result.items ≤ GREATEST_COUNT) }
{
    let _bytes = engine.next();
    let sent = engine.counts(id);
    match engine.kind_of(id) {
        Some(_) => Counts {
            bytes: sent.bytes,
            items: heard.packets(id),
        },
        None => sent,
    }
}

/// How much the source of this number sent.
fn counts_at(engine: &Recovery, heard: &HeardCounts, number: u8) -> Counts
    requires source { number ≤ 126 }
    requires few { heard_of heard.now ≤ GREATEST_COUNT }
    ensures { (seen : List ℕ) → HasTallied engine.now heard.now seen →
        result ≡ source_counts_of (plan_of engine.now) (placed seen) number }
{
    match SourceId::new(number) {
        Some(id) => counts_of(engine, heard, id),
        None => NONE,
    }
}

/// How much each source sent.
pub(crate) fn all_counts(engine: &Recovery, heard: &HeardCounts) -> [Counts; ID_COUNT]
    requires few { heard_of heard.now ≤ GREATEST_COUNT }
    ensures { (seen : List ℕ) → HasTallied engine.now heard.now seen → (x : ℕ) → x < ID_COUNT →
        get_or result x none ≡ source_counts_of (plan_of engine.now) (placed seen) x }
{
    let mut counts = [NONE; ID_COUNT];
    for number in 0..ID_COUNT as u8 {
        counts[number as usize] = counts_at(engine, heard, number);
    }
    counts
}

/// Puts how many faults there are, and the counts of the port.
pub(crate) fn put_head(outlet: &mut Outlet, engine: &Recovery, heard: &HeardCounts)
    requires room { length outlet.old + 2 * TEXT_ROOM ≤ OUTLET_ROOM }
    ensures text { (seen : List ℕ) → HasTallied engine.now heard.now seen →
        let u = placed seen in
        let port = port_counts_of (plan_of engine.now) u in
        outlet.new ≡ outlet.old ++ (faults_line (faults_of (plan_of engine.now) u)
        ++ port_counts_text port.fulls port.halves port.frames) }
    ensures bound { length outlet.new ≤ length outlet.old + 2 * TEXT_ROOM }
{
    let faults = heard.faults();
    outlet.put(&FaultCountLine { faults });
    let counts = engine.port_counts();
    outlet.put(&PortCountsLines {
        fulls: counts.fulls,
        halves: counts.halves,
        frames: counts.frames,
    });
}

/// The line of the source of this number, if it sent a byte.
fn put_source(outlet: &mut Outlet, number: u8, engine: &Recovery, heard: &HeardCounts)
    requires source { number ≤ 126 }
    requires few { heard_of heard.now ≤ GREATEST_COUNT }
    requires room { length outlet.old + TEXT_ROOM ≤ OUTLET_ROOM }
    ensures text { (seen : List ℕ) → HasTallied engine.now heard.now seen →
        outlet.new ≡ outlet.old ++ source_text number (source_counts_of (plan_of engine.now) (placed seen) number) }
    ensures bound { length outlet.new ≤ length outlet.old + SOURCE_ROOM }
{
    match SourceId::new(number) {
        Some(id) => put_source_line(outlet, id, counts_of(engine, heard, id)),
        None => {}
    }
}

/// The lines of all sources that sent a byte, in the order of their IDs.
pub(crate) fn put_sources(outlet: &mut Outlet, engine: &Recovery, heard: &HeardCounts)
    requires few { heard_of heard.now ≤ GREATEST_COUNT }
    requires room { length outlet.old + ID_COUNT * SOURCE_ROOM + TEXT_ROOM ≤ OUTLET_ROOM }
    ensures text { (seen : List ℕ) → HasTallied engine.now heard.now seen →
        outlet.new ≡ outlet.old ++ sources_text (source_counts_of (plan_of engine.now) (placed seen)) ID_COUNT }
    ensures bound { length outlet.new ≤ length outlet.old + ID_COUNT * SOURCE_ROOM }
{
    for number in 0..ID_COUNT as u8 {
        put_source(outlet, number, engine, heard);
    }
}
