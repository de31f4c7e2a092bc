//! The encoders of system traces.

ghost use Rattle.std.specs.Prelude.{◌≡◌, ◌≤◌, ◌<◌, ◌+◌, [], ℕ, List, All};
ghost use Rattle.script_rebuild.specs.Names.{COUNT_ROOM, Order, end_bytes, Put, Puts};
ghost use Rattle.port_formatter.specs.Formatter.{HasRoom, count_of, turns_of};

use arrayvec::ArrayVec;
use port_formatter::Formatter;
use source_events::{KIND_SOURCES, SourceIds};
use stp_encoder::StpEncoder;
use stp_grammar::packet::Order;
use trace_values::SourceId;

/// The encoder of a source's system trace.
#[derive(Clone, Copy, Drop)]
pub struct SourceEncoder {
    /// The source.
    pub id: SourceId,
    /// What its items so far say, and the nibble that is kept of it.
    pub encoder: StpEncoder,
}

impl Default for SourceEncoder {
    /// That of the null source, which nothing was put to.
    fn default() -> Self {
        SourceEncoder {
            id: SourceId::default(),
            encoder: StpEncoder::new(Order::Msn),
        }
    }
}

ghost use Rattle.script_rebuild.specs.Encoding.{ids_in, StandsFor, AllStand, KeepsPlaced, flushed};
ghost use Rattle.script_rebuild.specs.Script.{in_order, ends_with, tagged};

/// The encoders of all sources of system traces, in increasing order of their IDs.
pub type Encoders = ArrayVec<SourceEncoder, KIND_SOURCES>;

/// Encoders that nothing was put to, which write numbers in this order of their nibbles.
pub fn encoders_for(ids: &SourceIds, order: Order) -> Encoders
    ensures ids { ids_in result.items ≡ in_order ids.now }
    ensures fresh { AllStand order result.items (λ _. []) }
{
    let ids = ids.as_slice();
    let mut encoders = ArrayVec::new();
    for number in 1..127u8 {
        if let Some(id) = SourceId::new(number) {
            if ids.contains(&id) {
                encoders.push(SourceEncoder {
                    id,
                    encoder: StpEncoder::new(order),
                });
            }
        }
    }
    encoders
}

/// Puts of one source the nibble that is kept, with a NULL above it. The encoder goes on where this one was.
fn put_end(slot: &SourceEncoder, formatter: &mut Formatter) -> SourceEncoder
    requires named { 0 < slot.now.id }
    requires count { count_of formatter.old < COUNT_ROOM }
    requires room { HasRoom formatter.old 2 }
    ensures id { result.id ≡ slot.now.id }
    ensures turns { turns_of formatter.new ≡ turns_of formatter.old }
    ensures stand { (order : Order) (given : ℕ → List Put) → StandsFor order given slot.now →
        StandsFor order (flushed given) result }
    ensures put { (order : Order) (given : ℕ → List Put) → StandsFor order given slot.now →
        KeepsPlaced (turns_of formatter.old) order given slot.now.id →
        Puts formatter.old formatter.new (tagged slot.now.id (end_bytes order (given slot.now.id))) }
    ensures count { count_of formatter.new ≤ count_of formatter.old + 1 }
    ensures room { (more : ℕ) → HasRoom formatter.old (2 + more) → HasRoom formatter.new more }
{
    let mut encoder = slot.encoder;
    let mut last = ArrayVec::new();
    encoder.flush(&mut last);
    if formatter.takes(slot.id) {
        formatter.put_all(slot.id, last.as_slice());
    }
    SourceEncoder {
        id: slot.id,
        encoder,
    }
}

/// Puts of each source the nibble that is kept, in the order of the encoders, which go on where these were. Nothing is
/// kept of a source without a place, since none of its lines was put.
pub(crate) fn put_kept(encoders: &Encoders, formatter: &mut Formatter) -> Encoders
    requires named { All (λ e. 0 < e.id) encoders.now.items }
    requires count { count_of formatter.old + 8 ≤ COUNT_ROOM }
    requires room { HasRoom formatter.old 16 }
    ensures ids { ids_in result.items ≡ ids_in encoders.now.items }
    ensures turns { turns_of formatter.new ≡ turns_of formatter.old }
    ensures stand { (order : Order) (given : ℕ → List Put) → AllStand order encoders.now.items given →
        AllStand order result.items (flushed given) }
    ensures put { (order : Order) (given : ℕ → List Put) → AllStand order encoders.now.items given →
        ((x : ℕ) → KeepsPlaced (turns_of formatter.old) order given x) →
        Puts formatter.old formatter.new (ends_with order given (ids_in encoders.now.items)) }
    ensures count { count_of formatter.new ≤ count_of formatter.old + 8 }
    ensures room { (more : ℕ) → HasRoom formatter.old (16 + more) → HasRoom formatter.new more }
{
    let mut later = Encoders::new();
    for slot in encoders.as_slice() {
        later.push(put_end(slot, formatter));
    }
    later
}
