//! The clocks of an ITM source, and what they say beside its timestamps.

ghost use Rattle.std.specs.Prelude.{◌≡◌, ◌++◌, ◌∷◌, [], List};
ghost use Rattle.capture_actions.specs.Names.{IsProper, ItmPacket, SuitsPacket};
ghost use Rattle.capture_actions.specs.Remarks.{remark_by};
ghost use Rattle.capture_actions.specs.Clocks.{Stands};

use itm_grammar::packet::ItmPacket;
use trace_clock::{GlobalClock, LocalClock};
use trace_text::Remark;

/// The local and the global clock of one source.
#[derive(Clone, Copy, Drop)]
pub struct Clocks {
    local: LocalClock,
    global: GlobalClock,
}

impl Clocks {
    /// The clocks before the first packet.
    pub fn new() -> Clocks
        ensures fresh { Stands result [] }
    {
        Clocks {
            local: LocalClock::new(),
            global: GlobalClock::new(),
        }
    }

    /// Takes the next packet, whose numbers are in their ranges, and answers what is beside it.
    #[inline]
    pub fn remark(&mut self, packet: &ItmPacket) -> Remark
        requires proper { IsProper packet.now }
        ensures after { (packets : List ItmPacket) → Stands self.old packets →
            Stands self.new (packets ++ packet.now ∷ []) }
        ensures suits { SuitsPacket packet.now result }
        ensures remark { (packets : List ItmPacket) → Stands self.old packets →
            result ≡ remark_by (packets ++ packet.now ∷ []) packet.now }
    {
        match *packet {
            ItmPacket::Local { delta, .. } => Remark::Clock(self.local.add(delta)),
            ItmPacket::GlobalFirst {
                len,
                value,
                change,
                wrap,
            } => {
                self.global.first(len, value, change, wrap);
                Remark::Time(self.global.now())
            }
            ItmPacket::GlobalSecond { wide, value } => {
                self.global.second(wide, value);
                Remark::Time(self.global.now())
            }
            ItmPacket::Sync
            | ItmPacket::Overflow
            | ItmPacket::Software { .. }
            | ItmPacket::Hardware { .. }
            | ItmPacket::Extension { .. } => Remark::None,
        }
    }
}
