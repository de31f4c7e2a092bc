//! The global time, which global timestamp packets tell (ARMv7-M Architecture Reference Manual, Arm DDI 0403E, appendix
//! D4 'Debug ITM and DWT Packet Protocol', section D4.2 'Packet descriptions', 'Global timestamp packets').

ghost use Rattle.std.specs.Prelude.{◌≡◌, ◌+◌, ◌*◌, ◌/◌, ◌^◌, ◌<◌, ◌≤◌, Bool, List, [], ◌∷◌, ◌++◌};
ghost use Rattle.std.specs.Option.{ForSome};
ghost use Rattle.trace_clock.specs.GlobalTime.{GlobalStamp, First, first_bits, known_low};

/// The global time, as far as the global timestamps so far tell it.
#[derive(Clone, Copy, Debug, Drop)]
pub struct GlobalClock {
    /// Bits 25 to 0 of the time, once a first timestamp has told them all.
    low: Option<u32>,
    /// The bits from 26 on, where a second timestamp has told them since they last changed.
    high: Option<u64>,
    ghost low_fits: { ForSome low (λ bits. bits < 2 ^ 26) },
    ghost high_fits: { ForSome high (λ bits. bits < 2 ^ 38) },
}

impl GlobalClock {
    ghost use Rattle.trace_clock.specs.GlobalTime.{global_time, Second, IsProperFirst, second_bits};
    ghost use Rattle.trace_clock.specs.GlobalClock.{Stands};

    /// A clock before the first timestamp, whose time is unknown.
    pub fn new() -> GlobalClock
        ensures { Stands result [] }
    {
        GlobalClock {
            low: None,
            high: None,
        }
    }

    /// Takes a first timestamp: the low 7, 14, 21 or 26 bits of the time, in `len` payload bytes, 1 to 4.
    ///
    /// One of under four bytes replaces the bits that it carries where one of four has come, and else has
    /// no effect. One of four bytes may also say that the clock's ratio changed, which has no effect, and
    /// that the bits from 26 on did (`wrap`), which are unknown from then on.
    #[inline]
    pub fn first(&mut self, len: u8, value: u32, change: bool, wrap: bool)
        requires proper { IsProperFirst len value change wrap }
        ensures { (stamps : List GlobalStamp) → Stands self.old stamps →
            Stands self.new (stamps ++ First len value wrap ∷ []) }
    {
        self.low = low_after(self.low, len, value);
        if wrap {
            self.high = None;
        }
    }

    /// Takes a second timestamp: the bits of the time from 26 on, as a number under 2^22, or under 2^38
    /// where it is wide.
    #[inline]
    pub fn second(&mut self, wide: bool, value: u64)
        requires proper { value < 2 ^ second_bits wide }
        ensures { (stamps : List GlobalStamp) → Stands self.old stamps →
            Stands self.new (stamps ++ Second value ∷ []) }
    {
        self.high = Some(value);
    }

    /// The time, if it is known: a first timestamp of four bytes has come, and a second one since the bits
    /// from 26 on last changed, or since the start.
    #[inline]
    pub fn now(&self) -> Option<u64>
        ensures { (stamps : List GlobalStamp) → Stands self.now stamps → result ≡ global_time stamps }
    {
        match (self.low, self.high) {
            (Some(low), Some(high)) => Some((high << 26) | u64::from(low)),
            _ => None,
        }
    }
}

/// Bits 25 to 0 of the time after a first timestamp, as far as they are known, by those before it.
#[inline]
fn low_after(low: Option<u32>, len: u8, value: u32) -> Option<u32>
    requires len { (0 < len) × (len ≤ 4) }
    requires value { value < 2 ^ first_bits len }
    requires low { ForSome low (λ bits. bits < 2 ^ 26) }
    ensures list { (stamps : List GlobalStamp) (wrap : Bool) → low ≡ known_low stamps →
        result ≡ known_low (stamps ++ First len value wrap ∷ []) }
    ensures fits { ForSome result (λ bits. bits < 2 ^ 26) }
{
    if len == 4 {
        Some(value)
    } else {
        low.map(|bits| with_low_bits(bits, 7 * len, value))
    }
}

/// The number with its lowest `count` bits replaced by these.
#[inline]
fn with_low_bits(number: u32, count: u8, bits: u32) -> u32
    requires count { count ≤ 21 }
    requires bits { bits < 2 ^ count }
    requires number { number < 2 ^ 26 }
    ensures value { result ≡ number / 2 ^ count * 2 ^ count + bits }
    ensures fits { result < 2 ^ 26 }
{
    (number >> count << count) | bits
}
