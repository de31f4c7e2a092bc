//! The decoder of STP packets.

ghost use Rattle.std.specs.Prelude.{◌≡◌, ◌<◌, ◌≤◌, true, length, take};
ghost use Rattle.stp_codec.specs.Names.{is_counted, is_locked, is_sound, rule, Msn, Start, COUNT_ROOM};
ghost use Rattle.stp_codec.specs.Reading.{pattern};
ghost use Rattle.stp_codec.specs.Wholes.{Fronts, Leaves, begun, nibbles_in};
ghost use Rattle.stp_codec.specs.declared.flat.TheConstants.{WINDOW};
ghost use Rattle.stp_codec.specs.declared.decoder.TheConstants.{ROOM};

use crate::waiting::with_bytes;
use stp_grammar::attribution::Attribution;
use stp_grammar::item::StpItem;
use stp_grammar::opcode::{payload_at, row_at, stamped_at};
use stp_grammar::packet::Order;
use stp_grammar::partial::Partial;
use stp_grammar::said::Said;
use trace_values::{Machine, Mode, Step};

/// In the place of a packet's first nibble where more came of it.
pub(crate) const MANY: u8 = 16;

/// Bytes of room for those that wait. They are fewer than `WINDOW`, and as many again are copied behind them.
const ROOM: usize = 64;

/// A decoder of STP packets. It keeps what it needs of the one unfinished packet, and what the packets so far say of
/// the next item.
///
/// Where `find_part` is given only some bytes of a packet, they wait in it unread, so that the packet is read at once
/// when the others come.
#[derive(Drop)]
pub struct StpDecoder {
    pub(crate) order: Order,
    pub(crate) mode: Mode,
    /// The unfinished packet where `first` is `MANY`; else of no account.
    pub(crate) partial: Partial,
    /// Where the unfinished packet without the bytes that wait can be read as numbers, its one nibble, or 0 where it
    /// has none; else `MANY`. It can where the reading has begun and most significant nibbles come first.
    pub(crate) first: u8,
    pub(crate) live: bool,
    pub(crate) attribution: Attribution,
    /// The bytes that wait; what is behind them is of no account.
    pub(crate) held: [u8; ROOM],
    /// How many bytes wait.
    pub(crate) waiting: usize,
    ghost sound: { is_sound (begun order first partial) ≡ true },
    ghost counted: { is_counted pattern mode ≡ true },
    ghost size: { length held ≡ ROOM },
    ghost few: { waiting ≤ WINDOW },
    ghost ready: { first < 16 → (order ≡ Msn) × (is_locked mode ≡ true) },
    ghost waits: { 0 < waiting → first < 16 },
    ghost fronts: { 0 < waiting →
        Fronts order (begun order first partial) (nibbles_in (take waiting held)) },
}

/// What was taken of a packet that was read as numbers.
#[derive(Clone, Copy, Drop)]
pub struct SaidTaken {
    /// How many bytes, at least one. The packet ends in the last of them.
    pub bytes: usize,
    /// The half of that byte in which it ends: 0 for the low nibble, 1 for the high one.
    pub half: u8,
    /// What it says.
    pub said: Said,
}

/// What a packet's first nibble leaves unfinished: nothing after a NULL.
#[inline(always)]
fn after_first(nibble: u8) -> Partial
    requires { nibble < 16 }
    ensures sound { is_sound result ≡ true }
    ensures next { (order : Order) → Leaves (rule order Start nibble) result }
{
    if nibble == 15 {
        return Partial::Second;
    }
    let row = row_at(nibble);
    if payload_at(nibble) > 0 {
        Partial::Payload {
            row,
            count: 0,
            value: 0,
        }
    } else if stamped_at(nibble) {
        Partial::Size { row, payload: 0 }
    } else {
        Partial::Start
    }
}

/// What stands for a packet's first nibble in a reading, in this order, where none came.
#[inline(always)]
pub(crate) fn first_of_none(order: Order) -> u8
    ensures none { begun order result Start ≡ Start }
    ensures ready { result < 16 → order ≡ Msn }
{
    match order {
        Order::Msn => 0,
        Order::Lsn => MANY,
    }
}

impl StpDecoder {
    ghost use Rattle.std.specs.Prelude.{[], false};
    ghost use Rattle.stp_codec.specs.Decoder.{Begins, Stands, Settles, begun_of, has_locked, held_of, is_hunter};
    ghost use Rattle.stp_codec.specs.Decoder.{is_live, order_of, skipped_by};

    /// A decoder of bytes that begin with a packet, whose numbers have their nibbles in this order.
    pub fn aligned(order: Order) -> StpDecoder
        ensures fresh { Stands result [] }
        ensures mode { is_hunter result ≡ false }
        ensures order { order_of result ≡ order }
        ensures live { is_live result ≡ true }
        ensures empty { (held_of result ≡ 0) × (skipped_by result ≡ 0) }
    {
        StpDecoder {
            order,
            mode: Mode::Aligned,
            partial: Partial::Start,
            first: first_of_none(order),
            live: true,
            attribution: Attribution::new(),
            held: [0; ROOM],
            waiting: 0,
        }
    }

    /// A decoder of bytes that may begin anywhere: it skips nibbles up to the first ASYNC.
    pub fn hunting(order: Order) -> StpDecoder
        ensures fresh { Stands result [] }
        ensures mode { is_hunter result ≡ true }
        ensures order { order_of result ≡ order }
        ensures live { is_live result ≡ true }
        ensures empty { (held_of result ≡ 0) × (skipped_by result ≡ 0) }
    {
        StpDecoder {
            order,
            mode: Mode::Hunting { run: 0, skipped: 0 },
            partial: Partial::Start,
            first: MANY,
            live: true,
            attribution: Attribution::new(),
            held: [0; ROOM],
            waiting: 0,
        }
    }

    /// The unfinished packet without the bytes that wait.
    #[inline(always)]
    pub(crate) fn unfinished(&self) -> Partial
        ensures value { result ≡ begun_of self.now }
        ensures sound { is_sound result ≡ true }
    {
        if self.first < MANY {
            after_first(self.first)
        } else {
            self.partial
        }
    }

    /// Lets a packet begin with this nibble, 0 where none came, in a reading of most significant nibbles first.
    #[inline(always)]
    pub(crate) fn begin_ready(&mut self, nibble: u8)
        requires locked { has_locked self.old ≡ true }
        requires order { order_of self.old ≡ Msn }
        requires nibble { nibble < 16 }
        ensures { Begins self.old self.new nibble }
    {
        self.first = nibble;
        self.waiting = 0;
    }

    /// Lets a packet begin with this nibble, 0 where none came, in a reading.
    #[inline(always)]
    pub(crate) fn begin(&mut self, nibble: u8)
        requires locked { has_locked self.old ≡ true }
        requires nibble { nibble < 16 }
        ensures { Begins self.old self.new nibble }
    {
        match self.order {
            Order::Msn => self.begin_ready(nibble),
            Order::Lsn => {
                self.partial = after_first(nibble);
                self.first = MANY;
                self.waiting = 0;
            }
        }
    }

    /// Settles it: the bytes that wait are read, and the state of the unfinished packet is kept also where it has one
    /// nibble or none. It has room for their nibbles.
    #[inline]
    pub(crate) fn settle(&mut self)
        requires room { held_of self.old ≤ COUNT_ROOM }
        ensures { Settles self.old self.new }
    {
        if self.waiting > 0 {
            self.partial = with_bytes(self.order, self.unfinished(), &self.held[..self.waiting]);
            self.first = MANY;
            self.waiting = 0;
        } else {
            self.partial = self.unfinished();
        }
    }
}

/// The default one reads from the first nibble on, in the order most significant nibble first. It only fills the
/// unused places of a buffer.
impl Default for StpDecoder {
    ghost use Rattle.std.specs.Prelude.{[], false};
    ghost use Rattle.stp_grammar.specs.declared.packet.Order.TheVariants.{Msn};
    ghost use Rattle.stp_codec.specs.Decoder.{Stands, order_of, is_hunter, is_live};

    fn default() -> StpDecoder
        ensures fresh { Stands result [] }
        ensures mode { is_hunter result ≡ false }
        ensures order { order_of result ≡ Msn }
        ensures live { is_live result ≡ true }
    {
        StpDecoder::aligned(Order::Msn)
    }
}

impl Machine for StpDecoder {
    ghost use Rattle.std.specs.Prelude.{refl, ◌+◌, ◌≤◌, ◌⊎◌, ◌∷◌, ◌++◌, [], List, All, take};
    ghost use Rattle.stp_codec.specs.Names.{Placed, byte_at, units_of, nibbles_of, Grows, HasRoom, Tells, by_unit};
    ghost use Rattle.stp_codec.specs.Names.{rule, count_of, attribute, IsProperItem, Async, Start};
    ghost use Rattle.stp_codec.specs.Reading.{pattern, packets_of, items_in, rest_in};
    ghost use Rattle.stp_codec.specs.Answers.{AnswersByte};
    ghost use Rattle.stp_codec.specs.Decoder.{Stands, order_of, is_hunter, is_live, has_locked, held_of, skipped_by};
    ghost use Rattle.stp_codec.specs.Decoder.{partial_of};
    ghost use Rattle.trace_values.proofs.NibbleModes as laws;
    ghost use Rattle.stp_grammar.proofs.Counting as counting;
    ghost use Rattle.stp_codec.specs.FallingLaws as falling;

    type Item = StpItem;

    ghost reading = { λ m. items_in (order_of m) (is_hunter m) };

    ghost stands = { Stands };

    ghost live = { is_live };

    ghost locked = { has_locked };

    ghost held_units = { held_of };

    ghost skipped_units = { skipped_by };

    ghost units_per_byte = { λ m. 2 };

    ghost fits = { IsProperItem };

    ghost shows = { λ m u s. laws.shows pattern Async (by_unit (rule m.order)) Start attribute [] count_of refl
        (counting.counts_placed m.order) m.mode m.live (partial_of m) u s.0 };

    ghost begins = { λ m. laws.begins pattern Async (by_unit (rule m.order)) Start attribute [] (is_hunter m) };

    ghost settles = { λ m u w e.
        laws.settles pattern Async (by_unit (rule m.order)) Start attribute [] (is_hunter m) u w e };

    ghost rises = { λ m u at byte.
        laws.rises pattern Async (by_unit (rule m.order)) Start attribute [] (is_hunter m) u at byte };

    ghost falls = { λ m u at byte f. laws.falls pattern Async (by_unit (rule m.order)) Start attribute []
        (falling.begins m.order) (is_hunter m) u at byte f };

    ghost keeps = { λ m u at byte s l f. laws.keeps pattern Async (by_unit (rule m.order)) Start attribute []
        (falling.begins m.order) count_of refl (counting.counts_placed m.order)
        m.mode m.live (partial_of m) u at byte s.0 l f };

    /// Takes the next byte: its low nibble, and then its high one. Beside what every machine says, its answer in a
    /// reading is the grammar's, by those to its nibbles: an item exactly where a nibble ends a packet that has one, a
    /// fault exactly where no packet begins with the rest up to a nibble.
    fn feed(&mut self, at: u64, byte: u8) -> Step<StpItem>
        requires live { is_live self.old ≡ true }
        requires room { HasRoom (held_of self.old) (skipped_by self.old) }
        ensures same { items_in (order_of self.new) (is_hunter self.new) ≡
            items_in (order_of self.old) (is_hunter self.old) }
        ensures list { (u : List Placed) → Stands self.old u → Stands self.new (u ++ byte_at at byte ∷ []) }
        ensures step { (u : List Placed) → Stands self.old u →
            Grows (items_in (order_of self.old) (is_hunter self.old) u)
            (items_in (order_of self.old) (is_hunter self.old) (u ++ byte_at at byte ∷ [])) at result }
        ensures tells { Tells (is_live self.new) (skipped_by self.new) IsProperItem result }
        ensures few { held_of self.new + skipped_by self.new ≤ held_of self.old + skipped_by self.old + 2 }
        ensures grammar { (u : List Placed) → Stands self.old u → has_locked self.old ≡ true →
            AnswersByte (order_of self.old) (packets_of (order_of self.old) (is_hunter self.old) (nibbles_of u))
            (rest_in (order_of self.old) (is_hunter self.old) (nibbles_of u)) at byte result }
    {
        self.settle();
        self.feed_settled(at, byte)
    }

    fn is_live(&self) -> bool {
        self.live
    }

    fn is_locked(&self) -> bool {
        self.mode.is_locked()
    }

    /// How many nibbles of an unfinished packet it holds: at most 34, or all of them are F. After a fault they are
    /// those before the fault's nibble.
    fn held(&self) -> u64
        ensures count { result ≡ held_of self.now }
        ensures few { (u : List Placed) → Stands self.now u → (result ≤ 34) ⊎
            All (λ b. b ≡ 15)
            (take result (units_of (rest_in (order_of self.now) (is_hunter self.now) (nibbles_of u)))) }
    {
        if self.waiting == 0 {
            return self.unfinished().len();
        }
        self.unfinished().len() + 2 * self.waiting as u64
    }

    fn skipped(&self) -> u64 {
        self.mode.skipped()
    }
}
