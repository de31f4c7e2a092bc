//! The decoder of ITM packets.

ghost use Rattle.std.specs.Prelude.{◌≡◌, ◌^◌, ◌<◌, ◌≤◌, length, replicate, take, true, IfSome};
ghost use Rattle.itm_codec.specs.Names.{is_counted, is_locked, walk, Within, rule, is_sound, bytes_of, IsProper};
ghost use Rattle.itm_codec.specs.Names.{Header, COUNT_ROOM};
ghost use Rattle.itm_codec.specs.Reading.{pattern};
ghost use Rattle.itm_codec.specs.Reached.{reached};
ghost use Rattle.itm_codec.specs.Windows.{IsSeen};

use crate::cut::cut_packet;
use crate::front::{first_bits, is_front};
use crate::hunt::skip_in;
use crate::sync::zeros_in;
use crate::whole::{InWindow, WINDOW, packet_in};
use itm_grammar::packet::ItmPacket;
use itm_grammar::partial::Partial;
use trace_values::{Fault, Found, Machine, Mode, Next, Pattern, Step, TakenAtOnce};

/// A synchronisation packet, `00 00 00 00 00 80`.
const SYNC: Pattern = Pattern {
    unit: 0,
    most: 5,
    last: 0x80,
};

/// How many bytes are there behind those that are taken: more than the longest packet has that is read at once.
pub const AHEAD: usize = 8;

/// A packet that ends in bytes that are there.
#[derive(Clone, Copy, Drop)]
pub struct ItmEnd {
    /// The last of how many of them ends it.
    pub bytes: usize,
    pub packet: ItmPacket,
}

/// A decoder of ITM packets. It keeps what it needs of the one unfinished packet.
///
/// Bytes that begin a packet may wait: they are taken, but not read yet. They are read with those that end the packet,
/// all at once, which is faster than byte by byte.
#[derive(Drop)]
pub struct ItmDecoder {
    mode: Mode,
    partial: Partial,
    live: bool,
    /// The reading has begun, and the bytes that wait are all of the unfinished packet: so its end can be looked for.
    at_header: bool,
    /// How many bytes wait, and the number that they are, the first the least significant.
    waiting: usize,
    held: u64,
    ghost sound: { is_sound partial ≡ true },
    ghost counted: { is_counted pattern mode ≡ true },
    ghost few: { waiting ≤ 7 },
    ghost fits: { held < 256 ^ waiting },
    ghost begins: { at_header ≡ true → partial ≡ Header },
    ghost locked: { at_header ≡ true → is_locked mode ≡ true },
    ghost waits: { 0 < waiting → at_header ≡ true },
    ghost within: { walk rule partial (bytes_of waiting held) ≡ Within (reached partial (bytes_of waiting held)) },
}

impl ItmDecoder {
    ghost use Rattle.std.specs.Prelude.{[], ◌∷◌, ◌++◌, false, ◌+◌, ◌*◌, List, IfSome, None, Some};
    ghost use Rattle.std.specs.Int.{w64, to_le_bytes};
    ghost use Rattle.itm_codec.specs.Names.{Placed, units_of, Header, Passes, item_at, Ends, Waits};
    ghost use Rattle.itm_codec.specs.Reading.{packets_in};
    ghost use Rattle.itm_codec.specs.Decoder.{Stands, partial_of, is_hunter, is_live, has_locked, held_of, skipped_by};
    ghost use Rattle.itm_codec.specs.Decoder.{waiting_in};
    ghost use Rattle.itm_codec.specs.Parts.{EndsPart, Idles, Looked, Stays, TakesPart, Took};
    ghost use Rattle.itm_codec.specs.Windows.{IsFrontOf};

    /// A decoder of bytes that begin with a packet.
    pub fn aligned() -> ItmDecoder
        ensures fresh { Stands result [] }
        ensures mode { is_hunter result ≡ false }
        ensures live { is_live result ≡ true }
        ensures empty { (held_of result ≡ 0) × (skipped_by result ≡ 0) }
    {
        ItmDecoder {
            mode: Mode::Aligned,
            partial: Partial::Header,
            live: true,
            at_header: true,
            waiting: 0,
            held: 0,
        }
    }

    /// A decoder of bytes that may begin anywhere: it skips them up to the first synchronisation packet.
    pub fn hunting() -> ItmDecoder
        ensures fresh { Stands result [] }
        ensures mode { is_hunter result ≡ true }
        ensures live { is_live result ≡ true }
        ensures empty { (held_of result ≡ 0) × (skipped_by result ≡ 0) }
    {
        ItmDecoder {
            mode: Mode::Hunting { run: 0, skipped: 0 },
            partial: Partial::Header,
            live: true,
            at_header: false,
            waiting: 0,
            held: 0,
        }
    }

    /// The unfinished packet, with the bytes that wait.
    #[inline(always)]
    fn unfinished(&self) -> Partial
        ensures part { result ≡ partial_of self.now }
        ensures sound { is_sound result ≡ true }
    {
        if self.waiting > 0 {
            self.with_waiting()
        } else {
            self.partial
        }
    }

    /// Reads the bytes that wait.
    #[inline(never)]
    fn with_waiting(&self) -> Partial
        requires { 0 < self.now.waiting }
        ensures part { result ≡ partial_of self.now }
        ensures sound { is_sound result ≡ true }
    {
        cut_packet(self.partial, &self.held.to_le_bytes()[..self.waiting]).partial
    }

    /// Looks for the end of the unfinished packet in the first `count` of these bytes, wherever they are. A packet that
    /// ends is not taken: `end_part` does that, given the same bytes. Where it ends after them, they are all taken. It
    /// makes no difference what the bytes after the first `count` are.
    ///
    /// It is quick: it answers `Unknown` in a hunt, of no bytes, and of packets that are rare. This says nothing of the
    /// bytes, and the decoder stands for what it stood for: `take_part` reads them all the same.
    ///
    /// The answer is the same whether the bytes are a piece or not. In a piece mostly no bytes wait, and it is faster
    /// where that is asked first.
    #[inline(always)]
    pub fn find_part(&mut self, ahead: &[u8], count: usize, is_piece: bool) -> Found<ItmEnd>
        requires live { is_live self.old ≡ true }
        requires ahead { count + AHEAD ≤ length ahead.now }
        ensures stays { Stays self.old self.new }
        ensures ends { (end : ItmEnd) → result ≡ Ends end → EndsPart self.new ahead.now end × (end.bytes ≤ count) }
        ensures idles { (result ≡ Waits → ⊥) → Idles self.old self.new }
        ensures waits { result ≡ Waits → (0 < count) × (held_of self.new ≤ held_of self.old + count) }
        ensures passes { (u front : List Placed) (last : Placed) → Stands self.old u → result ≡ Waits →
            units_of (front ++ last ∷ []) ≡ take count ahead.now →
            Passes (packets_in (is_hunter self.old)) (Stands self.new) u front last None }
    {
        self.find_at_once(ahead, count, is_piece)
    }

    /// What `find_part` does, said of what the decoder keeps.
    #[inline(always)]
    fn find_at_once(&mut self, ahead: &[u8], count: usize, is_piece: bool) -> Found<ItmEnd>
        requires ahead { count + AHEAD ≤ length ahead.now }
        ensures { Looked self.old self.new ahead.now count result }
    {
        if count > 0 && self.at_header {
            self.find_next(ahead, count, is_piece)
        } else {
            Found::Unknown
        }
    }

    /// Looks in the bytes that wait and those after them. Where they do not end a packet, they all wait.
    #[inline(always)]
    fn find_next(&mut self, ahead: &[u8], count: usize, is_piece: bool) -> Found<ItmEnd>
        requires some { 0 < count }
        requires ahead { count + AHEAD ≤ length ahead.now }
        requires header { self.old.at_header ≡ true }
        ensures { Looked self.old self.new ahead.now count result }
    {
        let next = next_in(ahead);
        if is_piece && self.waiting == 0 {
            return self.find_fresh(ahead, next, count);
        }
        let waiting = self.waiting;
        let word = self.word_with(next);
        match look_in(&word.to_le_bytes(), waiting + count, is_piece) {
            Found::Ends(end) => Found::Ends(ItmEnd {
                bytes: end.bytes - waiting,
                packet: end.packet,
            }),
            Found::Waits => {
                self.wait(word, waiting + count);
                Found::Waits
            }
            Found::Unknown => Found::Unknown,
        }
    }

    /// Looks in these bytes, of which `next` are the first, where none wait.
    #[inline(always)]
    fn find_fresh(&mut self, _ahead: &[u8], next: &[u8; AHEAD], count: usize) -> Found<ItmEnd>
        requires some { 0 < count }
        requires ahead { AHEAD ≤ length _ahead.now }
        requires next { next.now ≡ take AHEAD _ahead.now }
        requires header { self.old.at_header ≡ true }
        requires fresh { self.old.waiting ≡ 0 }
        ensures { Looked self.old self.new _ahead.now count result }
    {
        match look_in(next, count, true) {
            Found::Ends(end) => Found::Ends(end),
            Found::Waits => {
                let word = self.word_with(next);
                self.wait(word, count);
                Found::Waits
            }
            Found::Unknown => Found::Unknown,
        }
    }

    /// Lets the first `count` bytes of this word wait, in place of those that waited. They are within a packet.
    #[inline(always)]
    fn wait(&mut self, word: u64, count: usize)
        requires few { count < 8 }
        requires front { IsFrontOf (to_le_bytes w64 word) count }
        requires header { self.old.at_header ≡ true }
        ensures part { partial_of self.new ≡ reached Header (take count (to_le_bytes w64 word)) }
        ensures same { (self.new.mode ≡ self.old.mode) × (self.new.live ≡ self.old.live) }
    {
        self.waiting = count;
        self.held = word & first_bits(count);
    }

    /// Forgets the bytes that wait.
    #[inline(always)]
    fn forget(&mut self)
        ensures part { partial_of self.new ≡ self.old.partial }
        ensures same { (self.new.mode ≡ self.old.mode) × (self.new.live ≡ self.old.live) }
    {
        self.waiting = 0;
        self.held = 0;
    }

    /// Takes the packet that `find_part` found in these bytes, up to the one that ends it. It is live. What waited is
    /// forgotten, which is faster without a question, but in a piece, of which it is known that mostly no bytes wait.
    #[inline(always)]
    pub fn end_part(&mut self, _ahead: &[u8], end: ItmEnd, is_piece: bool) -> TakenAtOnce<ItmPacket>
        requires live { is_live self.old ≡ true }
        requires ends { EndsPart self.old _ahead.now end }
        ensures taken { result ≡ record { bytes = end.bytes; half = 0; item = Some end.packet } }
        ensures stays { Stays self.old self.new }
        ensures passes { (u front : List Placed) (last : Placed) → Stands self.old u →
            units_of (front ++ last ∷ []) ≡ take end.bytes _ahead.now →
            Passes (packets_in (is_hunter self.old)) (Stands self.new) u front last
            (item_at last.place.half (Some end.packet)) }
        ensures few { held_of self.new ≡ 0 }
    {
        if !is_piece || self.waiting > 0 {
            self.forget();
        }
        TakenAtOnce {
            bytes: end.bytes,
            half: 0,
            item: Some(end.packet),
        }
    }

    /// The bytes that wait and those after them, as a word of eight bytes.
    #[inline(always)]
    fn word_with(&self, next: &[u8; AHEAD]) -> u64
        ensures { to_le_bytes w64 result ≡ take 8 (waiting_in self.now ++ next.now) }
    {
        self.held + (u64::from_le_bytes(*next) << (8 * self.waiting as u32))
    }

    /// Takes these bytes, wherever they are: those within the unfinished packet up to the one that ends it, or all of
    /// them. It gives this packet at the last of those that it takes, or nothing where none ends.
    ///
    /// None says nothing of the bytes: in a hunt, of no bytes, and where the first of them is a fault. Then the decoder
    /// stands for what it stood for.
    #[inline(never)]
    pub fn take_part(&mut self, bytes: &[u8]) -> Option<TakenAtOnce<ItmPacket>>
        requires live { is_live self.old ≡ true }
        requires room { held_of self.old + length bytes.now ≤ COUNT_ROOM }
        ensures stays { Stays self.old self.new }
        ensures takes { IfSome result (TakesPart self.old self.new bytes.now) }
        ensures none { result ≡ None → Idles self.old self.new }
    {
        self.take_slowly(bytes)
    }

    /// Takes these bytes in a hunt, wherever they are, up to the first that ends its pattern, or all of them. Answers
    /// how many it took. They give nothing.
    #[inline(never)]
    pub fn skip_part(&mut self, bytes: &[u8]) -> usize
        requires live { is_live self.old ≡ true }
        requires room { skipped_by self.old + length bytes.now ≤ COUNT_ROOM }
        ensures stays { (packets_in (is_hunter self.new) ≡ packets_in (is_hunter self.old))
            × (is_live self.new ≡ true) }
        ensures bytes { result ≤ length bytes.now }
        ensures passes { (u front : List Placed) (last : Placed) → Stands self.old u →
            units_of (front ++ last ∷ []) ≡ take result bytes.now →
            Passes (packets_in (is_hunter self.old)) (Stands self.new) u front last None }
        ensures none { result ≡ 0 → Idles self.old self.new }
        ensures few { held_of self.new + skipped_by self.new ≤ held_of self.old + skipped_by self.old + result }
    {
        if let Mode::Hunting { run, skipped } = self.mode {
            let skip = skip_in(SYNC, run, bytes);
            self.mode = Mode::Hunting {
                run: skip.run,
                skipped: skipped + skip.bytes as u64,
            };
            return skip.bytes;
        }
        0
    }

    /// Takes these bytes one by one, or those of a synchronisation all at once.
    #[inline(always)]
    fn take_slowly(&mut self, bytes: &[u8]) -> Option<TakenAtOnce<ItmPacket>>
        requires room { held_of self.old + length bytes.now ≤ COUNT_ROOM }
        ensures { Took self.old self.new bytes.now (length bytes.now) result }
    {
        if !Mode::is_locked(self.mode) {
            return None;
        }
        match self.partial {
            Partial::Header if self.held == 0 => self.take_zeros(self.waiting as u64, bytes),
            Partial::Zeros(taken) => self.take_zeros(taken, bytes),
            _ => self.take_others(bytes),
        }
    }

    /// Takes these bytes after this many bytes 00, which are all that was taken of a packet.
    #[inline(always)]
    fn take_zeros(&mut self, taken: u64, bytes: &[u8]) -> Option<TakenAtOnce<ItmPacket>>
        requires locked { has_locked self.old ≡ true }
        requires room { held_of self.old + length bytes.now ≤ COUNT_ROOM }
        requires zeros { walk rule Header (replicate taken 0) ≡ Within (partial_of self.old) }
        ensures { Took self.old self.new bytes.now (length bytes.now) result }
    {
        let more = zeros_in(bytes);
        let zeros = taken + more as u64;
        if more == bytes.len() && more > 0 {
            self.keep(Partial::Zeros(zeros));
            Some(TakenAtOnce {
                bytes: more,
                half: 0,
                item: None,
            })
        } else if more < bytes.len() && bytes[more] == 0x80 && zeros >= 5 {
            self.keep(Partial::Header);
            Some(TakenAtOnce {
                bytes: more + 1,
                half: 0,
                item: Some(ItmPacket::Sync),
            })
        } else {
            self.take_others(bytes)
        }
    }

    /// Takes these bytes one by one.
    #[inline(never)]
    fn take_others(&mut self, bytes: &[u8]) -> Option<TakenAtOnce<ItmPacket>>
        requires locked { has_locked self.old ≡ true }
        requires room { held_of self.old + length bytes.now ≤ COUNT_ROOM }
        ensures { Took self.old self.new bytes.now (length bytes.now) result }
    {
        let cut = cut_packet(self.unfinished(), bytes);
        if cut.bytes == 0 {
            return None;
        }
        self.keep(cut.partial);
        Some(TakenAtOnce {
            bytes: cut.bytes,
            half: 0,
            item: cut.packet,
        })
    }

    /// Keeps this unfinished packet in place of the one that it kept, with no bytes that wait.
    #[inline(always)]
    fn keep(&mut self, partial: Partial)
        requires locked { has_locked self.old ≡ true }
        requires sound { is_sound partial ≡ true }
        ensures part { partial_of self.new ≡ partial }
        ensures same { (self.new.mode ≡ self.old.mode) × (self.new.live ≡ self.old.live) }
    {
        self.partial = partial;
        self.at_header = is_header(partial);
        self.waiting = 0;
        self.held = 0;
    }
}

/// No packet has begun.
#[inline(always)]
fn is_header(partial: Partial) -> bool
    ensures { result ≡ true → partial ≡ Header }
{
    match partial {
        Partial::Header => true,
        Partial::Zeros(_) | Partial::Payload { .. } => false,
    }
}

/// The first of these bytes, as many as are read at once. How many they are is known where the code is built, so that
/// nothing is tested.
#[inline(always)]
fn next_in(ahead: &[u8]) -> &[u8; AHEAD]
    requires { AHEAD ≤ length ahead.now }
    ensures { result.now ≡ take AHEAD ahead.now }
{
    ahead[..AHEAD].first_chunk::<AHEAD>().unwrap()
}

/// What the first `count` of these bytes are to a packet whose first byte is the first of them, be they of a piece or
/// not. What the bytes after the first `count` are is of no account.
#[inline(always)]
fn look_in(window: &[u8; WINDOW], count: usize, is_piece: bool) -> Found<ItmEnd>
    ensures { IsSeen window.now count result }
{
    match packet_in(window, is_piece) {
        InWindow::Packet { bytes, packet } if bytes <= count => Found::Ends(ItmEnd {
            bytes,
            packet,
        }),
        InWindow::Packet { .. } => Found::Waits,
        InWindow::Other => {
            if is_front(window, count) {
                Found::Waits
            } else {
                Found::Unknown
            }
        }
    }
}

impl Machine for ItmDecoder {
    ghost use Rattle.std.specs.Prelude.{refl, ◌+◌, ◌≤◌, ◌⊎◌, ◌∷◌, ◌++◌, [], List, All, take};
    ghost use Rattle.itm_codec.specs.Names.{Placed, byte_at, units_of, Grows, HasRoom, Tells, rule, count_of, Sync};
    ghost use Rattle.itm_codec.specs.Names.{Header, by_unit};
    ghost use Rattle.itm_codec.specs.Answers.{AnswersBy};
    ghost use Rattle.itm_codec.specs.Reading.{pattern, packets_in, rest_in};
    ghost use Rattle.itm_codec.specs.Decoder.{Stands, partial_of, is_hunter, is_live, has_locked, held_of, skipped_by};
    ghost use Rattle.trace_values.proofs.Modes as laws;
    ghost use Rattle.trace_values.proofs.Falls as falling;
    ghost use Rattle.itm_grammar.proofs.Counting as counting;

    type Item = ItmPacket;

    ghost reading = { λ m. packets_in (is_hunter m) };

    ghost stands = { Stands };

    ghost live = { is_live };

    ghost locked = { has_locked };

    ghost held_units = { held_of };

    ghost skipped_units = { skipped_by };

    ghost units_per_byte = { λ m. 1 };

    ghost fits = { IsProper };

    ghost shows = { λ m u s.
        laws.shows pattern Sync (by_unit rule) Header count_of refl counting.counts_placed
        m.mode m.live (partial_of m) u s };

    ghost begins = { λ m. laws.begins pattern Sync (by_unit rule) Header (is_hunter m) };

    ghost settles = { λ m u w e. laws.settles pattern Sync (by_unit rule) Header (is_hunter m) u w e };

    ghost rises = { λ m u at byte. laws.rises pattern Sync (by_unit rule) Header (is_hunter m) u at byte };

    ghost falls = { λ m u at byte f.
        falling.holds pattern Sync (by_unit rule) Header (is_hunter m) u (byte_at at byte) f };

    ghost keeps = { λ m u at byte s l f.
        falling.keeps_one pattern Sync (by_unit rule) Header count_of refl counting.counts_placed
        m.mode m.live (partial_of m) u (byte_at at byte) s l f };

    /// Takes the next byte. Beside what every machine says, its answer in a reading is the grammar's: an
    /// item exactly where the unfinished packet with this byte is a packet, a fault exactly where no
    /// packet begins so.
    #[inline]
    fn feed(&mut self, at: u64, byte: u8) -> Step<ItmPacket>
        requires live { is_live self.old ≡ true }
        requires room { HasRoom (held_of self.old) (skipped_by self.old) }
        ensures same { packets_in (is_hunter self.new) ≡ packets_in (is_hunter self.old) }
        ensures list { (u : List Placed) → Stands self.old u → Stands self.new (u ++ byte_at at byte ∷ []) }
        ensures step { (u : List Placed) → Stands self.old u →
            Grows (packets_in (is_hunter self.old) u)
            (packets_in (is_hunter self.old) (u ++ byte_at at byte ∷ [])) at result }
        ensures tells { Tells (is_live self.new) (skipped_by self.new) IsProper result }
        ensures few { held_of self.new + skipped_by self.new ≤ held_of self.old + skipped_by self.old + 2 }
        ensures grammar { (u : List Placed) → Stands self.old u → has_locked self.old ≡ true →
            AnswersBy result at (rest_in (is_hunter self.old) u ++ byte_at at byte ∷ []) }
    {
        if let Mode::Hunting { run, skipped } = self.mode {
            if SYNC.ends(run, byte) {
                let before = skipped - SYNC.most as u64;
                self.mode = Mode::Locked { skipped: before };
                self.at_header = is_header(self.partial);
                Step::Locked {
                    skipped: before,
                    half: 0,
                    item: ItmPacket::Sync,
                }
            } else {
                self.mode = Mode::Hunting {
                    run: SYNC.run_after(run, byte),
                    skipped: skipped + 1,
                };
                Step::Skipping
            }
        } else {
            let unfinished = self.unfinished();
            self.waiting = 0;
            self.held = 0;
            self.partial = unfinished;
            self.at_header = false;
            match unfinished.with_byte(byte) {
                Next::Go(partial) => {
                    self.partial = partial;
                    Step::Quiet
                }
                Next::End(packet) => {
                    self.partial = Partial::Header;
                    self.at_header = true;
                    Step::Item {
                        half: 0,
                        item: packet,
                    }
                }
                Next::Fail(reason) => {
                    self.live = false;
                    Step::Fault(Fault {
                        at,
                        half: 0,
                        reason,
                    })
                }
            }
        }
    }

    fn is_live(&self) -> bool {
        self.live
    }

    fn is_locked(&self) -> bool {
        self.mode.is_locked()
    }

    /// How many bytes of an unfinished packet it holds: at most 6, or all of them are 00. After a fault they are those
    /// before the fault's byte.
    fn held(&self) -> u64
        ensures count { result ≡ held_of self.now }
        ensures few { (u : List Placed) → Stands self.now u →
            (result ≤ 6) ⊎ All (λ b. b ≡ 0) (take result (units_of (rest_in (is_hunter self.now) u))) }
    {
        if self.waiting > 0 {
            self.waiting as u64
        } else {
            self.partial.len()
        }
    }

    fn skipped(&self) -> u64 {
        self.mode.skipped()
    }
}
