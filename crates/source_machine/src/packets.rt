//! What finds the packets of a source in bytes that are there.

ghost use Rattle.std.specs.Prelude.{◌≡◌, ◌+◌, ◌*◌, ◌<◌, ◌≤◌, ◌++◌, ◌∷◌, [], ℕ, List, IfSome, length, take, true, false};
ghost use Rattle.std.specs.Prelude.{None, is_none};
ghost use Rattle.source_machine.specs.Names.{PacketFits, Packet, SourceKind, Placed, byte_at, Stream, Grows, HasRoom};
ghost use Rattle.source_machine.specs.Names.{Rises, Settled, Shows, TakesNone, Tells, item_at, COUNT_ROOM};
ghost use Rattle.source_machine.specs.Finding.{PassesOver, ToldFits, told_by, told_in};
ghost use Rattle.source_machine.specs.Units.{ReadsAlike};
ghost use Rattle.source_machine.specs.declared.machine.SourceMachine.{SourceMachine};
ghost use Rattle.source_machine.specs.declared.machine.TheConstants.{AHEAD};
ghost use Rattle.trace_values.specs.declared.taking.Found.TheVariants.{Ends, Waits, Unknown};

use crate::machine::{AHEAD, itm_step, stp_step};
use itm_codec::{ItmDecoder, ItmEnd};
use itm_grammar::packet::ItmPacket;
use source_events::{Packet, SourceKind};
use stp_codec::{PacketParts, StpDecoder};
use stp_grammar::said::Said;
use trace_values::{Found, Machine, Step, TakenAtOnce};

/// What a packet says.
#[derive(Clone, Copy, Drop)]
pub enum Told {
    /// An ITM packet.
    Itm(ItmPacket),
    /// What an STP packet says that has an item.
    Stp(Said),
}

/// A machine of one protocol that finds packets in bytes that are there, wherever they are.
///
/// `find` looks in them. What it finds `end` takes, and what it does not tell `take` reads; of bytes of which that says
/// nothing, `step` takes one.
pub trait Finds: Machine {
    /// A packet that was found.
    type Parts;

    /// What a list of bytes reads as, with its items as packets of sources.
    ghost reads: { Self → List Placed → Stream Packet };

    /// The kind of source that it reads.
    ghost kind: { SourceKind };

    /// The machine of a source that it is.
    ghost source: { Self → SourceMachine };

    /// These bytes end the unfinished packet, as these parts say.
    ghost ends: { Self → List ℕ → Self.Parts → Type 0 };

    /// How many bytes it takes.
    ghost bytes_in: { Self.Parts → ℕ };

    /// The kind of source that it reads.
    fn kind(&self) -> SourceKind
        ensures { result ≡ kind };

    /// Looks for the end of the unfinished packet in the first `count` of these bytes. A packet that ends is not taken.
    /// Where it ends after them, they are all taken. What the bytes after the first `count` are is of no account.
    ///
    /// It is quick: `Unknown` says nothing of the bytes. The answer is the same whether they are a piece or not, of
    /// which mostly no bytes wait.
    fn find(&mut self, ahead: &[u8], count: usize, is_piece: bool) -> Found<Self::Parts>
        requires live { Self.live self.old ≡ true }
        requires ahead { count + AHEAD ≤ length ahead.now }
        ensures same { reads self.new ≡ reads self.old }
        ensures alike { ReadsAlike (source self.old) (source self.new) }
        ensures live { Self.live self.new ≡ true }
        ensures ends { (parts : Self.Parts) → result ≡ Ends parts →
            ends self.new ahead.now parts × (0 < bytes_in parts) × (bytes_in parts ≤ count) }
        ensures waits { result ≡ Waits →
            PassesOver (reads self.old) (Self.stands self.old) (Self.stands self.new) (take count ahead.now) None }
        ensures few { result ≡ Waits → (0 < count) × (Self.held_units self.new + Self.skipped_units self.new ≤
            Self.held_units self.old + Self.skipped_units self.old + 2 * count) }
        ensures idles { (result ≡ Waits → ⊥) →
            TakesNone Self.stands Self.held_units Self.skipped_units self.old self.new };

    /// Takes the packet that `find` found in these bytes, up to the one in which it ends, with all of that byte. What
    /// it does is the same whether they are a piece or not.
    fn end(&mut self, ahead: &[u8], parts: Self::Parts, is_piece: bool) -> TakenAtOnce<Told>
        requires live { Self.live self.old ≡ true }
        requires ends { ends self.old ahead.now parts }
        ensures same { reads self.new ≡ reads self.old }
        ensures alike { ReadsAlike (source self.old) (source self.new) }
        ensures live { Self.live self.new ≡ true }
        ensures bytes { (0 < result.bytes) × (result.bytes ≤ bytes_in parts) }
        ensures passes { PassesOver (reads self.old) (Self.stands self.old) (Self.stands self.new)
            (take result.bytes ahead.now) (told_in result.half result.item) }
        ensures fits { IfSome result.item (λ told. ToldFits told × (told_by told ≡ kind)) }
        ensures few { Self.held_units self.new + Self.skipped_units self.new ≤
            Self.held_units self.old + Self.skipped_units self.old + 2 * result.bytes };

    /// Takes bytes: those within the unfinished packet up to the one in which it ends, with all of that byte, or all of
    /// them; in a hunt those up to the first that ends its pattern. Where `find` knows what they are, that is faster.
    ///
    /// None says nothing of the bytes: then it stands for what it stood for.
    fn take(&mut self, bytes: &[u8]) -> Option<TakenAtOnce<Packet>>
        requires live { Self.live self.old ≡ true }
        requires room { Self.held_units self.old + Self.skipped_units self.old + 2 * length bytes.now ≤ COUNT_ROOM }
        ensures same { reads self.new ≡ reads self.old }
        ensures alike { ReadsAlike (source self.old) (source self.new) }
        ensures live { Self.live self.new ≡ true }
        ensures bytes { IfSome result (λ taken. (0 < taken.bytes) × (taken.bytes ≤ length bytes.now)
            × IfSome taken.item PacketFits) }
        ensures passes { IfSome result (λ taken. PassesOver (reads self.old) (Self.stands self.old)
            (Self.stands self.new) (take taken.bytes bytes.now) (item_at taken.half taken.item)) }
        ensures few { IfSome result (λ taken. Self.held_units self.new + Self.skipped_units self.new ≤
            Self.held_units self.old + Self.skipped_units self.old + 2 * taken.bytes) }
        ensures none { result ≡ None →
            TakesNone Self.stands Self.held_units Self.skipped_units self.old self.new };

    /// Takes the next byte, as `feed` does, with its item as a packet.
    fn step(&mut self, at: u64, byte: u8) -> Step<Packet>
        requires live { Self.live self.old ≡ true }
        requires room { HasRoom (Self.held_units self.old) (Self.skipped_units self.old) }
        ensures same { reads self.new ≡ reads self.old }
        ensures list { (u : List Placed) → Self.stands self.old u → Self.stands self.new (u ++ byte_at at byte ∷ []) }
        ensures step { (u : List Placed) → Self.stands self.old u →
            Grows (reads self.old u) (reads self.old (u ++ byte_at at byte ∷ [])) at result }
        ensures tells { Tells (Self.live self.new) (Self.skipped_units self.new) PacketFits result }
        ensures few { Self.held_units self.new + Self.skipped_units self.new ≤
            Self.held_units self.old + Self.skipped_units self.old + 2 };

    /// What it shows is what the reading of its list has.
    ghost reads_shows: { (m : Self) (u : List Placed) → Self.stands m u →
        Shows (Self.live m) (Self.locked m) (Self.held_units m) (Self.skipped_units m) (length u) (reads m u) };

    /// A fault is the end of a reading.
    ghost reads_settles: { (m : Self) (u w : List Placed) → is_none (reads m u).fault ≡ false →
        Settled (reads m u) (reads m (u ++ w)) };

    /// With one more byte there is more, and what is more is at that byte.
    ghost reads_rises: { (m : Self) (u : List Placed) (at byte : ℕ) →
        Rises (reads m u) (reads m (u ++ byte_at at byte ∷ [])) at };
}

/// Takes bytes at once by a decoder of this kind, as a machine of sources does. Those before its reading end in `half`.
macro_rules! take_packets {
    ($decoder:expr, $bytes:expr, $half:expr, $kind:ident) => {
        if $decoder.is_locked() {
            match $decoder.take_part($bytes) {
                None => None,
                Some(taken) => Some(TakenAtOnce {
                    bytes: taken.bytes,
                    half: taken.half,
                    item: match taken.item {
                        None => None,
                        Some(item) => Some(Packet::$kind(item)),
                    },
                }),
            }
        } else {
            match $decoder.skip_part($bytes) {
                0 => None,
                bytes => Some(TakenAtOnce {
                    bytes,
                    half: $half,
                    item: None,
                }),
            }
        }
    };
}

#[tactic(auto, using(crate::proofs::Reading::itm_same, crate::proofs::Reading::itm_alike))]
impl Finds for ItmDecoder {
    ghost use Rattle.itm_codec.specs.Parts.{EndsPart};
    ghost use Rattle.source_events.specs.declared.plan.SourceKind.TheVariants.{Itm as ItmKind};
    ghost use Rattle.source_machine.specs.Finding.{itm_bytes};
    ghost use Rattle.source_machine.specs.Machine.{reading_of};
    ghost use Rattle.source_machine.specs.MachineLaws as laws;
    ghost use Rattle.source_machine.specs.declared.machine.SourceMachine.TheVariants.{Itm as ItmSource};

    type Parts = ItmEnd;

    ghost reads = { λ m. reading_of (ItmSource m) };

    ghost kind = { ItmKind };

    ghost source = { λ m. ItmSource m };

    ghost ends = { EndsPart };

    ghost bytes_in = { itm_bytes };

    ghost reads_shows = { λ m. laws.shows (ItmSource m) };

    ghost reads_settles = { λ m. laws.settles (ItmSource m) };

    ghost reads_rises = { λ m. laws.rises (ItmSource m) };

    #[inline(always)]
    fn kind(&self) -> SourceKind {
        SourceKind::Itm
    }

    #[inline(always)]
    fn find(&mut self, ahead: &[u8], count: usize, is_piece: bool) -> Found<ItmEnd> {
        self.find_part(ahead, count, is_piece)
    }

    #[inline(always)]
    fn end(&mut self, ahead: &[u8], parts: ItmEnd, is_piece: bool) -> TakenAtOnce<Told> {
        let taken = self.end_part(ahead, parts, is_piece);
        TakenAtOnce {
            bytes: taken.bytes,
            half: taken.half,
            item: Some(Told::Itm(parts.packet)),
        }
    }

    #[inline(always)]
    fn take(&mut self, bytes: &[u8]) -> Option<TakenAtOnce<Packet>> {
        take_packets!(self, bytes, 0, Itm)
    }

    #[inline(always)]
    fn step(&mut self, at: u64, byte: u8) -> Step<Packet> {
        itm_step(self.feed(at, byte))
    }
}

#[tactic(auto, using(crate::proofs::Reading::stp_same, crate::proofs::Reading::stp_alike))]
impl Finds for StpDecoder {
    ghost use Rattle.source_events.specs.declared.plan.SourceKind.TheVariants.{Stp as StpKind};
    ghost use Rattle.source_machine.specs.Finding.{stp_bytes};
    ghost use Rattle.source_machine.specs.Machine.{reading_of};
    ghost use Rattle.source_machine.specs.MachineLaws as laws;
    ghost use Rattle.source_machine.specs.declared.machine.SourceMachine.TheVariants.{Stp as StpSource};
    ghost use Rattle.source_machine.specs.Names.{FinishesParts};

    type Parts = PacketParts;

    ghost reads = { λ m. reading_of (StpSource m) };

    ghost kind = { StpKind };

    ghost source = { λ m. StpSource m };

    ghost ends = { FinishesParts };

    ghost bytes_in = { stp_bytes };

    ghost reads_shows = { λ m. laws.shows (StpSource m) };

    ghost reads_settles = { λ m. laws.settles (StpSource m) };

    ghost reads_rises = { λ m. laws.rises (StpSource m) };

    #[inline(always)]
    fn kind(&self) -> SourceKind {
        SourceKind::Stp
    }

    #[inline(always)]
    fn find(&mut self, ahead: &[u8], count: usize, _is_piece: bool) -> Found<PacketParts> {
        self.find_part(ahead, count)
    }

    #[inline(always)]
    fn end(&mut self, ahead: &[u8], parts: PacketParts, _is_piece: bool) -> TakenAtOnce<Told> {
        let taken = self.end_part(ahead, parts);
        TakenAtOnce {
            bytes: taken.bytes,
            half: taken.half,
            item: if taken.said.has_item() {
                Some(Told::Stp(taken.said))
            } else {
                None
            },
        }
    }

    #[inline(always)]
    fn take(&mut self, bytes: &[u8]) -> Option<TakenAtOnce<Packet>> {
        take_packets!(self, bytes, 1, Stp)
    }

    #[inline(always)]
    fn step(&mut self, at: u64, byte: u8) -> Step<Packet> {
        stp_step(self.feed(at, byte))
    }
}
