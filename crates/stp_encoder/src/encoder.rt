//! The encoder of the items of a system trace.

use crate::fit::{is_unfit, place_of};
use crate::joiner::Joiner;
use crate::packet::{datum, plain, with_stamp};
use crate::telling::telling;
use arrayvec::ArrayVec;
use stp_grammar::attribution::Attribution;
use stp_grammar::item::{Place, Stamp, StpItem};
use stp_grammar::packet::{Order, Row, StpPacket};
use thiserror::Error;
use trace_clock::Stamps;

/// An item can't be written after those before it: its timestamp is of another version's kind, a number of its place is
/// absent, or it is a timestamp alone and has none.
#[derive(Clone, Copy, Debug, PartialEq, Eq, Drop, Error)]
#[error("the item does not fit what was written before it")]
pub struct Unfit {
    /// The version that the last VERSION named.
    pub version: Option<u8>,
}

/// Writes items as bytes. It keeps what the packets so far tell, and a nibble whose byte isn't whole. A copy goes on by
/// itself.
#[derive(Clone, Copy, Drop)]
pub struct StpEncoder {
    order: Order,
    attribution: Attribution,
    joiner: Joiner,
}

impl StpEncoder {
    ghost use Rattle.std.specs.Prelude.{◌≡◌, ◌≤◌, ◌+◌, ℕ, List, [], ◌∷◌, ◌++◌, length, if◌then◌else◌};
    ghost use Rattle.std.specs.Prelude.{option_map, option_to_list, is_err};
    ghost use Rattle.std.specs.Option.{ForSome};
    ghost use Rattle.std.specs.Result.{IfErr, OnOk};
    ghost use Rattle.stp_encoder.specs.Names.{gray_of, sized, WordFits, StpPacket, StpItem, last_word_of, IsProper};
    ghost use Rattle.stp_encoder.specs.Names.{IsProperItem, IsProperStamp, short};
    ghost use Rattle.stp_grammar.specs.Attributed as attributed;
    ghost use Rattle.stp_encoder.specs.Fitting.{version_after, is_unfit};
    ghost use Rattle.stp_encoder.specs.Puts.{Put, Of, Flush, items_in};
    ghost use Rattle.stp_encoder.specs.Packets.{telling_place, packets_with, shortest_stamp};
    ghost use Rattle.stp_encoder.specs.Packets.{packed_stamp, own_packet};
    ghost use Rattle.stp_encoder.specs.Bytes.{short_len, spelled, written, encoded, put_bytes, end_bytes};
    ghost use Rattle.stp_encoder.specs.Encoder.{Stands, IsAt, count_with, order_of, version_in_force};

    /// An encoder of no item, which writes numbers in this order of their nibbles.
    pub fn new(order: Order) -> StpEncoder
        ensures list { Stands result [] }
        ensures order { order_of result ≡ order }
    {
        StpEncoder {
            order,
            attribution: Attribution::new(),
            joiner: Joiner::new(),
        }
    }

    /// The version that the last VERSION named.
    pub fn version(&self) -> Option<u8>
        ensures kept { result ≡ version_in_force self.now }
        ensures list { (puts : List Put) → Stands self.now puts → result ≡ version_after (items_in puts) }
    {
        self.attribution.version()
    }

    /// The least size, and its word, with which a timestamp tells this time, natural or as a Gray number.
    fn least_stamp(&self, gray: bool, time: u64) -> (u8, u64)
        ensures least { (packets : List StpPacket) → attributed.Stands self.now.attribution packets →
            sized result.0 result.1 ≡
            shortest_stamp (last_word_of packets) (if gray then gray_of time else time) }
        ensures fits { WordFits result.0 result.1 }
    {
        let mut stamps = Stamps::new(gray);
        stamps.apply(14, self.attribution.last_word());
        stamps.least(time)
    }

    /// The size and the word of a timestamp.
    fn packed_stamp(&self, stamp: Stamp) -> Option<(u8, u64)>
        requires proper { IsProperStamp stamp }
        ensures stamp { (packets : List StpPacket) → attributed.Stands self.now.attribution packets →
            option_map (λ x. sized x.0 x.1) result ≡ packed_stamp packets stamp }
        ensures fits { ForSome result (λ x. WordFits x.0 x.1) }
    {
        match stamp {
            Stamp::None => None,
            Stamp::Natural(time) => Some(self.least_stamp(false, time)),
            Stamp::Gray(time) => Some(self.least_stamp(true, time)),
            Stamp::Raw { size, word } => Some((size, word)),
        }
    }

    /// The packet of an item alone, where its place is in force.
    fn own_packet(&self, item: &StpItem) -> StpPacket
        requires proper { IsProperItem item.now }
        ensures packet { (packets : List StpPacket) → attributed.Stands self.now.attribution packets →
            result ≡ own_packet packets item.now }
        ensures proper { IsProper result }
    {
        match *item {
            StpItem::Async => StpPacket::Async,
            StpItem::Version(version) => plain(Row::Version, u64::from(version)),
            StpItem::MasterError { code, .. } => plain(Row::MasterError, u64::from(code)),
            StpItem::GlobalError { code } => plain(Row::GlobalError, u64::from(code)),
            StpItem::Datum {
                width,
                value,
                marked,
                stamp,
                ..
            } => with_stamp(
                datum(width, marked, false),
                datum(width, marked, true),
                value,
                self.packed_stamp(stamp),
            ),
            StpItem::Flag { stamp, .. } => with_stamp(
                Row::Flag { stamped: false },
                Row::Flag { stamped: true },
                0,
                self.packed_stamp(stamp),
            ),
            StpItem::Trigger { code, stamp } => with_stamp(
                Row::Trigger { stamped: false },
                Row::Trigger { stamped: true },
                u64::from(code),
                self.packed_stamp(stamp),
            ),
            StpItem::Frequency { hertz, stamp } => with_stamp(
                Row::Frequency { stamped: false },
                Row::Frequency { stamped: true },
                u64::from(hertz),
                self.packed_stamp(stamp),
            ),
            StpItem::NullStamp { stamp } => with_stamp(
                Row::NullStamp,
                Row::NullStamp,
                0,
                self.packed_stamp(stamp),
            ),
        }
    }

    /// Writes a packet, and keeps what it tells.
    fn put_packet(&mut self, packet: StpPacket, out: &mut ArrayVec<u8, 24>)
        requires proper { IsProper packet }
        requires room { count_with self.old out.old.items ≤ 13 }
        ensures order { order_of self.new ≡ order_of self.old }
        ensures at { (packets : List StpPacket) (n : List ℕ) → IsAt self.old out.old.items packets n →
            IsAt self.new out.new.items (packets ++ packet ∷ []) (n ++ short (order_of self.old) packet) }
        ensures count { count_with self.new out.new.items ≡ count_with self.old out.old.items + short_len packet }
    {
        self.joiner.put_packet(self.order, packet, out);
        self.attribution.take(packet);
    }

    /// Writes a packet, if there is one.
    fn put_told(&mut self, told: Option<StpPacket>, out: &mut ArrayVec<u8, 24>)
        requires proper { ForSome told IsProper }
        requires few { ForSome told (λ p. short_len p ≤ 6) }
        requires room { count_with self.old out.old.items ≤ 7 }
        ensures order { order_of self.new ≡ order_of self.old }
        ensures at { (packets : List StpPacket) (n : List ℕ) → IsAt self.old out.old.items packets n →
            IsAt self.new out.new.items (packets ++ option_to_list told)
            (n ++ spelled (order_of self.old) (option_to_list told)) }
        ensures count { count_with self.new out.new.items ≤ count_with self.old out.old.items + 6 }
    {
        if let Some(packet) = told {
            self.put_packet(packet, out);
        }
    }

    /// Writes the packets that make this place, if there is one, the one in force.
    fn put_place(&mut self, place: Option<Place>, out: &mut ArrayVec<u8, 24>)
        requires room { count_with self.old out.old.items ≤ 1 }
        ensures order { order_of self.new ≡ order_of self.old }
        ensures at { (packets : List StpPacket) (n : List ℕ) → IsAt self.old out.old.items packets n →
            let told = telling_place packets place in
            IsAt self.new out.new.items (packets ++ told) (n ++ spelled (order_of self.old) told) }
        ensures count { count_with self.new out.new.items ≤ 13 }
    {
        let Some(place) = place else {
            return;
        };
        let known = self.attribution.place().master;
        let master = telling(Row::Master8, Row::Master16, known, place.master);
        self.put_told(master, out);
        let known = self.attribution.place().channel;
        let channel = telling(Row::Channel8, Row::Channel16, known, place.channel);
        self.put_told(channel, out);
    }

    /// Writes the packets of an item that fits.
    fn put_packets(&mut self, item: &StpItem, out: &mut ArrayVec<u8, 24>)
        requires proper { IsProperItem item.now }
        requires room { count_with self.old out.old.items ≤ 1 }
        ensures order { order_of self.new ≡ order_of self.old }
        ensures at { (packets : List StpPacket) (n : List ℕ) → IsAt self.old out.old.items packets n →
            let more = packets_with packets item.now in
            IsAt self.new out.new.items (packets ++ more) (n ++ spelled (order_of self.old) more) }
    {
        self.put_place(place_of(item), out);
        let packet = self.own_packet(item);
        self.put_packet(packet, out);
    }

    /// Writes the packets of an item, at most 24 bytes, into `out`, which is empty: those that make its place the one
    /// in force, and its own. An odd last nibble is kept for the next call.
    ///
    /// The item must be proper, as `stp_grammar::proper::is_proper_stp` tells.
    ///
    /// # Errors
    ///
    /// `Unfit` exactly where the timestamp's kind isn't that of the version in force (`Natural` for version 3, `Gray`
    /// for 4, `Raw` for any other or none), a place's master or channel is absent, or a `NullStamp` has no timestamp.
    /// Then the encoder and `out` are as before.
    pub fn put(&mut self, item: &StpItem, out: &mut ArrayVec<u8, 24>) -> Result<(), Unfit>
        requires proper { IsProperItem item.now }
        requires empty { out.old.items ≡ [] }
        ensures order { order_of self.new ≡ order_of self.old }
        ensures cause { is_err result ≡ is_unfit (version_in_force self.old) item.now }
        ensures fits { (puts : List Put) → Stands self.old puts →
            is_err result ≡ is_unfit (version_after (items_in puts)) item.now }
        ensures same { IfErr result (λ e. (self.new ≡ self.old) × (out.new ≡ out.old)
            × (e.version ≡ version_in_force self.old)) }
        ensures list { (puts : List Put) → Stands self.old puts →
            OnOk result (Stands self.new (puts ++ Of item.now ∷ [])) }
        ensures bytes { (puts : List Put) → Stands self.old puts →
            OnOk result (out.new.items ≡ put_bytes (order_of self.old) puts item.now) }
        ensures written { (puts : List Put) → Stands self.old puts →
            OnOk result (written (order_of self.old) (puts ++ Of item.now ∷ []) ≡
            written (order_of self.old) puts ++ out.new.items) }
    {
        let version = self.version();
        if is_unfit(version, item) {
            return Err(Unfit { version });
        }
        self.put_packets(item, out);
        Ok(())
    }

    /// Makes the bytes so far whole: writes a kept nibble with a NULL above it into `out`, which is empty, or nothing
    /// where none is kept. The version, the place and the last timestamp in force stay, so that the next item has
    /// the packets that it would have without a flush.
    pub fn flush(&mut self, out: &mut ArrayVec<u8, 24>)
        requires empty { out.old.items ≡ [] }
        ensures order { order_of self.new ≡ order_of self.old }
        ensures version { version_in_force self.new ≡ version_in_force self.old }
        ensures list { (puts : List Put) → Stands self.old puts → Stands self.new (puts ++ Flush ∷ []) }
        ensures bytes { (puts : List Put) → Stands self.old puts →
            out.new.items ≡ end_bytes (order_of self.old) puts }
        ensures written { (puts : List Put) → Stands self.old puts →
            written (order_of self.old) (puts ++ Flush ∷ []) ≡ written (order_of self.old) puts ++ out.new.items }
        ensures few { length out.new.items ≤ 1 }
    {
        self.joiner.flush(out);
    }

    /// Writes the end of the bytes into `out`, which is empty: what `flush` would write.
    pub fn finish(mut self, out: &mut ArrayVec<u8, 24>)
        requires empty { out.old.items ≡ [] }
        ensures bytes { (puts : List Put) → Stands self puts → out.new.items ≡ end_bytes (order_of self) puts }
        ensures encoded { (puts : List Put) → Stands self puts →
            encoded (order_of self) puts ≡ written (order_of self) puts ++ out.new.items }
        ensures few { length out.new.items ≤ 1 }
    {
        self.flush(out);
    }
}
