//! Laws of what is written, over its definitions alone.

ghost use Rattle.std.specs.Prelude.{◌≡◌, ◌<◌, ◌^◌, ℕ, List, [], ◌∷◌, ◌++◌, replicate, All, Some, false, true};
ghost use Rattle.stp_encoder.specs.Names.{Placed, units_of, nibbles_of, SizedWord, IsLeast, Order, StpPacket, Natural};
ghost use Rattle.stp_encoder.specs.Names.{Gray, StpItem, version_of, IsProperItem};
ghost use Rattle.stp_encoder.specs.Fitting.{version_after, is_unfit, AreFitting};
ghost use Rattle.stp_encoder.specs.Puts.{Put, Of, Flush, items_in};
ghost use Rattle.stp_encoder.specs.Packets.{stamps_since, packed_stamp, packets_with, packets_for};
ghost use Rattle.stp_encoder.specs.Bytes.{nibbles_for, written, encoded, put_bytes, end_bytes};
ghost use Rattle.stp_encoder.specs.ReadBack.{ReadsBack};

use stp_grammar::packet::Order;

/// What is written reads back, from its first nibble on and at whatever places: the nibbles for items with any flushes
/// between them, followed by any number of NULLs, and the bytes with their end, are exactly the items, since a NULL is
/// no item.
pub fn read_back_law(order: Order)
    ensures nibbles { (puts : List Put) → AreFitting (items_in puts) → (fill : ℕ) (n : List Placed) →
        units_of n ≡ nibbles_for order puts ++ replicate fill 0x0 → ReadsBack order (items_in puts) n }
    ensures bytes { (puts : List Put) → AreFitting (items_in puts) → (u : List Placed) →
        units_of u ≡ encoded order puts → ReadsBack order (items_in puts) (nibbles_of u) }
{}

/// No items are fitting ones, and so are fitting ones with one more, where it is proper and not unfit under the version
/// that they named last. A front of fitting ones is fitting.
pub fn fitting_law()
    ensures none { AreFitting [] }
    ensures more { (items : List StpItem) (item : StpItem) → AreFitting items → IsProperItem item →
        is_unfit (version_after items) item ≡ false → AreFitting (items ++ item ∷ []) }
    ensures front { (items more : List StpItem) → AreFitting (items ++ more) → AreFitting items }
{}

/// One more item adds its packets, by the packets before it, and its bytes, and a flush adds what the end would add.
/// With the end the bytes are whole, and what is written is a front of the bytes for each longer list.
pub fn growth_law()
    ensures no_packet { packets_for [] ≡ [] }
    ensures packets { (items : List StpItem) (item : StpItem) →
        packets_for (items ++ item ∷ []) ≡ packets_for items ++ packets_with (packets_for items) item }
    ensures nothing { (order : Order) → written order [] ≡ [] }
    ensures written { (order : Order) (puts : List Put) (item : StpItem) →
        written order (puts ++ Of item ∷ []) ≡ written order puts ++ put_bytes order puts item }
    ensures flushed { (order : Order) (puts : List Put) →
        written order (puts ++ Flush ∷ []) ≡ written order puts ++ end_bytes order puts }
    ensures encoded { (order : Order) (puts : List Put) →
        encoded order puts ≡ written order puts ++ end_bytes order puts }
    ensures front { (order : Order) (puts more : List Put) →
        (rest : List ℕ) × (encoded order (puts ++ more) ≡ written order puts ++ rest) }
    ensures bytes { (order : Order) (puts : List Put) → AreFitting (items_in puts) →
        All (λ b. b < 256) (encoded order puts) }
{}

/// The packets for items tell the version that the items named last.
pub fn version_law()
    ensures { (items : List StpItem) → version_of (packets_for items) ≡ version_after items }
{}

/// Under version 3 a time is told by the least timestamp that tells it after those since the last VERSION, and under
/// version 4 by the least one whose words are Gray numbers.
pub fn least_law()
    ensures natural { (packets : List StpPacket) (time : ℕ) (stamp : SizedWord) → version_of packets ≡ Some 3 →
        time < 2 ^ 64 → packed_stamp packets (Natural time) ≡ Some stamp →
        IsLeast false (stamps_since packets) time stamp.size stamp.word }
    ensures gray { (packets : List StpPacket) (time : ℕ) (stamp : SizedWord) → version_of packets ≡ Some 4 →
        time < 2 ^ 64 → packed_stamp packets (Gray time) ≡ Some stamp →
        IsLeast true (stamps_since packets) time stamp.size stamp.word }
{}
