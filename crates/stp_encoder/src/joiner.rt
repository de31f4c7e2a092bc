//! Nibbles, joined in bytes.

ghost use Rattle.std.specs.Prelude.{◌≡◌, ◌<◌, ◌≤◌, ◌+◌, ◌*◌, ◌/◌, ◌%◌, ◌^◌, length};
ghost use Rattle.std.specs.Option.{ForSome};
ghost use Rattle.stp_encoder.specs.Names.{nibble_at};

use arrayvec::ArrayVec;
use stp_grammar::packet::{Order, Row, StpPacket};
use trace_clock::word_nibbles;

/// This nibble of a number, counted from the low end.
fn nibble_at(number: u64, place: u8) -> u8
    requires { place < 16 }
    ensures { result ≡ nibble_at number place }
{
    ((number >> (4 * place)) % 16) as u8
}

/// Joins nibbles in bytes, the low nibble of each first.
#[derive(Clone, Copy, Drop)]
pub(crate) struct Joiner {
    /// A low nibble, whose byte waits for the high one.
    low: Option<u8>,
    ghost nibble: { ForSome low (λ n. n < 16) },
}

impl Joiner {
    ghost use Rattle.std.specs.Prelude.{List, ℕ, [], ◌∷◌, ◌++◌, None, replicate, option_to_list, All};
    ghost use Rattle.stp_encoder.specs.Names.{line_of, IsProper, nibbles_of_number, short};
    ghost use Rattle.stp_encoder.specs.Bytes.{joined, filled, short_len};
    ghost use Rattle.stp_encoder.specs.Joined.{Joins, count_in};

    /// A joiner of no nibble.
    pub(crate) fn new() -> Joiner
        ensures { Joins result [] [] }
    {
        Joiner { low: None }
    }

    /// Puts one nibble, and appends the byte that it completes.
    fn put(&mut self, nibble: u8, out: &mut ArrayVec<u8, 24>)
        requires nibble { nibble < 16 }
        requires room { count_in self.old out.old.items < 49 }
        ensures joins { (n : List ℕ) → Joins self.old out.old.items n →
            Joins self.new out.new.items (n ++ nibble ∷ []) }
        ensures count { count_in self.new out.new.items ≡ count_in self.old out.old.items + 1 }
    {
        match self.low {
            None => self.low = Some(nibble),
            Some(low) => {
                out.push(low + 16 * nibble);
                self.low = None;
            }
        }
    }

    /// Puts these nibbles.
    fn put_all(&mut self, nibbles: &[u8], out: &mut ArrayVec<u8, 24>)
        requires nibbles { All (λ b. b < 16) nibbles.now }
        requires room { count_in self.old out.old.items + length nibbles.now ≤ 49 }
        ensures joins { (n : List ℕ) → Joins self.old out.old.items n →
            Joins self.new out.new.items (n ++ nibbles.now) }
        ensures count { count_in self.new out.new.items ≡ count_in self.old out.old.items + length nibbles.now }
    {
        for nibble in nibbles {
            self.put(*nibble, out);
        }
    }

    /// Puts this many nibbles of a number.
    fn put_number(&mut self, order: Order, count: u8, number: u64, out: &mut ArrayVec<u8, 24>)
        requires few { count ≤ 16 }
        requires fits { number < 16 ^ count }
        requires room { count_in self.old out.old.items + count ≤ 49 }
        ensures joins { (n : List ℕ) → Joins self.old out.old.items n →
            Joins self.new out.new.items (n ++ nibbles_of_number order count number) }
        ensures count { count_in self.new out.new.items ≡ count_in self.old out.old.items + count }
    {
        for i in 0..count {
            let place = match order {
                Order::Lsn => i,
                Order::Msn => count - 1 - i,
            };
            self.put(nibble_at(number, place), out);
        }
    }

    /// Puts the shortest ASYNC: 21 nibbles F, and then a nibble 0.
    fn put_async(&mut self, out: &mut ArrayVec<u8, 24>)
        requires room { count_in self.old out.old.items ≤ 27 }
        ensures joins { (n : List ℕ) → Joins self.old out.old.items n →
            Joins self.new out.new.items (n ++ (replicate 21 0xF ++ 0x0 ∷ [])) }
        ensures count { count_in self.new out.new.items ≡ count_in self.old out.old.items + 22 }
    {
        for _i in 0..21u8 {
            self.put(0xF, out);
        }
        self.put(0x0, out);
    }

    /// Puts a row's opcode and its payload.
    fn put_plain(&mut self, order: Order, row: Row, payload: u64, out: &mut ArrayVec<u8, 24>)
        requires fits { payload < 16 ^ (line_of row).payload }
        requires room { count_in self.old out.old.items ≤ 30 }
        ensures joins { (n : List ℕ) → Joins self.old out.old.items n → Joins self.new out.new.items
            (n ++ ((line_of row).opcode ++ nibbles_of_number order (line_of row).payload payload)) }
        ensures count { count_in self.new out.new.items ≡
            count_in self.old out.old.items + length (line_of row).opcode + (line_of row).payload }
    {
        self.put_all(row.opcode(), out);
        self.put_number(order, row.payload_nibbles(), payload, out);
    }

    /// Puts the shortest nibbles of a packet, at most 36.
    pub(crate) fn put_packet(&mut self, order: Order, packet: StpPacket, out: &mut ArrayVec<u8, 24>)
        requires proper { IsProper packet }
        requires room { count_in self.old out.old.items ≤ 13 }
        ensures joins { (n : List ℕ) → Joins self.old out.old.items n →
            Joins self.new out.new.items (n ++ short order packet) }
        ensures count { count_in self.new out.new.items ≡ count_in self.old out.old.items + short_len packet }
    {
        match packet {
            StpPacket::Async => self.put_async(out),
            StpPacket::Plain { row, payload } => self.put_plain(order, row, payload, out),
            StpPacket::Stamped {
                row,
                payload,
                size,
                word,
            } => {
                self.put_plain(order, row, payload, out);
                self.put(size, out);
                self.put_number(order, word_nibbles(size), word, out);
            }
        }
    }

    /// Appends the byte of a kept nibble, with a NULL above it, where there is one.
    pub(crate) fn flush(&mut self, out: &mut ArrayVec<u8, 24>)
        requires empty { out.old.items ≡ [] }
        ensures bytes { out.new.items ≡ joined (filled (option_to_list self.old.low)) }
        ensures none { self.new.low ≡ None }
    {
        if let Some(low) = self.low {
            out.push(low);
            self.low = None;
        }
    }
}
