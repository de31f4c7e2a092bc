//! The last bits of an open segment.

ghost use Rattle.std.specs.Prelude.{◌≡◌, ◌≤◌, ◌<◌, ◌^◌};
ghost use Rattle.port_slip.specs.Bits.{bits, bits_of};
ghost use Rattle.port_slip.specs.Runs.{IsWindow, RunsOn};

use crate::byte::{ones_last, run_over};
use arrayvec::ArrayVec;

/// The bits of an open segment that are not written: 32 to 39 of them, so that the beginning of the next segment would
/// be among them.
#[derive(Clone, Copy, Drop)]
pub struct BitWindow {
    /// How many bits there are.
    pub held: u8,
    /// The bits, the first of them as bit 0.
    pub kept: u64,
    /// How many ones end them; more than 31 count as 31.
    pub run: u8,
    ghost most: { held ≤ 39 },
    ghost fits: { kept < 2 ^ held },
    ghost sound: { IsWindow run (bits held kept) },
}

impl BitWindow {
    ghost use Rattle.std.specs.Prelude.{◌≢◌, ◌+◌, ◌-◌, ◌/◌, ◌∷◌, ◌++◌, [], List, ℕ, Bool, take, drop, true, false};
    ghost use Rattle.port_slip.specs.Bits.{ones, whole_bytes};
    ghost use Rattle.port_slip.specs.Runs.{is_quiet};
    ghost use Rattle.port_slip.specs.Coming.{kept_bits};
    ghost use Rattle.arrayvec.specs.ArrayVec.{array_vec_len};

    /// The bits from the first of the pattern on that ends in this byte, after so many ones of it.
    pub(crate) fn begun(byte: u8, count: u8) -> BitWindow
        requires byte { byte ≢ 255 }
        requires few { count ≤ 7 }
        requires parts { bits 8 byte ≡ ones count ++ (false ∷ bits (7 - count) (byte / 2 ^ (count + 1))) }
        ensures held { result.held ≡ 39 - count }
        ensures bits { kept_bits result ≡ ones 31 ++ (false ∷ bits (7 - count) (byte / 2 ^ (count + 1))) }
    {
        BitWindow {
            held: 39 - count,
            kept: 0x7FFF_FFFF + (u64::from(byte) >> (count + 1) << 32u32),
            run: ones_last(byte),
        }
    }

    /// The first byte of the bits.
    #[inline]
    pub(crate) fn first(self) -> u8
        ensures { (s : List Bool) → whole_bytes (take 8 (kept_bits self) ++ s) ≡ result ∷ whole_bytes s }
    {
        (self.kept % 256) as u8
    }

    /// The bits after that byte, with one more byte, in which no pattern ends.
    #[inline]
    pub(crate) fn passed(self, byte: u8) -> BitWindow
        requires { is_quiet self.run (bits 8 byte) ≡ true }
        ensures held { result.held ≡ self.held }
        ensures bits { kept_bits result ≡ drop 8 (kept_bits self ++ bits 8 byte) }
    {
        BitWindow {
            held: self.held,
            kept: (self.kept + (u64::from(byte) << self.held)) / 256,
            run: run_over(self.run, byte),
        }
    }

    /// The first eight bytes of the bits with eight more after them.
    #[inline]
    pub(crate) fn first_word(self, word: &[u8; 8]) -> [u8; 8]
        ensures { (s : List Bool) →
            whole_bytes (take 64 (kept_bits self ++ bits_of word.now) ++ s) ≡ result ++ whole_bytes s }
    {
        (self.kept + (u64::from_le_bytes(*word) << self.held)).to_le_bytes()
    }

    /// The bits after those, where no pattern ends in the eight bytes and this is the run at their end.
    #[inline]
    pub(crate) fn passed_word(self, word: &[u8; 8], run: u8) -> BitWindow
        requires { RunsOn self.run (bits_of word.now) run }
        ensures held { result.held ≡ self.held }
        ensures bits { kept_bits result ≡ drop 64 (kept_bits self ++ bits_of word.now) }
    {
        BitWindow {
            held: self.held,
            kept: u64::from_le_bytes(*word) >> (64 - self.held),
            run,
        }
    }

    /// Gives the whole bytes.
    pub(crate) fn give_whole(self, out: &mut ArrayVec<u8, 8>)
        requires { out.old.items ≡ [] }
        ensures bytes { out.new.items ≡ whole_bytes (kept_bits self) }
        ensures few { array_vec_len out.new ≤ 4 }
    {
        out.push((self.kept % 256) as u8);
        out.push((self.kept / 0x100 % 256) as u8);
        out.push((self.kept / 0x1_0000 % 256) as u8);
        out.push((self.kept / 0x100_0000 % 256) as u8);
    }
}
