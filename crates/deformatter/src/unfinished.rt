//! The frame whose halfwords are not all there yet.

ghost use Rattle.std.specs.Prelude.{◌≡◌, ◌≢◌, ℕ, ◌+◌, ◌*◌, ◌<◌, ◌≤◌, length, slice_index};
ghost use Rattle.deformatter.specs.Names.{COUNT_ROOM, FRAME_BYTES};

use arrayvec::ArrayVec;
use frame_grammar::frame::{FRAME_BYTES, cells_of};
use trace_values::{Cell, SourceId};

/// A frame's bytes so far, with their offsets, and how many half synchronisations are between them.
#[derive(Drop)]
pub struct Unfinished {
    bytes: [u8; FRAME_BYTES],
    offsets: [u64; FRAME_BYTES],
    /// How many of the bytes are there.
    len: usize,
    halves: u64,
    ghost in_range: { len ≤ FRAME_BYTES },
    ghost sizes: { (length bytes ≡ FRAME_BYTES) × (length offsets ≡ FRAME_BYTES) },
    ghost proper: { (k : ℕ) → 2 * k < len → slice_index bytes (2 * k) ≢ 255 },
    ghost few: { halves ≤ COUNT_ROOM },
}

impl Unfinished {
    ghost use Rattle.std.specs.Prelude.{[], ◌∷◌, ◌++◌, ◌==◌, ◌%◌};
    ghost use Rattle.deformatter.specs.Names.{byte_at, units_of, cells, id_after, offsets_of};
    ghost use Rattle.deformatter.specs.Unfinished.{placed_of, len_of, halves_of};

    /// A frame of no bytes.
    pub fn new() -> Unfinished
        ensures len { len_of result ≡ 0 }
        ensures halves { halves_of result ≡ 0 }
        ensures placed { placed_of result ≡ [] }
    {
        Unfinished {
            bytes: [0; FRAME_BYTES],
            offsets: [0; FRAME_BYTES],
            len: 0,
            halves: 0,
        }
    }

    #[inline]
    pub fn len(&self) -> usize
        ensures { result ≡ len_of self.now }
    {
        self.len
    }

    #[inline]
    pub fn is_empty(&self) -> bool
        ensures { result ≡ (len_of self.now == 0) }
    {
        self.len == 0
    }

    /// All bytes are there.
    #[inline]
    pub fn is_whole(&self) -> bool
        ensures { result ≡ (len_of self.now == FRAME_BYTES) }
    {
        self.len == FRAME_BYTES
    }

    /// How many half synchronisations are between the bytes.
    #[inline]
    pub fn halves(&self) -> u64
        ensures value { result ≡ halves_of self.now }
        ensures few { result ≤ COUNT_ROOM }
    {
        self.halves
    }

    /// Takes a halfword, whose bytes are at these offsets.
    #[inline]
    pub fn add(&mut self, first_at: u64, first: u8, at: u64, second: u8)
        requires proper { first ≢ 255 }
        requires room { len_of self.old ≤ 14 }
        requires even { len_of self.old % 2 ≡ 0 }
        ensures placed { placed_of self.new ≡ placed_of self.old
            ++ (byte_at first_at first ∷ (byte_at at second ∷ [])) }
        ensures len { len_of self.new ≡ len_of self.old + 2 }
        ensures halves { halves_of self.new ≡ halves_of self.old }
    {
        let len = self.len;
        self.bytes[len] = first;
        self.bytes[len + 1] = second;
        self.offsets[len] = first_at;
        self.offsets[len + 1] = at;
        self.len = len + 2;
    }

    /// Takes a half synchronisation.
    #[inline]
    pub fn add_half(&mut self)
        requires { halves_of self.old < COUNT_ROOM }
        ensures placed { placed_of self.new ≡ placed_of self.old }
        ensures len { len_of self.new ≡ len_of self.old }
        ensures halves { halves_of self.new ≡ halves_of self.old + 1 }
    {
        self.halves += 1;
    }

    /// Puts the cells of the whole frame into `out`, gives the ID after it, and begins the next frame.
    #[inline]
    pub fn finish(&mut self, id: Option<SourceId>, out: &mut ArrayVec<Cell, 15>) -> Option<SourceId>
        requires whole { len_of self.old ≡ FRAME_BYTES }
        requires empty { out.old.items ≡ [] }
        ensures cells { out.new.items ≡ cells (units_of (placed_of self.old)) (offsets_of (placed_of self.old)) id }
        ensures id { result ≡ id_after (units_of (placed_of self.old)) id }
        ensures placed { placed_of self.new ≡ [] }
        ensures len { len_of self.new ≡ 0 }
        ensures halves { halves_of self.new ≡ 0 }
    {
        let after = cells_of(&self.bytes, &self.offsets, id, out);
        self.len = 0;
        self.halves = 0;
        after
    }
}
