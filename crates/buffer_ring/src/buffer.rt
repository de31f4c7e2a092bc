//! A trace buffer.

ghost use Rattle.std.specs.Prelude.{◌≡◌, ◌==◌, ◌≤◌, ◌<◌, ◌^◌, ◌+◌, ◌%◌, length, if◌then◌else◌};

use std::alloc::{AllocError, Global};

/// A trace buffer: memory of a fixed size that is overwritten from its oldest byte on.
///
/// What it stands for is the list of all bytes that were pushed. It never holds more than its size of them.
#[derive(Drop)]
pub struct TraceBuffer {
    bytes: Vec<u8>,
    // Where the next byte goes.
    at: usize,
    pushed: u64,
    ghost least: { 16 ≤ length bytes.items },
    ghost most: { length bytes.items ≤ 2 ^ 24 },
    ghost few: { pushed ≤ 2 ^ 36 },
    ghost next: { at ≡ pushed % length bytes.items },
}

/// The place after the first `end` bytes of the memory: after its last byte comes its first.
fn place_at(end: usize, size: usize) -> usize
    ensures { result ≡ (if end == size then 0 else end) }
{
    if end == size { 0 } else { end }
}

impl TraceBuffer {
    ghost use Rattle.std.specs.Prelude.{◌-◌, ◌∷◌, [], List, ℕ, IfOk, nat_le};
    ghost use Rattle.buffer_ring.specs.Image.{image, pointer, is_full, dropped};
    ghost use Rattle.buffer_ring.specs.Buffer.{Stands, Takes, memory_of, size_of, pushed_by};

    /// A buffer of this many bytes, 16 to 2^24, all of them 00. It takes all its memory here, and fails only for want
    /// of it.
    pub fn new(alloc: Global, size: usize) -> Result<TraceBuffer, AllocError>
        requires least { 16 ≤ size }
        requires most { size ≤ 2 ^ 24 }
        ensures size { IfOk result (λ b. size_of b ≡ size) }
        ensures fresh { IfOk result (λ b. Stands b []) }
    {
        let bytes = vec![in alloc; 0; size]?;
        Ok(TraceBuffer {
            bytes,
            at: 0,
            pushed: 0,
        })
    }

    /// Takes the next byte, over the oldest where the memory is full. At most 2^36 bytes are pushed in all; how many
    /// there were is the pointer, or, where the memory is full, the dropped number and the size together.
    pub fn push(&mut self, byte: u8)
        requires room { pushed_by self.old < 2 ^ 36 }
        ensures { Takes self.old self.new (byte ∷ []) }
    {
        self.push_part(&[byte]);
    }

    /// Takes these bytes, from the first to the last, as `push` takes each.
    pub fn push_all(&mut self, piece: &[u8])
        requires room { pushed_by self.old + length piece.now ≤ 2 ^ 36 }
        ensures { Takes self.old self.new piece.now }
    {
        let mut rest = piece;
        while !rest.is_empty() {
            let len = rest.len().min(self.bytes.len() - self.at);
            let (part, after) = rest.split_at(len);
            self.push_part(part);
            rest = after;
        }
    }

    // Takes bytes that go up to the end of the memory at most.
    fn push_part(&mut self, part: &[u8])
        requires room { pushed_by self.old + length part.now ≤ 2 ^ 36 }
        requires fits { self.old.at + length part.now ≤ size_of self.old }
        ensures { Takes self.old self.new part.now }
    {
        let end = self.at + part.len();
        self.bytes[self.at..end].copy_from_slice(part);
        self.pushed += part.len() as u64;
        self.at = place_at(end, self.bytes.len());
    }

    /// The memory, from its first byte to its last.
    pub fn image(&self) -> &[u8]
        ensures bytes { result.now ≡ memory_of self.now }
        ensures size { length result.now ≡ size_of self.now }
        ensures image { (u : List ℕ) → Stands self.now u → result.now ≡ image (size_of self.now) u }
        ensures exact { (u : List ℕ) → Stands self.now u → length u ≡ size_of self.now → result.now ≡ u }
    {
        self.bytes.as_slice()
    }

    /// Where in the memory the next byte goes. Where it isn't full, that is how many bytes were pushed.
    pub fn pointer(&self) -> usize
        ensures within { result < size_of self.now }
        ensures number { result ≡ pushed_by self.now % size_of self.now }
        ensures few { pushed_by self.now < size_of self.now → result ≡ pushed_by self.now }
        ensures at { (u : List ℕ) → Stands self.now u → result ≡ pointer (size_of self.now) u }
    {
        self.at
    }

    /// Whether each byte of the memory was written.
    pub fn is_full(&self) -> bool
        ensures number { result ≡ nat_le (size_of self.now) (pushed_by self.now) }
        ensures full { (u : List ℕ) → Stands self.now u → result ≡ is_full (size_of self.now) u }
    {
        self.bytes.len() as u64 <= self.pushed
    }

    /// How many bytes were overwritten.
    pub fn dropped(&self) -> u64
        ensures number { result ≡ pushed_by self.now - size_of self.now }
        ensures dropped { (u : List ℕ) → Stands self.now u → result ≡ dropped (size_of self.now) u }
    {
        if self.is_full() {
            self.pushed - self.bytes.len() as u64
        } else {
            0
        }
    }
}

ghost use Rattle.std.specs.Prelude.{◌++◌};
ghost use Rattle.buffer_ring.specs.Image.{ordered};

/// The bytes of an image in the order in which they were pushed, in two parts: from the pointer on and then up to the
/// pointer where the memory is full, and else up to the pointer. Nothing is copied.
pub fn ordered(image: &[u8], pointer: usize, full: bool) -> (&[u8], &[u8])
    requires { pointer < length image.now }
    ensures { result.0.now ++ result.1.now ≡ ordered image.now pointer full }
{
    let (new, old) = image.split_at(pointer);
    if full { (old, new) } else { (new, &[]) }
}
