//! The cells of a frame.

ghost use Rattle.std.specs.Prelude.{◌≡◌, ℕ, ◌<◌, ◌≤◌, ◌+◌, ◌*◌, ◌++◌, ◌∷◌, [], length, slice_index, Option, IsTrue};
ghost use Rattle.frame_grammar.specs.Frame.{IsProperFrame, cells, id_after, even_cells, cell, IsInForce};

use arrayvec::ArrayVec;
use trace_values::{Cell, SourceId};

/// The bytes of a frame.
pub const FRAME_BYTES: usize = 16;

/// The ID in force at an index of a frame, and how many IDs the frame has named up to it.
#[derive(Clone, Copy, Drop)]
struct InForce {
    id: Option<SourceId>,
    run: u8,
}

impl InForce {
    /// The data byte at this offset.
    fn cell(&self, at: u64, byte: u8) -> Cell
        ensures { result ≡ record { at = at; id = self.now.id; run = self.now.run; byte = byte } }
    {
        Cell {
            at,
            id: self.id,
            run: self.run,
            byte,
        }
    }
}

/// Takes the frame's two bytes from index `2 * pair` on, where this is in force.
fn take_pair(
    frame: &[u8; FRAME_BYTES],
    at: &[u64; FRAME_BYTES],
    pair: usize,
    now: InForce,
    out: &mut ArrayVec<Cell, 15>,
) -> InForce
    requires pair { pair < 7 }
    requires room { length out.old.items ≤ 2 * pair }
    requires run { now.run ≤ pair }
    ensures cells { (id : Option ℕ) → IsInForce frame.now id (2 * pair) now.id now.run →
        out.new.items ≡ out.old.items ++ (even_cells frame.now at.now id pair
        ++ cell frame.now at.now id (2 * pair + 1) (slice_index frame.now (2 * pair + 1)) ∷ []) }
    ensures id { (id : Option ℕ) → IsInForce frame.now id (2 * pair) now.id now.run →
        IsInForce frame.now id (2 * (pair + 1)) result.id result.run }
    ensures room { length out.new.items ≤ length out.old.items + 2 }
    ensures run { result.run ≤ now.run + 1 }
{
    let even = frame[2 * pair];
    let odd = frame[2 * pair + 1];
    let aux = (frame[15] >> pair) % 2;
    if even % 2 == 0 {
        out.push(now.cell(at[2 * pair], even + aux));
        out.push(now.cell(at[2 * pair + 1], odd));
        now
    } else {
        let next = InForce {
            id: SourceId::new(even / 2),
            run: now.run + 1,
        };
        let here = if aux == 0 { next } else { now };
        out.push(here.cell(at[2 * pair + 1], odd));
        next
    }
}

/// Puts the cells of a frame into `out`, which is empty, and gives the ID after the frame.
///
/// The frame's bytes are at these offsets of the capture, and `id` is the ID before the frame. None of
/// the bytes at even indexes may be FF.
pub fn cells_of(
    frame: &[u8; FRAME_BYTES],
    at: &[u64; FRAME_BYTES],
    id: Option<SourceId>,
    out: &mut ArrayVec<Cell, 15>,
) -> Option<SourceId>
    requires proper { IsProperFrame frame.now }
    requires empty { out.old.items ≡ [] }
    ensures cells { out.new.items ≡ cells frame.now at.now id }
    ensures id { result ≡ id_after frame.now id }
{
    let mut now = InForce { id, run: 0 };
    for pair in 0..7 {
        now = take_pair(frame, at, pair, now, out);
    }
    // An ID here holds from the next frame on, whatever its auxiliary bit (this project's profile).
    let last = frame[14];
    if last % 2 == 0 {
        out.push(now.cell(at[14], last + frame[15] / 128));
        now.id
    } else {
        SourceId::new(last / 2)
    }
}
