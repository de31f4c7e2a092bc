//! A writer of frames that keeps its last frame back.

ghost use Rattle.std.specs.Prelude.{true, false, ◌≡◌, ◌≤◌, ◌<◌, ◌+◌, ◌*◌, ◌++◌, ◌∷◌, [], ℕ, List, length};
ghost use Rattle.arrayvec.specs.ArrayVec.{array_vec_len};
ghost use Rattle.trace_values.specs.declared.limits.TheConstants.{COUNT_ROOM};
ghost use Rattle.frame_writer.specs.Written.{Tagged, written_segments};
ghost use Rattle.frame_writer.specs.Fronts.{sure_after};

use crate::writer::FrameWriter;
use arrayvec::ArrayVec;
use trace_values::SourceId;

/// Room for two frames, each with its synchronisations.
pub type TwoFrames = ArrayVec<u8, 528>;

/// Appends bytes for which there is room.
fn append<const N: usize>(out: &mut ArrayVec<u8, N>, bytes: &[u8])
    requires room { array_vec_len out.old + length bytes.now ≤ N }
    ensures items { out.new.items ≡ out.old.items ++ bytes.now }
    ensures len { array_vec_len out.new ≡ array_vec_len out.old + length bytes.now }
{
    let _ = out.try_extend_from_slice(bytes);
}

/// Moves a frame, if there is one, to the end of bytes that have room for it.
fn give<const N: usize>(frame: &mut ArrayVec<u8, 264>, out: &mut ArrayVec<u8, N>)
    requires room { array_vec_len out.old + array_vec_len frame.old ≤ N }
    ensures items { out.new.items ≡ out.old.items ++ frame.old.items }
    ensures len { array_vec_len out.new ≡ array_vec_len out.old + array_vec_len frame.old }
    ensures given { frame.new.items ≡ [] }
{
    if !frame.is_empty() {
        append(out, frame.as_slice());
        frame.clear();
    }
}

/// These bytes.
fn frame_of(bytes: &[u8]) -> ArrayVec<u8, 264>
    requires { length bytes.now ≤ 264 }
    ensures { result.items ≡ bytes.now }
{
    let mut frame = ArrayVec::new();
    let _ = frame.try_extend_from_slice(bytes);
    frame
}

/// Writes bytes of several sources as the frames of a `FrameWriter`, and gives those that stay as they are whatever
/// comes after: those of ended segments, and of the unfinished segment all but the last, which it keeps back until a
/// byte of the next one is put. So what it has given is a front of the capture, and the rest of the capture is one
/// frame.
#[derive(Drop)]
pub struct SureWriter {
    writer: FrameWriter,
    /// A whole frame after which nothing is put yet.
    ready: ArrayVec<u8, 264>,
    ghost few: { length ready.items ≤ 132 },
}

impl SureWriter {
    ghost use Rattle.frame_writer.specs.Sure.{IsSure, Appends, Ends, count_of, held_by, pairs_of, most_with, of_one};

    /// A writer that was given nothing. It writes synchronisations as `FrameWriter::new` says.
    pub fn new(every: u32, halves: u8) -> SureWriter
        requires few { halves ≤ 8 }
        ensures fresh { IsSure result every halves [] [] }
        ensures count { count_of result ≡ 0 }
    {
        SureWriter {
            writer: FrameWriter::new(every, halves),
            ready: ArrayVec::new(),
        }
    }

    /// How many frames are whole, also where the last of them is kept back.
    pub fn frames(&self) -> u64
        ensures { result ≡ count_of self.now }
    {
        self.writer.frames()
    }

    /// Puts a byte of a source other than 0, and gives what has become sure: nothing, or one frame.
    pub fn put(&mut self, id: SourceId, byte: u8, out: &mut TwoFrames)
        requires source { 0 < id }
        requires empty { out.old.items ≡ [] }
        requires room { count_of self.old < COUNT_ROOM }
        ensures list { (every halves : ℕ) (closed : List (List Tagged)) (t : List Tagged) →
            IsSure self.old every halves closed t →
            IsSure self.new every halves closed (t ++ record { id = id; byte = byte } ∷ []) }
        ensures grown { (every halves : ℕ) (closed : List (List Tagged)) (t : List Tagged) →
            IsSure self.old every halves closed t →
            sure_after every halves closed (t ++ record { id = id; byte = byte } ∷ [])
            ≡ sure_after every halves closed t ++ out.new.items }
        ensures count { count_of self.new ≤ count_of self.old + 1 }
        ensures load { 7 * count_of self.new + pairs_of self.new ≤ 7 * count_of self.old + pairs_of self.old + 2 }
        ensures len { array_vec_len out.new + held_by self.new + 132 * count_of self.old
            ≤ held_by self.old + 132 * count_of self.new }
    {
        self.append_sure(id, byte, out);
    }

    /// Puts bytes of a source other than 0, and appends what becomes sure with them, for which there is room: what is
    /// kept back, and the frames that so many bytes can make whole.
    pub fn put_all<const N: usize>(&mut self, id: SourceId, bytes: &[u8], out: &mut ArrayVec<u8, N>)
        requires source { 0 < id }
        requires count { count_of self.old + length bytes.now ≤ COUNT_ROOM }
        requires room { array_vec_len out.old + held_by self.old + 132 * most_with self.old (length bytes.now)
            ≤ N + 132 * count_of self.old }
        ensures put { Appends self.old self.new (of_one id bytes.now) out.old.items out.new.items }
        ensures count { count_of self.new ≤ count_of self.old + length bytes.now }
        ensures load { 7 * count_of self.new + pairs_of self.new ≤
            7 * count_of self.old + pairs_of self.old + 2 * length bytes.now }
        ensures len { array_vec_len out.new + held_by self.new + 132 * count_of self.old
            ≤ array_vec_len out.old + held_by self.old + 132 * count_of self.new }
    {
        let mut done = 0;
        'bytes: while done < bytes.len() {
            if done + 1 < bytes.len() && self.append_pair(id, bytes[done], bytes[done + 1], out) {
                done += 2;
            } else {
                self.append_sure(id, bytes[done], out);
                done += 1;
            }
        }
    }

    /// Puts two bytes of a source other than 0 as a pair, and appends what was kept back, where they are one and
    /// complete no frame; answers whether it did.
    #[inline(always)]
    fn append_pair<const N: usize>(
        &mut self,
        id: SourceId,
        first: u8,
        second: u8,
        out: &mut ArrayVec<u8, N>,
    ) -> bool
        requires source { 0 < id }
        requires room { array_vec_len out.old + held_by self.old ≤ N }
        ensures put { result ≡ true →
            Appends self.old self.new (of_one id (first ∷ (second ∷ []))) out.old.items out.new.items }
        ensures none { result ≡ false → (self.new ≡ self.old) × (out.new ≡ out.old) }
        ensures count { count_of self.new ≡ count_of self.old }
        ensures load { pairs_of self.new ≤ pairs_of self.old + 1 }
        ensures len { array_vec_len out.new + held_by self.new ≤ array_vec_len out.old + held_by self.old }
    {
        if !self.writer.put_pair(id, first, second) {
            return false;
        }
        give(&mut self.ready, out);
        true
    }

    /// Puts a byte of a source other than 0, and appends what has become sure: nothing, or one frame.
    fn append_sure<const N: usize>(&mut self, id: SourceId, byte: u8, out: &mut ArrayVec<u8, N>)
        requires source { 0 < id }
        requires count { count_of self.old < COUNT_ROOM }
        requires room { array_vec_len out.old + held_by self.old + 132 * most_with self.old 1
            ≤ N + 132 * count_of self.old }
        ensures put { Appends self.old self.new (record { id = id; byte = byte } ∷ []) out.old.items out.new.items }
        ensures count { count_of self.new ≤ count_of self.old + 1 }
        ensures load { 7 * count_of self.new + pairs_of self.new ≤ 7 * count_of self.old + pairs_of self.old + 2 }
        ensures len { array_vec_len out.new + held_by self.new + 132 * count_of self.old
            ≤ array_vec_len out.old + held_by self.old + 132 * count_of self.new }
    {
        give(&mut self.ready, out);
        self.writer.put(id, byte, &mut self.ready);
        if self.writer.is_begun() {
            give(&mut self.ready, out);
        }
    }

    /// Ends the segment, and appends what has become sure, for which there is room: what is kept back, and the
    /// unfinished frame with null bytes after its last byte, at most 132 bytes. Then nothing is kept back, and all that
    /// is written so far is sure.
    pub fn flush<const N: usize>(&mut self, out: &mut ArrayVec<u8, N>)
        requires count { count_of self.old < COUNT_ROOM }
        requires room { array_vec_len out.old + held_by self.old + 132 ≤ N }
        ensures ends { Ends self.old self.new out.old.items out.new.items }
        ensures count { count_of self.new ≤ count_of self.old + 1 }
        ensures load { pairs_of self.new ≡ 0 }
        ensures held { held_by self.new ≡ 0 }
        ensures len { array_vec_len out.new + 132 * count_of self.old
            ≤ array_vec_len out.old + held_by self.old + 132 * count_of self.new }
    {
        give(&mut self.ready, out);
        self.writer.flush(&mut self.ready);
        give(&mut self.ready, out);
    }

    /// Another writer that was given the same.
    pub fn copied(&self) -> SureWriter
        ensures list { (every halves : ℕ) (closed : List (List Tagged)) (t : List Tagged) →
            IsSure self.now every halves closed t → IsSure result every halves closed t }
        ensures count { count_of result ≡ count_of self.now }
        ensures held { held_by result ≤ 132 }
        ensures pairs { pairs_of result ≤ 7 }
    {
        SureWriter {
            writer: self.writer.copied(),
            ready: frame_of(self.ready.as_slice()),
        }
    }

    /// The rest of the capture, which is what is not sure of it: at most one frame, by `sure_law`.
    pub fn rest(&self, out: &mut TwoFrames)
        requires empty { out.old.items ≡ [] }
        ensures whole { (every halves : ℕ) (closed : List (List Tagged)) (t : List Tagged) →
            IsSure self.now every halves closed t →
            written_segments every halves (closed ++ t ∷ []) ≡ sure_after every halves closed t ++ out.new.items }
        ensures few { array_vec_len out.new ≤ 264 }
    {
        let mut last = ArrayVec::new();
        let _ = self.writer.copied().finish(&mut last);
        append(out, self.ready.as_slice());
        append(out, last.as_slice());
    }
}
