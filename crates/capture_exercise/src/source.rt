//! The exercise as a source of bytes.

ghost use Rattle.std.specs.Prelude.{◌≡◌, ◌+◌, ◌*◌, ◌-◌, ◌^◌, ◌<◌, ◌≤◌, ◌++◌, [], Some, length, take, drop};
ghost use Rattle.std.specs.Io.{ReadsAtMost};
ghost use Rattle.std.specs.Io.KnownBytes.{ReadConsumes};
ghost use Rattle.capture_exercise.specs.Names.{HasCause, CountsEmpty, faults_after, KEPT_ROOM};
ghost use Rattle.capture_exercise.specs.Exercise.{exercise_capture, exercise_rest};
ghost use Rattle.capture_exercise.specs.Maker as makers;
ghost use Rattle.capture_exercise.specs.declared.maker.TheConstants.{MOST_BYTES};

use crate::maker::{CaptureMaker, MOST_ITEMS};
use trace_io::{Failed, Source};

/// The capture of the exercise, without a front that is lost, as a source that never fails. It makes the bytes as they
/// are asked for, in room that does not depend on how many they are.
///
/// It counts the reads that gave no byte, up to 2^64 - 1.
#[derive(Drop)]
pub struct ExerciseSource {
    maker: CaptureMaker,
    /// How many bytes are given of the piece that was made last.
    given: usize,
    /// How many bytes are made so far.
    made: u64,
    empty_reads: u64,
    ghost within: { given ≤ length (makers.made_by maker) },
    ghost room: { length (makers.made_by maker) ≤ KEPT_ROOM },
    ghost few: { made + KEPT_ROOM * makers.pieces_left maker ≤ MOST_BYTES },
    ghost total: { made + length (makers.to_come maker) ≡ length (exercise_capture (makers.items_of maker)) },
}

/// Puts the piece after the first `from` bytes of the buffer, and answers where it ends.
fn put(buf: &mut [u8], from: usize, piece: &[u8]) -> usize
    requires room { from + length piece.now ≤ length buf.old }
    ensures bytes { take result buf.new ≡ take from buf.old ++ piece.now }
    ensures same_len { length buf.new ≡ length buf.old }
    ensures end { result ≡ from + length piece.now }
{
    let end = from + piece.len();
    buf[from..end].copy_from_slice(piece);
    end
}

impl ExerciseSource {
    ghost use Rattle.capture_exercise.specs.Source.{items_of, pending, left_of, made_by, pieces_left, empty_reads_of};
    ghost use Rattle.capture_exercise.specs.Source.{IsSame};

    /// The capture of this many items, at most `MOST_ITEMS`, without its first `lose` bytes.
    pub fn new(items: u32, lose: u32) -> ExerciseSource
        requires few { items ≤ MOST_ITEMS }
        ensures left { left_of result ≡ exercise_rest items lose }
        ensures empty_reads { empty_reads_of result ≡ 0 }
    {
        let mut source = ExerciseSource::whole(items);
        source.skip(lose as usize);
        source
    }

    /// The whole capture.
    pub(crate) fn whole(items: u32) -> ExerciseSource
        requires few { items ≤ MOST_ITEMS }
        ensures items { items_of result ≡ items }
        ensures left { left_of result ≡ exercise_capture items }
        ensures empty_reads { empty_reads_of result ≡ 0 }
    {
        ExerciseSource {
            maker: CaptureMaker::new(items),
            given: 0,
            made: 0,
            empty_reads: 0,
        }
    }

    /// Makes the next piece, where the last one is given.
    fn make_piece(&mut self)
        requires none { pending self.old ≡ [] }
        requires more { 0 < pieces_left self.old }
        ensures left { left_of self.new ≡ left_of self.old }
        ensures same { IsSame self.old self.new }
        ensures pieces { pieces_left self.new + 1 ≡ pieces_left self.old }
    {
        self.given = 0;
        self.maker.make();
        self.made += self.maker.made().len() as u64;
    }

    /// Makes pieces until a byte is there, or the capture is at its end.
    pub(crate) fn refill(&mut self)
        ensures left { left_of self.new ≡ left_of self.old }
        ensures same { IsSame self.old self.new }
        ensures end { pending self.new ≡ [] → left_of self.new ≡ [] }
        ensures made { pending self.new ≡ [] → made_by self.new ≡ length (exercise_capture (items_of self.new)) }
    {
        while self.pending().is_empty() && !self.maker.is_whole() {
            self.make_piece();
        }
    }

    /// The bytes that are made and not given yet.
    pub(crate) fn pending(&self) -> &[u8]
        ensures { result.now ≡ pending self.now }
    {
        &self.maker.made()[self.given..]
    }

    /// Gives the first of them.
    pub(crate) fn advance(&mut self, count: usize)
        requires few { count ≤ length (pending self.old) }
        ensures left { left_of self.new ≡ drop count (left_of self.old) }
        ensures given { left_of self.old ≡ take count (pending self.old) ++ left_of self.new }
        ensures same { IsSame self.old self.new }
    {
        self.given += count;
    }

    /// How many bytes are made so far.
    pub(crate) fn made(&self) -> u64
        ensures value { result ≡ made_by self.now }
        ensures few { result ≤ MOST_BYTES }
    {
        self.made
    }

    /// Gives this many bytes to nobody, or all that are left.
    fn skip(&mut self, count: usize)
        ensures left { left_of self.new ≡ drop count (left_of self.old) }
        ensures same { IsSame self.old self.new }
    {
        let mut rest = count;
        while rest > 0 {
            self.refill();
            let step = rest.min(self.pending().len());
            if step == 0 {
                return;
            }
            self.advance(step);
            rest -= step;
        }
    }

    /// Puts some of the bytes that are left after the first `from` of the buffer, and answers where they end: at least
    /// one, where there is room and any is left.
    fn give(&mut self, buf: &mut [u8], from: usize) -> usize
        requires from { from < length buf.old }
        ensures bytes { take result buf.new ++ left_of self.new ≡ take from buf.old ++ left_of self.old }
        ensures same_len { length buf.new ≡ length buf.old }
        ensures forward { from ≤ result }
        ensures within { result ≤ length buf.old }
        ensures end { result ≡ from → left_of self.new ≡ [] }
        ensures same { IsSame self.old self.new }
    {
        self.refill();
        let piece = self.pending();
        let count = piece.len().min(buf.len() - from);
        let end = put(buf, from, &piece[..count]);
        self.advance(count);
        end
    }

    /// Fills the buffer from its front, as far as bytes are left, and answers how many they are.
    fn fill(&mut self, buf: &mut [u8]) -> usize
        requires some { 0 < length buf.old }
        ensures bytes { take result buf.new ++ left_of self.new ≡ left_of self.old }
        ensures same_len { length buf.new ≡ length buf.old }
        ensures within { result ≤ length buf.old }
        ensures end { result ≡ 0 → left_of self.new ≡ [] }
        ensures same { IsSame self.old self.new }
    {
        let mut filled = 0;
        while filled < buf.len() {
            let end = self.give(buf, filled);
            if end == filled {
                return filled;
            }
            filled = end;
        }
        filled
    }
}

impl Source for ExerciseSource {
    ghost use Rattle.capture_exercise.specs.Source.{left_of, empty_reads_of};

    ghost left = { λ s. Some (left_of s) };

    ghost faults = { λ s. 0 };

    ghost empty_reads = { empty_reads_of };

    fn read(&mut self, buf: &mut [u8]) -> Result<usize, Failed>
        requires { 0 < length buf.old }
        ensures bound { ReadsAtMost result buf.new }
        ensures bytes { ReadConsumes (Some (left_of self.old)) (Some (left_of self.new)) result buf.new }
        ensures cause { HasCause 0 0 result }
        ensures counted { 0 ≡ faults_after result 0 }
        ensures bounded { 0 ≤ 2 ^ 64 - 1 }
        ensures empty { CountsEmpty result (empty_reads_of self.old) (empty_reads_of self.new) }
    {
        let count = self.fill(buf);
        if count == 0 {
            self.empty_reads = self.empty_reads.saturating_add(1);
        }
        Ok(count)
    }
}
