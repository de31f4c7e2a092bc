//! The writer of frames.

ghost use Rattle.std.specs.Prelude.{◌≡◌, ◌≤◌, true, length};
ghost use Rattle.frame_writer.specs.Unfinished.{is_sound};
ghost use Rattle.trace_values.specs.declared.limits.TheConstants.{COUNT_ROOM};

use crate::frame::{append_pairs, append_sync, aux_of, is_sync_due};
use crate::pair::Pair;
use arrayvec::ArrayVec;
use trace_values::SourceId;

/// Writes the bytes of several sources as frames, in one segment or in several. It keeps what it needs of the one
/// unfinished frame.
#[derive(Drop)]
pub struct FrameWriter {
    every: u32,
    halves: u8,
    frames: u64,
    id: Option<SourceId>,
    pairs: ArrayVec<Pair, 7>,
    /// A byte of the ID in force, whose place depends on the next one.
    held: Option<u8>,
    ghost few: { halves ≤ 8 },
    ghost fits: { length pairs.items ≤ 7 },
    ghost counted: { frames ≤ COUNT_ROOM },
    ghost sound: { is_sound every frames pairs.items id held ≡ true },
}

impl FrameWriter {
    ghost use Rattle.std.specs.Prelude.{ℕ, ◌*◌, ◌<◌, ◌+◌, ◌++◌, ◌∷◌, [], List, None, false};
    ghost use Rattle.frame_writer.specs.Unfinished.{HasOne};
    ghost use Rattle.frame_writer.specs.Writer.{appended, as_frame, later_of, load_of, to_come, Stands};
    ghost use Rattle.frame_writer.specs.Written.{Tagged, segment_frames, written_segments, frames_from, frame_bytes};
    ghost use Rattle.frame_writer.specs.Written.{is_id};

    /// A writer that has written nothing.
    ///
    /// It writes a full synchronisation before each frame whose number, from 0 on, is a multiple of `every`
    /// (none where `every` is 0), and `halves` half synchronisations, at most 8, in each gap between two
    /// halfwords of a frame.
    pub fn new(every: u32, halves: u8) -> FrameWriter
        requires few { halves ≤ 8 }
        ensures fresh { Stands result every halves [] [] [] }
        ensures to_come { (t : List Tagged) (later : List (List Tagged)) →
            to_come result t later ≡ segment_frames every halves (t ∷ later) }
        ensures count { appended result ≡ 0 }
    {
        FrameWriter {
            every,
            halves,
            frames: 0,
            id: None,
            pairs: ArrayVec::new(),
            held: None,
        }
    }

    /// How many frames have been appended.
    pub fn frames(&self) -> u64
        ensures { result ≡ appended self.now }
    {
        self.frames
    }

    /// Whether a frame is begun, or a byte is held for one.
    pub fn is_begun(&self) -> bool
        ensures begun { result ≡ true → HasOne (to_come self.now [] []) }
        ensures none { result ≡ false → to_come self.now [] [] ≡ [] }
    {
        self.held.is_some() || !self.pairs.is_empty()
    }

    /// Another writer that has written and holds the same.
    pub fn copied(&self) -> FrameWriter
        ensures to_come { (t : List Tagged) (later : List (List Tagged)) →
            to_come result t later ≡ to_come self.now t later }
        ensures count { appended result ≡ appended self.now }
    {
        let mut pairs = ArrayVec::new();
        let _ = pairs.try_extend_from_slice(self.pairs.as_slice());
        FrameWriter {
            every: self.every,
            halves: self.halves,
            frames: self.frames,
            id: self.id,
            pairs,
            held: self.held,
        }
    }

    /// Puts a byte of a source other than 0, and appends the frame that it completes, if it does, with the
    /// synchronisations of that frame.
    pub fn put(&mut self, id: SourceId, byte: u8, out: &mut ArrayVec<u8, 264>)
        requires source { 0 < id }
        requires empty { out.old.items ≡ [] }
        requires room { appended self.old < COUNT_ROOM }
        ensures list { (every halves : ℕ) (closed : List (List Tagged)) (t : List Tagged) (so_far : List ℕ) →
            Stands self.old every halves closed t so_far → Stands self.new every halves closed
            (t ++ record { id = id; byte = byte } ∷ []) (so_far ++ out.new.items) }
        ensures to_come { (t : List Tagged) (later : List (List Tagged)) →
            to_come self.old (record { id = id; byte = byte } ∷ t) later
            ≡ as_frame out.new.items ++ to_come self.new t later }
        ensures count { appended self.new ≡ appended self.old + length (as_frame out.new.items) }
        ensures load { load_of self.new ≤ load_of self.old + 2 }
        ensures len { length out.new.items + 132 * appended self.old ≤ 132 * appended self.new }
        ensures one { length out.new.items ≤ 132 }
    {
        match self.held {
            None => self.place(id, byte, out),
            Some(held) => {
                self.held = None;
                if self.is_in_force(id) {
                    self.pairs.push(Pair {
                        even: held / 2 * 2,
                        aux: held % 2 == 1,
                        odd: byte,
                    });
                } else {
                    self.pairs.push(Pair {
                        even: 2 * id.number() + 1,
                        aux: true,
                        odd: held,
                    });
                    self.id = Some(id);
                    self.place(id, byte, out);
                }
            }
        }
    }

    /// Puts two bytes of a source other than 0 as a pair, where no byte is held, the source's ID is in force and there
    /// is room for a pair; answers whether it did. They complete no frame.
    #[inline(always)]
    pub(crate) fn put_pair(&mut self, id: SourceId, first: u8, second: u8) -> bool
        requires source { 0 < id }
        ensures to_come { result ≡ true → (t : List Tagged) (later : List (List Tagged)) →
            to_come self.old (record { id = id; byte = first } ∷ (record { id = id; byte = second } ∷ t)) later
            ≡ to_come self.new t later }
        ensures begun { result ≡ true → HasOne (to_come self.new [] []) }
        ensures none { result ≡ false → self.new ≡ self.old }
        ensures count { appended self.new ≡ appended self.old }
        ensures load { load_of self.new ≤ load_of self.old + 1 }
    {
        if self.held.is_some() || self.pairs.len() >= 7 || !self.is_in_force(id) {
            return false;
        }
        self.pairs.push(Pair {
            even: first / 2 * 2,
            aux: first % 2 == 1,
            odd: second,
        });
        true
    }

    /// Places a byte where none is held.
    #[inline(always)]
    fn place(&mut self, id: SourceId, byte: u8, out: &mut ArrayVec<u8, 264>)
        requires held { self.old.held ≡ None }
        requires source { 0 < id }
        requires empty { out.old.items ≡ [] }
        requires room { self.old.frames < COUNT_ROOM }
        ensures to_come { (t : List Tagged) (later : List (List Tagged)) →
            to_come self.old (record { id = id; byte = byte } ∷ t) later
            ≡ as_frame out.new.items ++ to_come self.new t later }
        ensures count { self.new.frames ≡ self.old.frames + length (as_frame out.new.items) }
        ensures load { load_of self.new ≤ load_of self.old + 1 }
        ensures len { length out.new.items + 132 * self.old.frames ≤ 132 * self.new.frames }
    {
        if self.pairs.len() < 7 {
            self.place_in_pair(id, byte);
        } else if self.is_in_force(id) {
            self.append_frame(byte / 2 * 2, byte % 2 == 1, out);
            self.begin_frame();
        } else {
            self.append_frame(2 * id.number() + 1, false, out);
            self.id = Some(id);
            self.begin_frame();
            self.place_in_pair(id, byte);
        }
    }

    /// Names the source in the next pair, or holds the byte if its ID is in force.
    fn place_in_pair(&mut self, id: SourceId, byte: u8)
        requires held { self.old.held ≡ None }
        requires source { 0 < id }
        requires room { length self.old.pairs.items < 7 }
        ensures to_come { (t : List Tagged) (later : List (List Tagged)) →
            to_come self.old (record { id = id; byte = byte } ∷ t) later ≡ to_come self.new t later }
        ensures same { self.new.frames ≡ self.old.frames }
        ensures load { load_of self.new ≤ load_of self.old + 1 }
    {
        if self.is_in_force(id) {
            self.held = Some(byte);
        } else {
            self.pairs.push(Pair {
                even: 2 * id.number() + 1,
                aux: false,
                odd: byte,
            });
            self.id = Some(id);
        }
    }

    /// The ID in force is this one.
    fn is_in_force(&self, id: SourceId) -> bool
        ensures { result ≡ is_id self.now.id id }
    {
        match self.id {
            Some(known) => known.number() == id.number(),
            None => false,
        }
    }

    /// Appends the frame of the pairs, with this byte 14 and its auxiliary bit.
    fn append_frame(&self, even: u8, aux: bool, out: &mut ArrayVec<u8, 264>)
        requires { out.old.items ≡ [] }
        ensures items { out.new.items ≡
            frame_bytes self.now.every self.now.halves self.now.frames self.now.pairs.items even aux }
        ensures len { length out.new.items ≤ 132 }
    {
        append_sync(self.every, self.frames, out);
        append_pairs(self.pairs.as_slice(), self.halves, out);
        out.push(even);
        out.push(aux_of(self.pairs.as_slice(), aux));
    }

    /// Begins the next frame. A full synchronisation before it makes the ID unknown.
    fn begin_frame(&mut self)
        requires held { self.old.held ≡ None }
        requires room { self.old.frames < COUNT_ROOM }
        ensures to_come { (t : List Tagged) (later : List (List Tagged)) →
            frames_from self.old.every self.old.halves (later_of self.old later) (self.old.frames + 1) self.old.id t
            ≡ to_come self.new t later }
        ensures begun { (self.new.frames ≡ self.old.frames + 1) × (self.new.pairs.items ≡ []) × (self.new.held ≡ None) }
    {
        self.frames += 1;
        self.pairs.clear();
        if is_sync_due(self.every, self.frames) {
            self.id = None;
        }
    }

    /// Ends the segment: appends the unfinished frame, if one is begun or a byte is held, with null bytes after the
    /// last byte and with its synchronisations, at most 132 bytes. Where no byte was put since the last flush, or the
    /// last byte completed its frame, nothing is appended. The next byte begins a frame; the frames' numbers go on, and
    /// so does the ID in force.
    ///
    /// `out` is empty, and fewer than `COUNT_ROOM` frames have been appended.
    pub fn flush(&mut self, out: &mut ArrayVec<u8, 264>)
        requires empty { out.old.items ≡ [] }
        requires room { appended self.old < COUNT_ROOM }
        ensures list { (every halves : ℕ) (closed : List (List Tagged)) (t : List Tagged) (so_far : List ℕ) →
            Stands self.old every halves closed t so_far →
            Stands self.new every halves (closed ++ t ∷ []) [] (so_far ++ out.new.items) }
        ensures to_come { (t : List Tagged) (later : List (List Tagged)) →
            to_come self.old [] (t ∷ later) ≡ as_frame out.new.items ++ to_come self.new t later }
        ensures none { to_come self.new [] [] ≡ [] }
        ensures count { appended self.new ≡ appended self.old + length (as_frame out.new.items) }
        ensures load { load_of self.new ≡ 7 * appended self.new }
        ensures len { length out.new.items + 132 * appended self.old ≤ 132 * appended self.new }
        ensures one { length out.new.items ≤ 132 }
    {
        if self.complete(out) {
            self.begin_frame();
        }
    }

    /// Ends the last segment, as `flush` does, and gives the number of frames in all. Right after `flush` it appends
    /// nothing.
    pub fn finish(mut self, out: &mut ArrayVec<u8, 264>) -> u64
        requires empty { out.old.items ≡ [] }
        ensures capture { (every halves : ℕ) (closed : List (List Tagged)) (t : List Tagged) (so_far : List ℕ) →
            Stands self every halves closed t so_far →
            so_far ++ out.new.items ≡ written_segments every halves (closed ++ t ∷ []) }
        ensures frames { (every halves : ℕ) (closed : List (List Tagged)) (t : List Tagged) (so_far : List ℕ) →
            Stands self every halves closed t so_far →
            result ≡ length (segment_frames every halves (closed ++ t ∷ [])) }
        ensures to_come { as_frame out.new.items ≡ to_come self [] [] }
        ensures count { result ≡ appended self + length (as_frame out.new.items) }
        ensures few { length out.new.items ≤ 132 }
    {
        if self.complete(out) {
            self.frames + 1
        } else {
            self.frames
        }
    }

    /// Appends the unfinished frame, if one is begun or a byte is held, with null bytes after the last byte; answers
    /// whether there is one.
    fn complete(&mut self, out: &mut ArrayVec<u8, 264>) -> bool
        requires empty { out.old.items ≡ [] }
        ensures frame { result ≡ true → as_frame out.new.items ≡ out.new.items ∷ [] }
        ensures to_come { result ≡ true → (later : List (List Tagged)) →
            to_come self.old [] later
            ≡ as_frame out.new.items ++ later_of self.new later (self.new.frames + 1) self.new.id }
        ensures none { result ≡ false → (later : List (List Tagged)) →
            (to_come self.old [] later ≡ later_of self.new later self.new.frames self.new.id) × (out.new.items ≡ [])
            × (self.new.pairs.items ≡ []) }
        ensures held { self.new.held ≡ None }
        ensures same { self.new.frames ≡ self.old.frames }
        ensures few { length out.new.items ≤ 132 }
    {
        self.release();
        if self.pairs.is_empty() {
            return false;
        }
        self.fill_pairs();
        if self.is_null_in_force() {
            self.append_frame(0, false, out);
        } else {
            self.append_frame(1, false, out);
            self.id = SourceId::new(0);
        }
        true
    }

    /// Puts the byte that is held before a null byte.
    fn release(&mut self)
        ensures to_come { (later : List (List Tagged)) → to_come self.old [] later ≡ to_come self.new [] later }
        ensures held { self.new.held ≡ None }
        ensures frames { self.new.frames ≡ self.old.frames }
    {
        if let Some(held) = self.held {
            self.held = None;
            self.pairs.push(Pair {
                even: 1,
                aux: true,
                odd: held,
            });
            self.id = SourceId::new(0);
        }
    }

    /// Fills the rest of the pairs with null bytes.
    fn fill_pairs(&mut self)
        requires held { self.old.held ≡ None }
        requires begun { 0 < length self.old.pairs.items }
        ensures to_come { (later : List (List Tagged)) → to_come self.old [] later ≡ to_come self.new [] later }
        ensures held { self.new.held ≡ None }
        ensures pairs { length self.new.pairs.items ≡ 7 }
        ensures frames { self.new.frames ≡ self.old.frames }
    {
        while self.pairs.len() < 7 {
            self.fill_pair();
        }
    }

    /// Fills a pair with null bytes.
    fn fill_pair(&mut self)
        requires held { self.old.held ≡ None }
        requires begun { 0 < length self.old.pairs.items }
        requires room { length self.old.pairs.items < 7 }
        ensures to_come { (later : List (List Tagged)) → to_come self.old [] later ≡ to_come self.new [] later }
        ensures held { self.new.held ≡ None }
        ensures pairs { length self.new.pairs.items ≡ length self.old.pairs.items + 1 }
        ensures same { self.new.frames ≡ self.old.frames }
    {
        if self.is_null_in_force() {
            self.pairs.push(Pair {
                even: 0,
                aux: false,
                odd: 0,
            });
        } else {
            self.pairs.push(Pair {
                even: 1,
                aux: false,
                odd: 0,
            });
            self.id = SourceId::new(0);
        }
    }

    /// The ID of null bytes, 0, is in force.
    fn is_null_in_force(&self) -> bool
        ensures { result ≡ is_id self.now.id 0 }
    {
        match self.id {
            Some(known) => known.number() == 0,
            None => false,
        }
    }
}
