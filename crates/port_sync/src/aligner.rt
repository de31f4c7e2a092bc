//! Halfwords and synchronisations.

ghost use Rattle.std.specs.Prelude.{◌≡◌, ◌≤◌, true, false, not, ℕ};
ghost use Rattle.port_sync.specs.Aligned.{is_fit};

use trace_values::Reason;

/// What a byte ends.
#[derive(Clone, Copy, Debug, PartialEq, Eq, Drop)]
pub enum Half {
    /// A halfword of a frame, with its first and its second byte.
    Pair(u8, u8),
    /// `FF 7F`, between frames or inside one.
    HalfSync,
    /// `FF FF FF 7F`, between frames.
    FullSync,
    /// Nothing yet.
    Waiting,
    /// No halfword and no synchronisation goes on so.
    Bad(Reason),
}

/// What of a halfword or a synchronisation is there: nothing, a halfword's first byte, or this many FF.
#[derive(Clone, Copy, Drop)]
pub enum Part {
    Between,
    First(u8),
    One,
    Two,
    Three,
}

/// Puts the bytes of a port together to halfwords and synchronisations, and counts the halfwords of the
/// frame.
#[derive(Drop)]
pub struct Aligner {
    /// How many halfwords of the frame follow the next one; 7 between frames.
    left: u8,
    part: Part,
    live: bool,
    ghost in_range: { left ≤ 7 },
    ghost fit: { is_fit left part ≡ true },
}

impl Aligner {
    ghost use Rattle.std.specs.Prelude.{◌+◌, ◌*◌};
    ghost use Rattle.port_sync.specs.Aligned.{said, part_after, left_after, is_bad, IsSoundAnswer, size_of};
    ghost use Rattle.port_sync.specs.Aligner.{left_of, part_of, is_live};
    ghost use Rattle.port_sync.specs.declared.aligner.Half.TheVariants.{Waiting, Bad};
    ghost use Rattle.port_sync.specs.declared.aligner.Part.TheVariants.{Between};

    /// An aligner of bytes that begin between frames.
    pub fn new() -> Aligner
        ensures left { left_of result ≡ 7 }
        ensures part { part_of result ≡ Between }
        ensures live { is_live result ≡ true }
    {
        Aligner {
            left: 7,
            part: Part::Between,
            live: true,
        }
    }

    /// False exactly after a byte that was `Bad`.
    #[inline]
    pub fn is_live(&self) -> bool
        ensures { result ≡ is_live self.now }
    {
        self.live
    }

    /// How many bytes of an unfinished halfword or synchronisation there are, 0 to 3.
    #[inline]
    pub fn len(&self) -> u8
        ensures size { result ≡ size_of (part_of self.now) }
        ensures few { result ≤ 3 }
    {
        match self.part {
            Part::Between => 0,
            Part::First(_) | Part::One => 1,
            Part::Two => 2,
            Part::Three => 3,
        }
    }

    /// Takes the next byte. No earlier byte may have been `Bad`.
    #[inline]
    pub fn push(&mut self, byte: u8) -> Half
        requires { is_live self.old ≡ true }
        ensures said { result ≡ said (left_of self.old) (part_of self.old) byte }
        ensures sound { IsSoundAnswer (left_of self.old) result }
        ensures left { left_of self.new ≡ left_after result (left_of self.old) }
        ensures part { part_of self.new ≡ part_after result (part_of self.old) byte }
        ensures live { is_live self.new ≡ not (is_bad result) }
        ensures range { (left_of self.old ≤ 7) × (left_of self.new ≤ 7) }
    {
        match self.part {
            Part::Between => self.wait(if byte == 0xFF {
                Part::One
            } else {
                Part::First(byte)
            }),
            Part::First(first) => {
                self.left = if self.left == 0 { 7 } else { self.left - 1 };
                self.end(Half::Pair(first, byte))
            }
            Part::One => match byte {
                0x7F => self.end(Half::HalfSync),
                0xFF if self.left == 7 => self.wait(Part::Two),
                0xFF => self.fail(Reason::SyncInFrame),
                _ => self.fail(Reason::BadSync),
            },
            Part::Two if byte == 0xFF => self.wait(Part::Three),
            Part::Three if byte == 0x7F => self.end(Half::FullSync),
            Part::Two | Part::Three => self.fail(Reason::BadSync),
        }
    }

    /// The byte ends nothing: this much is there.
    #[inline]
    fn wait(&mut self, part: Part) -> Half
        requires { is_fit self.old.left part ≡ true }
        ensures result { result ≡ Waiting }
        ensures left { self.new.left ≡ self.old.left }
        ensures part { self.new.part ≡ part }
        ensures live { self.new.live ≡ self.old.live }
    {
        self.part = part;
        Half::Waiting
    }

    /// The byte ends this.
    #[inline]
    fn end(&mut self, half: Half) -> Half
        ensures result { result ≡ half }
        ensures left { self.new.left ≡ self.old.left }
        ensures part { self.new.part ≡ Between }
        ensures live { self.new.live ≡ self.old.live }
    {
        self.part = Part::Between;
        half
    }

    /// The byte is a fault.
    #[inline]
    fn fail(&mut self, reason: Reason) -> Half
        ensures result { result ≡ Bad reason }
        ensures left { self.new.left ≡ self.old.left }
        ensures part { self.new.part ≡ self.old.part }
        ensures live { self.new.live ≡ false }
    {
        self.live = false;
        Half::Bad(reason)
    }
}
