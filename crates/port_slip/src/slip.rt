//! Realigning, byte by byte.

ghost use Rattle.std.specs.Prelude.{◌≡◌, ◌≤◌, ◌<◌, ◌+◌, ◌*◌, ◌^◌, true, IfSome, IfNone};
ghost use Rattle.port_slip.specs.Coming.{is_hunt, none_found, run_in};

use crate::byte::{pattern_in, run_over, run_over_word};
use crate::phase::SlipPhase;
use crate::window::BitWindow;
use arrayvec::ArrayVec;

/// What was not written: how many bits before the first pattern, and how many at the ends of segments that were no
/// whole bytes; and how many patterns there were.
#[derive(Clone, Copy, Drop)]
pub struct Slipped {
    pub skipped: u64,
    pub dropped: u64,
    pub patterns: u64,
}

/// Realigns bytes at each full synchronisation.
#[derive(Clone, Copy, Drop)]
pub struct Slip {
    pushed: u64,
    skipped: u64,
    dropped: u64,
    patterns: u64,
    phase: SlipPhase,
    ghost few: { pushed ≤ 2 ^ 36 },
    ghost skips: { skipped + run_in phase ≤ 8 * pushed },
    ghost drops: { dropped ≤ 7 * patterns },
    ghost finds: { patterns ≤ pushed },
    ghost hunts: { is_hunt phase ≡ true },
    ghost none: { none_found phase patterns ≡ true },
}

impl Slip {
    ghost use Rattle.std.specs.Prelude.{ℕ, ◌++◌, ◌∷◌, [], List, length, option_to_list};
    ghost use Rattle.arrayvec.specs.ArrayVec.{array_vec_len};
    ghost use Rattle.port_slip.specs.Segments.{realigned};
    ghost use Rattle.port_slip.specs.Slip.{Keeps, Stands, Takes, held_by, joined, pushed_by, to_come};
    ghost use Rattle.port_slip.specs.declared.phase.SlipPhase.TheVariants.{Hunting, Open};

    /// A realigner of no bytes.
    pub fn new() -> Slip
        ensures fresh { Stands result [] [] }
        ensures count { pushed_by result ≡ 0 }
        ensures held { held_by result ≡ 0 }
    {
        Slip {
            pushed: 0,
            skipped: 0,
            dropped: 0,
            patterns: 0,
            phase: SlipPhase::Hunting(0),
        }
    }

    /// How many bytes were pushed: those of each list that it stands for.
    pub fn pushed(&self) -> u64
        ensures pushed { result ≡ pushed_by self.now }
        ensures bytes { (bytes so_far : List ℕ) → Stands self.now bytes so_far → result ≡ length bytes }
    {
        self.pushed
    }

    /// How many bits of the open segment are kept, of which with the bytes that come the rest is made; none before the
    /// first pattern.
    pub fn held(&self) -> u8
        ensures held { result ≡ held_by self.now }
        ensures few { result ≤ 47 }
        ensures kept { (bytes so_far : List ℕ) → Stands self.now bytes so_far →
            0 < (realigned bytes).patterns → Keeps bytes so_far result }
        ensures none { (bytes so_far : List ℕ) → Stands self.now bytes so_far →
            (realigned bytes).patterns ≡ 0 → result ≡ 0 }
    {
        self.phase.held()
    }

    /// Takes the next byte, and answers what has become sure of the realigned bytes with it.
    #[inline]
    pub fn step(&mut self, byte: u8) -> Option<u8>
        requires room { pushed_by self.old < 2 ^ 36 }
        ensures { Takes self.old self.new (byte ∷ []) (option_to_list result) }
    {
        self.pushed += 1;
        match self.phase {
            SlipPhase::Hunting(run) => {
                self.hunt(run, byte);
                None
            }
            SlipPhase::Open(window) => self.pass(window, byte),
        }
    }

    /// Takes the next eight bytes at once, and answers what has become sure with them, as eight steps do; or takes none
    /// of them. Where it takes none is its own affair, and only the speed depends on it: before the first pattern, and
    /// where one may end among them.
    #[inline]
    pub fn step_word(&mut self, word: &[u8; 8]) -> Option<[u8; 8]>
        requires room { pushed_by self.old + 8 ≤ 2 ^ 36 }
        ensures taken { IfSome result (λ sure. Takes self.old self.new word.now sure) }
        ensures left { IfNone result (self.new ≡ self.old) }
    {
        let SlipPhase::Open(window) = self.phase else {
            return None;
        };
        let run = run_over_word(window.run, word)?;
        self.pushed += 8;
        self.phase = SlipPhase::Open(window.passed_word(word, run));
        Some(window.first_word(word))
    }

    /// Takes the next byte, and gives what is sure of the realigned bytes with it: at most one byte.
    pub fn push(&mut self, byte: u8, out: &mut ArrayVec<u8, 8>)
        requires empty { out.old.items ≡ [] }
        requires room { pushed_by self.old < 2 ^ 36 }
        ensures taken { Takes self.old self.new (byte ∷ []) out.new.items }
        ensures few { array_vec_len out.new ≤ 1 }
    {
        if let Some(sure) = self.step(byte) {
            out.push(sure);
        }
    }

    /// Takes a byte before the first segment.
    fn hunt(&mut self, run: u8, byte: u8)
        requires hunting { self.old.phase ≡ Hunting run }
        requires room { self.old.skipped + run + 8 ≤ 8 * self.old.pushed }
        requires finds { self.old.patterns + 1 ≤ self.old.pushed }
        ensures to_come { (more : List ℕ) → joined [] self.old (to_come self.old (byte ∷ more))
            ≡ joined [] self.new (to_come self.new more) }
        ensures count { self.new.pushed ≡ self.old.pushed }
    {
        match pattern_in(run, byte) {
            Some(count) => {
                self.skipped += u64::from(run + count - 31);
                self.patterns += 1;
                self.phase = SlipPhase::Open(BitWindow::begun(byte, count));
            }
            None => {
                let next = run_over(run, byte);
                self.skipped += u64::from(run + 8 - next);
                self.phase = SlipPhase::Hunting(next);
            }
        }
    }

    /// Takes a byte in a segment, and answers what has become sure.
    #[inline]
    fn pass(&mut self, window: BitWindow, byte: u8) -> Option<u8>
        requires open { self.old.phase ≡ Open window }
        requires finds { self.old.patterns + 1 ≤ self.old.pushed }
        ensures to_come { (more : List ℕ) → joined [] self.old (to_come self.old (byte ∷ more))
            ≡ joined (option_to_list result) self.new (to_come self.new more) }
        ensures count { self.new.pushed ≡ self.old.pushed }
    {
        match pattern_in(window.run, byte) {
            Some(count) => {
                let closed = window.held + count - 31;
                let sure = if closed >= 8 {
                    Some(window.first())
                } else {
                    None
                };
                self.dropped += u64::from(closed % 8);
                self.patterns += 1;
                self.phase = SlipPhase::Open(BitWindow::begun(byte, count));
                sure
            }
            None => {
                self.phase = SlipPhase::Open(window.passed(byte));
                Some(window.first())
            }
        }
    }

    /// Gives the rest, and the numbers.
    pub fn finish(self, out: &mut ArrayVec<u8, 8>) -> Slipped
        requires empty { out.old.items ≡ [] }
        ensures whole { (bytes so_far : List ℕ) → Stands self bytes so_far → realigned bytes ≡ record {
          bytes = so_far ++ out.new.items;
          skipped = result.skipped;
          dropped = result.dropped;
          patterns = result.patterns;
        } }
        ensures few { array_vec_len out.new ≤ 4 }
    {
        let mut slipped = Slipped {
            skipped: self.skipped,
            dropped: self.dropped,
            patterns: self.patterns,
        };
        match self.phase {
            SlipPhase::Hunting(run) => slipped.skipped += u64::from(run),
            SlipPhase::Open(window) => {
                window.give_whole(out);
                slipped.dropped += u64::from(window.held - 32);
            }
        }
        slipped
    }
}
