//! The action `realign`.

ghost use Rattle.std.specs.Prelude.{◌≡◌, ◌+◌, ◌≤◌, ◌++◌, ◌∷◌, [], ℕ, List, length, take};
ghost use Rattle.capture_actions.specs.Names.{OUTLET_ROOM, ACTION_ROOM, GREATEST_CAPTURE, pushed_by, realigned};
ghost use Rattle.capture_actions.specs.Realigned.{realign_text, realign_ending};
ghost use Rattle.capture_actions.specs.Realigner.{Pushes};

use arrayvec::ArrayVec;
use port_slip::{Slip, Slipped};
use trace_stream::{ACTION_ROOM, Action, Outlet, Progress};

/// Realigns the bytes that it takes, so that what it writes is the realigned bytes of them.
#[derive(Drop)]
pub struct Realign {
    slip: Slip,
}

/// Takes a byte, and adds what has become sure.
#[inline]
fn push_byte(slip: &mut Slip, byte: u8, outlet: &mut Outlet)
    requires count { pushed_by slip.old + 1 ≤ GREATEST_CAPTURE }
    requires room { length outlet.old + 1 ≤ OUTLET_ROOM }
    ensures { Pushes slip.old slip.new (byte ∷ []) outlet.old outlet.new }
{
    if let Some(sure) = slip.step(byte) {
        outlet.push(sure);
    }
}

/// Takes bytes one by one, and adds what has become sure.
fn push_bytes(slip: &mut Slip, bytes: &[u8], outlet: &mut Outlet)
    requires count { pushed_by slip.old + length bytes.now ≤ GREATEST_CAPTURE }
    requires room { length outlet.old + length bytes.now ≤ OUTLET_ROOM }
    ensures { Pushes slip.old slip.new bytes.now outlet.old outlet.new }
{
    for byte in bytes {
        push_byte(slip, *byte, outlet);
    }
}

/// Takes eight bytes, at once where that goes, and adds what has become sure.
#[inline]
fn push_word(slip: &mut Slip, word: &[u8; 8], outlet: &mut Outlet)
    requires count { pushed_by slip.old + 8 ≤ GREATEST_CAPTURE }
    requires room { length outlet.old + 8 ≤ OUTLET_ROOM }
    ensures { Pushes slip.old slip.new word.now outlet.old outlet.new }
{
    match slip.step_word(word) {
        Some(sure) => outlet.append(&sure),
        None => push_bytes(slip, word, outlet),
    }
}

/// Takes bytes, eight at once where that goes, and adds what has become sure.
fn push_all(slip: &mut Slip, bytes: &[u8], outlet: &mut Outlet)
    requires count { pushed_by slip.old + length bytes.now ≤ GREATEST_CAPTURE }
    requires room { length outlet.old + length bytes.now ≤ OUTLET_ROOM }
    ensures { Pushes slip.old slip.new bytes.now outlet.old outlet.new }
{
    let mut rest = bytes;
    while let Some((word, later)) = rest.split_first_chunk::<8>() {
        push_word(slip, word, outlet);
        rest = later;
    }
    push_bytes(slip, rest, outlet);
}

/// What `realign` writes for some bytes, and what it puts at their end, are the realigned bytes.
pub fn realign_law()
    ensures { (bytes : List ℕ) → realign_text bytes ++ realign_ending bytes ≡ (realigned bytes).bytes }
{}

impl Realign {
    ghost use Rattle.capture_actions.specs.Realigner.{Stands, plan_of, taken_by};

    /// Nothing is taken yet.
    pub fn new() -> Realign
        ensures stands { Stands result [] }
        ensures count { taken_by result ≡ 0 }
    {
        Realign { slip: Slip::new() }
    }

    /// What was not written, where nothing more comes.
    pub fn slipped(&self) -> Slipped
        ensures { (seen : List ℕ) → Stands self.now seen → let r = realigned seen in
            (result.skipped ≡ r.skipped) × (result.dropped ≡ r.dropped) × (result.patterns ≡ r.patterns) }
    {
        self.slip.finish(&mut ArrayVec::new())
    }
}

impl Action for Realign {
    ghost use Rattle.capture_actions.specs.Realigned.{realign_meaning};
    ghost use Rattle.capture_actions.specs.Realigner.{Stands, plan_of, taken_by};
    ghost use Rattle.capture_actions.specs.RealignLaws.{realign_lawful};

    type Plan = ();

    ghost plan = { plan_of };

    ghost taken = { taken_by };

    ghost stands = { Stands };

    ghost meaning = { λ _. realign_meaning };

    ghost lawful = { λ _. realign_lawful };

    #[inline]
    fn pour(&mut self, _outlet: &mut Outlet) -> bool {
        false
    }

    /// Takes as many bytes as there is room for.
    fn feed(&mut self, piece: &[u8], outlet: &mut Outlet, _notes: &mut Outlet) -> Progress {
        let bytes = piece.len().min(ACTION_ROOM);
        push_all(&mut self.slip, &piece[..bytes], outlet);
        Progress {
            bytes,
            is_faulty: false,
        }
    }

    /// Puts the last bytes, which are not sure while more may come.
    fn finish(&mut self, outlet: &mut Outlet) {
        let mut last = ArrayVec::new();
        let _ = self.slip.finish(&mut last);
        outlet.append(last.as_slice());
    }

    fn is_due(&self) -> bool {
        true
    }
}
