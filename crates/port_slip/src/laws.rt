//! The realigned bytes in words.

ghost use Rattle.std.specs.Prelude.{◌≡◌, ◌≤◌, ℕ, List, ◌++◌, Bool, length};
ghost use Rattle.port_slip.specs.Segments.{Cut, cut, realigned};
ghost use Rattle.port_slip.specs.Sure.{sure};
ghost use Rattle.port_slip.specs.Slip.{Stands};
ghost use Rattle.port_slip.specs.declared.slip.Slip.{Slip};
ghost use Rattle.port_slip.specs.Words.{IsCut};

/// Bits are cut exactly where 31 ones and a zero begin, and there is no other way to cut them so.
pub fn cut_law()
    ensures is { (s : List Bool) → IsCut s (cut s) }
    ensures only { (s : List Bool) (c : Cut) → IsCut s c → c ≡ cut s }
{}

/// What is sure of some bytes is a front of what is sure of each longer list, and of what is realigned of them, which
/// is at most four bytes longer.
pub fn sure_law()
    ensures grows { (t u : List ℕ) → (rest : List ℕ) × (sure (t ++ u) ≡ sure t ++ rest) }
    ensures front { (t : List ℕ) → (rest : List ℕ) × ((realigned t).bytes ≡ sure t ++ rest) × (length rest ≤ 4) }
{}

/// What a realigner has written is what is sure of the bytes that it stands for.
pub fn stands_law()
    ensures { (s : Slip) (bytes so_far : List ℕ) → Stands s bytes so_far → so_far ≡ sure bytes }
{}
