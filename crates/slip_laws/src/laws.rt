//! Laws of lost bits, over the definitions alone. What a front of lost bytes does is said by the laws of `resync_laws`.

ghost use Rattle.std.specs.Prelude.{◌≡◌, ◌↔◌, ◌<◌, ℕ, suc, List, [], ◌++◌, ◌∷◌, Bool, false, None};
ghost use Rattle.std.specs.List.{AllByRecursion};
ghost use Rattle.trace_values.specs.Placed.{Placed};
ghost use Rattle.trace_values.specs.Reading.{Reading, IsReading};
ghost use Rattle.frame_grammar.specs.Port.{PortItem, Spells, why};
ghost use Rattle.port_slip.specs.Bits.{ones};
ghost use Rattle.slip_laws.specs.Lost.{line_bits, EndsWithSync, EndsFull};
ghost use Rattle.slip_laws.specs.Slips.{IsSlip};
ghost use Rattle.slip_laws.specs.Following.{CameOf, RealignedFollows};

use source_events::Plan;

/// In a list of frames and synchronisations followed by a tail, taken as bits, the low bit of each byte first, 31 ones
/// and a zero end exactly at the last bit of each full synchronisation, and every other run of ones that a zero ends
/// has at most 30.
pub fn bit_pattern_law()
    ensures ends { (u : List Placed) (r : Reading PortItem) → AllByRecursion (λ b. b.unit < 256) u →
        IsReading Spells why u r → r.fault ≡ None → (front rest : List Bool) → line_bits u ≡ front ++ rest →
        EndsWithSync front ↔ EndsFull u r front }
    ensures runs { (u : List Placed) (r : Reading PortItem) → AllByRecursion (λ b. b.unit < 256) u →
        IsReading Spells why u r → r.fault ≡ None → (n : ℕ) (front rest : List Bool) → 30 < n →
        line_bits u ≡ front ++ (ones n ++ (false ∷ rest)) → EndsFull u r (front ++ (ones n ++ false ∷ [])) }
{}

/// Where a capture has no fault, what is realigned of any of its bits is, from the first full synchronisation on that
/// is among them, its bytes; with any other bits before them, from that one on nothing is wrong.
pub fn slip_law()
    ensures { (u : List Placed) (r : Reading PortItem) → AllByRecursion (λ b. b.unit < 256) u →
        IsReading Spells why u r → r.fault ≡ None → (lost kept over : List Bool) →
        line_bits u ≡ lost ++ (kept ++ over) → IsSlip u r lost kept }
{}

/// What hunts read of the realigned bytes follows the capture as it was sent: the last realigned bytes are its own from
/// the first full synchronisation after the last loss on, so that they read as its rest does whose front is lost. Where
/// no other bits came before, these are all the bytes that are written.
pub fn realigned_report_law(plan: &Plan)
    ensures { (input : List ℕ) (came : CameOf plan.now input) → RealignedFollows plan.now input came }
{}
