//! Laws of recovering readings, over their definitions alone.

ghost use Rattle.std.specs.Prelude.{◌≡◌, ℕ, List, [], ◌∷◌, ◌++◌, map, All, Bool, None, Some, true};
ghost use Rattle.trace_values.specs.declared.fault.Reason.{Reason};
ghost use Rattle.trace_values.specs.Placed.{Place, Placed};
ghost use Rattle.trace_values.specs.Stream.{Said, Kept, Stream};
ghost use Rattle.stretch_readings.specs.declared.heard.Heard.{Heard};
ghost use Rattle.stretch_readings.specs.declared.heard.Heard.TheVariants.{Broken};
ghost use Rattle.stretch_readings.specs.Guessing.{near_of, sure_of};
ghost use Rattle.stretch_readings.specs.Stretches.{Fed, One, Mark, Resumption, Stretches, heard, heard_of, read};
ghost use Rattle.stretch_readings.specs.Stretches.{recovering, stretches};
ghost use Rattle.stretch_readings.specs.Words.{Goes, IsSettling, IsSound, after_past};

/// The stretches of a list without marks are those that `Goes` says in words, for each reading in which what is taken
/// again has no fault.
pub fn words_law<V>()
    ensures { (reads : Bool → List Placed → Stream V) (way : Resumption) (h : Bool)
        (u : List Placed) → IsSound reads way → (reads h []).fault ≡ None →
        Goes reads way h 0 u (stretches reads way h (map One u)).past (stretches reads way h (map One u)).now }
{}

/// What comes after a cut is read by itself, in a hunt that counts from 0.
pub fn parts_law<V>()
    ensures { (reads : Bool → List Placed → Stream V) (way : Resumption) (h : Bool)
        (l m : List Fed) → stretches reads way h (l ++ (Mark ∷ m)) ≡
        after_past ((stretches reads way h l).past ++ (stretches reads way h l).now ∷ [])
        (stretches reads way true m) }
{}

/// Without a fault there is one stretch, and the recovering reading is the strict one. With a fault the recovering
/// reading begins with what the strict one gives, and the fault.
pub fn strict_law<V>()
    ensures one { (reads : Bool → List Placed → Stream V) (way : Resumption) (h : Bool) (u : List Placed) →
        IsSound reads way → ((m : Bool) → (reads m []).fault ≡ None) → IsSettling reads → (reads h u).fault ≡ None →
        stretches reads way h (map One u) ≡ record { past = []; now = record { hunts = h; count = 0; units = u } } }
    ensures first { (reads : Bool → List Placed → Stream V) (way : Resumption) (h : Bool)
        (u : List Placed) (f : Place × Reason) →
        IsSound reads way → ((m : Bool) → (reads m []).fault ≡ None) → IsSettling reads → (reads h u).fault ≡ Some f →
        (rest : List (Said (Heard V) × Place)) × ((recovering reads way h (map One u)).given ≡
        (map (heard reads way 0) (reads h u).given ++ (Kept (Broken f.1), f.0) ∷ []) ++ rest) }
{}

/// Guesses are only added: without them what stretches say with guesses is what they say. Where no stretch that is over
/// has a fault there is none.
pub fn guesses_law<V>()
    ensures sure { (reads : Bool → List Placed → Stream V) (way : Resumption) (r : Stretches) →
        sure_of (near_of reads way r) ≡ (heard_of reads way r).given }
    ensures none { (reads : Bool → List Placed → Stream V) (way : Resumption) (r : Stretches) →
        All (λ s. (read reads way s).fault ≡ None) r.past → near_of reads way r ≡ (heard_of reads way r).given }
{}
