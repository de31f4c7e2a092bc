//! The laws of funnels, over the definitions alone.

ghost use Rattle.std.specs.Prelude.{◌≡◌, ◌≤◌, ◌+◌, ◌-◌, ◌*◌, ℕ, true, false, List, [], ◌∷◌, ◌++◌, length, ◌==◌};
ghost use Rattle.std.specs.List.{list_any};
ghost use Rattle.trace_funnel.specs.Turns.{Place, queue_of, waited_of, turn, turns_while, is_full, offer, load, empty};
ghost use Rattle.trace_funnel.specs.Kept.{bytes_for};
ghost use Rattle.trace_funnel.specs.Acts.{Act, Drain, acts, offered, are_of};
ghost use Rattle.trace_funnel.specs.Order.{are_apart};

/// What holds of a funnel whatever it did since its beginning. Of each source, what it gave and then what is in its
/// queue is what was offered: nothing is lost, made or moved. After a drain, what it gave is all that was offered. A
/// place waits while at most as many bytes are given as all other places may give in one turn each. Before an offer at
/// most as many turns are made as there are places: then the queue has room, and to allow more changes nothing. What
/// is done in two parts is the one and then the other.
pub fn funnel_law()
    ensures kept { (hold depth : ℕ) (ids : List ℕ) (done : List Act) → are_apart ids ≡ true →
        are_of ids (offered done) ≡ true → let t = acts hold depth (empty ids) done in
        (id : ℕ) → bytes_for id t.out ++ queue_of id t.places ≡ bytes_for id (offered done) }
    ensures drained { (hold depth : ℕ) (ids : List ℕ) (done : List Act) → 1 ≤ hold → are_apart ids ≡ true →
        are_of ids (offered done) ≡ true → let t = acts hold depth (empty ids) (done ++ Drain ∷ []) in
        (load t.places ≡ 0) × ((id : ℕ) → bytes_for id t.out ≡ bytes_for id (offered done)) }
    ensures waits { (hold depth : ℕ) (ids : List ℕ) (done : List Act) (id : ℕ) →
        waited_of id (acts hold depth (empty ids) done).places ≤ (length ids - 1) * hold }
    ensures turns { (hold depth : ℕ) (ids : List ℕ) (done : List Act) (id : ℕ) → 1 ≤ hold → 1 ≤ depth →
        are_apart ids ≡ true → are_of ids (offered done) ≡ true → list_any (λ x. x == id) ids ≡ true →
        let ps = (acts hold depth (empty ids) done).places in
        let made = turns_while (is_full depth id) hold (length ids) ps in (is_full depth id made.places ≡ false)
        × ((more : ℕ) → turns_while (is_full depth id) hold (length ids + more) ps ≡ made) }
    ensures joined { (hold depth : ℕ) (ps : List Place) (first next : List Act) →
        let t = acts hold depth ps first in let u = acts hold depth t.places next in
        acts hold depth ps (first ++ next) ≡ record { out = t.out ++ u.out; places = u.places } }
{}

/// What a waited number counts: the bytes that other places gave since the later of two moments. While a place has
/// bytes and gives none, it rises by each byte that is given; with the place's own turn it is 0; and it is 0 as its
/// queue begins to have bytes.
pub fn waited_law()
    ensures counts { (hold depth : ℕ) (ids : List ℕ) (done more : List Act) (id : ℕ) → 1 ≤ hold →
        are_apart ids ≡ true → let ps = (acts hold depth (empty ids) done).places in let t = acts hold depth ps more in
        1 ≤ length (queue_of id ps) → bytes_for id t.out ≡ [] →
        waited_of id t.places ≡ waited_of id ps + length t.out }
    ensures gave { (hold depth : ℕ) (ids : List ℕ) (done : List Act) (id : ℕ) → are_apart ids ≡ true →
        let t = turn hold (acts hold depth (empty ids) done).places in
        (bytes_for id t.out ≡ [] → ⊥) → waited_of id t.places ≡ 0 }
    ensures came { (hold depth : ℕ) (ids : List ℕ) (done : List Act) (id byte : ℕ) → 1 ≤ depth →
        are_apart ids ≡ true → let ps = (acts hold depth (empty ids) done).places in
        queue_of id ps ≡ [] → waited_of id (offer hold depth ps id byte).places ≡ 0 }
{}
