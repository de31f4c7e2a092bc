//! Laws of written captures and of the writer.

ghost use Rattle.std.specs.Prelude.{◌≡◌, ◌≤◌, ◌+◌, ◌++◌, ◌∷◌, ℕ, [], List, Option, length};
ghost use Rattle.std.specs.List.{All, concat};
ghost use Rattle.frame_writer.specs.declared.writer.FrameWriter.{FrameWriter};
ghost use Rattle.frame_writer.specs.Written.{Tagged, Later, joined, written_segments, frames_by, frames_from};
ghost use Rattle.frame_writer.specs.Writer.{Stands, appended, to_come};
ghost use Rattle.frame_writer.specs.Fronts.{sure_after};
ghost use Rattle.frame_writer.specs.ReadBack.{IsOfSource, ReadsBack};

/// What is written reads back: the written segments of bytes of the sources 1 to 126 have no fault, no tail and no
/// cell without an ID, and their cells of IDs other than 0 are those bytes, in order.
pub fn written_law()
    ensures { (every halves : ℕ) → (segments : List (List Tagged)) → All (λ t. All IsOfSource t) segments →
        ReadsBack (written_segments every halves segments) (joined segments) }
{}

/// An empty segment writes nothing.
pub fn empty_law()
    ensures { (every halves : ℕ) (segments : List (List Tagged)) →
        written_segments every halves ([] ∷ segments) ≡ written_segments every halves segments }
{}

/// Where a writer stands for segments of which this much is written, that and what it would still append, if it
/// were finished, are these written segments; and it is a front of these segments as written where the last one is
/// longer and others come after it.
pub fn stands_law()
    ensures finished { (w : FrameWriter) (every halves : ℕ) (closed : List (List Tagged)) (t : List Tagged)
        (so_far : List ℕ) → Stands w every halves closed t so_far →
        written_segments every halves (closed ++ t ∷ []) ≡ so_far ++ concat (to_come w [] []) }
    ensures front { (w : FrameWriter) (every halves : ℕ) (closed : List (List Tagged)) (t u : List Tagged)
        (later : List (List Tagged)) (so_far : List ℕ) → Stands w every halves closed t so_far →
        (rest : List ℕ) × (written_segments every halves (closed ++ ((t ++ u) ∷ later)) ≡ so_far ++ rest) }
{}

/// There are at most as many frames as bytes: a greater bound gives the same ones.
pub fn bound_law()
    ensures { (every halves : ℕ) (later : Later) (most n : ℕ) → (c : Option ℕ) → (t : List Tagged) → length t ≤ most →
        frames_by every halves later most n c t ≡ frames_from every halves later n c t }
{}

/// What a writer would still append, if it were finished, is no more than one frame: a full synchronisation, 16 bytes,
/// and 8 half synchronisations in each of 7 gaps.
pub fn room_law()
    ensures { (w : FrameWriter) → length (concat (to_come w [] [])) ≤ 132 }
{}

/// A writer has appended at most as many frames as bytes were put.
pub fn count_law()
    ensures { (w : FrameWriter) (every halves : ℕ) (closed : List (List Tagged)) (t : List Tagged) (so_far : List ℕ) →
        Stands w every halves closed t so_far → appended w ≤ length (joined closed) + length t }
{}

/// What is sure of some segments is a front of what is sure where the last one is longer or another one is begun after
/// it, and of the written segments, which are at most one frame longer.
pub fn sure_law()
    ensures grows { (every halves : ℕ) (closed : List (List Tagged)) (t u : List Tagged) →
        (rest : List ℕ) × (sure_after every halves closed (t ++ u) ≡ sure_after every halves closed t ++ rest) }
    ensures closes { (every halves : ℕ) (closed : List (List Tagged)) (t u : List Tagged) →
        (rest : List ℕ) × (sure_after every halves (closed ++ t ∷ []) u ≡ sure_after every halves closed t ++ rest) }
    ensures front { (every halves : ℕ) (closed : List (List Tagged)) (t : List Tagged) → halves ≤ 8 →
        (rest : List ℕ) × (written_segments every halves (closed ++ t ∷ []) ≡ sure_after every halves closed t ++ rest)
        × (length rest ≤ 132) }
{}
