//! Laws of the reading of a port's bytes frame by frame, in each mode, over its definitions alone.

ghost use Rattle.std.specs.Prelude.{◌≡◌, ◌↔◌, ℕ, List, [], ◌∷◌, ◌++◌, length, map, true, false, is_none, Option};
ghost use Rattle.std.specs.List.{flat_map};
ghost use Rattle.deformatter.specs.Names.{Cell, Placed, byte_at, placed_from, placed, FramesMode, Hunt, Aligned, Bare};
ghost use Rattle.deformatter.specs.Names.{PortItem, cells_of_items, port_cells, full_count, half_count, frame_count};
ghost use Rattle.deformatter.specs.Names.{port_reading as grammar_reading};
ghost use Rattle.deformatter.specs.Reading.{port_stream, cells_in};
ghost use Rattle.deformatter.specs.PortReading.{PortReading, frames_of_items, port_reading, cells_of};
ghost use Rattle.deformatter.specs.ByGrammar.{IsPortReading};
ghost use Rattle.deformatter.specs.ReadingGrowth.{Settled, Rises, IsNothing};
ghost use Rattle.deformatter.specs.Runs.{HaveRuns};
ghost use Rattle.deformatter.specs.Rising.{BytesRise, CellsRise};

/// The bytes have one reading in each mode, which the grammar's spellings give: in frames from the first byte on, in
/// frames from the least place of `FF FF FF 7F` on, or byte by byte.
pub fn reading_law()
    ensures { (mode : FramesMode) (u : List Placed) (r : PortReading) →
        IsPortReading mode u r ↔ (r ≡ port_reading mode u) }
{}

/// In frames from the first byte on, the cells, the counts, the fault and the tail are those of the grammar's reading,
/// of which its worked rows speak.
pub fn grammar_law()
    ensures cells { (u : List Placed) → cells_of (port_reading Aligned u) ≡ port_cells u }
    ensures fulls { (u : List Placed) → (port_reading Aligned u).fulls ≡ full_count u }
    ensures halves { (u : List Placed) → (port_reading Aligned u).halves ≡ half_count u }
    ensures frames { (u : List Placed) → length (port_reading Aligned u).frames ≡ frame_count u }
    ensures fault { (u : List Placed) → (port_reading Aligned u).fault ≡ (grammar_reading u).fault }
    ensures tail { (u : List Placed) → (port_reading Aligned u).tail ≡ length (grammar_reading u).rest }
{}

/// The cells of the frames, in order, are those of the deformatter's reading; with no formatter they are
/// all bytes in order, each at its offset and of source 1.
pub fn port_law()
    ensures aligned { (u : List Placed) → cells_of (port_reading Aligned u) ≡ cells_in (port_stream false u) }
    ensures hunted { (u : List Placed) → cells_of (port_reading Hunt u) ≡ cells_in (port_stream true u) }
    ensures bare { (u : List Placed) →
        cells_of (port_reading Bare u) ≡ map (λ b. record { at = b.place.at; id = Some 1; run = 0; byte = b.unit }) u }
{}

/// The frames of items have the cells of these items, after any ID.
pub fn items_law()
    ensures { (id : Option ℕ) (items : List PortItem) →
        flat_map (λ frame. frame) (frames_of_items id items) ≡ cells_of_items id items }
{}

/// Of no bytes nothing is read.
pub fn nothing_law()
    ensures { (mode : FramesMode) → IsNothing (port_reading mode []) }
{}

/// A fault is the end of a reading.
pub fn settled_law()
    ensures { (mode : FramesMode) (u w : List Placed) → is_none (port_reading mode u).fault ≡ false →
        Settled (port_reading mode u) (port_reading mode (u ++ w)) }
{}

/// With more bytes there are more frames, and none is taken back; with one more byte a fault is at that byte.
pub fn rising_law()
    ensures one { (mode : FramesMode) (u : List Placed) (at byte : ℕ) →
        Rises (port_reading mode u) (port_reading mode (u ++ byte_at at byte ∷ [])) at }
    ensures frames { (mode : FramesMode) (u : List Placed) (at : ℕ) (bytes : List ℕ) → (more : List (List Cell)) ×
        ((port_reading mode (u ++ placed_from at bytes)).frames ≡ (port_reading mode u).frames ++ more) }
{}

/// The cells of each frame have runs that never fall, and one ID in a run.
pub fn runs_law()
    ensures { (mode : FramesMode) (u : List Placed) → HaveRuns (port_reading mode u).frames }
{}

/// The cells of all frames rise in offset as the bytes do; those of a whole capture are below its length.
pub fn placed_law()
    ensures rises { (mode : FramesMode) (u : List Placed) (lo hi : ℕ) → BytesRise lo hi u →
        CellsRise lo hi (cells_of (port_reading mode u)) }
    ensures capture { (mode : FramesMode) (bytes : List ℕ) →
        CellsRise 0 (length bytes) (cells_of (port_reading mode (placed bytes))) }
{}
