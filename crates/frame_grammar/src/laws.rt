//! Laws of the grammar and of cells, over their definitions alone.

ghost use Rattle.std.specs.Prelude.{◌≡◌, ◌↔◌, ◌<◌, ◌≤◌, ℕ, ◌+◌, ◌*◌, ◌/◌, true, false, List, ◌++◌, Option, None, Some};
ghost use Rattle.std.specs.Prelude.{map, length, slice_index};
ghost use Rattle.std.specs.List.{Contains, count_by, range_with_len};
ghost use Rattle.frame_grammar.specs.Names.{Cell, source_id, Place, Placed, units_of, PrefixLaw, Decides, Reading};
ghost use Rattle.frame_grammar.specs.Names.{IsReading, IsFirstFault, Reason};
ghost use Rattle.frame_grammar.specs.Frame.{IsProperFrame, in_effect, id_at, run_at, cell, cells, data_indexes};
ghost use Rattle.frame_grammar.specs.Frame.{data_at};
ghost use Rattle.frame_grammar.specs.Runs.{HasRuns};
ghost use Rattle.frame_grammar.specs.Port.{PortItem, Frame, Spells, why, rule, start, half_words};
ghost use Rattle.frame_grammar.specs.Reading.{port_reading, port_progress, cells_of_items, id_of_items, offsets_of};
ghost use Rattle.frame_grammar.specs.Reading.{source_list};
ghost use Rattle.frame_grammar.specs.SourceBytes.{bytes_of_source, source_units};
ghost use Rattle.frame_grammar.specs.Whole.{IsWhole};
ghost use Rattle.frame_grammar.specs.declared.frame.TheConstants.{FRAME_BYTES};

/// One list of bytes spells at most one item, and no spelling begins another.
pub fn prefix_law()
    ensures { PrefixLaw Spells }
{}

/// The rule, byte by byte, ends an item exactly with the bytes that spell it, goes on exactly while a
/// item goes on so, and gives each fault its reason.
pub fn rule_law()
    ensures { Decides Spells why rule start }
{}

/// Each list of placed bytes has one reading, and reading them byte by byte computes it.
pub fn reading_law()
    ensures { (u : List Placed) (r : Reading PortItem) → IsReading Spells why u r ↔ (r ≡ port_reading u) }
{}

/// A frame has 16 bytes, none of the mixed-use ones is FF, and its spelling has them and its half synchronisations.
pub fn frame_law()
    ensures bytes { (f r : List Placed) (halves : ℕ) → Spells (Frame f halves) r → length f ≡ FRAME_BYTES }
    ensures proper { (f r : List Placed) (halves : ℕ) → Spells (Frame f halves) r → IsProperFrame (units_of f) }
    ensures spelling { (f r : List Placed) (halves : ℕ) → Spells (Frame f halves) r →
        length r ≡ FRAME_BYTES + 2 * halves }
{}

/// 16 bytes with no FF at an even index are a whole frame. One with half synchronisations between its halfwords has two
/// bytes more for each, and the frame without them has 16 bytes, and no FF at an even index.
pub fn whole_law()
    ensures plain { (bytes : List ℕ) → length bytes ≡ FRAME_BYTES → IsProperFrame bytes → IsWhole bytes bytes 0 }
    ensures size { (bytes frame : List ℕ) (halves : ℕ) → IsWhole bytes frame halves →
        length bytes ≡ FRAME_BYTES + 2 * halves }
    ensures frame { (bytes frame : List ℕ) (halves : ℕ) → IsWhole bytes frame halves → length frame ≡ FRAME_BYTES }
    ensures proper { (bytes frame : List ℕ) (halves : ℕ) → IsWhole bytes frame halves → IsProperFrame frame }
{}

/// Half synchronisations are counted in a frame by its spelling, in an unfinished one by the bytes it has, and in one
/// that a fault breaks by the bytes before that of the fault.
pub fn halves_law()
    ensures frame { (f r : List Placed) (halves : ℕ) → Spells (Frame f halves) r → halves ≡ half_words r }
    ensures unfinished { (u : List Placed) → (port_reading u).fault ≡ None →
        (port_progress u).state.halves ≡ half_words (port_reading u).rest }
    ensures broken { (u : List Placed) (fault : Place × Reason) →
        (broken : IsFirstFault Spells why (port_reading u).rest fault) →
        (port_reading u).fault ≡ Some fault → (port_progress u).state.halves ≡ half_words broken.before }
{}

/// The ID carries over from items to those after them.
pub fn items_law()
    ensures cells { (id : Option ℕ) (xs ys : List PortItem) →
        cells_of_items id (xs ++ ys) ≡ cells_of_items id xs ++ cells_of_items (id_of_items id xs) ys }
    ensures id { (id : Option ℕ) (xs ys : List PortItem) →
        id_of_items id (xs ++ ys) ≡ id_of_items (id_of_items id xs) ys }
{}

/// The ID in force at an index is named by the last ID byte that is in effect there, and is the ID before
/// the frame where none is; the run is how many are.
pub fn force_law()
    ensures named { (frame : List ℕ) (id : Option ℕ) (i k : ℕ) → k < 8 → in_effect frame i k ≡ true →
        ((m : ℕ) → k < m → m < 8 → in_effect frame i m ≡ false) →
        id_at frame id i ≡ source_id (slice_index frame (2 * k) / 2) }
    ensures before { (frame : List ℕ) (id : Option ℕ) (i : ℕ) →
        ((m : ℕ) → m < 8 → in_effect frame i m ≡ false) → id_at frame id i ≡ id }
    ensures run { (frame : List ℕ) (i : ℕ) → run_at frame i ≡ count_by (λ k. in_effect frame i k) (range_with_len 0 8) }
{}

/// The cells of a frame are at the indexes 0 to 14 that are no ID bytes, in order; each has its index's
/// offset, the ID and the run in force there, and the data there.
pub fn cells_law()
    ensures cells { (frame offsets : List ℕ) (id : Option ℕ) →
        cells frame offsets id ≡ map (λ i. cell frame offsets id i (data_at frame i)) (data_indexes frame) }
    ensures offsets { (frame offsets : List ℕ) (id : Option ℕ) →
        map (λ c. c.at) (cells frame offsets id) ≡ map (λ i. slice_index offsets i) (data_indexes frame) }
{}

/// A frame has at most 15 cells.
pub fn length_law()
    ensures { (frame offsets : List ℕ) (id : Option ℕ) → length (cells frame offsets id) ≤ 15 }
{}

/// Along a frame's cells the run never falls and is at most 8, and cells of one run have one ID.
pub fn runs_law()
    ensures { (frame offsets : List ℕ) (id : Option ℕ) → HasRuns (cells frame offsets id) }
{}

/// Cells of one run have one ID, and those of run 0 the ID before the frame.
pub fn ids_law()
    ensures one_id { (frame offsets : List ℕ) (id : Option ℕ) (c d : Cell) →
        Contains (cells frame offsets id) c → Contains (cells frame offsets id) d → c.run ≡ d.run → c.id ≡ d.id }
    ensures before { (frame offsets : List ℕ) (id : Option ℕ) (c : Cell) →
        Contains (cells frame offsets id) c → c.run ≡ 0 → c.id ≡ id }
{}

/// The bytes of a source in cells that follow one another are those in the first and then those in the others, and each
/// is at its cell's offset.
pub fn source_law()
    ensures cells { (id : ℕ) (a b : List Cell) → source_list id (a ++ b) ≡ source_list id a ++ source_list id b }
    ensures units { (id : ℕ) (a b : List Cell) → source_units id (a ++ b) ≡ source_units id a ++ source_units id b }
    ensures bytes { (id : ℕ) (cells : List Cell) → units_of (source_units id cells) ≡ bytes_of_source id cells }
    ensures offsets { (id : ℕ) (cells : List Cell) →
        offsets_of (source_units id cells) ≡ map (λ c. c.at) (source_list id cells) }
{}
