//! Laws of the kinds of items, over their definitions alone.

ghost use Rattle.std.specs.Prelude.{◌≡◌, ◌≤◌, ℕ, List, Some, None, true, false};
ghost use Rattle.std.specs.List.{sum_by};
ghost use Rattle.source_events.specs.Report.{is_item};
ghost use Rattle.source_events.specs.Tails.{items_in};
ghost use Rattle.capture_actions.specs.Names.{Event, Packet, What};
ghost use Rattle.capture_actions.specs.KindCounts.{kind_count};
ghost use Rattle.capture_actions.specs.Words.{Begins, all_words, word_of};
ghost use Rattle.capture_actions.specs.declared.item_word.ItemWord.{ItemWord};
ghost use Rattle.trace_text.specs.LineText.{what_text};

/// The word of an item is the first of its text, and so the third field of its line. Each item has one, and the notice
/// of a lock has none.
pub fn word_law()
    ensures first { (what : What Packet) (word : ItemWord) → word_of what ≡ Some word → Begins (what_text what) word }
    ensures none { (what : What Packet) → word_of what ≡ None → is_item what ≡ false }
    ensures some { (what : What Packet) (word : ItemWord) → word_of what ≡ Some word → is_item what ≡ true }
{}

/// The counts of all words of a source sum to its items.
pub fn sum_law()
    ensures { (es : List (Event Packet)) (source : ℕ) →
        sum_by (λ word. kind_count source word es) all_words ≡ items_in source es }
{}
