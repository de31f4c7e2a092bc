//! Lists in words: what the parts of a text name that have commas between.

ghost use Rattle.std.specs.Prelude.{◌≡◌, ◌<◌, ◌++◌, ◌∷◌, [], ℕ, List, Option, length, option_map};
ghost use Rattle.clap.specs.Words.{Text};
ghost use Rattle.capture_words.specs.Values.{parts_named};

/// A list in words: one to `MOST` items, each named by a text of its own.
pub trait Listed {
    type Item;

    // the item that a text names
    ghost named: { Text → Option Self.Item };
    // the items, in order
    ghost items: { Self → List Self.Item };

    ghost MOST: { ℕ };

    /// How many items there are at most.
    const MOST: usize;

    /// The item that a text names.
    fn item_named(text: &str) -> Option<Self::Item>
        ensures { result ≡ named text.now };

    /// This item alone.
    fn of(item: Self::Item) -> Self
        ensures { items result ≡ item ∷ [] };

    /// How many items there are.
    fn count(&self) -> usize
        ensures { result ≡ length (items self.now) };

    /// One more, of fewer than `MOST`.
    fn add(&mut self, item: Self::Item)
        requires { length (items self.old) < MOST }
        ensures { items self.new ≡ items self.old ++ item ∷ [] };

    // there is room for one
    ghost has_room: { 0 < MOST };
}

/// The list that a text names: one to `MOST` items with commas between.
pub fn list_named<L: Listed + Drop>(text: &str) -> Option<L>
    ensures { option_map L.items result ≡ parts_named L.named L.MOST text.now }
{
    let mut parts = text.split(',');
    let mut list = L::of(L::item_named(parts.next()?)?);
    for part in parts {
        if list.count() == L::MOST {
            return None;
        }
        list.add(L::item_named(part)?);
    }
    Some(list)
}
