//! Laws of the words, over their definitions alone.

ghost use Rattle.std.specs.Prelude.{◌≡◌, ◌≤◌, ◌⊎◌, ◌↔◌, ℕ, List, Some, length};
ghost use Rattle.clap.specs.Words.{Text};
ghost use Rattle.capture_words.specs.Calls.{AsksFor, Misuses, IsMisuse};
ghost use Rattle.item_tap.specs.declared.bounds.Bounds.{Bounds};
ghost use Rattle.item_tap.specs.declared.choice.Choice.{Choice};
ghost use Rattle.capture_words.specs.Choices.{IsChoice, choice_text, AreChoices, choices_text, IsWindow, window_text};
ghost use Rattle.capture_words.specs.Choices.{AreIds, ids_text};
ghost use Rattle.capture_words.specs.Texts.{usage_line, IsFault};
ghost use Rattle.capture_words.specs.Values.{choice_named, choices_named, window_named, ids_named};
ghost use Rattle.capture_words.specs.declared.job.Job.{Job};
ghost use Rattle.capture_words.specs.declared.usage.TheConstants.{LINE_ROOM};
ghost use Rattle.capture_words.specs.declared.usage.UsageFault.{UsageFault};

/// All words ask for a job or are a misuse, and never both. They ask for one job, and have one fault.
pub fn calls_law()
    ensures either { (words : List Text) → IsMisuse words ⊎ ((job : Job) × AsksFor words job) }
    ensures not_both { (words : List Text) (job : Job) → AsksFor words job → IsMisuse words → ⊥ }
    ensures one_job { (words : List Text) (a b : Job) → AsksFor words a → AsksFor words b → a ≡ b }
    ensures one_fault { (words : List Text) (a b : UsageFault) → Misuses words a → Misuses words b → a ≡ b }
{}

/// The line of a fault has at most `LINE_ROOM` bytes, and one has as many.
pub fn line_law()
    ensures fits { (fault : UsageFault) → IsFault fault → length (usage_line fault) ≤ LINE_ROOM }
    ensures tight { (fault : UsageFault) × (length (usage_line fault) ≡ LINE_ROOM) }
{}

/// A text names exactly the choice within the bounds whose text it is.
pub fn choice_law()
    ensures { (choice : Choice) (text : Text) →
        (choice_named text ≡ Some choice) ↔ (IsChoice choice × (text ≡ choice_text choice)) }
{}

/// The same of lists of choices: a text names exactly those whose text it is, one to eight with commas between.
pub fn choices_law()
    ensures { (choices : List Choice) (text : Text) →
        (choices_named text ≡ Some choices) ↔ (AreChoices choices × (text ≡ choices_text choices)) }
{}

/// The same of windows: a text names exactly the window whose text it is, two choices with a comma between them.
pub fn window_law()
    ensures { (window : Bounds) (text : Text) →
        (window_named text ≡ Some window) ↔ (IsWindow window × (text ≡ window_text window)) }
{}

/// The same of lists of IDs: a text names exactly those whose text it is, one to so many with commas between. Those of
/// mapped sources are up to eight from 1 to 111, and those of a funnel's order up to sixteen from 1 to 126.
pub fn ids_law()
    ensures { (most greatest : ℕ) (ids : List ℕ) (text : Text) → greatest ≤ 126 →
        (ids_named most greatest text ≡ Some ids) ↔ (AreIds most greatest ids × (text ≡ ids_text ids)) }
{}
