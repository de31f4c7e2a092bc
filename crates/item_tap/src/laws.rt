//! Laws of choices, of lists of them, and of windows, over their definitions alone.

ghost use Rattle.std.specs.Prelude.{◌≡◌, ◌↔◌, ◌&&◌, ◌||◌, ◌++◌, ◌∷◌, [], List, Bool, true, false, not};
ghost use Rattle.source_events.specs.declared.event.Event.{Event};
ghost use Rattle.source_events.specs.declared.event.What.{What};
ghost use Rattle.source_events.specs.declared.packet.Packet.{Packet};
ghost use Rattle.source_events.specs.Report.{is_item};
ghost use Rattle.item_tap.specs.declared.choice.Choice.{Choice};
ghost use Rattle.item_tap.specs.declared.choice.Kind.{Kind};
ghost use Rattle.item_tap.specs.Choices.{content_of, is_of_kind, holds, holds_any};
ghost use Rattle.item_tap.specs.Windows.{IsOpenAfter, Passes, is_open_after, passes};

/// No choice holds for a notice of a lock, and so no list of choices.
pub fn notice_law()
    ensures one { (choice : Choice) (e : Event Packet) → is_item e.what ≡ false → holds choice e ≡ false }
    ensures any { (choices : List Choice) (e : Event Packet) → is_item e.what ≡ false → holds_any choices e ≡ false }
{}

/// A list of one choice holds for what that choice holds for, and with one more choice a list holds for what either
/// does.
pub fn list_law()
    ensures one { (choice : Choice) (e : Event Packet) → holds_any (choice ∷ []) e ≡ holds choice e }
    ensures more { (choices : List Choice) (choice : Choice) (e : Event Packet) →
        holds_any (choices ++ choice ∷ []) e ≡ (holds_any choices e || holds choice e) }
{}

/// All else that an event tells is of a kind, and of no other.
pub fn kinds_law()
    ensures some { (what : What Packet) → is_item what ≡ true →
        (kind : Kind) × (is_of_kind kind (content_of what) ≡ true) }
    ensures one { (what : What Packet) (a b : Kind) →
        is_of_kind a (content_of what) ≡ true → is_of_kind b (content_of what) ≡ true → a ≡ b }
{}

/// What is computed of a window is what its definitions say: when it is open, and which events pass.
pub fn window_law()
    ensures open { (first last : Event Packet → Bool) (es : List (Event Packet)) →
        (is_open_after first last es ≡ true) ↔ IsOpenAfter first last es }
    ensures passes { (first last : Event Packet → Bool) (before : List (Event Packet)) (e : Event Packet) →
        (passes first last before e ≡ true) ↔ Passes first last before e }
{}

/// A window is closed before the first event, and open after an event that passes and for which the last rule does not
/// hold.
pub fn window_step_law()
    ensures first { (first last : Event Packet → Bool) → is_open_after first last [] ≡ false }
    ensures next { (first last : Event Packet → Bool) (es : List (Event Packet)) (e : Event Packet) →
        is_open_after first last (es ++ e ∷ []) ≡ (passes first last es e && not (last e)) }
{}
