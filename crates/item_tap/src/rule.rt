//! Rules of events.

ghost use Rattle.std.specs.Prelude.{Bool};
ghost use Rattle.source_events.specs.declared.event.Event.{Event};
ghost use Rattle.source_events.specs.declared.packet.Packet.{Packet};

/// A rule of events. Its one meaning is which events it holds for.
pub trait Rule {
    ghost holds: { Self → Event Packet → Bool };
}
