//! What is noted where a run ends, by the action, and how it ends at a fault.

ghost use Rattle.std.specs.Prelude.{◌≡◌, ◌⊎◌, ℕ, List, None, option_map, true, false};
ghost use Rattle.source_events.specs.Report.{of_source, stop_of};
ghost use Rattle.trace_text.specs.FaultText.{told};
ghost use Rattle.trace_stream.specs.Recent.{last_sixteen};
ghost use Rattle.capture_run.specs.Actions.{captured, last_note, split_note, report_note, recovered_notes};
ghost use Rattle.capture_run.specs.Actions.{rebuild_notes, realign_notes, ring_notes, unring_notes};
ghost use Rattle.capture_run.specs.Notes.{text_of, done_text, status_of, is_image};
ghost use Rattle.capture_run.specs.Run.{TaskNotes};

use crate::status::Status;
use capture_actions::{Check, KindCheck, PortText, Realign, Ring, Show, Split, Unring};
use port_slip::Slipped;
use recovery_listing::{Account, Recovering};
use script_rebuild::{Rebuild, ScriptFault};
use source_events::Stop;
use trace_stream::Action;
use trace_values::Fault;
use value_dump::Vcd;

/// What is noted at a fault.
#[derive(Clone, Copy, Drop)]
pub enum FaultNote {
    /// The last bytes up to the fault of a capture, and before them its line, if the output has none: that of a fault
    /// of the port or of an ITM source.
    Capture(Option<Stop>),
    /// The line of a script's fault.
    Script(Option<ScriptFault>),
    /// Nothing: what is written, or was noted before, tells the faults of the capture.
    Recovery,
    /// That the input isn't an image of this many bytes.
    Image(u64),
}

impl FaultNote {
    /// How a run ends at such a fault.
    pub fn status(&self) -> Status
        ensures { result ≡ status_of self.now }
    {
        match self {
            FaultNote::Capture(_) => Status::CaptureFault,
            FaultNote::Script(_) => Status::ScriptFault,
            FaultNote::Recovery => Status::Recovered,
            FaultNote::Image(_) => Status::BadImage,
        }
    }
}

/// What is noted where a run is done.
#[derive(Clone, Copy, Drop)]
pub enum DoneNote {
    Nothing,
    /// What realigning did not write.
    Realigned(Slipped),
    /// Of a trace buffer, where the next byte would go, whether it is full, and how many bytes were overwritten.
    Buffered {
        pointer: u64,
        full: bool,
        dropped: u64,
    },
}

/// What is noted where a run ends.
#[derive(Clone, Copy, Drop)]
pub struct Ending {
    /// Whether what was read has a fault where it is all of the input.
    pub is_late: bool,
    /// What is noted where it is all of the input and has none.
    pub done: DoneNote,
    /// What is noted at the fault.
    pub fault: FaultNote,
}

impl Ending {
    ghost use Rattle.capture_run.specs.declared.actions.DoneNote.TheVariants.{Nothing};
    ghost use Rattle.capture_run.specs.declared.actions.FaultNote.TheVariants.{Capture, Recovery};

    /// That of a capture with this fault, if its line is noted: none is late, and nothing is noted where it is done.
    fn of_capture(stop: Option<Stop>) -> Ending
        ensures { result ≡ record { is_late = false; done = Nothing; fault = Capture stop } }
    {
        Ending {
            is_late: false,
            done: DoneNote::Nothing,
            fault: FaultNote::Capture(stop),
        }
    }

    /// That of a capture that is read on after each fault: nothing is noted, and where it has a fault the run ends
    /// otherwise.
    fn of_recovery(is_faulty: bool) -> Ending
        ensures { result ≡ record { is_late = is_faulty; done = Nothing; fault = Recovery } }
    {
        Ending {
            is_late: is_faulty,
            done: DoneNote::Nothing,
            fault: FaultNote::Recovery,
        }
    }
}

/// An action of the command that reads the input.
pub trait CommandAction: Action {
    // what is noted of the bytes that were read, and how a run ends at a fault
    ghost notes: { Self.Plan → TaskNotes };

    /// What is noted where a run ends.
    fn ending(&self) -> Ending
        ensures status { status_of result.fault ≡ (notes (Self.plan self.now)).fault_status }
        ensures late { (seen : List ℕ) → Self.stands self.now seen →
            result.is_late ≡ (notes (Self.plan self.now)).late seen }
        ensures done { (seen : List ℕ) → Self.stands self.now seen →
            done_text result.done ≡ (notes (Self.plan self.now)).done_note seen }
        ensures fault { (seen recent : List ℕ) → Self.stands self.now seen →
            (recent ≡ last_sixteen seen) ⊎ ((notes (Self.plan self.now)).late seen ≡ true) →
            text_of result.fault recent ≡ (notes (Self.plan self.now)).fault_note seen }
        ensures exact { is_image result.fault ≡ (notes (Self.plan self.now)).exact }
        ensures sound { (seen : List ℕ) → (notes (Self.plan self.now)).exact ≡ true →
            (Self.meaning (Self.plan self.now)).faulty seen → ⊥ }
        ensures size { (bytes recent : List ℕ) → (notes (Self.plan self.now)).exact ≡ true →
            text_of result.fault recent ≡ (notes (Self.plan self.now)).fault_note bytes };
}

impl CommandAction for Show {
    ghost notes = { λ _. captured last_note };

    fn ending(&self) -> Ending {
        Ending::of_capture(None)
    }
}

/// A fault of the port, as one of a capture.
fn port_stop(fault: Option<Fault>) -> Option<Stop>
    ensures { option_map stop_of result ≡ of_source None (option_map told fault) }
{
    match fault {
        Some(fault) => Some(Stop {
            fault,
            source: None,
        }),
        None => None,
    }
}

impl CommandAction for Split {
    ghost notes = { λ plan. captured (split_note plan) };

    fn ending(&self) -> Ending {
        Ending::of_capture(port_stop(self.fault()))
    }
}

impl CommandAction for PortText {
    ghost notes = { λ p. captured (report_note p.plan) };

    fn ending(&self) -> Ending {
        Ending::of_capture(self.stop())
    }
}

impl CommandAction for Vcd {
    ghost notes = { λ p. captured (report_note p.plan) };

    fn ending(&self) -> Ending {
        Ending::of_capture(self.stop())
    }
}

impl CommandAction for Check {
    ghost notes = { λ _. captured last_note };

    fn ending(&self) -> Ending {
        Ending::of_capture(None)
    }
}

impl CommandAction for KindCheck {
    ghost notes = { λ _. captured last_note };

    fn ending(&self) -> Ending {
        Ending::of_capture(None)
    }
}

/// No fault ends the reading, and the lines of all are written, or were noted as the bytes came.
impl<A: Account> CommandAction for Recovering<A> {
    ghost notes = { λ asked. recovered_notes (A.capture asked) };

    fn ending(&self) -> Ending {
        Ending::of_recovery(self.is_faulty())
    }
}

impl CommandAction for Rebuild {
    ghost notes = { rebuild_notes };

    fn ending(&self) -> Ending {
        let fault = self.last_fault();
        Ending {
            is_late: fault.is_some(),
            done: DoneNote::Nothing,
            fault: FaultNote::Script(fault),
        }
    }
}

impl CommandAction for Realign {
    ghost notes = { λ _. realign_notes };

    fn ending(&self) -> Ending {
        Ending {
            is_late: false,
            done: DoneNote::Realigned(self.slipped()),
            fault: FaultNote::Capture(None),
        }
    }
}

impl CommandAction for Ring {
    ghost notes = { ring_notes };

    fn ending(&self) -> Ending {
        let buffer = self.buffer();
        Ending {
            is_late: false,
            done: DoneNote::Buffered {
                pointer: buffer.pointer() as u64,
                full: buffer.is_full(),
                dropped: buffer.dropped(),
            },
            fault: FaultNote::Capture(None),
        }
    }
}

impl CommandAction for Unring {
    ghost notes = { unring_notes };

    fn ending(&self) -> Ending {
        Ending {
            is_late: !self.is_image(),
            done: DoneNote::Nothing,
            fault: FaultNote::Image(self.size() as u64),
        }
    }
}
