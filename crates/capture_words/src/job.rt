//! The job of the entries.

ghost use Rattle.std.specs.Prelude.{◌≡◌};
ghost use Rattle.clap.specs.Words.{rows_of, found_of};
ghost use Rattle.capture_words.specs.Jobs.{plan_with, split_with, ring_with, unring_with, plan_of_one};
ghost use Rattle.capture_words.specs.Jobs.{turns_with, task_with, job_of};

use crate::ids::{first_again, mapped_twice};
use crate::page::Page;
use crate::recover::Recover;
use crate::settings::{Settings, settings_in};
use crate::usage::UsageFault;
use crate::values::{ActionName, action_in};
use clap::ArgMatches;
use item_tap::{Bounds, Choices};
use source_events::{Plan, SourceIds};
use trace_funnel::{TurnOrder, Turns};
use trace_values::{FramesMode, SourceId};

/// What is done with a capture.
#[derive(Drop)]
pub enum Task {
    /// A listing of what all sources give.
    Show {
        /// How the capture is read.
        plan: Plan,
        /// Which events are listed; all where it is absent.
        only: Option<Choices>,
        /// From which event to which the listing goes; over all where it is absent.
        window: Option<Bounds>,
        /// Whether the listing goes on after a fault.
        recover: Recover,
    },
    /// The bytes of one source, taken out of the frames of a port.
    Split {
        /// Where the reading of the port begins.
        frames: FramesMode,
        /// The source.
        id: SourceId,
    },
    /// What is in the capture is counted.
    Check {
        /// How the capture is read.
        plan: Plan,
        /// Whether the reading goes on after a fault. There are no guesses in counts.
        recover: Recover,
        /// Whether the items of each kind are counted.
        kinds: bool,
    },
    /// The capture of a script.
    Rebuild {
        /// What the script's sources send. Its modes make no difference.
        plan: Plan,
        /// How many frames are written for each full synchronisation, or 0 for none.
        sync: u32,
        /// How many half synchronisations are written in each gap of a frame, at most 8.
        half: u8,
    },
    /// A capture is made, some bytes of its front are lost, and what is in the rest is counted. No input is read.
    Exercise {
        /// How many items are made, 1 to 1,000,000.
        items: u32,
        /// How many bytes are lost, at most 1,000,000.
        lose: u32,
    },
    /// A capture that lost single bits is written in whole bytes again.
    Realign,
    /// The capture goes into a trace buffer, and the buffer's image is written.
    Ring {
        /// How many bytes the buffer has, 16 to 16,777,216.
        size: usize,
    },
    /// The bytes of a trace buffer's image are written, from the oldest on. The job's limit makes no difference.
    Unring {
        /// How many bytes the buffer has, 16 to 16,777,216, and the image with it.
        size: usize,
        /// The buffer's write pointer, where its next byte would have gone: 0 or more, and under the size.
        pointer: usize,
        /// Whether the buffer took as many bytes as it has, or more, so that its oldest byte is that at the pointer.
        full: bool,
    },
    /// The values of variables and exceptions over time, for viewers of value change dumps.
    Vcd {
        /// How the capture is read. It maps one source, which sends ITM packets.
        plan: Plan,
        /// How many ticks of the local timestamps there are in a second, at least one; where it is absent a tick is a
        /// nanosecond.
        hz: Option<u64>,
        /// Whether the dump goes on after a fault.
        recover: Recover,
    },
    /// What software wrote to a stimulus port.
    Text {
        /// How the capture is read. It maps one source, which sends ITM packets.
        plan: Plan,
        /// The port, 0 to 31.
        port: u8,
        /// Whether the reading goes on after a fault.
        recover: Recover,
    },
    /// The capture of a script whose bytes pass through a funnel.
    Funnel {
        /// What the script's sources send. Its modes make no difference.
        plan: Plan,
        /// How many frames are written for each full synchronisation, or 0 for none.
        sync: u32,
        /// How many half synchronisations are written in each gap of a frame, at most 8.
        half: u8,
        /// How the funnel takes turns.
        turns: Turns,
    },
    /// A text of the program's own is written. No input is read.
    Print {
        /// Which one.
        page: Page,
    },
}

/// What the words ask for.
#[derive(Drop)]
pub struct Job {
    /// What is done.
    pub task: Task,
    /// How many bytes of the input are read at most, 1 to `GREATEST_LIMIT`.
    pub limit: u64,
}

/// The plan, or that an ID is mapped twice.
fn plan_with(plan: Plan) -> Result<Plan, UsageFault>
    ensures { result ≡ plan_with plan }
{
    match mapped_twice(&plan.itm, &plan.stp) {
        Some(id) => Err(UsageFault::MappedTwice(id)),
        None => Ok(plan),
    }
}

/// The bytes of a source, whose ID is needed.
fn split_with(frames: FramesMode, id: Option<SourceId>) -> Result<Task, UsageFault>
    ensures { result ≡ split_with frames id }
{
    match id {
        Some(id) => Ok(Task::Split { frames, id }),
        None => Err(UsageFault::SplitNeedsId),
    }
}

/// The image of a trace buffer, whose size is needed.
fn ring_with(size: Option<u32>) -> Result<Task, UsageFault>
    ensures { result ≡ ring_with size }
{
    match size {
        Some(size) => Ok(Task::Ring {
            size: size as usize,
        }),
        None => Err(UsageFault::RingNeedsSize),
    }
}

/// The bytes of an image in order. Its size is needed, and its write pointer is under it.
fn unring_with(size: Option<u32>, pointer: u32, full: bool) -> Result<Task, UsageFault>
    ensures { result ≡ unring_with size pointer full }
{
    match size {
        Some(size) if pointer < size => Ok(Task::Unring {
            size: size as usize,
            pointer: pointer as usize,
            full,
        }),
        Some(_) => Err(UsageFault::PointerNotUnderSize),
        None => Err(UsageFault::UnringNeedsSize),
    }
}

/// The plan of what reads one source of ITM packets alone. The faults are that there is none, and that there are more.
fn plan_of_one(plan: Plan, none: UsageFault, more: UsageFault) -> Result<Plan, UsageFault>
    ensures { result ≡ plan_of_one none more plan.itm plan }
{
    match plan.itm.as_slice().len() {
        0 => Err(none),
        1 => Ok(Plan {
            frames: plan.frames,
            packets: plan.packets,
            itm: plan.itm,
            stp: SourceIds::new(),
            order: plan.order,
        }),
        _ => Err(more),
    }
}

/// The turns of a funnel, whose order is needed, and in which no source stands twice.
fn turns_with(order: Option<TurnOrder>, hold: u8, depth: u32) -> Result<Turns, UsageFault>
    ensures { result ≡ turns_with order hold depth }
{
    let Some(order) = order else {
        return Err(UsageFault::FunnelNeedsOrder);
    };
    match first_again(order.as_slice()) {
        Some(id) => Err(UsageFault::OrderedTwice(id)),
        None => Ok(Turns {
            order,
            hold,
            depth: depth as usize,
        }),
    }
}

/// The task of an action, with what it needs of the options.
fn task_with(name: ActionName, settings: Settings) -> Result<Task, UsageFault>
    ensures { result ≡ task_with name settings }
{
    match name {
        ActionName::Show => Ok(Task::Show {
            plan: plan_with(settings.plan)?,
            only: settings.only,
            window: settings.window,
            recover: settings.recover,
        }),
        ActionName::Split => split_with(settings.plan.frames, settings.id),
        ActionName::Check => Ok(Task::Check {
            plan: plan_with(settings.plan)?,
            recover: settings.recover,
            kinds: settings.kinds,
        }),
        ActionName::Rebuild => Ok(Task::Rebuild {
            plan: plan_with(settings.plan)?,
            sync: settings.sync,
            half: settings.half,
        }),
        ActionName::Exercise => Ok(Task::Exercise {
            items: settings.items,
            lose: settings.lose,
        }),
        ActionName::Realign => Ok(Task::Realign),
        ActionName::Ring => ring_with(settings.size),
        ActionName::Unring => unring_with(settings.size, settings.pointer, settings.full),
        ActionName::Text => Ok(Task::Text {
            plan: plan_of_one(
                settings.plan,
                UsageFault::TextNeedsItm,
                UsageFault::TextReadsOneSource,
            )?,
            port: settings.port,
            recover: settings.recover,
        }),
        ActionName::Vcd => Ok(Task::Vcd {
            plan: plan_of_one(
                settings.plan,
                UsageFault::VcdNeedsItm,
                UsageFault::VcdReadsOneSource,
            )?,
            hz: settings.hz,
            recover: settings.recover,
        }),
        ActionName::Funnel => Ok(Task::Funnel {
            plan: plan_with(settings.plan)?,
            sync: settings.sync,
            half: settings.half,
            turns: turns_with(settings.order, settings.hold, settings.depth)?,
        }),
        ActionName::Print(page) => Ok(Task::Print { page }),
    }
}

/// The job of the entries, or the first fault.
pub fn job_of(matches: &ArgMatches<'_>) -> Result<Job, UsageFault>
    ensures { result ≡ job_of (rows_of (found_of matches.now)) }
{
    let name = action_in(matches)?;
    let settings = settings_in(matches)?;
    let limit = settings.limit;
    let task = task_with(name, settings)?;
    Ok(Job { task, limit })
}
