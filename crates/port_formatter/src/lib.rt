//! The formatter of a trace port: bytes of sources as frames, straight or through a funnel; and of these what stays so
//! whatever comes after it, kept until it is given to a run's outlet.
#![tactic(auto)]

mod formatter;
mod funnelled;
mod ring_frames;
mod straight;

pub use formatter::Formatter;
pub use straight::KEPT_ROOM;
