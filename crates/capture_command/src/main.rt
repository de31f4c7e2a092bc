//! Reads CoreSight software trace that comes on standard input: lists what all its sources gave, takes the bytes of one
//! source out of the frames of a trace port, or counts what each source sent. Or it writes the capture of a script, or
//! tries itself on a capture of its own.
#![tactic(auto)]

use capture_run::run;
use std::env;
use std::process::ExitCode;
use trace_io::{ReadAdapter, WriteAdapter};

fn main(rt: HostRuntime) -> ExitCode {
    let Ok(mut arguments) = env::args(&rt) else {
        return ExitCode::from(11);
    };
    // the program's name
    let _ = arguments.next();
    let Ok(words) = arguments.collect::<Vec<String>>(rt.alloc()) else {
        return ExitCode::from(11);
    };
    let mut input = ReadAdapter::new(rt.stdin());
    let mut output = WriteAdapter::new(rt.stdout());
    let mut notes = WriteAdapter::new(rt.stderr());
    let status = run(rt.alloc(), &words, &mut input, &mut output, &mut notes);
    ExitCode::from(status.number())
}
