//! What the words ask for.

ghost use Rattle.std.specs.Prelude.{◌^◌, ◌≡◌, ◌≤◌, map, codes, ◌∷◌, IfOk};
ghost use Rattle.capture_words.specs.declared.job.Job.{Job};
ghost use Rattle.std.specs.String.{string_bytes};
ghost use Rattle.capture_words.specs.Calls.{AskedBy};
ghost use Rattle.capture_words.specs.Jobs.{IsSoundTask};

use crate::entries::entries_of;
use crate::job::{Job, job_of};
use crate::usage::UsageFault;
use clap::error::ErrorKind;
use std::alloc::{AllocError, Global};

/// What the words of a call ask for.
#[derive(Drop)]
pub enum Asked {
    /// A job.
    Do(Job),
    /// `clap` takes the words, and they are no job.
    Fault(UsageFault),
    /// `clap` refuses the words, by this text. A call for help is refused so too.
    Refused(String),
    /// There was no memory to read the words.
    NoMemory,
}

/// The words with the program's name in front, which `clap` wants there.
fn with_name<'a>(alloc: Global, words: &'a [String]) -> Result<Vec<&'a str>, AllocError>
    ensures { IfOk result (λ v. map (λ s. s.now) v.items ≡ codes "lipparoy" ∷ map string_bytes words.entry.now) }
{
    let mut all: Vec<&str> = Vec::new(alloc);
    all.push("lipparoy")?;
    for word in words {
        all.push(word.as_str())?;
    }
    Ok(all)
}

/// What the words after the program's name ask for.
pub fn read_words(alloc: Global, words: &[String]) -> Asked
    ensures asked { AskedBy (map string_bytes words.now) result }
    ensures limit { (job : Job) → result ≡ Asked.Do job → (1 ≤ job.limit) × (job.limit ≤ 2 ^ 36) }
    ensures sound { (job : Job) → result ≡ Asked.Do job → IsSoundTask job.task }
{
    let Ok(all) = with_name(alloc, words) else {
        return Asked::NoMemory;
    };
    match entries_of(alloc, all.as_slice()) {
        Ok(matches) => match job_of(&matches) {
            Ok(job) => Asked::Do(job),
            Err(fault) => Asked::Fault(fault),
        },
        Err(error) => match error.kind() {
            ErrorKind::OutOfMemory => Asked::NoMemory,
            _ => match error.to_string(alloc) {
                Ok(text) => Asked::Refused(text),
                Err(_) => Asked::NoMemory,
            },
        },
    }
}
