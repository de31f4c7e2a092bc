//! The greatest lengths that a run asks its source and its sink for: those of its two buffers.

use crate::same::same;
use capture_run::{Status, run};
use std::alloc::{AllocError, Global};
use std::io;
use std::io::{Read, Write};
use std::test::Fail;
use trace_io::{ReadAdapter, SureSink, WriteAdapter};

/// A reader or writer of std that keeps the greatest length that it is asked for.
#[derive(Drop)]
struct Longest<'a, T> {
    length: &'a mut usize,
    inner: T,
}

impl Read for Longest<'_, &[u8]> {
    fn read(&mut self, buf: &mut [u8]) -> io::Result<usize> {
        *self.length = buf.len().max(*self.length);
        self.inner.read(buf)
    }
}

/// A writer that takes all.
impl Write for Longest<'_, ()> {
    fn write(&mut self, buf: &[u8]) -> io::Result<usize> {
        *self.length = buf.len().max(*self.length);
        Ok(buf.len())
    }

    fn flush(&mut self) -> io::Result<()> {
        Ok(())
    }
}

/// The words of a call.
fn words_of(alloc: Global, call: &str) -> Result<Vec<String>, AllocError> {
    let mut words = Vec::new(alloc);
    for word in call.split(' ') {
        let word = String::from_str(alloc, word)?;
        words.push(word)?;
    }
    Ok(words)
}

/// Lists a capture, and keeps the greatest lengths of its reads and of its writes.
fn list(
    alloc: Global,
    words: &[String],
    capture: &[u8],
    read: &mut usize,
    written: &mut usize,
) -> Status {
    let mut input = ReadAdapter::new(Longest {
        length: read,
        inner: capture,
    });
    let mut output = WriteAdapter::new(Longest {
        length: written,
        inner: (),
    });
    run(alloc, words, &mut input, &mut output, &mut SureSink::new())
}

#[test]
fn reads_and_writes_are_as_long_as_the_buffers(rt: HostRuntime) -> Result<(), Fail> {
    let words = words_of(rt.alloc(), "show --frames bare --packets aligned --itm 1")?;
    // Overflow packets of an ITM: each byte is a line of the listing.
    let capture = vec![in rt.alloc(); 0x70; 40_000]?;
    let (mut read, mut written) = (0, 0);
    let status = list(rt.alloc(), &words, &capture, &mut read, &mut written);
    same(&rt, &"status", &status, &Status::Done);
    same(&rt, &"read", &read, &16_384);
    // The outlet is written once it has no room for the 4,096 bytes of one call.
    let is_long = 28_672 < written && written <= 32_768;
    same(&rt, &written, &is_long, &true);
    Ok(())
}
