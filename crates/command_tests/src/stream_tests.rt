//! Sources and sinks: in memory, over the readers and writers of std, and those that never fail.

ghost use Rattle.std.specs.Prelude.{◌≡◌, IfOk};

use crate::same::same;
use std::io;
use std::io::{ErrorKind, Read, Write};
use std::process::Abort;
use std::test::Fail;
use trace_io::{
    Failed, MemorySink, MemorySource, ReadAdapter, Sink, Source, SureSink, SureSource, WriteAdapter,
};

/// Reads once for each row, and compares the answer and the buffer afterwards.
fn check_reads<S: Source>(
    rt: &impl Abort,
    source: &mut S,
    rows: &[(Result<usize, Failed>, [u8; 4])],
) {
    let mut buf = [0; 4];
    for (want, held) in rows {
        same(rt, held, &source.read(&mut buf), want);
        same(rt, held, &buf, held);
    }
}

/// A reader or writer of std that fails at its first calls, and then is the one within.
#[derive(Drop)]
struct FailsFirst<T> {
    /// How many calls fail.
    calls: u8,
    /// The error of these calls; none of a writer whose calls take no byte.
    kind: Option<ErrorKind>,
    inner: T,
}

/// The answer to a call that fails.
fn failure(kind: Option<ErrorKind>) -> io::Result<usize>
    ensures { IfOk result (λ n. n ≡ 0) }
{
    match kind {
        Some(kind) => Err(kind.into()),
        None => Ok(0),
    }
}

impl Read for FailsFirst<&[u8]> {
    fn read(&mut self, buf: &mut [u8]) -> io::Result<usize> {
        if self.calls > 0 {
            self.calls -= 1;
            return failure(self.kind);
        }
        self.inner.read(buf)
    }
}

impl Write for FailsFirst<&mut [u8]> {
    fn write(&mut self, buf: &[u8]) -> io::Result<usize> {
        if self.calls > 0 {
            self.calls -= 1;
            return failure(self.kind);
        }
        self.inner.write(buf)
    }

    fn flush(&mut self) -> io::Result<()> {
        Ok(())
    }
}

/// The errors that a reader's or writer's calls may have, those that other programs try again among them.
const KINDS: [ErrorKind; 3] = [
    ErrorKind::BrokenPipe,
    ErrorKind::Interrupted,
    ErrorKind::WouldBlock,
];

/// Writes to a writer of std with room for four bytes, whose first call fails so.
fn check_writes(rt: &impl Abort, kind: Option<ErrorKind>) {
    let mut room = [0; 4];
    let mut sink = WriteAdapter::new(FailsFirst {
        calls: 1,
        kind,
        inner: room.as_mut_slice(),
    });
    // A slice that is full takes no byte, and gives no error.
    for want in [Err(Failed), Ok(3), Ok(1), Err(Failed)] {
        same(rt, &"write", &sink.write(b"abc"), &want);
    }
    drop(sink);
    same(rt, &"room", &room, b"abca");
}

#[test]
fn sources_give_their_bytes_to_the_end(rt: HostRuntime) {
    let mut source = MemorySource::new(b"abcdef", &[1, 0, 2], &[2]);
    let rows = [
        (Ok(1), *b"a\0\0\0"),
        (Ok(1), *b"b\0\0\0"),
        (Err(Failed), *b"b\0\0\0"),
        (Ok(1), *b"c\0\0\0"),
        (Ok(1), *b"d\0\0\0"),
        (Ok(2), *b"ef\0\0"),
        (Ok(0), *b"ef\0\0"),
        (Ok(0), *b"ef\0\0"),
    ];
    check_reads(&rt, &mut source, &rows);
    let whole = [
        (Ok(4), *b"abcd"),
        (Ok(2), *b"efcd"),
        (Ok(0), *b"efcd"),
        (Ok(0), *b"efcd"),
    ];
    check_reads(&rt, &mut MemorySource::new(b"abcdef", &[], &[]), &whole);
    check_reads(&rt, &mut SureSource::new(b"abcdef"), &whole);
    let bytes: &[u8] = b"abcdef";
    check_reads(&rt, &mut ReadAdapter::new(bytes), &whole);
    for kind in KINDS {
        let inner: &[u8] = b"abcdef";
        let mut source = ReadAdapter::new(FailsFirst {
            calls: 2,
            kind: Some(kind),
            inner,
        });
        let rows = [
            (Err(Failed), *b"\0\0\0\0"),
            (Err(Failed), *b"\0\0\0\0"),
            (Ok(4), *b"abcd"),
            (Ok(2), *b"efcd"),
            (Ok(0), *b"efcd"),
        ];
        check_reads(&rt, &mut source, &rows);
    }
}

#[test]
fn sinks_take_bytes_until_their_room_is_full(rt: HostRuntime) -> Result<(), Fail> {
    for kind in KINDS {
        check_writes(&rt, Some(kind));
    }
    check_writes(&rt, None);
    let mut room = [0; 4];
    let mut sink = MemorySink::new(&mut room, &[2, 0, 5], &[0]);
    let rows: [(Result<usize, Failed>, &[u8]); 4] = [
        (Err(Failed), b""),
        (Ok(1), b"a"),
        (Ok(3), b"aabc"),
        (Err(Failed), b"aabc"),
    ];
    for (want, held) in rows {
        same(&rt, &held, &sink.write(b"abcd"), &want);
        same(&rt, &held, &sink.held(), &held);
    }
    let mut sure = SureSink::new();
    same(&rt, &"sure", &sure.write(b"abc"), &Ok(3));
    same(&rt, &"taken", &sure.taken(), &3);
    let text = format!(in rt.alloc(); "{Failed}")?;
    same(&rt, &"text", &text.as_str(), &"the source or sink failed");
    Ok(())
}
