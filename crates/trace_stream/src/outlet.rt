//! The write buffer, and the texts that are put into it.

ghost use Rattle.std.specs.Prelude.{◌≡◌, ℕ, ◌+◌, ◌≤◌, List, [], ◌∷◌, ◌++◌, length, take, IfOk, OnOk, OnErr};
ghost use Rattle.std.specs.Io.KnownBytes.{Appends};
ghost use Rattle.trace_io.specs.Bytes.{AppendsPrefix};
ghost use Rattle.trace_io.specs.Causes.{HasCause};
ghost use Rattle.trace_stream.specs.Told.{Notes};
ghost use Rattle.trace_stream.specs.declared.outlet.TheConstants.{OUTLET_ROOM, TEXT_ROOM};

use std::alloc::{AllocError, Global};
use std::marker::Model;
use trace_io::{Failed, Sink, write_whole};

/// Bytes that an outlet holds at most.
pub const OUTLET_ROOM: usize = 32768;

/// Bytes of room that a text is given. That is more than any text has: a text may write past its end.
pub const TEXT_ROOM: usize = 160;

/// A text of at most `TEXT_ROOM` bytes that is put into an outlet at once.
pub trait Text {
    // what it needs of its own parts, as numbers in their ranges
    ghost fits: { Self → Type 0 } = { λ line. Unit {0} };
    // its bytes
    ghost text: { Self → List ℕ };

    /// Writes the text after the first `from` bytes of the room, which stay as they are, and answers where it ends.
    /// What is after its end may change.
    fn put(&self, room: &mut [u8], from: usize) -> usize
        requires fits { fits self.now }
        requires room { from + TEXT_ROOM ≤ length room.old }
        ensures text { take result room.new ≡ take from room.old ++ text self.now }
        ensures same { length room.new ≡ length room.old }
        ensures bound { result ≤ from + TEXT_ROOM };
}

/// A write buffer in front of a sink. Contracts see it as the bytes that are still to be written.
#[derive(Drop)]
pub struct Outlet {
    bytes: Vec<u8>,
    len: usize,
}

impl Model for Outlet {
    ghost Value = { List ℕ };

    ghost view = { λ o. take o.len o.bytes.items };

    ghost invariant = { λ o. (o.len ≤ OUTLET_ROOM) × (length o.bytes.items ≡ OUTLET_ROOM) };
}

impl Outlet {
    /// An empty outlet with all its memory: no later call allocates.
    pub fn open(alloc: Global) -> Result<Outlet, AllocError>
        ensures { IfOk result (λ o. o ≡ []) }
    {
        let bytes = vec![in alloc; 0; OUTLET_ROOM]?;
        Ok(Outlet { bytes, len: 0 })
    }

    /// The number of bytes that are pending, at most `OUTLET_ROOM`.
    #[inline]
    pub fn len(&self) -> usize
        ensures count { result ≡ length self.now }
        ensures bound { length self.now ≤ OUTLET_ROOM }
    {
        self.len
    }

    /// Adds the piece, for which there is room.
    #[inline]
    pub fn append(&mut self, piece: &[u8])
        requires room { length self.old + length piece.now ≤ OUTLET_ROOM }
        ensures { self.new ≡ self.old ++ piece.now }
    {
        let end = self.len + piece.len();
        self.bytes[self.len..end].copy_from_slice(piece);
        self.len = end;
    }

    /// Adds the first `len` of the bytes. There is room for all sixteen.
    #[inline]
    pub fn append_front(&mut self, bytes: &[u8; 16], len: usize)
        requires few { len ≤ 16 }
        requires room { length self.old + 16 ≤ OUTLET_ROOM }
        ensures { self.new ≡ self.old ++ take len bytes.now }
    {
        let from = self.len;
        self.bytes[from..from + 16].copy_from_slice(bytes);
        self.len = from + len;
    }

    /// Adds the text. There is room for any text.
    #[inline(always)]
    pub fn put<T: Text>(&mut self, text: &T)
        requires fits { T.fits text.now }
        requires room { length self.old + TEXT_ROOM ≤ OUTLET_ROOM }
        ensures text { self.new ≡ self.old ++ T.text text.now }
        ensures bound { length self.new ≤ length self.old + TEXT_ROOM }
    {
        self.len = text.put(&mut self.bytes, self.len);
    }

    /// Adds one byte, for which there is room.
    #[inline]
    pub fn push(&mut self, byte: u8)
        requires room { length self.old + 1 ≤ OUTLET_ROOM }
        ensures { self.new ≡ self.old ++ byte ∷ [] }
    {
        self.bytes[self.len] = byte;
        self.len += 1;
    }

    /// Writes all that is pending. Where the sink fails it has a prefix of it, and the outlet still holds all.
    pub(crate) fn flush<O: Sink>(&mut self, sink: &mut O) -> Result<(), Failed>
        ensures ok { OnOk result (Appends (O.held sink.old) (O.held sink.new) self.old) }
        ensures emptied { OnOk result (self.new ≡ []) }
        ensures err { OnErr result (AppendsPrefix (O.held sink.old) (O.held sink.new) self.old) }
        ensures kept { OnErr result (self.new ≡ self.old) }
        ensures cause { HasCause (O.faults sink.old) (O.faults sink.new) result }
    {
        write_whole(sink, &self.bytes[..self.len])?;
        self.len = 0;
        Ok(())
    }

    /// Writes all that is pending as notes. Where the sink fails what it did not take is dropped, and nothing else
    /// changes.
    pub(crate) fn note<N: Sink>(&mut self, notes: &mut N)
        ensures noted { Notes (N.held notes.old) (N.held notes.new) (N.faults notes.old) (N.faults notes.new) self.old }
        ensures later { N.faults notes.old ≤ N.faults notes.new }
        ensures emptied { self.new ≡ [] }
    {
        let _ = write_whole(notes, &self.bytes[..self.len]);
        self.len = 0;
    }
}
