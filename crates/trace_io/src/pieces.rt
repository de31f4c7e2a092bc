//! How many bytes go at a call, where pieces are stated.

ghost use Rattle.std.specs.Prelude.{◌≡◌};
ghost use Rattle.trace_io.specs.Memory.{piece_at};

/// How many of `count` bytes go at this call. `pieces` bounds them in turn, where there are any. A
/// bound of 0 counts as 1, since 0 bytes would tell a reader of the end, and a sink takes at least 1.
pub(crate) fn piece_len(pieces: &[usize], call: u64, count: usize) -> usize
    ensures { result ≡ piece_at pieces.now call count }
{
    if pieces.is_empty() {
        return count;
    }
    let index = (call % pieces.len() as u64) as usize;
    count.min(pieces[index].max(1))
}
