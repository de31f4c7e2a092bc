//! What one more unit says of an unfinished value.

use crate::fault::Reason;

/// What one more unit says of an unfinished value.
#[derive(Clone, Copy, Drop)]
pub enum Next<S, V> {
    /// The value goes on, in this state.
    Go(S),
    /// The unit ends this value.
    End(V),
    /// No value goes on so.
    Fail(Reason),
}
