//! The one comparison of all tests: an `assert_eq!` written out costs the proof of each test that has it.

use std::fmt::Debug;
use std::process::Abort;

/// Ends the test unless it got what is wanted. The note says of which row.
pub fn same<N: Debug, T: PartialEq + Debug>(rt: &impl Abort, note: &N, got: &T, wanted: &T) {
    assert_eq!(rt; got, wanted, "{note:?}");
}
