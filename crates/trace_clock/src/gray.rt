//! Gray code, in which neighbouring numbers differ in one bit. The words of STP timestamps are Gray numbers
//! under protocol version 4, in this project's profile of the System Trace Protocol.

ghost use Rattle.std.specs.Prelude.{◌≡◌};
ghost use Rattle.trace_clock.specs.GrayCode.{natural_of, gray_of};

/// The Gray number of a natural one: its bit i is 1 where bits i and i + 1 of the natural number differ.
#[inline]
pub fn to_gray(natural: u64) -> u64
    ensures { result ≡ gray_of natural }
{
    natural ^ (natural >> 1)
}

/// The natural number of a Gray one: its bit i is the parity of the Gray number's bits from i up.
#[inline]
pub fn from_gray(gray: u64) -> u64
    ensures { result ≡ natural_of gray }
{
    // Each bit becomes the parity of the 2, 4, 8 .. 64 bits from it up.
    let two = gray ^ (gray >> 1);
    let four = two ^ (two >> 2);
    let eight = four ^ (four >> 4);
    let sixteen = eight ^ (eight >> 8);
    let half = sixteen ^ (sixteen >> 16);
    half ^ (half >> 32)
}
