//! Numbers in binary.

ghost use Rattle.std.specs.Prelude.{◌≡◌, ◌+◌, ◌≤◌, ◌++◌, length, drop};
ghost use Rattle.value_dump.specs.Lines.{binary};
ghost use Rattle.value_dump.specs.Names.{OUTLET_ROOM};

use trace_stream::Outlet;

/// Puts the digits of a number at the end of an array, and answers where they begin.
fn binary_digits(value: u32, out: &mut [u8; 32]) -> usize
    ensures within { result ≤ 32 }
    ensures size { length out.new ≡ 32 }
    ensures digits { drop result out.new ≡ binary value }
{
    let mut start = 32;
    let mut rest = value;
    while start > 0 {
        start -= 1;
        out[start] = b'0' + (rest % 2) as u8;
        rest /= 2;
        if rest == 0 {
            break;
        }
    }
    start
}

/// Puts a number in binary, without leading zeros.
pub(crate) fn put_binary(outlet: &mut Outlet, value: u32)
    requires room { length outlet.old + length (binary value) ≤ OUTLET_ROOM }
    ensures { outlet.new ≡ outlet.old ++ binary value }
{
    let mut digits = [0; 32];
    let start = binary_digits(value, &mut digits);
    outlet.append(&digits[start..]);
}
