//! The bytes 00 of synchronisation packets of any length (ARMv7-M Architecture Reference Manual, Arm DDI 0403E,
//! appendix D4 'Debug ITM and DWT Packet Protocol', section D4.2 'Packet descriptions').

ghost use Rattle.std.specs.Prelude.{◌≡◌, ◌≤◌, length, replicate, take};

/// How many bytes 00 these bytes begin with.
#[inline]
pub fn zeros_in(bytes: &[u8]) -> usize
    ensures { (result ≤ length bytes.now) × (take result bytes.now ≡ replicate result 0) }
{
    for (index, byte) in bytes.iter().enumerate() {
        if *byte != 0 {
            return index;
        }
    }
    bytes.len()
}
