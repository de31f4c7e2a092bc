//! The numbers that nibbles of bytes make (MIPI System Trace Protocol, version 2).

ghost use Rattle.std.specs.Prelude.{◌≡◌, ℕ, ◌+◌, ◌-◌, ◌*◌, ◌/◌, ◌%◌, ◌^◌, ◌<◌, ◌≤◌, List, length, get_or};
ghost use Rattle.stp_codec.specs.Names.{number, Lsn, Msn};
ghost use Rattle.stp_codec.specs.Wholes.{nibbles_in, between, number_from};

/// One of the nibbles of these bytes.
#[inline(always)]
#[tactic(auto, using(crate::proofs::Between::even_nibble, crate::proofs::Between::odd_nibble))]
pub fn nibble_of(bytes: &[u8], index: usize) -> u8
    requires { index < 2 * length bytes.now }
    ensures value { result ≡ get_or (nibbles_in bytes.now) index 0 }
    ensures small { result < 16 }
{
    let byte = bytes[index / 2];
    if index % 2 == 0 { byte % 16 } else { byte / 16 }
}

/// One more than the greatest number that 16 nibbles make.
const WORD: u128 = 0x1_0000_0000_0000_0000;

/// Masks all nibbles of a word but those at even places.
const EVEN: u64 = 0x0F0F_0F0F_0F0F_0F0F;

/// The number that the nibbles of the eight bytes from this one on make, the first of them the least significant.
#[inline(always)]
fn word_from(bytes: &[u8], first: usize) -> u64
    requires { first + 8 ≤ length bytes.now }
    ensures { result ≡ number Lsn (between (nibbles_in bytes.now) (2 * first) (2 * first + 16)) }
{
    u64::from_le_bytes(*bytes[first..first + 8].first_chunk::<8>().unwrap())
}

/// The number that the 16 nibbles from this one on make, the first of them the least significant.
#[inline(always)]
pub fn nibbles_from(bytes: &[u8], start: usize) -> u64
    requires { start / 2 + 9 ≤ length bytes.now }
    ensures { result ≡ number Lsn (between (nibbles_in bytes.now) start (start + 16)) }
{
    let front = word_from(bytes, start / 2);
    let all = u128::from(front) + WORD * u128::from(bytes[start / 2 + 8]);
    let half = (start % 2) as u32;
    ((all >> (4 * half)) % WORD) as u64
}

/// The number that 16 nibbles make, the first of them the most significant, where they make this one with the first of
/// them the least significant.
#[inline(always)]
fn turned(nibbles: u64) -> u64
    ensures { (r : List ℕ) → length r ≡ 16 → ((i : ℕ) → get_or r i 0 < 16) → nibbles ≡ number Lsn r →
        result ≡ number Msn r }
{
    let pairs = 16 * (nibbles & EVEN) + (nibbles / 16 & EVEN);
    u64::from_be_bytes(pairs.to_le_bytes())
}

/// The number that the next `more` nibbles make, the first of them the most significant. No branch depends on how
/// many they are: in two shifts all of the others go, be they 16.
#[inline(always)]
pub fn number_at_once(bytes: &[u8], start: usize, more: u8) -> u64
    requires few { more ≤ 16 }
    requires there { start / 2 + 9 ≤ length bytes.now }
    ensures value { result ≡ number_from Msn 0 0 (between (nibbles_in bytes.now) start (start + more)) }
    ensures fits { result < 16 ^ more }
{
    let number = turned(nibbles_from(bytes, start));
    let half = 32 - 2 * u32::from(more);
    number >> half >> half
}
