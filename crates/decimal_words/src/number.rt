//! Numbers in words.

ghost use Rattle.std.specs.Prelude.{◌≡◌, ◌↔◌, ◌≤◌, ◌<◌, ◌^◌, ℕ, IfSome, IsTrue, None, decimal};
ghost use Rattle.std.specs.Str.Parse.{AllDigits, digits_value};
ghost use Rattle.decimal_words.specs.Numbers.{number_named, HasDigits};

use trace_values::SourceId;

/// The number that digits say, if they are decimal digits alone and it has at most 64 bits.
#[tactic(auto, using(crate::proofs::Numbers::value_grows))]
fn digits_value(digits: &[u8]) -> Option<u64>
    ensures some { IfSome result (λ n. (n < 2 ^ 64) × AllDigits 10 digits.now
        × (n ≡ digits_value 10 digits.now)) }
    ensures none { result ≡ None → AllDigits 10 digits.now → digits_value 10 digits.now < 2 ^ 64 → ⊥ }
{
    let mut value: u64 = 0;
    for digit in digits {
        if !digit.is_ascii_digit() {
            return None;
        }
        let tens = value.checked_mul(10)?;
        value = tens.checked_add(u64::from(*digit - b'0'))?;
    }
    Some(value)
}

/// Whether a text has digits, and no leading zero unless it is 0.
fn has_digits(text: &[u8]) -> bool
    ensures { IsTrue result ↔ HasDigits text.now }
{
    !text.is_empty() && (text[0] != b'0' || text.len() == 1)
}

/// The number of at most 64 bits that a text is in decimal, without a sign, and without a leading zero unless it is 0.
fn whole_number(text: &[u8]) -> Option<u64>
    ensures some { IfSome result (λ n. text.now ≡ decimal n) }
    ensures none { (n : ℕ) → n < 2 ^ 64 → text.now ≡ decimal n → result ≡ Some n }
{
    if has_digits(text) {
        digits_value(text)
    } else {
        None
    }
}

/// The number from `least` to `greatest` that a text is in decimal, without a sign, and without a leading
/// zero unless it is 0.
pub fn number_in(least: u64, greatest: u64, text: &[u8]) -> Option<u64>
    ensures value { result ≡ number_named least greatest text.now }
    ensures named { IfSome result (λ n. (least ≤ n) × (n ≤ greatest) × (text.now ≡ decimal n)) }
    ensures none { (n : ℕ) → least ≤ n → n ≤ greatest → text.now ≡ decimal n → result ≡ Some n }
{
    match whole_number(text) {
        Some(number) if least <= number && number <= greatest => Some(number),
        _ => None,
    }
}

/// The same of a text that is a string.
pub fn number_named(least: u64, greatest: u64, text: &str) -> Option<u64>
    ensures value { result ≡ number_named least greatest text.now }
    ensures named { IfSome result (λ n. (least ≤ n) × (n ≤ greatest) × (text.now ≡ decimal n)) }
    ensures none { (n : ℕ) → least ≤ n → n ≤ greatest → text.now ≡ decimal n → result ≡ Some n }
{
    number_in(least, greatest, text.as_bytes())
}

/// The source whose ID is such a number.
pub fn id_in(least: u8, greatest: u8, text: &[u8]) -> Option<SourceId>
    requires { greatest ≤ 126 }
    ensures value { result ≡ number_named least greatest text.now }
    ensures in_range { IfSome result (λ n. (least ≤ n) × (n ≤ greatest)) }
{
    match number_in(u64::from(least), u64::from(greatest), text) {
        Some(number) => SourceId::new(number as u8),
        None => None,
    }
}

/// The same of a text that is a string.
pub fn id_named(least: u8, greatest: u8, text: &str) -> Option<SourceId>
    requires { greatest ≤ 126 }
    ensures value { result ≡ number_named least greatest text.now }
    ensures in_range { IfSome result (λ n. (least ≤ n) × (n ≤ greatest)) }
{
    id_in(least, greatest, text.as_bytes())
}
