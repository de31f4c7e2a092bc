//! Texts after fronts.

ghost use Rattle.std.specs.Prelude.{◌≡◌, option_map};
ghost use Rattle.decimal_words.specs.Numbers.{text_after};

/// What comes after this front of a text, if the text begins with it.
pub fn text_after<'a>(front: &str, text: &'a str) -> Option<&'a str>
    ensures { option_map (λ s. s.now) result ≡ text_after front.now text.now }
{
    text.strip_prefix(front)
}

/// The same of a text that is bytes.
pub fn bytes_after<'a>(front: &[u8], text: &'a [u8]) -> Option<&'a [u8]>
    ensures { option_map (λ s. s.now) result ≡ text_after front.now text.now }
{
    if text.starts_with(front) {
        Some(&text[front.len()..])
    } else {
        None
    }
}
