ghost use Rattle.std.specs.Prelude.{◌≡◌, ◌<◌, ◌^◌, ℕ, Some};
ghost use Rattle.std.specs.Fmt.{decimal};

use std::str;

// The number that digits write.
fn parsed(digits: &str) -> Option<u32>
    ensures { (n : ℕ) → n < 2 ^ 32 → digits.now ≡ decimal n → result ≡ Some n }
{
    digits.parse::<u32>().ok()
}

/// The number that digits write.
pub(crate) fn decimal_number(text: &[u8]) -> Option<u32>
    ensures { (n : ℕ) → n < 2 ^ 32 → text.now ≡ decimal n → result ≡ Some n }
{
    let Ok(digits) = str::from_utf8(text) else {
        return None;
    };
    parsed(digits)
}

// The number that digits of base 16 write.
fn hexadecimal_number(text: &[u8]) -> Option<u32> {
    let text = str::from_utf8(text).ok()?;
    u32::from_str_radix(text, 16).ok()
}

/// Whether a word has to be a number: it begins by a digit or a sign.
pub(crate) fn is_numeric(text: &[u8]) -> bool {
    matches!(text.first(), Some(b'0'..=b'9' | b'-' | b'+'))
}

/// The word of 32 bits that a number writes: of digits, of 0x and digits of base 16, or of a minus sign and digits, up to
/// -2147483648.
pub(crate) fn number_of(text: &[u8]) -> Option<u32> {
    match text {
        [b'-', digits @ ..] => negative(digits),
        [b'0', b'x', digits @ ..] => hexadecimal_number(digits),
        [b'0'..=b'9', ..] => decimal_number(text),
        _ => None,
    }
}

// The word of the number below zero that these digits write.
fn negative(digits: &[u8]) -> Option<u32> {
    if !matches!(digits.first(), Some(b'0'..=b'9')) {
        return None;
    }
    let size = decimal_number(digits)?;
    if size > 1 << 31 {
        return None;
    }
    Some(0u32.wrapping_sub(size))
}
