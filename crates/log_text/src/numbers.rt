ghost use Rattle.std.specs.Prelude.{◌≡◌, ◌<◌, ◌≤◌, ◌-◌, ◌^◌, ◌++◌, ◌∷◌, ℕ, List, IfSome, MatchBool, MatchOption};
ghost use Rattle.std.specs.Fmt.{decimal};
ghost use Rattle.machine.specs.declared.event.EventName.TheVariants.{Print};
ghost use Rattle.log_text.specs.Cuts.{IsDigit, NoDigit};
ghost use Rattle.log_text.specs.LogLines.{value_text};

use crate::parts::past_byte;
use machine::EventName;

// The greatest number that is read.
const GREATEST: u64 = 0xffff_ffff;
// The greatest number of 32 bits with a sign.
const GREATEST_SIGNED: u32 = 0x7fff_ffff;

/// The number at the front of a text, and what follows its digits: it has no zeros in front, and is below 2^32. None
/// where no such number stands there.
pub fn number(text: &[u8]) -> Option<(u32, &[u8])>
    ensures read { IfSome result (λ p. text.now ≡ decimal p.0 ++ p.1.now) }
    ensures reads { (n : ℕ) (rest : List ℕ) → n < 2 ^ 32 → NoDigit rest
        → text.now ≡ decimal n ++ rest
        → MatchOption result ⊥ (λ p. (p.0 ≡ n) × (p.1.now ≡ rest)) }
{
    let Some((first, behind)) = digit(text) else {
        return None;
    };
    let mut value = (first - b'0') as u64;
    let mut rest = behind;
    'digits: while let Some((byte, after)) = digit(rest) {
        if value == 0 {
            return None;
        }
        value = value * 10 + (byte - b'0') as u64;
        if value > GREATEST {
            return None;
        }
        rest = after;
    }
    Some((value as u32, rest))
}

// The digit at the front of a text, and what follows it.
fn digit(text: &[u8]) -> Option<(u8, &[u8])>
    ensures { MatchOption result (NoDigit text.now)
        (λ p. IsDigit p.0 × (text.now ≡ p.0 ∷ p.1.now)) }
{
    let Some((first, rest)) = text.split_first() else {
        return None;
    };
    let byte = *first;
    if is_digit(byte) {
        Some((byte, rest))
    } else {
        None
    }
}

fn is_digit(byte: u8) -> bool
    ensures { MatchBool result (IsDigit byte) (IsDigit byte → ⊥) }
{
    byte >= b'0' && byte <= b'9'
}

/// The number at the front of a text, behind a space, and what follows it.
pub fn spaced_number(text: &[u8]) -> Option<(u32, &[u8])>
    ensures read { IfSome result (λ p. text.now ≡ 32 ∷ (decimal p.0 ++ p.1.now)) }
    ensures reads { (n : ℕ) (rest : List ℕ) → n < 2 ^ 32 → NoDigit rest
        → text.now ≡ 32 ∷ (decimal n ++ rest)
        → MatchOption result ⊥ (λ p. (p.0 ≡ n) × (p.1.now ≡ rest)) }
{
    match past_byte(text, b' ') {
        Some(digits) => number(digits),
        None => None,
    }
}

/// The word that an event's value at the front of a text writes, by the event's name, and what follows it.
pub fn value_of(name: EventName, text: &[u8]) -> Option<(u32, &[u8])>
    ensures read { IfSome result (λ p. text.now ≡ value_text name p.0 ++ p.1.now) }
    ensures reads { (v : ℕ) (rest : List ℕ) → v < 2 ^ 32 → NoDigit rest
        → text.now ≡ value_text name v ++ rest
        → MatchOption result ⊥ (λ p. (p.0 ≡ v) × (p.1.now ≡ rest)) }
{
    if name == EventName::Print {
        printed(text)
    } else {
        number(text)
    }
}

// The word of the printed number at the front of a text, and what follows it.
fn printed(text: &[u8]) -> Option<(u32, &[u8])>
    ensures read { IfSome result (λ p. text.now ≡ value_text Print p.0 ++ p.1.now) }
    ensures reads { (v : ℕ) (rest : List ℕ) → v < 2 ^ 32 → NoDigit rest
        → text.now ≡ value_text Print v ++ rest
        → MatchOption result ⊥ (λ p. (p.0 ≡ v) × (p.1.now ≡ rest)) }
{
    match past_byte(text, b'-') {
        Some(digits) => below_zero(digits),
        None => from_zero(text),
    }
}

// The word of the number whose digits stand at the front of a text behind a sign, and what follows it.
fn below_zero(text: &[u8]) -> Option<(u32, &[u8])>
    ensures read { IfSome result (λ p. (2 ^ 31 ≤ p.0) × (p.0 < 2 ^ 32)
        × (text.now ≡ decimal (2 ^ 32 - p.0) ++ p.1.now)) }
    ensures reads { (v : ℕ) (rest : List ℕ) → 2 ^ 31 ≤ v → v < 2 ^ 32 → NoDigit rest
        → text.now ≡ decimal (2 ^ 32 - v) ++ rest
        → MatchOption result ⊥ (λ p. (p.0 ≡ v) × (p.1.now ≡ rest)) }
{
    let Some((size, after)) = number(text) else {
        return None;
    };
    if size == 0 {
        return None;
    }
    let less = size - 1;
    if less > GREATEST_SIGNED {
        return None;
    }
    Some((u32::MAX - less, after))
}

// The word of the number without a sign at the front of a text, and what follows it.
fn from_zero(text: &[u8]) -> Option<(u32, &[u8])>
    ensures read { IfSome result (λ p. (p.0 < 2 ^ 31) × (text.now ≡ decimal p.0 ++ p.1.now)) }
    ensures reads { (v : ℕ) (rest : List ℕ) → v < 2 ^ 31 → NoDigit rest
        → text.now ≡ decimal v ++ rest
        → MatchOption result ⊥ (λ p. (p.0 ≡ v) × (p.1.now ≡ rest)) }
{
    let Some((value, after)) = number(text) else {
        return None;
    };
    if value > GREATEST_SIGNED {
        return None;
    }
    Some((value, after))
}
