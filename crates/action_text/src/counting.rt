ghost use Rattle.std.specs.Prelude.{◌≡◌, ◌≢◌, ◌<◌, ◌^◌, ◌++◌, List, IfOk, MatchOption, ℕ, ℤ, FitsSigned, codes};
ghost use Rattle.std.specs.Int.{w32};
ghost use Rattle.std.specs.List.{All};
ghost use Rattle.std.specs.Fmt.{decimal, signed_decimal};
ghost use Rattle.words.specs.Outcomes.{fault_number};
ghost use Rattle.words.specs.declared.outcome.Fault.{Fault as FaultOf};
ghost use Rattle.log_text.specs.Cuts.{NoNumber};
ghost use Rattle.action_text.specs.ActionText.{numbers_text};
ghost use Rattle.action_text.specs.Sized.{IsNumber};

use log_text::{number, past_word, spaced_number, value_of};
use machine::EventName;
use std::alloc::{AllocError, Global};
use words::{Fault, signed, signed_laws};

/// Numbers at the front of a text, and what stands behind them.
#[derive(Drop)]
pub struct Counted<'t> {
    /// The numbers.
    pub numbers: Vec<u64>,
    /// What stands behind them.
    pub rest: &'t [u8],
}

/// The numbers at the front of a text, a space before each.
pub fn numbers_of<'t>(alloc: Global, text: &'t [u8]) -> Result<Counted<'t>, AllocError>
    ensures read { IfOk result (λ c. text.now ≡ numbers_text c.numbers.items ++ c.rest.now) }
    ensures small { IfOk result (λ c. All IsNumber c.numbers.items) }
    ensures reads { (ns rest : List ℕ) → All IsNumber ns → NoNumber rest
        → text.now ≡ numbers_text ns ++ rest
        → IfOk result (λ c. (c.numbers.items ≡ ns) × (c.rest.now ≡ rest)) }
{
    let mut numbers = Vec::new(alloc);
    let mut rest = text;
    'numbers: while let Some((number, after)) = spaced_number(rest) {
        numbers.push(u64::from(number))?;
        rest = after;
    }
    Ok(Counted { numbers, rest })
}

/// The number that a text is behind a word, and nothing behind it.
pub fn number_after(text: &[u8], word: &[u8]) -> Option<u64>
    ensures { MatchOption result ((n : ℕ) → IsNumber n → text.now ≢ word.now ++ decimal n)
        (λ n. IsNumber n × (text.now ≡ word.now ++ decimal n)) }
{
    let Some(digits) = past_word(text, word) else {
        return None;
    };
    let Some((value, rest)) = number(digits) else {
        return None;
    };
    if !rest.is_empty() {
        return None;
    }
    Some(u64::from(value))
}

/// The number that a text says is printed.
pub fn printed(text: &[u8]) -> Option<i64>
    ensures { MatchOption result
        ((z : ℤ) → FitsSigned w32 z → text.now ≢ codes "print " ++ signed_decimal z)
        (λ z. FitsSigned w32 z × (text.now ≡ codes "print " ++ signed_decimal z)) }
{
    signed_laws();
    let Some(shown) = past_word(text, b"print ") else {
        return None;
    };
    let Some((word, rest)) = value_of(EventName::Print, shown) else {
        return None;
    };
    if !rest.is_empty() {
        return None;
    }
    Some(i64::from(signed(word)))
}

/// The fault that a text names.
pub fn fault_of(text: &[u8]) -> Option<Fault>
    ensures { MatchOption result
        ((fault : FaultOf) → text.now ≢ codes "fault " ++ decimal (fault_number fault))
        (λ fault. text.now ≡ codes "fault " ++ decimal (fault_number fault)) }
{
    let Some(value) = number_after(text, b"fault ") else {
        return None;
    };
    let fault = fault_numbered(value);
    fault
}

// The fault of this number.
fn fault_numbered(value: u64) -> Option<Fault>
    ensures { MatchOption result ((fault : FaultOf) → value ≢ fault_number fault)
        (λ fault. value ≡ fault_number fault) }
{
    match value {
        1 => Some(Fault::ResultOutOfRange),
        2 => Some(Fault::DivisionByZero),
        3 => Some(Fault::IndexOutOfRange),
        4 => Some(Fault::HandleNotJoinable),
        5 => Some(Fault::ProcessTableFull),
        6 => Some(Fault::AbortStatement),
        7 => Some(Fault::AbandonedMonitor),
        8 => Some(Fault::JoinedAborted),
        _ => None,
    }
}
