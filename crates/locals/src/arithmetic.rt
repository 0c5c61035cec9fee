ghost use Rattle.std.specs.Prelude.{◌≡◌, ℕ, ℤ, List, ◌+ℤ◌, ◌-ℤ◌, ◌*ℤ◌, neg_ℤ, int_div, int_rem, FitsSigned};
ghost use Rattle.std.specs.Int.{w32};
ghost use Rattle.std.specs.Option.{SomeIff};
ghost use Rattle.words.specs.Signed.{signed_of, word_of};
ghost use Rattle.locals.specs.Threads.{Locals as LocalsOf, Frame as FrameOf};
ghost use Rattle.locals.specs.Looks.{at_place, operator_effect, index_effect, truth};
ghost use Rattle.locals.specs.Results.{SignedResult, QuotientResult, outcome_at};

use isa::Operator;
use words::{Fault, signed, word};

/// What an operator makes of two words, or the fault that it meets. A call of it would put what it answers into memory.
#[inline(always)]
pub fn operate(operator: Operator, a: u32, b: u32) -> Result<u32, Fault>
    ensures { (place : ℕ) (rest : List ℕ) (locals : LocalsOf) (callers : List FrameOf)
        → at_place place locals callers (operator_effect operator a b rest)
        ≡ outcome_at result place rest locals callers }
{
    match operator {
        Operator::Add => add(a, b),
        Operator::Sub => subtract(a, b),
        Operator::Mul => multiply(a, b),
        Operator::Div => divide(a, b),
        Operator::Mod => remainder(a, b),
        Operator::Eq => Ok(truth(a == b)),
        Operator::Ne => Ok(truth(a != b)),
        Operator::Lt => Ok(truth(signed(a) < signed(b))),
        Operator::Le => Ok(truth(signed(a) <= signed(b))),
        Operator::Gt => Ok(truth(signed(a) > signed(b))),
        Operator::Ge => Ok(truth(signed(a) >= signed(b))),
        Operator::BitAnd => Ok(a & b),
        Operator::BitOr => Ok(a | b),
    }
}

/// The word of the opposite number, or that it is out of range.
pub fn negate(a: u32) -> Result<u32, Fault>
    ensures { SignedResult result (neg_ℤ (signed_of a)) }
{
    in_range(signed(a).checked_neg())
}

/// The address of a word of an array of `size` words from `base` on, or that the array doesn't have the index.
pub fn index(base: u32, size: u32, i: u32) -> Result<u32, Fault>
    ensures { (place : ℕ) (rest : List ℕ) (locals : LocalsOf) (callers : List FrameOf)
        → at_place place locals callers (index_effect base size i rest)
        ≡ outcome_at result place rest locals callers }
{
    if i < size && i < 1 << 31 {
        Ok(base.wrapping_add(i))
    } else {
        Err(Fault::IndexOutOfRange)
    }
}

/// 1 for true, 0 for false.
pub fn truth(value: bool) -> u32
    ensures { result ≡ truth value }
{
    if value { 1 } else { 0 }
}

fn add(a: u32, b: u32) -> Result<u32, Fault>
    ensures { SignedResult result (signed_of a +ℤ signed_of b) }
{
    in_range(signed(a).checked_add(signed(b)))
}

fn subtract(a: u32, b: u32) -> Result<u32, Fault>
    ensures { SignedResult result (signed_of a -ℤ signed_of b) }
{
    in_range(signed(a).checked_sub(signed(b)))
}

fn multiply(a: u32, b: u32) -> Result<u32, Fault>
    ensures { SignedResult result (signed_of a *ℤ signed_of b) }
{
    in_range(signed(a).checked_mul(signed(b)))
}

// The quotient cuts toward zero.
fn divide(a: u32, b: u32) -> Result<u32, Fault>
    ensures { QuotientResult b result (SignedResult result (int_div (signed_of a) (signed_of b))) }
{
    if b == 0 {
        return Err(Fault::DivisionByZero);
    }
    in_range(signed(a).checked_div(signed(b)))
}

// The remainder has the sign of `a`. That of a division by -1 is 0, also where the quotient is out of range.
fn remainder(a: u32, b: u32) -> Result<u32, Fault>
    ensures { QuotientResult b result (result
        ≡ Ok (word_of (int_rem (signed_of a) (signed_of b)))) }
{
    if b == 0 {
        return Err(Fault::DivisionByZero);
    }
    Ok(word(signed(a).wrapping_rem(signed(b))))
}

// The word of a number, or that the number doesn't fit.
fn in_range(number: Option<i32>) -> Result<u32, Fault>
    ensures { (z : ℤ) → SomeIff number (FitsSigned w32 z) z → SignedResult result z }
{
    match number {
        Some(number) => Ok(word(number)),
        None => Err(Fault::ResultOutOfRange),
    }
}
