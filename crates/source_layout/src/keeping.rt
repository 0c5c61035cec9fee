// Whether a text that was laid out is the same program, comment by comment.

ghost use Rattle.std.specs.Prelude.{◌≡◌, ◌⊎◌, List, true, map, IfOk, IfErr};
ghost use Rattle.scanner.specs.Refusals.{out_of_memory};
ghost use Rattle.scanner.specs.declared.token.Token.{Token as TokenOf};
ghost use Rattle.source_layout.specs.Bare.{bare};
ghost use Rattle.source_layout.specs.Laid.{said, IsSameUnit, IsUnit, RefusesUnit};

use crate::bare::bare;
use parser::parse;
use scanner::{Refusal, RefusalKind, Token, scan, token_laws};
use std::alloc::{AllocError, Global};

/// The tokens of a text that is a unit.
///
/// # Errors
///
/// The refusal of the scanner or of the parser.
pub(crate) fn unit_tokens<'a>(alloc: Global, text: &'a [u8]) -> Result<Vec<Token<'a>>, Refusal>
    ensures unit { IfOk result (λ v. IsUnit text.now v.items) }
    ensures only { (ts : List TokenOf) → IsUnit text.now ts → IfErr result (λ e. e ≡ out_of_memory) }
    ensures refused { IfErr result (λ e. (e ≡ out_of_memory) ⊎ RefusesUnit text.now e) }
{
    token_laws();
    let tokens = scan(alloc, text)?;
    match parse(alloc, tokens.as_slice()) {
        Ok(_unit) => Ok(tokens),
        Err(refusal) => Err(refusal),
    }
}

// Whether two tokens say the same.
fn says_same(token: &Token<'_>, other: &Token<'_>) -> bool
    ensures { result ≡ true → said token.now ≡ said other.now }
{
    token.kind == other.kind && token.text == other.text
}

// Whether tokens say the same, one by one.
fn say_same(tokens: &[Token<'_>], others: &[Token<'_>]) -> bool
    ensures { result ≡ true → map said tokens.now ≡ map said others.now }
{
    if tokens.len() != others.len() {
        return false;
    }
    for i in 0..tokens.len() {
        if !says_same(&tokens[i], &others[i]) {
            return false;
        }
    }
    true
}

// Whether two texts are the same but for white space that says nothing.
fn are_bare_alike(alloc: Global, text: &[u8], laid: &[u8]) -> Result<bool, AllocError>
    ensures { IfOk result (λ alike. alike ≡ true → bare text.now ≡ bare laid.now) }
{
    let first = bare(alloc, text)?;
    let second = bare(alloc, laid)?;
    Ok(first.as_slice() == second.as_slice())
}

/// Whether a text that was laid out is the same unit as the text, which has these tokens.
///
/// # Errors
///
/// Where memory runs out.
pub(crate) fn keeps(
    alloc: Global,
    text: &[u8],
    tokens: &[Token<'_>],
    laid: &[u8],
) -> Result<bool, Refusal>
    requires { IsUnit text.now tokens.now }
    ensures same { IfOk result (λ kept. kept ≡ true → IsSameUnit text.now laid.now) }
    ensures memory { IfErr result (λ e. e ≡ out_of_memory) }
{
    if !are_bare_alike(alloc, text, laid)? {
        return Ok(false);
    }
    match unit_tokens(alloc, laid) {
        Ok(others) => Ok(say_same(tokens, others.as_slice())),
        Err(refusal) if refusal.kind == RefusalKind::Memory => Err(Refusal::memory()),
        Err(_) => Ok(false),
    }
}
