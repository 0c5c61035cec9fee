// A whole text, laid out.

ghost use Rattle.std.specs.Prelude.{◌≡◌, ◌⊎◌, List, IsTrue, IfOk, IfErr};
ghost use Rattle.scanner.specs.Refusals.{out_of_memory};
ghost use Rattle.scanner.specs.declared.token.Token.{Token as TokenOf};
ghost use Rattle.source_layout.specs.Laid.{IsSameUnit, IsUnit, RefusesUnit};
ghost use Rattle.source_layout.specs.Tidy.{is_tidy};

use crate::keeping::{keeps, unit_tokens};
use crate::lines::laid_out;
use crate::tidy::is_tidy;
use scanner::{Refusal, Token};
use std::alloc::Global;

// A text laid out, which has these tokens. Should that lack something, the text is answered.
fn laid_or_text(alloc: Global, text: &[u8], tokens: &[Token<'_>]) -> Result<Vec<u8>, Refusal>
    requires { IsUnit text.now tokens.now }
    ensures same { IfOk result (λ laid. IsSameUnit text.now laid.items) }
    ensures tidy { IfOk result (λ laid. (laid.items ≡ text.now) ⊎ IsTrue (is_tidy laid.items)) }
    ensures memory { IfErr result (λ e. e ≡ out_of_memory) }
{
    let laid = laid_out(alloc, text, tokens)?;
    match keeps(alloc, text, tokens, laid.as_slice()) {
        Ok(kept) if kept && is_tidy(laid.as_slice()) => Ok(laid),
        Ok(_) => Ok(Vec::from_slice(alloc, text)?),
        Err(refusal) => Err(refusal),
    }
}

/// A source text in one layout, whatever layout it has: a statement and a declaration a line, each level indented by two
/// blanks, blanks about operators and behind commas, at most one empty line in a row, and a line feed at the end. A line
/// of more than 100 columns goes on in the next one. A comment stands behind the token that it stands behind, or in a
/// line of its own. The time is linear.
///
/// It is the same program: the same tokens in the same order, and each comment between the same tokens, without the
/// white space at its end. Where the layout would be longer than a text may be, the text itself is answered.
///
/// # Errors
///
/// The refusal of a text that has no tokens, or whose tokens are no unit; the names and types in it are not looked at.
/// `Memory` may come at any point.
pub fn lay_out(alloc: Global, text: &[u8]) -> Result<Vec<u8>, Refusal>
    ensures same { IfOk result (λ laid. IsSameUnit text.now laid.items) }
    ensures tidy { IfOk result (λ laid. (laid.items ≡ text.now) ⊎ IsTrue (is_tidy laid.items)) }
    // A text that is a unit is refused for memory alone.
    ensures only { (ts : List TokenOf) → IsUnit text.now ts → IfErr result (λ e. e ≡ out_of_memory) }
    ensures refused { IfErr result (λ e. (e ≡ out_of_memory) ⊎ RefusesUnit text.now e) }
{
    let tokens = unit_tokens(alloc, text)?;
    laid_or_text(alloc, text, tokens.as_slice())
}
