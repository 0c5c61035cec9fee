ghost use Rattle.std.specs.Prelude.{◌≡◌, ◌≤◌, ◌+◌, length, MatchResult};
ghost use Rattle.isa.specs.Limits.{most_instructions};
ghost use Rattle.codegen.specs.Failures.{too_long, Fails};

use isa::MOST_INSTRUCTIONS;
use lowering::Marked;
use scanner::{Place, Refusal, RefusalKind};

// The refusal of code that is too long for an image.
fn refuse_long() -> Refusal
    ensures { result ≡ too_long }
{
    Refusal {
        kind: RefusalKind::Limit,
        place: Place::START,
    }
}

// A number that isn't past the most instructions.
pub(crate) fn count(n: usize) -> Result<u32, Refusal>
    ensures { MatchResult result (λ m. (m ≡ n) × (n ≤ most_instructions)) (λ e. Fails e n) }
{
    if n > MOST_INSTRUCTIONS {
        return Err(refuse_long());
    }
    Ok(n as u32)
}

// The place behind the code, which isn't too long.
pub(crate) fn room(code: &[Marked]) -> Result<u32, Refusal>
    ensures { MatchResult result (λ n. (n ≡ length code.now) × (n ≤ most_instructions))
        (λ e. Fails e (length code.now)) }
{
    count(code.len())
}

/// How many instructions so many and those of one more piece are, which aren't too many for an image.
pub fn with_piece(total: u32, code: &[Marked]) -> Result<u32, Refusal>
    ensures { MatchResult result (λ n. n ≡ total + length code.now)
        (λ e. Fails e (total + length code.now)) }
{
    count(total as usize + code.len())
}
