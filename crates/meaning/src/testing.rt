ghost use Rattle.std.specs.Prelude.{◌≡◌, Err, MatchResult, Ok, ℤ};
ghost use Rattle.meaning.specs.Values.{is_true};

use words::Fault;

/// What the test of a condition with this value comes to: whether it is true, or the fault that comes in place of the
/// test.
pub fn tested(condition: Result<i64, Fault>) -> Result<bool, Fault>
    ensures { MatchResult result (λ b. (z : ℤ) × (condition ≡ Ok z) × (b ≡ is_true z))
        (λ fault. condition ≡ Err fault) }
{
    match condition {
        Ok(value) => Ok(value != 0),
        Err(fault) => Err(fault),
    }
}
