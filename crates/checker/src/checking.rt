ghost use Rattle.std.specs.Prelude.{◌≡◌, ◌<◌, ◌⊎◌, MatchResult};
ghost use Rattle.scanner.specs.Refusals.{out_of_memory};
ghost use Rattle.syntax.specs.Whole.{unit_of};
ghost use Rattle.types.specs.Judgement.{IsRefusalOf};
ghost use Rattle.proof_well_formed.specs.Faultless.{HasNumbers};
ghost use Rattle.callees.specs.Names.{declarations};
ghost use Rattle.checker.specs.Checks.{IsChecked};

use callees::Callees;
use program::Checked;
use proof_well_formed::faultless_units_are_well_formed;
use resolver::{Resolved, resolve};
use scanner::Refusal;
use std::alloc::Global;
use syntax::Unit;
use unit_faults::first_fault;

/// The program of a unit, resolved and well formed.
///
/// # Errors
///
/// The least fault of the unit by its place, and at one place by its number: `Redeclared`, `Unknown`, `TypeMismatch`,
/// `WrongPlace`, `DirectReentry`, `Recursion` or `Limit` (docs/language.md). `Memory` may come at any point.
pub fn check<'a>(alloc: Global, unit: &Unit<'a>) -> Result<Checked<'a>, Refusal>
    requires numbers { HasNumbers (unit_of unit.now) }
    requires few { declarations (unit_of unit.now) < u32.MAX }
    ensures { MatchResult result (λ c. IsChecked (unit_of unit.now) c)
        (λ e. (e ≡ out_of_memory) ⊎ IsRefusalOf (unit_of unit.now) e) }
{
    faultless_units_are_well_formed();
    let callees = Callees::new(alloc, unit)?;
    let Resolved {
        program,
        names,
        are_bodies_clean,
    } = resolve(alloc, unit, &callees)?;
    if let Some(fault) = first_fault(alloc, unit, &callees, are_bodies_clean)? {
        return Err(fault);
    }
    Ok(Checked::new(program, names))
}
