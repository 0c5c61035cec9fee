// The least fault of a unit.

ghost use Rattle.std.specs.Prelude.{◌≡◌, IfOk, true};
ghost use Rattle.syntax.specs.Whole.{unit_of};
ghost use Rattle.callees.specs.Names.{IsCallees};
ghost use Rattle.types.specs.Judgement.{all_calls as all_calls_of, IsInBody};
ghost use Rattle.scanner.specs.declared.refusal.Refusal.{Refusal as RefusalOf};
ghost use Rattle.types.specs.Verdicts.{IsVerdict};

use crate::bodies::bodies;
use crate::calls::all_calls;
use crate::cycles::circular;
use crate::declared::{inner, outer};
use callees::Callees;
use callgraph::Call;
use scanner::Refusal;
use std::alloc::{AllocError, Global};
use syntax::Unit;

// The least fault of a unit, by what it declares and by its calls.
fn least_fault(
    alloc: Global,
    unit: &Unit<'_>,
    callees: &Callees<'_, '_>,
    calls: &[Call],
    are_bodies_clean: bool,
) -> Result<Option<Refusal>, AllocError>
    requires callees { IsCallees (unit_of unit.now) callees.now }
    requires calls { calls.now ≡ all_calls_of (unit_of unit.now) }
    requires clean { are_bodies_clean ≡ true → (e : RefusalOf) → IsInBody (unit_of unit.now) e → ⊥ }
    ensures { IfOk result (λ r. IsVerdict (unit_of unit.now) r) }
{
    let outside = outer(alloc, unit, None)?;
    let declared = inner(alloc, &callees.pieces, outside)?;
    let called = circular(alloc, &callees.pieces, calls, declared)?;
    if are_bodies_clean {
        return Ok(called);
    }
    bodies(alloc, callees, called)
}

/// The least fault of a unit, which is its refusal: the one of the earliest place, and of these the one of the lowest
/// number. `None` where nothing of it is faulty. `callees` is what the unit declares (`Callees::new`). Where it is
/// known that no statement is faulty, bodies are left out. The only error is that memory runs out.
pub fn first_fault(
    alloc: Global,
    unit: &Unit<'_>,
    callees: &Callees<'_, '_>,
    are_bodies_clean: bool,
) -> Result<Option<Refusal>, AllocError>
    requires callees { IsCallees (unit_of unit.now) callees.now }
    requires clean { are_bodies_clean ≡ true → (e : RefusalOf) → IsInBody (unit_of unit.now) e → ⊥ }
    ensures { IfOk result (λ r. IsVerdict (unit_of unit.now) r) }
{
    let calls = all_calls(alloc, callees)?;
    least_fault(alloc, unit, callees, &calls, are_bodies_clean)
}
