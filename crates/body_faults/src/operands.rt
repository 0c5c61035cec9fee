// Operands of another type than the one that is wanted.

ghost use Rattle.std.specs.Prelude.{◌≡◌};
ghost use Rattle.syntax.specs.Tree.{Reads, NoIndex};
ghost use Rattle.syntax.specs.View.{name_of};
ghost use Rattle.types.specs.ExpressionFaults.{wants, factor_faults};
ghost use Rattle.types.specs.Faults.{Gathers};
ghost use Rattle.types.specs.Scope.{Scope};
ghost use Rattle.types.specs.Standings.{IsNameScope};
ghost use Rattle.types.specs.Typing.{factor_type};
ghost use Rattle.body_faults.specs.Operands.{factor_operand};

use program::ValueType;
use scanner::{Place, Refusal};
use syntax::Name;
use types::{NameScope, note, operand_fault, read_fault, variable_type};

/// What comes of an expression behind what has a least fault.
#[derive(Clone, Copy, PartialEq, Eq, Debug)]
pub struct Judged {
    /// The least fault of both.
    pub least: Option<Refusal>,
    /// The type of the expression, where it has one of its own.
    pub kind: Option<ValueType>,
}

/// The least fault, where an operand of this type stands at a place where another type may be wanted.
pub fn operand(
    wanted: ValueType,
    kind: Option<ValueType>,
    place: Place,
    least: Option<Refusal>,
) -> Option<Refusal>
    ensures { Gathers (wants wanted kind place) least result }
{
    note(operand_fault(wanted, kind), place, least)
}

/// A name that is read. It is looked up once, for its own fault and for its type.
#[inline(always)]
pub fn judge_name(standing: &NameScope<'_, '_>, name: Name<'_>, least: Option<Refusal>) -> Judged
    ensures least { (s : Scope) → IsNameScope s standing.now
        → Gathers (factor_faults s (Reads (name_of name.entry) NoIndex)) least result.least }
    ensures kind { (s : Scope) → IsNameScope s standing.now
        → result.kind ≡ factor_type s (Reads (name_of name.entry) NoIndex) }
{
    let meaning = standing.meaning(name);
    Judged {
        least: note(read_fault(meaning), name.place, least),
        kind: variable_type(meaning),
    }
}

/// A name that is read, of which a type is wanted. It is looked up once, for its own fault and for that of its type.
pub fn name_operand(
    standing: &NameScope<'_, '_>,
    wanted: ValueType,
    name: Name<'_>,
    least: Option<Refusal>,
) -> Option<Refusal>
    ensures { (s : Scope) → IsNameScope s standing.now
        → Gathers (factor_operand s wanted (Reads (name_of name.entry) NoIndex)) least result }
{
    let meaning = standing.meaning(name);
    match (
        read_fault(meaning),
        operand_fault(wanted, variable_type(meaning)),
    ) {
        (None, None) => least,
        (own, other) => note(other, name.place, note(own, name.place, least)),
    }
}
