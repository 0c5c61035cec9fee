// The faults of arguments.

ghost use Rattle.std.specs.Prelude.{map};
ghost use Rattle.syntax.specs.View as v;
ghost use Rattle.types.specs.Faults.{Gathers};
ghost use Rattle.types.specs.Scope.{Scope};
ghost use Rattle.types.specs.Standings.{IsNameScope};
ghost use Rattle.types.specs.StatementFaults as f;

use body_faults::{expression, operand};
use scanner::Refusal;
use syntax::{Expression, Parameter};
use types::{NameScope, expression_place, local_kind};

/// The least fault of arguments by themselves.
pub fn arguments(
    standing: &NameScope<'_, '_>,
    trees: &[Expression<'_>],
    least: Option<Refusal>,
) -> Option<Refusal>
    ensures { (s : Scope) → IsNameScope s standing.now
        → Gathers (f.arguments_faults s (map v.expression_of trees.now)) least result }
{
    let mut all = least;
    for tree in trees {
        all = expression(standing, tree, all);
    }
    all
}

/// The least fault of arguments that have other types than the parameters.
pub fn matched(
    standing: &NameScope<'_, '_>,
    trees: &[Expression<'_>],
    parameters: &[Parameter<'_>],
    least: Option<Refusal>,
) -> Option<Refusal>
    ensures { (s : Scope) → IsNameScope s standing.now
        → Gathers (f.matched_faults s (map v.expression_of trees.now)
        (map v.parameter_of parameters.now)) least
        result }
{
    let mut all = least;
    for number in 0..trees.len().min(parameters.len()) {
        let tree = &trees[number];
        all = operand(
            local_kind(parameters[number].kind),
            standing.expression_type(tree),
            expression_place(tree),
            all,
        );
    }
    all
}
