// What names are resolved to.

ghost use Rattle.std.specs.Prelude.{◌≡◌};
ghost use Rattle.scanner.specs.declared.token.Place.{Place};
ghost use Rattle.syntax.specs.Tree.{NoIndex};
ghost use Rattle.types.specs.ExpressionFaults.{use_faults};
ghost use Rattle.types.specs.Expressions as x;
ghost use Rattle.types.specs.Standings.{meaning_of};
ghost use Rattle.types.specs.Typing.{type_of_use};
ghost use Rattle.resolver.specs.Clean.{Says};

use crate::known::Typed;
use program::{Expression, Member};
use types::{Meaning, read_fault, variable_type};

/// What a name is read as; one that means nothing is read as local 0.
pub fn variable(meaning: Meaning) -> Typed
    ensures { (place : Place) → Says (x.variable_of (meaning_of meaning))
        (type_of_use (meaning_of meaning) NoIndex)
        (use_faults (meaning_of meaning) NoIndex place) result }
{
    let expression = match meaning {
        Meaning::Nothing => Expression::Local(0),
        Meaning::Local(slot, _) => Expression::Local(slot),
        Meaning::Member(member, _) => Expression::Member(member),
    };
    Typed {
        expression,
        kind: variable_type(meaning),
        is_clean: read_fault(meaning).is_none(),
    }
}

/// The member that a name with an index means, or a condition's name; member 0 of monitor 0 where it means none.
pub fn array(meaning: Meaning) -> Member
    ensures { result ≡ x.array_of (meaning_of meaning) }
{
    match meaning {
        Meaning::Member(member, _) => member,
        Meaning::Nothing | Meaning::Local(_, _) => Member {
            monitor: 0,
            number: 0,
        },
    }
}
