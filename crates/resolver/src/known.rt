// What is known of what was resolved.

ghost use Rattle.std.specs.Prelude.{◌≡◌, ◌&&◌, ◌++◌, List, Option};
ghost use Rattle.program.specs.Trees as t;
ghost use Rattle.program.specs.declared.kinds.ValueType.{ValueType as TypeOf};
ghost use Rattle.scanner.specs.declared.refusal.Refusal.{Refusal};
ghost use Rattle.scanner.specs.declared.refusal.RefusalKind.TheVariants.{TypeMismatch};
ghost use Rattle.scanner.specs.declared.token.Place.{Place};
ghost use Rattle.types.specs.ExpressionFaults.{wants, comparison_faults as faults_between};
ghost use Rattle.types.specs.Faults.{where_true};
ghost use Rattle.types.specs.Typing.{differ as types_differ};
ghost use Rattle.resolver.specs.Clean.{is_clean, Says};

use program::{Element, Expression, Statement, Target, ValueType};
use syntax::Comparator;
use types::{comparison_faults, differ, operand_fault};

/// An expression as it is resolved, and what is known of it.
#[derive(Drop)]
pub struct Typed {
    /// The expression.
    pub expression: Expression,
    /// Its type, where it has one of its own.
    pub kind: Option<ValueType>,
    /// Whether nothing of it is faulty.
    pub is_clean: bool,
}

/// An element of an array as it is resolved, and what is known of it.
#[derive(Drop)]
pub struct Indexed {
    /// The element.
    pub element: Box<Element>,
    /// Its type, where it has one of its own.
    pub kind: Option<ValueType>,
    /// Whether nothing of it is faulty.
    pub is_clean: bool,
}

/// What is assigned to as it is resolved, and what is known of it.
#[derive(Drop)]
pub struct Aim {
    /// What is assigned to.
    pub target: Target,
    /// Its type, where it has one of its own.
    pub kind: Option<ValueType>,
    /// Whether nothing of it is faulty.
    pub is_clean: bool,
}

/// A statement as it is resolved, and whether nothing of it is faulty.
#[derive(Drop)]
pub struct Judged {
    /// The statement.
    pub statement: Statement,
    /// Whether nothing of it is faulty.
    pub is_clean: bool,
}

/// Whether nothing of an expression is faulty where this type is wanted.
pub fn fits(typed: &Typed, wanted: ValueType) -> bool
    ensures { (e : t.Expression) (kind : Option TypeOf) (fs : List Refusal) (place : Place)
        → Says e kind fs typed.now
        → result ≡ is_clean (fs ++ wants wanted kind place) }
{
    typed.is_clean && operand_fault(wanted, typed.kind).is_none()
}

/// Whether nothing is faulty before an operand, nor in it where this type is wanted.
pub fn fits_behind(before: bool, typed: &Typed, wanted: ValueType) -> bool
    ensures { (e : t.Expression) (kind : Option TypeOf) (fs : List Refusal) (place : Place)
        → Says e kind fs typed.now
        → result ≡ (before && is_clean (fs ++ wants wanted kind place)) }
{
    before && fits(typed, wanted)
}

/// Whether nothing of two sums is faulty where this sign stands between them.
pub fn compares(sign: Comparator, left: &Typed, right: &Typed) -> bool
    ensures { (d e : t.Expression) (j k : Option TypeOf) (fs gs : List Refusal) (p q : Place)
        → Says d j fs left.now
        → Says e k gs right.now → result ≡ is_clean (fs ++ (gs ++ faults_between sign j k p q)) }
{
    let sides = comparison_faults(sign, left.kind, right.kind);
    let is_left = left.is_clean && sides.left.is_none();
    let is_right = right.is_clean && sides.right.is_none();
    is_left && is_right
}

/// Whether nothing is faulty where this value is assigned to this.
pub fn takes(aim: &Aim, value: &Typed) -> bool
    ensures { (e : t.Expression) (j k : Option TypeOf) (fs gs : List Refusal) (place : Place)
        → aim.now.kind ≡ j
        → aim.now.is_clean ≡ is_clean fs → Says e k gs value.now
        → result ≡ is_clean (fs ++ (gs ++ where_true (types_differ j k) TypeMismatch place)) }
{
    let is_value = value.is_clean && !differ(aim.kind, value.kind);
    aim.is_clean && is_value
}
