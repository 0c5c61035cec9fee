// The faults of names and operands where they are used: which kind of fault there is, if any.

ghost use Rattle.std.specs.Prelude.{◌≡◌, ◌++◌};
ghost use Rattle.scanner.specs.declared.token.Place.{Place as PlaceOf};
ghost use Rattle.syntax.specs.Tree.{ExpressionTree, NoIndex, At};
ghost use Rattle.types.specs.CallFaults as c;
ghost use Rattle.types.specs.ExpressionFaults as x;
ghost use Rattle.types.specs.Faults.{faults_of, Gathers};
ghost use Rattle.types.specs.Standings.{meaning_of};
ghost use Rattle.types.specs.Typing as t;

use crate::least::lesser;
use crate::standing::Meaning;
use program::{MemberType, ValueType};
use scanner::{Place, Refusal, RefusalKind};
use syntax::Comparator;

/// The least fault, where one of this kind at a place is found beside others.
pub fn note(kind: Option<RefusalKind>, place: Place, least: Option<Refusal>) -> Option<Refusal>
    ensures { Gathers (faults_of kind place) least result }
{
    match kind {
        Some(kind) => Some(lesser(least, Refusal { kind, place })),
        None => least,
    }
}

// Whether two types are one.
fn same_type(left: ValueType, right: ValueType) -> bool
    ensures { result ≡ t.same_type left right }
{
    match (left, right) {
        (ValueType::Integer, ValueType::Integer) => true,
        (ValueType::Boolean, ValueType::Boolean) => true,
        (ValueType::Process, ValueType::Process) => true,
        _ => false,
    }
}

// Whether an expression's type is known, and isn't the one that is wanted.
fn differs(wanted: ValueType, kind: Option<ValueType>) -> bool
    ensures { result ≡ t.differs wanted kind }
{
    match kind {
        Some(kind) => !same_type(wanted, kind),
        None => false,
    }
}

/// Whether two types are known, and aren't one.
pub fn differ(left: Option<ValueType>, right: Option<ValueType>) -> bool
    ensures { result ≡ t.differ left right }
{
    match left {
        Some(left) => differs(left, right),
        None => false,
    }
}

/// The fault of an operand of this type, where another type is wanted.
pub fn operand_fault(wanted: ValueType, kind: Option<ValueType>) -> Option<RefusalKind>
    ensures { (place : PlaceOf) → x.wants wanted kind place ≡ faults_of result place }
{
    if differs(wanted, kind) {
        Some(RefusalKind::TypeMismatch)
    } else {
        None
    }
}

/// The fault of a name that is read or assigned, and means something else than a variable.
pub fn read_fault(meaning: Meaning) -> Option<RefusalKind>
    ensures { (place : PlaceOf) → x.use_faults (meaning_of meaning) NoIndex place
        ≡ faults_of result place }
{
    match meaning {
        Meaning::Nothing => Some(RefusalKind::Unknown),
        Meaning::Local(_, _) | Meaning::Member(_, MemberType::Variable(_)) => None,
        Meaning::Member(_, _) => Some(RefusalKind::TypeMismatch),
    }
}

/// The fault of a name that is indexed, and means something else than an array.
pub fn index_fault(meaning: Meaning) -> Option<RefusalKind>
    ensures { (e : ExpressionTree) (place : PlaceOf)
        → x.use_faults (meaning_of meaning) (At e) place ≡ faults_of result place }
{
    match meaning {
        Meaning::Nothing => Some(RefusalKind::Unknown),
        Meaning::Member(_, MemberType::Array(_)) => None,
        Meaning::Local(_, _) | Meaning::Member(_, _) => Some(RefusalKind::TypeMismatch),
    }
}

/// The fault of a name behind WAIT, NOTIFY or BROADCAST that means something else than a condition.
pub fn condition_fault(meaning: Meaning) -> Option<RefusalKind>
    ensures { (place : PlaceOf) → c.condition_faults (meaning_of meaning) place
        ≡ faults_of result place }
{
    match meaning {
        Meaning::Nothing => Some(RefusalKind::Unknown),
        Meaning::Member(_, MemberType::Condition) => None,
        Meaning::Local(_, _) | Meaning::Member(_, _) => Some(RefusalKind::TypeMismatch),
    }
}

/// The faults of a comparison's two sides.
#[derive(Clone, Copy)]
pub struct Sides {
    /// That of the left side, if any.
    pub left: Option<RefusalKind>,
    /// That of the right side, if any.
    pub right: Option<RefusalKind>,
}

// The faults of the sides of `=` or `#`, of these types.
fn equality_faults(left: Option<ValueType>, right: Option<ValueType>) -> Sides
    ensures { (p q : PlaceOf) → x.equality_faults left right p q
        ≡ faults_of result.left p ++ faults_of result.right q }
{
    if let Some(ValueType::Process) = left {
        return Sides {
            left: Some(RefusalKind::TypeMismatch),
            right: None,
        };
    }
    if differ(left, right) {
        return Sides {
            left: None,
            right: Some(RefusalKind::TypeMismatch),
        };
    }
    Sides {
        left: None,
        right: None,
    }
}

// The faults of the sides of a sign that orders numbers.
fn order_faults(left: Option<ValueType>, right: Option<ValueType>) -> Sides
    ensures { (p q : PlaceOf) → x.order_faults left right p q
        ≡ faults_of result.left p ++ faults_of result.right q }
{
    Sides {
        left: operand_fault(ValueType::Integer, left),
        right: operand_fault(ValueType::Integer, right),
    }
}

/// The faults of the sides of a comparison, of these types.
pub fn comparison_faults(
    sign: Comparator,
    left: Option<ValueType>,
    right: Option<ValueType>,
) -> Sides
    ensures { (p q : PlaceOf)
        → x.comparison_faults sign left right p q
        ≡ faults_of result.left p ++ faults_of result.right q }
{
    match sign {
        Comparator::Equal => equality_faults(left, right),
        Comparator::NotEqual => equality_faults(left, right),
        Comparator::Less => order_faults(left, right),
        Comparator::LessEqual => order_faults(left, right),
        Comparator::Greater => order_faults(left, right),
        Comparator::GreaterEqual => order_faults(left, right),
    }
}
