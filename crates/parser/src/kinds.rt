// What a token that stands first names.

ghost use Rattle.std.specs.Prelude.{◌≡◌};
ghost use Rattle.parser.specs.Kinds.{local_type_at, plain_type_at, result_type_at, access_at};

use scanner::{Keyword, Kind};
use syntax::{Access, LocalType, MemberType, ResultType};

/// The type of a local variable that a token names.
pub fn local_type_of(kind: Kind) -> Option<LocalType>
    ensures { result ≡ local_type_at kind }
{
    match kind {
        Kind::Keyword(Keyword::Integer) => Some(LocalType::Integer),
        Kind::Keyword(Keyword::Boolean) => Some(LocalType::Boolean),
        Kind::Keyword(Keyword::Process) => Some(LocalType::Process),
        _ => None,
    }
}

/// The type of a member that one token names.
pub fn plain_type_of(kind: Kind) -> Option<MemberType>
    ensures { result ≡ plain_type_at kind }
{
    match kind {
        Kind::Keyword(Keyword::Integer) => Some(MemberType::Integer),
        Kind::Keyword(Keyword::Boolean) => Some(MemberType::Boolean),
        Kind::Keyword(Keyword::Process) => Some(MemberType::Process),
        Kind::Keyword(Keyword::Condition) => Some(MemberType::Condition),
        _ => None,
    }
}

/// The type of a result that a token names.
pub fn result_type_of(kind: Kind) -> Option<ResultType>
    ensures { result ≡ result_type_at kind }
{
    match kind {
        Kind::Keyword(Keyword::Integer) => Some(ResultType::Integer),
        Kind::Keyword(Keyword::Boolean) => Some(ResultType::Boolean),
        _ => None,
    }
}

/// What the first word of a monitor's procedure says.
pub fn access_of(kind: Kind) -> Option<Access>
    ensures { result ≡ access_at kind }
{
    match kind {
        Kind::Keyword(Keyword::Entry) => Some(Access::Entry),
        Kind::Keyword(Keyword::Internal) => Some(Access::Internal),
        _ => None,
    }
}
