// Names that are declared twice in one scope.

ghost use Rattle.std.specs.Prelude.{◌<◌, IfOk, length, map};
ghost use Rattle.scanner.specs.declared.refusal.RefusalKind.TheVariants.{Redeclared};
ghost use Rattle.syntax.specs.View.{name_of};
ghost use Rattle.types.specs.Judgement.{IsRepeated};
ghost use Rattle.unit_faults.specs.Collected.{Collects, OfKind};

use crate::least::note_where;
use scanner::{Refusal, RefusalKind};
use std::alloc::{AllocError, Global};
use syntax::Name;
use types::Table;

/// The least fault, where a scope has these names: each one is `Redeclared` that an earlier one is written like.
pub fn repeated(
    alloc: Global,
    names: &[Name<'_>],
    least: Option<Refusal>,
) -> Result<Option<Refusal>, AllocError>
    requires { length names.now < u32.MAX }
    ensures { IfOk result
        (λ r. Collects (OfKind Redeclared (IsRepeated (map name_of names.now))) least r) }
{
    let mut table = Table::new(alloc);
    let mut least = least;
    for name in names {
        let fresh = table.declare(*name)?;
        least = note_where(!fresh, RefusalKind::Redeclared, name.place, least);
    }
    Ok(least)
}
