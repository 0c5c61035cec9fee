// The least fault.

ghost use Rattle.std.specs.Prelude.{◌≡◌, [], ◌∷◌, ◌++◌, List, true, false};
ghost use Rattle.scanner.specs.declared.refusal.Refusal.{Refusal as RefusalOf};
ghost use Rattle.types.specs.Faults.{ComesNoLater, IsLeastOf};

use scanner::Refusal;

/// Whether a fault comes no later than another: at an earlier place, or at the same one with no greater a number.
pub fn comes_no_later(first: Refusal, second: Refusal) -> bool
    ensures yes { result ≡ true → ComesNoLater first second }
    ensures no { result ≡ false → ComesNoLater second first }
{
    if first.place.line != second.place.line {
        return first.place.line < second.place.line;
    }
    if first.place.column != second.place.column {
        return first.place.column < second.place.column;
    }
    first.kind.number() <= second.kind.number()
}

/// The least of some faults and one more, from the least of them.
pub fn lesser(least: Option<Refusal>, fault: Refusal) -> Refusal
    ensures { (es : List RefusalOf) → IsLeastOf es least
        → IsLeastOf (es ++ fault ∷ []) (Some result) }
{
    match least {
        Some(first) if comes_no_later(first, fault) => first,
        _ => fault,
    }
}
