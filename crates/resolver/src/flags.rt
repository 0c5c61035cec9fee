// What several parts of a statement say together.

ghost use Rattle.std.specs.Prelude.{◌≡◌, ◌&&◌};

/// Whether both are clean.
pub fn both(first: bool, second: bool) -> bool
    ensures { result ≡ (first && second) }
{
    first && second
}
