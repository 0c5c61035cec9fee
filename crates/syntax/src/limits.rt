ghost use Rattle.std.specs.Prelude.{◌≡◌};
ghost use Rattle.syntax.specs.Limits.{most_nestings};

/// The most nestings that are open at once in a program.
pub const MOST_NESTINGS: u8 = 64;

/// The limit in code is that of the contracts.
pub fn limit_laws()
    ensures { MOST_NESTINGS ≡ most_nestings }
{}
