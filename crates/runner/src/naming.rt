use std::marker::Brand;
use std::sync::ledger::Ledger;

/// The name of one run, with the program that it runs, what may come from outside in it, its limit of steps, and the
/// ledger that counts its entries. The caller picks it at one call.
pub trait RunName: Ledger {
    ghost use Rattle.std.specs.Prelude.{ℕ};
    ghost use Rattle.isa.specs.Programs.{Program};
    ghost use Rattle.runner.specs.Logs.{Outside};

    ghost program: { Program };

    ghost outside: { Outside };

    ghost limit: { ℕ };
}

impl RunName for Brand {
    ghost use Rattle.std.specs.Prelude.{[]};
    ghost use Rattle.words.specs.declared.version.ImageVersion.TheVariants.{One};
    ghost use Rattle.runner.specs.Logs.{nothing_outside};

    ghost program = { record { version = One; monitors = []; start = 0; code = [] } };

    ghost outside = { nothing_outside };

    ghost limit = { 0 };
}
