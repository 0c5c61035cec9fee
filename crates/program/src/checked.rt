ghost use Rattle.std.specs.Prelude.{◌≡◌};
ghost use Rattle.program.specs.Names.{naming_of};
ghost use Rattle.program.specs.Views.{program_of};
ghost use Rattle.program.specs.WellFormed.{WellFormed};

use crate::unit::Program;
use std::marker::Model;

/// The names of a monitor and of its members, as they stand in the text.
#[derive(Drop)]
pub struct MonitorNames<'a> {
    /// The monitor's name.
    pub name: &'a [u8],
    /// The members' names, in the order of their declarations.
    pub members: Vec<&'a [u8]>,
}

/// What the things of a program are called, for those who print them.
#[derive(Drop)]
pub struct Names<'a> {
    /// The monitors' names, in the order of their declarations.
    pub monitors: Vec<MonitorNames<'a>>,
}

/// A program that the checker accepts, with the names of its things: types fit, numbers are in range, calls form no
/// cycle, and limits hold (`WellFormed`). Contracts see it as a `CheckedProgram`.
#[derive(Drop)]
pub struct Checked<'a> {
    program: Program,
    names: Names<'a>,
}

impl<'a> Model for Checked<'a> {
    ghost use Rattle.std.specs.Coded.{codes};
    ghost use Rattle.program.specs.contracts.statement.Statement as s;
    ghost use Rattle.program.specs.contracts.expression.Expression as e;
    ghost use Rattle.program.specs.Names.{CheckedProgram, naming_of};
    ghost use Rattle.program.specs.Views.{program_of};
    ghost use Rattle.program.specs.WellFormed.{WellFormed};

    ghost Value = { CheckedProgram };

    ghost coded = { Prim.hlevel (codes, s.the_row.coded, e.the_row.coded) };

    ghost view = { λ c. record { tree = c.program; names = naming_of c.names } };

    ghost invariant = { λ c. WellFormed (program_of c.program) };
}

impl<'a> Checked<'a> {
    /// The checked program of these parts.
    pub fn new(program: Program, names: Names<'a>) -> Checked<'a>
        requires { WellFormed (program_of program) }
        ensures { result ≡ record { tree = program; names = naming_of names.entry } }
    {
        Checked { program, names }
    }

    /// What the program says.
    pub fn program(&self) -> &Program
        ensures is { result.now ≡ self.now.tree }
        ensures well_formed { WellFormed (program_of self.now.tree) }
    {
        &self.program
    }

    /// What its things are called.
    pub fn names(&self) -> &Names<'a>
        ensures { naming_of result.now ≡ self.now.names }
    {
        &self.names
    }
}
