ghost use Rattle.std.specs.Prelude.{◌≡◌, ◌⊎◌, IfOk, IfErr, MatchResult};
ghost use Rattle.scanner.specs.Refusals.{out_of_memory};
ghost use Rattle.program.specs.Trees.{Program, as_version};
ghost use Rattle.backend.specs.Refusals.{CodeFits};
ghost use Rattle.commandline.specs.CommandLine.{version_by};
ghost use Rattle.compiler.specs.Accepts.{AcceptsText, RefusesTextAs};
ghost use Rattle.compiler.specs.Compiles.{IsCompiledAs, IsReadLoweredAs};
ghost use Rattle.answers.specs.Versions.{code_as};

use backend::Lowered;
use commandline::Exits;
use compiler::{compile_as, compile_checked_as};
use isa::Image;
use program::Checked;
use scanner::Refusal;
use std::alloc::Global;

/// The image of a source text that is run by this rule of exits. The refusals are those of `compile_as`.
pub fn compile_by(alloc: Global, text: &[u8], exits: Exits) -> Result<Image, Refusal>
    ensures accepted { IfOk result (λ image. IsCompiledAs (version_by exits) text.now image) }
    ensures only { (p : Program) → AcceptsText text.now p
        → CodeFits (as_version (version_by exits) p)
        → MatchResult result (λ image. image ≡ code_as (version_by exits) p)
        (λ e. e ≡ out_of_memory) }
    ensures refusal { IfErr result (λ e. (e ≡ out_of_memory)
        ⊎ RefusesTextAs (version_by exits) text.now e) }
{
    compile_as(alloc, text, exits.version())
}

/// The checked program of a source text, and what it is lowered to for that image, with what explains a run of it.
pub fn compile_checked_by<'a>(
    alloc: Global,
    text: &'a [u8],
    exits: Exits,
) -> Result<(Checked<'a>, Lowered), Refusal>
    ensures compiled { MatchResult result
        (λ r. IsReadLoweredAs (version_by exits) text.now r.0 r.1)
        (λ e. (e ≡ out_of_memory) ⊎ RefusesTextAs (version_by exits) text.now e) }
    ensures only { (p : Program) → AcceptsText text.now p
        → CodeFits (as_version (version_by exits) p) → IfErr result (λ e. e ≡ out_of_memory) }
{
    compile_checked_as(alloc, text, exits.version())
}
