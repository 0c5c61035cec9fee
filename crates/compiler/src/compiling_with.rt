// From a text to its image, with several workers.

ghost use Rattle.std.specs.Prelude.{◌≡◌, ◌≤◌, ◌⊎◌, IfOk, IfErr, MatchResult};
ghost use Rattle.scanner.specs.Refusals.{out_of_memory};
ghost use Rattle.program.specs.Trees.{Program, as_version};
ghost use Rattle.lowering.specs.Pieces.{code_of};
ghost use Rattle.codegen_workers.specs.Limits.{most_workers};
ghost use Rattle.backend.specs.Refusals.{CodeFits};
ghost use Rattle.compiler.specs.Accepts.{AcceptsText, RefusesText, RefusesTextAs};
ghost use Rattle.compiler.specs.Compiles.{IsCompiled, IsCompiledAs};

use crate::compiling::read;
use crate::laws::text_laws;
use backend::lower_image_with;
use isa::Image;
use proof_simulation::code_refines;
use scanner::Refusal;
use std::alloc::Global;
use std::sync::Wait;
use std::thread::Threads;
use words::{Gate, ImageVersion};

// How many bytes may stand between two semicolons of a text whose code several workers make. What makes code calls
// itself for each of the operators in a row, of which so many bytes hold half as many, and a thread of the system's
// mostly has a stack for twice as many.
const MOST_BETWEEN: usize = 1 << 15;

// The most bytes that stand between two semicolons of a text, those of comments included.
fn most_between(text: &[u8]) -> usize {
    let mut most = 0;
    let mut count: usize = 0;
    let mut last = b' ';
    let mut is_comment = false;
    for byte in text {
        is_comment = if is_comment {
            *byte != b'\n'
        } else {
            *byte == b'-' && last == b'-'
        };
        last = *byte;
        count = if *byte == b';' && !is_comment {
            0
        } else {
            count.saturating_add(1)
        };
        most = count.max(most);
    }
    most
}

// As many workers as are wanted for a text, or one where their stacks may be too small for it. A text that one worker is
// wanted for isn't looked at.
fn workers_for(text: &[u8], wanted: u32) -> u32
    requires { (1 ≤ wanted) × (wanted ≤ most_workers) }
    ensures { (1 ≤ result) × (result ≤ most_workers) }
{
    if wanted == 1 || most_between(text) <= MOST_BETWEEN {
        wanted
    } else {
        1
    }
}

// The image of this version of a source text, or its refusal.
fn image_with<R: Threads + Wait + Sync, G: Gate>(
    rt: &R,
    alloc: Global,
    text: &[u8],
    version: ImageVersion,
    workers: u32,
    gate: &G,
) -> Result<Image, Refusal>
    requires { (1 ≤ workers) × (workers ≤ most_workers) }
    ensures { MatchResult result (λ image. IsCompiledAs version text.now image)
        (λ e. (e ≡ out_of_memory) ⊎ RefusesTextAs version text.now e) }
{
    code_refines();
    let (checked, _unit) = read(alloc, text)?;
    let image = lower_image_with(
        rt,
        alloc,
        &checked,
        version,
        workers_for(text, workers),
        gate,
    )?;
    Ok(image)
}

/// The image of this version of a source text, as `compile_as` gives it, with the code of its pieces made by this many workers, from 1 to
/// 64. Piece `j`, from 0, belongs to worker `1 + j MOD workers`, which passes the gate before it. A text with more than
/// 32,768 bytes between two semicolons has one worker, the calling thread.
///
/// # Errors
///
/// Those of `compile_as`; `Memory` comes also where a worker can't be started.
pub fn compile_with_as<R: Threads + Wait + Sync, G: Gate>(
    rt: &R,
    alloc: Global,
    text: &[u8],
    version: ImageVersion,
    workers: u32,
    gate: &G,
) -> Result<Image, Refusal>
    requires { (1 ≤ workers) × (workers ≤ most_workers) }
    ensures accepted { IfOk result (λ image. IsCompiledAs version text.now image) }
    ensures only { (p : Program) → AcceptsText text.now p → CodeFits (as_version version p)
        → MatchResult result (λ image. image ≡ code_of (as_version version p))
        (λ e. e ≡ out_of_memory) }
    ensures refusal { IfErr result (λ e. (e ≡ out_of_memory) ⊎ RefusesTextAs version text.now e) }
{
    text_laws();
    image_with(rt, alloc, text, version, workers, gate)
}

/// The image of a source text, as `compile` gives it, with its code made as `compile_with_as` makes it.
///
/// # Errors
///
/// Those of `compile_with_as`.
pub fn compile_with<R: Threads + Wait + Sync, G: Gate>(
    rt: &R,
    alloc: Global,
    text: &[u8],
    workers: u32,
    gate: &G,
) -> Result<Image, Refusal>
    requires { (1 ≤ workers) × (workers ≤ most_workers) }
    ensures accepted { IfOk result (λ image. IsCompiled text.now image) }
    ensures only { (p : Program) → AcceptsText text.now p → CodeFits p
        → MatchResult result (λ image. image ≡ code_of p) (λ e. e ≡ out_of_memory) }
    ensures refusal { IfErr result (λ e. (e ≡ out_of_memory) ⊎ RefusesText text.now e) }
{
    compile_with_as(rt, alloc, text, ImageVersion::Two, workers, gate)
}
