// From a text to its image.

ghost use Rattle.std.specs.Prelude.{◌≡◌, ◌⊎◌, IfOk, IfErr, MatchResult};
ghost use Rattle.scanner.specs.Refusals.{out_of_memory};
ghost use Rattle.program.specs.Trees.{Program, as_version};
ghost use Rattle.lowering.specs.Pieces.{code_of};
ghost use Rattle.backend.specs.Refusals.{CodeFits};
ghost use Rattle.compiler.specs.Accepts.{AcceptsText, RefusesProgram, RefusesText, RefusesTextAs};
ghost use Rattle.compiler.specs.Compiles.{IsCompiled, IsCompiledAs, IsRead, IsReadLowered, IsReadLoweredAs};

use crate::laws::text_laws;
use backend::{Lowered, lower, lower_image};
use callees::few_declarations;
use checker::check;
use isa::Image;
use parser::parse;
use program::Checked;
use proof_simulation::code_refines;
use proof_well_formed::units_of_texts_have_numbers;
use scanner::{Refusal, scan, token_laws};
use std::alloc::{AllocError, Global};
use syntax::Unit;
use words::ImageVersion;

// How many bytes of memory the tokens of a text take for each of its bytes, where they take many.
const ROOM_FOR_A_BYTE: usize = 48;

// Asks for as much memory as the tokens of a text may take, and gives it back. The C library's allocator gets a block from
// the system and gives it back there where it is larger than each that was given back before; smaller ones it keeps. So
// what the tokens leave serves for the program and its code. Where there isn't so much, nothing is lost.
fn make_room(alloc: Global, text: &[u8]) {
    let room: Result<Vec<u8>, AllocError> = Vec::with_capacity(
        alloc,
        text.len().saturating_mul(ROOM_FOR_A_BYTE),
    );
    drop(room);
}

// The checked program of a text, and its tree, which is to be kept until the code is made: it lies in many small blocks,
// and who asks for a large one waits until the allocator has joined all that were given back.
pub(crate) fn read<'a>(alloc: Global, text: &'a [u8]) -> Result<(Checked<'a>, Unit<'a>), Refusal>
    ensures { MatchResult result (λ r. IsRead text.now r.0)
        (λ e. (e ≡ out_of_memory) ⊎ RefusesProgram text.now e) }
{
    few_declarations();
    units_of_texts_have_numbers();
    token_laws();
    make_room(alloc, text);
    let tokens = scan(alloc, text)?;
    let unit = parse(alloc, tokens.as_slice())?;
    drop(tokens);
    let checked = check(alloc, &unit)?;
    Ok((checked, unit))
}

/// Whether a source text is a program.
///
/// # Errors
///
/// A text that is no program has one refusal, that of the earliest phase: a text of more than 1048576 bytes is `Limit`
/// at 1:1; then come the faults of the scanner; those of the parser; then the least fault of names, types, places and
/// limits. `Memory` may come at any point.
pub fn check_text(alloc: Global, text: &[u8]) -> Result<(), Refusal>
    ensures { MatchResult result (λ _. (p : Program) × AcceptsText text.now p)
        (λ e. (e ≡ out_of_memory) ⊎ RefusesProgram text.now e) }
{
    let _program = read(alloc, text)?;
    Ok(())
}

// The image of this version of a source text, or its refusal.
fn image_or_refusal(alloc: Global, text: &[u8], version: ImageVersion) -> Result<Image, Refusal>
    ensures { MatchResult result (λ image. IsCompiledAs version text.now image)
        (λ e. (e ≡ out_of_memory) ⊎ RefusesTextAs version text.now e) }
{
    code_refines();
    let (checked, _unit) = read(alloc, text)?;
    let image = lower_image(alloc, &checked, version)?;
    Ok(image)
}

// The checked program of a text, and what it is lowered to for an image of this version; or its refusal.
fn read_lowered<'a>(
    alloc: Global,
    text: &'a [u8],
    version: ImageVersion,
) -> Result<(Checked<'a>, Lowered), Refusal>
    ensures { MatchResult result (λ r. IsReadLoweredAs version text.now r.0 r.1)
        (λ e. (e ≡ out_of_memory) ⊎ RefusesTextAs version text.now e) }
{
    code_refines();
    let (checked, _unit) = read(alloc, text)?;
    let lowered = lower(alloc, &checked, version)?;
    Ok((checked, lowered))
}

/// The checked program of a source text, and what it is lowered to for an image of this version: that image, with what
/// explains a run of it. The refusals are those of `compile_as`.
pub fn compile_checked_as<'a>(
    alloc: Global,
    text: &'a [u8],
    version: ImageVersion,
) -> Result<(Checked<'a>, Lowered), Refusal>
    ensures compiled { MatchResult result (λ r. IsReadLoweredAs version text.now r.0 r.1)
        (λ e. (e ≡ out_of_memory) ⊎ RefusesTextAs version text.now e) }
    ensures only { (p : Program) → AcceptsText text.now p → CodeFits (as_version version p)
        → IfErr result (λ e. e ≡ out_of_memory) }
{
    text_laws();
    read_lowered(alloc, text, version)
}

/// As `compile_checked_as` does, for an image of version 2. The refusals are those of `compile`.
pub fn compile_checked<'a>(alloc: Global, text: &'a [u8]) -> Result<(Checked<'a>, Lowered), Refusal>
    ensures compiled { MatchResult result (λ r. IsReadLowered text.now r.0 r.1)
        (λ e. (e ≡ out_of_memory) ⊎ RefusesText text.now e) }
    ensures only { (p : Program) → AcceptsText text.now p → CodeFits p
        → IfErr result (λ e. e ≡ out_of_memory) }
{
    compile_checked_as(alloc, text, ImageVersion::Two)
}

/// The image of this version of a source text.
///
/// # Errors
///
/// The refusals of `check_text`; then `Limit` at 1:1 where the code has more than 65536 instructions. `Memory` may come
/// at any point.
pub fn compile_as(alloc: Global, text: &[u8], version: ImageVersion) -> Result<Image, Refusal>
    ensures accepted { IfOk result (λ image. IsCompiledAs version text.now image) }
    ensures only { (p : Program) → AcceptsText text.now p → CodeFits (as_version version p)
        → MatchResult result (λ image. image ≡ code_of (as_version version p))
        (λ e. e ≡ out_of_memory) }
    ensures refusal { IfErr result (λ e. (e ≡ out_of_memory) ⊎ RefusesTextAs version text.now e) }
{
    text_laws();
    image_or_refusal(alloc, text, version)
}

/// The image of a source text, of version 2.
///
/// # Errors
///
/// Those of `compile_as`.
pub fn compile(alloc: Global, text: &[u8]) -> Result<Image, Refusal>
    ensures accepted { IfOk result (λ image. IsCompiled text.now image) }
    ensures only { (p : Program) → AcceptsText text.now p → CodeFits p
        → MatchResult result (λ image. image ≡ code_of p) (λ e. e ≡ out_of_memory) }
    ensures refusal { IfErr result (λ e. (e ≡ out_of_memory) ⊎ RefusesText text.now e) }
{
    compile_as(alloc, text, ImageVersion::Two)
}
