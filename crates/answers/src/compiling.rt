ghost use Rattle.std.specs.Prelude.{◌≤◌, ◌++◌, IfOk, IfErr, None, Some, codes, length};
ghost use Rattle.compiler.specs.Accepts.{RefusesProgram, RefusesTextAs};
ghost use Rattle.isa.specs.Spelling.{spelling};
ghost use Rattle.answers.specs.Answers.{TellsAlone, put_of};
ghost use Rattle.assembler.specs.Listings.{RefusesText as RefusesAssembly};
ghost use Rattle.answers.specs.Done.{HasAssembled, HasChecked, HasCompiled, HasEmitted, TellsC};
ghost use Rattle.answers.specs.Failures.{HasNoMemory, IsLeftBy, IsRefusalOrMemory};
ghost use Rattle.answers.specs.ImageLine.{image_line};

use crate::answer::{Answer, OutFile, OutFiles};
use crate::failure::NoAnswer;
use crate::hinting::SourceText;
use crate::lines::line_of_image;
use crate::status::Status;
use assembler::assemble;
use compiler::{check_text, compile_checked_as, compile_with_as};
use emit_image::emit_image;
use isa::{Image, encode};
use program::Checked;
use source_listing::line_starts;
use std::alloc::{AllocError, Global};
use std::sync::Wait;
use std::thread::Threads;
use words::{ImageVersion, OpenGate};

// The answer that all is well, with this file, or none.
fn ok<'a>(alloc: Global, out: Option<OutFile<'a>>) -> Result<Answer<'a>, NoAnswer<'a>>
    ensures told { IfOk result (TellsAlone (codes "ok\n") (put_of out.entry)) }
    ensures failed { IfErr result HasNoMemory }
{
    let line = Vec::from_slice(alloc, "ok\n".as_bytes())?;
    Ok(Answer::quiet(alloc, Status::Done, line, OutFiles::only(out)))
}

/// Checks a text.
pub fn answer_check<'a>(alloc: Global, text: &SourceText<'_>) -> Result<Answer<'a>, NoAnswer<'a>>
    ensures done { IfOk result (HasChecked text.now.bytes.now) }
    ensures refused { IfErr result (IsRefusalOrMemory (RefusesProgram text.now.bytes.now)) }
{
    check_text(alloc, text.bytes)?;
    ok(alloc, None)
}

/// Compiles a text to an image of this version, for the file of this name.
pub fn answer_compile<'a, R: AllocGlobal + Threads + Wait + Sync>(
    rt: &R,
    text: &SourceText<'_>,
    out: &'a str,
    version: ImageVersion,
    workers: u32,
) -> Result<Answer<'a>, NoAnswer<'a>>
    requires { (1 ≤ workers) × (workers ≤ 64) }
    ensures done { IfOk result (HasCompiled version out.entry text.now.bytes.now) }
    ensures refused { IfErr result (IsRefusalOrMemory (RefusesTextAs version text.now.bytes.now)) }
{
    let image = compile_with_as(rt, rt.alloc(), text.bytes, version, workers, &OpenGate)?;
    image_answer(rt.alloc(), &image, out)
}

/// Assembles a text to an image, for the file of this name.
pub fn answer_assemble<'a>(
    alloc: Global,
    text: &SourceText<'_>,
    out: &'a str,
) -> Result<Answer<'a>, NoAnswer<'a>>
    ensures done { IfOk result (HasAssembled out.entry text.now.bytes.now) }
    ensures left { IfErr result
        (IsLeftBy (λ e. ⊥) (RefusesAssembly text.now.bytes.now) (λ f. ⊥)) }
{
    let assembled = assemble(alloc, text.bytes)?;
    image_answer(alloc, &assembled.image, out)
}

// That an image is made, and its bytes for the file of this name.
fn image_answer<'a>(alloc: Global, image: &Image, out: &'a str) -> Result<Answer<'a>, NoAnswer<'a>>
    ensures told { IfOk result (TellsAlone (image_line (length image.now.code))
        (Some (out.entry, spelling image.now))) }
    ensures failed { IfErr result HasNoMemory }
{
    let count = image.code().len();
    let line = line_of_image(alloc, count)?;
    let bytes = encode(alloc, image)?;
    let out = OutFile { name: out, bytes };
    Ok(Answer::quiet(
        alloc,
        Status::Done,
        line.into_bytes(),
        OutFiles::only(Some(out)),
    ))
}

/// Makes of the program of a text one in C, for the file of this name: its code for Linux, instruction by instruction, with
/// the lines of the text that it comes from as comments.
pub fn answer_emit<'a>(
    alloc: Global,
    text: &SourceText<'_>,
    out: &'a str,
) -> Result<Answer<'a>, NoAnswer<'a>>
    ensures done { IfOk result (HasEmitted out.entry text.now.bytes.now) }
    ensures refused { IfErr result
        (IsRefusalOrMemory (RefusesTextAs ImageVersion.Linux text.now.bytes.now)) }
{
    let (checked, lowered) = compile_checked_as(alloc, text.bytes, ImageVersion::Linux)?;
    c_answer(alloc, text.bytes, &checked, &lowered.image, out)
}

// That the C of an image of a text is made, and its bytes for the file of this name.
fn c_answer<'a>(
    alloc: Global,
    text: &[u8],
    checked: &Checked,
    image: &Image,
    out: &'a str,
) -> Result<Answer<'a>, NoAnswer<'a>>
    ensures told { IfOk result (TellsC out.entry text.now image.now) }
    ensures failed { IfErr result HasNoMemory }
{
    let starts = line_starts(alloc, text, checked, image.version())?;
    let bytes = emit_image(alloc, image, text, starts.as_slice())?;
    ok(alloc, Some(OutFile { name: out, bytes }))
}
