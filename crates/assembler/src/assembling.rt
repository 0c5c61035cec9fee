ghost use Rattle.std.specs.Prelude.{◌≡◌, IfErr, IfOk, MatchResult, length, vec_len};
ghost use Rattle.assembler.specs.Listings.{IsAssembled, IsEncoded, RefusesText};
ghost use Rattle.assembler.specs.Refusals.{out_of_memory};

use crate::draft::Draft;
use crate::listing::listed_image;
use crate::names::Name;
use crate::parts::image_of;
use crate::refusal::{AssemblyFault, AssemblyRefusal};
use crate::resolving::Scope;
use isa::{Image, Instr};
use scanner::Place;
use std::alloc::Global;

/// What an assembly text is: an image, and where it stands in the text.
#[derive(Drop)]
pub struct Assembled<'t> {
    /// The image.
    pub image: Image,
    /// The line of each instruction, from 1.
    pub lines: Vec<u32>,
    /// The names that the text declares, in their order.
    pub names: Vec<Name<'t>>,
}

// The instructions of a text, and the line of each.
#[derive(Drop)]
struct Code {
    instructions: Vec<Instr>,
    lines: Vec<u32>,
}

// The instructions of a draft.
fn code_of<'t>(
    alloc: Global,
    draft: &Draft<'t>,
    scope: Scope<'_, 't>,
) -> Result<Code, AssemblyRefusal>
    ensures { IfOk result (λ c. vec_len c.lines ≡ vec_len c.instructions) }
{
    let mut instructions = Vec::new(alloc);
    let mut lines = Vec::new(alloc);
    for drafted in draft.code.iter() {
        instructions.push(scope.instruction(drafted)?)?;
        lines.push(drafted.word.place.line)?;
    }
    Ok(Code {
        instructions,
        lines,
    })
}

// A refusal of the whole text.
fn refused(fault: AssemblyFault) -> AssemblyRefusal {
    AssemblyRefusal {
        fault,
        place: Place::START,
    }
}

// What a draft is.
fn finish<'t>(alloc: Global, draft: &Draft<'t>) -> Result<Assembled<'t>, AssemblyRefusal>
    ensures lines { IfOk result (λ a. vec_len a.lines ≡ length a.image.code) }
    ensures encoded { IfOk result (λ a. IsEncoded a.image) }
{
    if draft.code.is_empty() {
        return Err(refused(AssemblyFault::Start));
    }
    let scope = draft.scope();
    let start = scope.start(draft.start.as_ref())?;
    let names = draft.names.listed(alloc, scope.layout)?;
    let monitors = draft.all_monitors(alloc)?;
    let Code {
        instructions,
        lines,
    } = code_of(alloc, draft, scope)?;
    match image_of(draft.image_version(), monitors, start, instructions) {
        Some(image) => Ok(Assembled {
            image,
            lines,
            names,
        }),
        None => Err(refused(AssemblyFault::Limit)),
    }
}

// An image whose lines are the text.
fn listed<'t>(alloc: Global, image: Image) -> Result<Assembled<'t>, AssemblyRefusal>
    ensures lines { IfOk result (λ a. vec_len a.lines ≡ length a.image.code) }
    ensures image { MatchResult result (λ a. a.image ≡ image) (λ e. e ≡ out_of_memory) }
{
    let mut lines = Vec::new(alloc);
    let mut line: u32 = 0;
    for _instr in image.code() {
        line = line.saturating_add(1);
        lines.push(line)?;
    }
    Ok(Assembled {
        image,
        lines,
        names: Vec::new(alloc),
    })
}

// The image of a text that isn't a listing.
fn read<'t>(alloc: Global, text: &'t [u8]) -> Result<Assembled<'t>, AssemblyRefusal>
    ensures lines { IfOk result (λ a. vec_len a.lines ≡ length a.image.code) }
    ensures encoded { IfOk result (λ a. IsEncoded a.image) }
{
    let draft = Draft::of(alloc, text)?;
    finish(alloc, &draft)
}

/// The image of an assembly text (docs/assembly.md), and where it stands in the text.
///
/// The lines that `list` prints of an image's instructions are a text that is never refused, memory aside. Its image has
/// just these instructions: it is of the second version, without monitors, and begins at the first one. Of any text the image
/// is of the first version or the second, and `isa::decode` reads its bytes as it is.
///
/// # Errors
///
/// The first line with a fault, and where all lines are in order the first instruction with a name that stands for nothing,
/// or a number past a limit. Want of memory has the place 1:1.
pub fn assemble<'t>(alloc: Global, text: &'t [u8]) -> Result<Assembled<'t>, AssemblyRefusal>
    ensures lines { IfOk result (λ a. vec_len a.lines ≡ length a.image.code) }
    ensures image { IfOk result (λ a. IsAssembled text.now a.image) }
    ensures refused { IfErr result (RefusesText text.now) }
{
    let known = listed_image(alloc, text)?;
    match known {
        Some(image) => listed(alloc, image),
        None => read(alloc, text),
    }
}
