ghost use Rattle.std.specs.Prelude.{◌≡◌, ◌⊎◌, IfOk, IfErr, OnOk, Some, false, is_some, string_bytes, true};
ghost use Rattle.compiler.specs.Accepts.{RefusesTextAs};
ghost use Rattle.isa.specs.Lines.{lines};
ghost use Rattle.answers.specs.Answers.{AreTold};
ghost use Rattle.answers.specs.Done.{HasListed, IsListed, RefusesListed, RefusesListing, TellsLines};
ghost use Rattle.compiler.specs.Compiles.{IsCompiledAs};
ghost use Rattle.answers.specs.Causes.{CannotList, FailsListing, IsBesideAnother};
ghost use Rattle.answers.specs.Failures.{IsLeftBy, OrMemory};

use crate::answer::{Answer, OutFiles};
use crate::failure::{Failure, NoAnswer};
use crate::hinting::{SourceText, tell_refused};
use crate::images::image_of;
use crate::status::Status;
use commandline::Exits;
use compiler::{compile_as, compile_checked_as};
use isa::{Image, encode, list_lines, one_spelling};
use line_tails::put_beside;
use program::Checked;
use source_listing::{Listing, listing_of};
use std::alloc::{AllocError, Global};
use words::ImageVersion;

// Whether two images of one version are one.
fn are_same(alloc: Global, a: &Image, b: &Image) -> Result<bool, AllocError>
    ensures same { IfOk result
        (λ same. same ≡ true → a.now.version ≡ b.now.version → a.now ≡ b.now) }
    ensures other { IfOk result (λ same. same ≡ false → a.now ≡ b.now → ⊥) }
{
    one_spelling();
    let first = encode(alloc, a)?;
    let second = encode(alloc, b)?;
    Ok(first.as_slice() == second.as_slice())
}

// What stands beside the lines of an image, which has to be this one of the source text of a file.
fn listing_beside<'a>(
    alloc: Global,
    text: &[u8],
    source: &'a str,
    checked: &Checked,
    own: &Image,
    image: &Image,
) -> Result<Listing, Failure<'a>>
    ensures same { OnOk result (own.now.version ≡ image.now.version → own.now ≡ image.now) }
    ensures failed { IfErr result
        (OrMemory (λ f. (f ≡ Failure.OtherImage source.entry) × (own.now ≡ image.now → ⊥))) }
{
    if !are_same(alloc, own, image)? {
        return Err(Failure::OtherImage(source));
    }
    Ok(listing_of(alloc, text, checked, image.version(), image.code())?)
}

// The same, of the source text itself.
fn listing_of_text<'a>(
    alloc: Global,
    text: &SourceText<'_>,
    source: &'a str,
    image: &Image,
    told: &mut String,
) -> Result<Listing, NoAnswer<'a>>
    ensures same { OnOk result (IsCompiledAs image.now.version text.now.bytes.now image.now) }
    ensures left { IfErr result
        (IsLeftBy (RefusesTextAs image.now.version text.now.bytes.now) (λ e. ⊥)
        (IsBesideAnother (Some source.entry) text.now.bytes.now image.now)) }
{
    match compile_checked_as(alloc, text.bytes, image.version()) {
        Ok((checked, lowered)) => {
            Ok(listing_beside(alloc, text.bytes, source, &checked, &lowered.image, image)?)
        }
        Err(refusal) => {
            let refused = NoAnswer::from(refusal);
            tell_refused(alloc, told, text, refused);
            Err(refused)
        }
    }
}

// The lines of an image, with those of the source text beside them, where one is named.
fn lines_beside<'a>(
    alloc: Global,
    image: &Image,
    source: Option<&'a str>,
    second: &[u8],
    hints: bool,
    lines: String,
    told: &mut String,
) -> Result<Vec<u8>, NoAnswer<'a>>
    ensures told { IfOk result
        (λ v. AreTold (is_some source.entry) (string_bytes lines) v.items) }
    ensures same { OnOk result
        (is_some source.entry ≡ true → IsCompiledAs image.now.version second.now image.now) }
    ensures left { IfErr result (IsLeftBy (RefusesTextAs image.now.version second.now) (λ e. ⊥)
        (IsBesideAnother source.entry second.now image.now)) }
{
    let Some(source) = source else {
        return Ok(lines.into_bytes());
    };
    let text = SourceText {
        file: source,
        bytes: second,
        exits: Exits::Machine,
        hints,
    };
    let Listing { head, tails } = listing_of_text(alloc, &text, source, image, told)?;
    Ok(put_beside(alloc, head.as_str(), lines.as_bytes(), tails.as_slice())?)
}

// Lists the instructions of an image.
fn list_image<'a>(
    alloc: Global,
    image: &Image,
    source: Option<&'a str>,
    second: &[u8],
    hints: bool,
    told: &mut String,
) -> Result<Answer<'a>, NoAnswer<'a>>
    ensures done { IfOk result (TellsLines (is_some source.entry) (lines 0 image.now.code)) }
    ensures same { OnOk result
        (is_some source.entry ≡ true → IsCompiledAs image.now.version second.now image.now) }
    ensures left { IfErr result (IsLeftBy (RefusesTextAs image.now.version second.now) (λ e. ⊥)
        (IsBesideAnother source.entry second.now image.now)) }
{
    let lines = list_lines(alloc, image)?;
    let output = lines_beside(alloc, image, source, second, hints, lines, told)?;
    Ok(Answer::quiet(alloc, Status::Done, output, OutFiles::only(None)))
}

// The code for Linux of a source text.
fn code_for_linux<'a>(
    alloc: Global,
    text: &SourceText<'_>,
    hints: bool,
    told: &mut String,
) -> Result<Image, NoAnswer<'a>>
    ensures image { IfOk result (IsCompiledAs ImageVersion.Linux text.now.bytes.now) }
    ensures left { IfErr result
        (IsLeftBy (RefusesTextAs ImageVersion.Linux text.now.bytes.now) (λ e. ⊥) (λ f. ⊥)) }
{
    match compile_as(alloc, text.bytes, ImageVersion::Linux) {
        Ok(image) => Ok(image),
        Err(refusal) => {
            let refused = NoAnswer::from(refusal);
            let told_of = SourceText {
                file: text.file,
                bytes: text.bytes,
                exits: text.exits,
                hints,
            };
            tell_refused(alloc, told, &told_of, refused);
            Err(refused)
        }
    }
}

// The image that is listed.
fn listed_image<'a>(
    alloc: Global,
    text: &SourceText<'_>,
    linux: bool,
    hints: bool,
    told: &mut String,
) -> Result<Image, NoAnswer<'a>>
    ensures image { IfOk result (IsListed linux text.now.bytes.now) }
    ensures left { IfErr result (IsLeftBy (RefusesListed linux text.now.bytes.now) (λ e. ⊥)
        (CannotList linux text.now.bytes.now)) }
{
    if linux {
        code_for_linux(alloc, text, hints, told)
    } else {
        Ok(image_of(alloc, text.bytes)?)
    }
}

/// Lists the instructions of an image, with the lines of the source text of a file, whose image it has to be, where one is
/// named. The image is that of the bytes of `text`, or else the code for Linux of the source text that they are;
/// `second` has the bytes of that file.
pub fn answer_list<'a>(
    alloc: Global,
    text: &SourceText<'_>,
    linux: bool,
    source: Option<&'a str>,
    second: &[u8],
    hints: bool,
    told: &mut String,
) -> Result<Answer<'a>, NoAnswer<'a>>
    ensures done { IfOk result
        (HasListed linux (is_some source.entry) text.now.bytes.now second.now) }
    ensures left { IfErr result
        (IsLeftBy (RefusesListing linux text.now.bytes.now second.now) (λ e. ⊥)
        (FailsListing linux source.entry text.now.bytes.now second.now)) }
{
    let image = listed_image(alloc, text, linux, hints, told)?;
    list_image(alloc, &image, source, second, hints, told)
}
