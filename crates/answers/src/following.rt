ghost use Rattle.std.specs.Prelude.{◌≡◌, IfOk, IfErr};
ghost use Rattle.answers.specs.Causes.{CannotRunBy, FailsBy, FailsFollowing, FailsImage, FailsLog, FailsTurns};
ghost use Rattle.answers.specs.Causes.{HasNoImage};
ghost use Rattle.answers.specs.Failures.{IsLeftBy};
ghost use Rattle.answers.specs.Images.{FollowsImage, HasFollowed, IsFollowedAs, IsFollowedByLines, IsImageBy};
ghost use Rattle.answers.specs.Images.{IsImageOf, IsRunBy, UnassemblesAs, is_first};
ghost use Rattle.answers.specs.Turns.{turns_in};
ghost use Rattle.runner.specs.Schedules.{IsFollowed};

use crate::answer::Answer;
use crate::failure::{Failure, NoAnswer};
use crate::hinting::SourceText;
use crate::images::image_of;
use crate::log_limits::check_bytes;
use crate::running::log_beside;
use crate::schedule::schedule_of;
use crate::source_log::{entries_of, follow_entries};
use assembler::{Assembled, assemble};
use commandline::{Exits, ImageForm, ReplayedBy};
use isa::Image;
use runner::{Report, follow};
use std::alloc::Global;
use words::ImageVersion;

/// Runs an image by a schedule or a log, of which `second` has the bytes.
pub fn answer_follow<'a>(
    alloc: Global,
    text: &SourceText<'_>,
    second: &[u8],
    form: ImageForm,
    by: ReplayedBy<'a>,
    trace: bool,
) -> Result<Answer<'a>, NoAnswer<'a>>
    ensures done { IfOk result (HasFollowed text.now.exits form by.entry trace
        text.now.bytes.now second.now) }
    ensures left { IfErr result (IsLeftBy (λ e. ⊥) (UnassemblesAs form text.now.bytes.now)
        (FailsFollowing text.now.exits form by.entry text.now.bytes.now second.now)) }
{
    let formed = formed_image(alloc, text, form)?;
    follow_image(alloc, &formed.image, second, by, trace)
}

/// The image that a file has in this form, as it is run by the rule of exits that is asked for, and where it stands in its
/// text, if it has one. An image of the first version isn't run by Linux's rule.
pub fn formed_image<'t, 'a>(
    alloc: Global,
    text: &SourceText<'t>,
    form: ImageForm,
) -> Result<Assembled<'t>, NoAnswer<'a>>
    ensures image { IfOk result
        (λ formed. IsImageBy text.now.exits form text.now.bytes.now formed.image) }
    ensures left { IfErr result (IsLeftBy (λ e. ⊥) (UnassemblesAs form text.now.bytes.now)
        (FailsImage text.now.exits form text.now.bytes.now)) }
{
    let formed = own_image(alloc, text.bytes, form)?;
    run_by(formed, text.exits)
}

// An image, as it is run by this rule of exits.
fn run_by<'t, 'a>(formed: Assembled<'t>, exits: Exits) -> Result<Assembled<'t>, NoAnswer<'a>>
    ensures image { IfOk result (λ run. IsRunBy exits formed.entry.image run.image) }
    ensures left { IfErr result
        (IsLeftBy (λ e. ⊥) (λ e. ⊥) (CannotRunBy exits formed.entry.image)) }
{
    match exits {
        Exits::Machine => Ok(formed),
        Exits::Linux => run_by_linux(formed),
    }
}

// By Linux's, unless it is of the first version.
fn run_by_linux<'t, 'a>(formed: Assembled<'t>) -> Result<Assembled<'t>, NoAnswer<'a>>
    ensures image { IfOk result (λ run. IsRunBy Exits.Linux formed.entry.image run.image) }
    ensures left { IfErr result
        (IsLeftBy (λ e. ⊥) (λ e. ⊥) (CannotRunBy Exits.Linux formed.entry.image)) }
{
    let Assembled {
        image,
        lines,
        names,
    } = formed;
    if is_first(image.version()) {
        return Err(NoAnswer::Failed(Failure::FirstVersion));
    }
    Ok(Assembled {
        image: image.as_version(ImageVersion::Linux),
        lines,
        names,
    })
}

// Whether it is the first version, whose images aren't run by Linux's rule.
fn is_first(version: ImageVersion) -> bool
    ensures { result ≡ is_first version }
{
    match version {
        ImageVersion::One => true,
        ImageVersion::Two | ImageVersion::Linux => false,
    }
}

// The image itself.
fn own_image<'t, 'a>(
    alloc: Global,
    bytes: &'t [u8],
    form: ImageForm,
) -> Result<Assembled<'t>, NoAnswer<'a>>
    ensures image { IfOk result (λ formed. IsImageOf form bytes.now formed.image) }
    ensures left { IfErr result
        (IsLeftBy (λ e. ⊥) (UnassemblesAs form bytes.now) (HasNoImage form bytes.now)) }
{
    match form {
        ImageForm::Assembly => Ok(assemble(alloc, bytes)?),
        ImageForm::Image => Ok(without_text(alloc, image_of(alloc, bytes)?)),
    }
}

// An image that has no text.
fn without_text<'t>(alloc: Global, image: Image) -> Assembled<'t>
    ensures { result.image ≡ image }
{
    Assembled {
        image,
        lines: Vec::new(alloc),
        names: Vec::new(alloc),
    }
}

// Runs an image by the schedule or the log that these bytes are, and tells that.
fn follow_image<'a>(
    alloc: Global,
    image: &Image,
    second: &[u8],
    by: ReplayedBy<'a>,
    trace: bool,
) -> Result<Answer<'a>, NoAnswer<'a>>
    ensures done { IfOk result (FollowsImage image.now by.entry trace second.now) }
    ensures left { IfErr result
        (IsLeftBy (λ e. ⊥) (λ e. ⊥) (FailsBy by.entry image.now second.now)) }
{
    let report = followed_by(alloc, image, second, by)?;
    let log = log_beside(by);
    Answer::of_report(alloc, &report, trace, log, None)
}

// The report of that run.
fn followed_by<'a>(
    alloc: Global,
    image: &Image,
    second: &[u8],
    by: ReplayedBy<'a>,
) -> Result<Report, NoAnswer<'a>>
    ensures report { IfOk result (IsFollowedAs by.entry image.now second.now) }
    ensures left { IfErr result
        (IsLeftBy (λ e. ⊥) (λ e. ⊥) (FailsBy by.entry image.now second.now)) }
{
    match by {
        ReplayedBy::Schedule { .. } => followed(alloc, image, second),
        ReplayedBy::Log { steps, .. } => followed_by_lines(alloc, image, second, steps),
    }
}

// That of a run by the threads and counts of the log whose lines these are, of at most so many steps.
fn followed_by_lines<'a>(
    alloc: Global,
    image: &Image,
    lines: &[u8],
    steps: u32,
) -> Result<Report, NoAnswer<'a>>
    ensures report { IfOk result (IsFollowedByLines image.now lines.now steps) }
    ensures left { IfErr result (IsLeftBy (λ e. ⊥) (λ e. ⊥) (FailsLog image.now steps lines.now)) }
{
    check_bytes(lines, steps)?;
    let entries = entries_of(alloc, lines, steps)?;
    let report = follow_entries(alloc, image, entries.iter())?;
    Ok(report)
}

// That of a run by the schedule that these bytes are.
fn followed<'a>(alloc: Global, image: &Image, schedule: &[u8]) -> Result<Report, NoAnswer<'a>>
    ensures report { IfOk result (IsFollowed image.now (turns_in schedule.now)) }
    ensures left { IfErr result (IsLeftBy (λ e. ⊥) (λ e. ⊥) (FailsTurns image.now schedule.now)) }
{
    let turns = schedule_of(alloc, schedule)?;
    let report = follow(alloc, image, turns.as_slice())?;
    Ok(report)
}
