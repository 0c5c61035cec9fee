ghost use Rattle.std.specs.Prelude.{◌≡◌, IfOk, is_some};
ghost use Rattle.answers.specs.Answers.{name_of};
ghost use Rattle.answers.specs.Images.{finds_run, finds_sleepers, name_if};

use crate::answer::OutFile;
use assembler::Assembled;
use image_chart::{image_chart, image_timeline};
use image_lines::{Origin, RunLines, run_lines};
use image_search::{Ending, ImageExploration, Sleeping};
use runner::Turn;
use std::alloc::{AllocError, Global};

// The schedule to threads that sleep for good, where some do.
fn turns_to_sleepers(sleeping: &Sleeping) -> Option<&[Turn]>
    ensures { is_some result ≡ finds_sleepers sleeping.now }
{
    match sleeping {
        Sleeping::ForGood { turns, .. } => Some(turns.as_slice()),
        Sleeping::Unsought => None,
        Sleeping::Never => None,
        Sleeping::Unknown(_) => None,
    }
}

// The schedule of what a search over an image found.
fn turns_of(found: &ImageExploration) -> Option<&[Turn]>
    ensures { is_some result ≡ finds_run found.now.sleeping found.now.ending }
{
    match &found.ending {
        Ending::Stuck(turns) => Some(turns.as_slice()),
        Ending::Failed(turns) => Some(turns.as_slice()),
        Ending::Broken(turns) => Some(turns.as_slice()),
        Ending::Complete => turns_to_sleepers(&found.sleeping),
        Ending::Bounded(_) => None,
    }
}

/// The lines of the run that a search over an image found, where it found one, and who sleeps at its end.
pub(crate) fn found_run(
    alloc: Global,
    file: &str,
    formed: &Assembled<'_>,
    found: &ImageExploration,
) -> Result<Option<RunLines>, AllocError>
    ensures { IfOk result (λ run. is_some run
        ≡ finds_run found.now.sleeping found.now.ending) }
{
    let Some(turns) = turns_of(found) else {
        return Ok(None);
    };
    let origin = Origin {
        file,
        lines: formed.lines.as_slice(),
        names: formed.names.as_slice(),
    };
    let run = run_lines(alloc, &formed.image, turns, &origin)?;
    Ok(Some(run))
}

// How the run ends that was found.
fn end_of(ending: &Ending) -> &'static str {
    match ending {
        Ending::Stuck(_) => "stuck",
        Ending::Failed(_) => "a thread fails",
        Ending::Broken(_) => "a step that may not be",
        Ending::Complete | Ending::Bounded(_) => "sleeps for good",
    }
}

// The picture of a run.
fn picture_of(
    alloc: Global,
    file: &str,
    run: &RunLines,
    ending: &Ending,
) -> Result<Vec<u8>, AllocError> {
    let mut title = String::new(alloc);
    write!(title, "{file}: found by a search, ")?;
    title.push_str(end_of(ending))?;
    image_chart(alloc, run, title.as_str())
}

/// The file of the picture of a run that was found, where one was and it is wanted.
pub(crate) fn picture_file<'a>(
    alloc: Global,
    file: &str,
    run: &Option<RunLines>,
    ending: &Ending,
    wanted: Option<&'a str>,
) -> Result<Option<OutFile<'a>>, AllocError>
    ensures { IfOk result (λ f. name_of f ≡ name_if (is_some run.now) wanted.entry) }
{
    let Some(run) = run else {
        return Ok(None);
    };
    let Some(name) = wanted else {
        return Ok(None);
    };
    let bytes = picture_of(alloc, file, run, ending)?;
    Ok(Some(OutFile { name, bytes }))
}

/// The file of its timeline.
pub(crate) fn timeline_file<'a>(
    alloc: Global,
    run: &Option<RunLines>,
    wanted: Option<&'a str>,
) -> Result<Option<OutFile<'a>>, AllocError>
    ensures { IfOk result (λ f. name_of f ≡ name_if (is_some run.now) wanted.entry) }
{
    let Some(run) = run else {
        return Ok(None);
    };
    let Some(name) = wanted else {
        return Ok(None);
    };
    let bytes = image_timeline(alloc, run)?;
    Ok(Some(OutFile { name, bytes }))
}
