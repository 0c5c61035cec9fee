ghost use Rattle.std.specs.Prelude.{◌≡◌, IfOk};
ghost use Rattle.answers.specs.Answers.{AreDrawn, name_of, out_of};

use crate::answer::{OutFile, OutFiles};
use chart::{Picture, chart};
use commandline::ChartOptions;
use packed_log::PackedLog;
use page::{PagedRun, page};
use places::{Places, places_of};
use program::Checked;
use source_states::Action;
use std::alloc::{AllocError, Global};
use timeline::timeline;

/// The files that show a run, where they are wanted.
#[derive(Clone, Copy)]
pub struct Drawings<'a> {
    /// That of its picture, and which actions it has.
    pub chart: Option<ChartOptions<'a>>,
    /// That of its timeline.
    pub timeline: Option<&'a str>,
    /// That of its page.
    pub page: Option<&'a str>,
}

/// A run of a source text's program.
#[derive(Clone, Copy)]
pub struct ShownRun<'r, 'n> {
    /// The name of the text's file.
    pub file: &'r str,
    /// The bytes of the text.
    pub text: &'r [u8],
    /// Its program.
    pub checked: &'r Checked<'n>,
    /// The actions.
    pub actions: &'r [Action],
    /// The log that they explain; an empty one where there is none.
    pub log: &'r PackedLog,
    /// Which run it is, and how it ended.
    pub title: &'r str,
}

impl<'a> Drawings<'a> {
    /// Makes them for a run.
    pub(crate) fn drawn(
        &self,
        alloc: Global,
        run: &ShownRun<'_, '_>,
    ) -> Result<OutFiles<'a>, AllocError>
        ensures { IfOk result (AreDrawn self.now.chart self.now.timeline self.now.page) }
    {
        let out = picture_file(alloc, run, self.chart)?;
        let timeline = timeline_file(alloc, run, self.timeline)?;
        let page = page_file(alloc, run, self.page)?;
        Ok(OutFiles {
            out,
            timeline,
            page,
            schedule: None,
            actions: None,
        })
    }
}

// The file of the picture, where one is wanted.
fn picture_file<'a>(
    alloc: Global,
    run: &ShownRun<'_, '_>,
    wanted: Option<ChartOptions<'a>>,
) -> Result<Option<OutFile<'a>>, AllocError>
    ensures { IfOk result (λ file. name_of file ≡ out_of wanted.entry) }
{
    let Some(options) = wanted else {
        return Ok(None);
    };
    let bytes = picture_of(alloc, run, options)?;
    Ok(Some(OutFile {
        name: options.out,
        bytes,
    }))
}

// The file of the timeline, where one is wanted.
fn timeline_file<'a>(
    alloc: Global,
    run: &ShownRun<'_, '_>,
    wanted: Option<&'a str>,
) -> Result<Option<OutFile<'a>>, AllocError>
    ensures { IfOk result (λ file. name_of file ≡ wanted.entry) }
{
    let Some(name) = wanted else {
        return Ok(None);
    };
    let bytes = timeline(alloc, run.checked, run.actions)?;
    Ok(Some(OutFile { name, bytes }))
}

/// The file of the page of a run, where one is wanted.
pub(crate) fn page_file<'a>(
    alloc: Global,
    run: &ShownRun<'_, '_>,
    wanted: Option<&'a str>,
) -> Result<Option<OutFile<'a>>, AllocError>
    ensures { IfOk result (λ file. name_of file ≡ wanted.entry) }
{
    let Some(name) = wanted else {
        return Ok(None);
    };
    let bytes = page_of(alloc, run)?;
    Ok(Some(OutFile { name, bytes }))
}

// The page of a run.
fn page_of(alloc: Global, run: &ShownRun<'_, '_>) -> Result<Vec<u8>, AllocError> {
    let run = PagedRun {
        file: run.file,
        text: run.text,
        checked: run.checked,
        actions: run.actions,
        log: run.log,
        title: run.title,
    };
    Ok(page(alloc, &run)?.into_bytes())
}

// The names of the pieces of a program, by their numbers.
fn names_of<'t>(alloc: Global, places: &Places<'t>) -> Result<Vec<&'t [u8]>, AllocError> {
    let mut names = Vec::new(alloc);
    for piece in places.pieces.iter() {
        names.push(piece.name)?;
    }
    Ok(names)
}

// The picture of a run.
fn picture_of(
    alloc: Global,
    run: &ShownRun<'_, '_>,
    options: ChartOptions<'_>,
) -> Result<Vec<u8>, AllocError> {
    let places = places_of(alloc, run.text)?;
    let procedures = names_of(alloc, &places)?;
    let picture = Picture {
        checked: run.checked,
        procedures: procedures.as_slice(),
        actions: run.actions,
        log: run.log,
        title: run.title,
        from: options.from,
        to: options.to,
    };
    chart(alloc, &picture)
}
