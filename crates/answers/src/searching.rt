ghost use Rattle.std.specs.Prelude.{◌≡◌, ◌++◌, IfOk, IfErr, List, OnOk, is_some, ℕ, string_bytes};
ghost use Rattle.answers.specs.Answers.{put_of};
ghost use Rattle.answers.specs.Causes.{FailsImage};
ghost use Rattle.answers.specs.Failures.{HasNoMemory, IsLeftBy};
ghost use Rattle.answers.specs.Images.{AreShown, HasSearched, SearchesImage, TellsSearch, UnassemblesAs, finds_run};
ghost use Rattle.answers.specs.Images.{ending_lines, exit_line, found_put, is_whole, later_lines, machine_line, none_fails};
ghost use Rattle.answers.specs.Images.{none_sleeps};
ghost use Rattle.answers.specs.Images.{schedule_put, search_lines, search_status, sleepers_line};
ghost use Rattle.answers.specs.ScheduleText.{schedule_text, turn_line};
ghost use Rattle.answers.specs.Images.{sleeping_lines, sleeping_put, sleeping_status, thread_word};
ghost use Rattle.std.specs.List.{flat_map};

use crate::answer::{Answer, OutFile, OutFiles};
use crate::exploring::append_states;
use crate::failure::NoAnswer;
use crate::following::formed_image;
use crate::hinting::SourceText;
use crate::showing::{found_run, picture_file, timeline_file};
use crate::status::Status;
use crate::telling::tell_bound;
use assembler::Assembled;
use commandline::{Exits, ImageForm, SearchFiles};
use image_lines::RunLines;
use image_search::{Ending, ImageExploration, Sleeping, explore_image};
use image_states::Outside;
use runner::Turn;
use source_search::Progress;
use std::alloc::{AllocError, Global};
use std::fmt::Write as _;

// Who is told how far a search over an image has come: whoever is told of one over a source text.
#[derive(Drop)]
struct Passed<'p, P> {
    progress: &'p mut P,
}

impl<P: Progress> image_search::Progress for Passed<'_, P> {
    fn looked_at(&mut self, kept: usize, looked: usize) {
        self.progress.looked_at(kept, looked);
    }
}

/// Searches all schedules of an image, with as much from outside as may be, keeping at most so many states, and tells what
/// is found, and shows it in the files that are wanted. What helps where a bound was met is appended to `told`. How far the
/// search has come is told as it goes.
pub fn answer_search<'a, P: Progress>(
    alloc: Global,
    text: &SourceText<'_>,
    form: ImageForm,
    states: u32,
    outside: Outside,
    wanted: SearchFiles<'a>,
    told: &mut String,
    progress: &mut P,
) -> Result<Answer<'a>, NoAnswer<'a>>
    ensures done { IfOk result (HasSearched text.now.exits form outside states wanted.entry
        text.now.bytes.now) }
    ensures left { IfErr result (IsLeftBy (λ e. ⊥) (UnassemblesAs form text.now.bytes.now)
        (FailsImage text.now.exits form text.now.bytes.now)) }
{
    let formed = formed_image(alloc, text, form)?;
    search_formed(
        alloc, text, &formed, states, outside, wanted, told, progress,
    )
}

// Searches an image, and tells what is found.
fn search_formed<'a, P: Progress>(
    alloc: Global,
    text: &SourceText<'_>,
    formed: &Assembled<'_>,
    states: u32,
    outside: Outside,
    wanted: SearchFiles<'a>,
    told: &mut String,
    progress: &mut P,
) -> Result<Answer<'a>, NoAnswer<'a>>
    ensures done { IfOk result (SearchesImage text.now.exits formed.now.image outside states
        wanted.entry) }
    ensures failed { IfErr result HasNoMemory }
{
    let mut passed = Passed { progress };
    let found = explore_image(alloc, &formed.image, states, outside, &mut passed)?;
    tell_bound(told, &found);
    found_answer(alloc, text, formed, &found, outside, wanted)
}

// Tells what was found.
fn found_answer<'a>(
    alloc: Global,
    text: &SourceText<'_>,
    formed: &Assembled<'_>,
    found: &ImageExploration,
    outside: Outside,
    wanted: SearchFiles<'a>,
) -> Result<Answer<'a>, NoAnswer<'a>>
    ensures told { IfOk result (TellsSearch text.now.exits outside wanted.entry found.now) }
    ensures failed { IfErr result HasNoMemory }
{
    let run = found_run(alloc, text.file, formed, found)?;
    let output = lines_of(alloc, &run, found, outside)?;
    let account = Vec::from_slice(alloc, exit_line(text.exits, outside).as_bytes())?;
    let files = found_files(alloc, text.file, &run, found, wanted)?;
    Ok(Answer {
        status: status_of_search(found),
        output,
        account,
        files,
    })
}

// The files that show the run that was found.
fn found_files<'a>(
    alloc: Global,
    file: &str,
    run: &Option<RunLines>,
    found: &ImageExploration,
    wanted: SearchFiles<'a>,
) -> Result<OutFiles<'a>, AllocError>
    requires { is_some run.now ≡ finds_run found.now.sleeping found.now.ending }
    ensures { IfOk result (AreShown wanted.entry found.now.sleeping found.now.ending) }
{
    let schedule = found_file(alloc, wanted.schedule, found)?;
    let out = picture_file(alloc, file, run, &found.ending, wanted.chart)?;
    let timeline = timeline_file(alloc, run, wanted.timeline)?;
    Ok(OutFiles {
        out,
        timeline,
        page: None,
        schedule,
        actions: None,
    })
}

// With kills, that a thread's exit wakes by this machine's rule, where it does.
fn exit_line(exits: Exits, outside: Outside) -> &'static str
    ensures { result.now ≡ exit_line exits outside }
{
    match exits {
        Exits::Machine => machine_line(outside),
        Exits::Linux => "",
    }
}

// The line that says so.
fn machine_line(outside: Outside) -> &'static str
    ensures { result.now ≡ machine_line outside }
{
    if outside.kills > 0 {
        "by this machine's exit; Linux wakes less\n"
    } else {
        ""
    }
}

// How a complete search ended.
fn status_of_sleeping(sleeping: &Sleeping) -> Status
    ensures { result ≡ sleeping_status sleeping.now }
{
    match sleeping {
        Sleeping::ForGood { .. } => Status::Found,
        Sleeping::Unsought | Sleeping::Never | Sleeping::Unknown(_) => Status::Done,
    }
}

// How a search ended.
fn status_of_search(found: &ImageExploration) -> Status
    ensures { result ≡ search_status found.now.sleeping found.now.ending }
{
    match &found.ending {
        Ending::Complete => status_of_sleeping(&found.sleeping),
        Ending::Stuck(_) => Status::Stuck,
        Ending::Failed(_) | Ending::Broken(_) => Status::Found,
        Ending::Bounded(_) => Status::Limit,
    }
}

// What is told: how the search ended, and behind that the run that was found.
fn lines_of(
    alloc: Global,
    run: &Option<RunLines>,
    found: &ImageExploration,
    outside: Outside,
) -> Result<Vec<u8>, AllocError>
    ensures { IfOk result
        (λ v. (more : List ℕ) × (v.items ≡ search_lines outside found.now ++ more)) }
{
    let mut lines = first_lines(alloc, found, outside)?;
    lines.extend_from_slice(text_of(run))?;
    Ok(lines)
}

// The lines of the run that was found.
fn text_of(run: &Option<RunLines>) -> &[u8] {
    match run {
        Some(run) => run.text.as_bytes(),
        None => &[],
    }
}

// How many states were kept, and how the search ended.
fn first_lines(
    alloc: Global,
    found: &ImageExploration,
    outside: Outside,
) -> Result<Vec<u8>, AllocError>
    ensures { IfOk result (λ v. v.items ≡ search_lines outside found.now) }
{
    let mut text = String::new(alloc);
    append_states(&mut text, found.states, is_whole(&found.ending))?;
    append_ending(&mut text, found, outside)?;
    Ok(text.into_bytes())
}

// Whether the search came to its end.
fn is_whole(ending: &Ending) -> bool
    ensures { result ≡ is_whole ending.now }
{
    match ending {
        Ending::Complete => true,
        Ending::Stuck(_) => true,
        Ending::Failed(_) => true,
        Ending::Broken(_) => true,
        Ending::Bounded(_) => false,
    }
}

fn append_ending(
    text: &mut String,
    found: &ImageExploration,
    outside: Outside,
) -> Result<(), AllocError>
    ensures { OnOk result (string_bytes text.new
        ≡ string_bytes text.old ++ ending_lines outside found.now.sleeping found.now.ending) }
{
    match &found.ending {
        Ending::Complete => append_none(text, &found.sleeping, outside),
        Ending::Stuck(_) => text.push_str("stuck\n"),
        Ending::Failed(_) => text.push_str("failed\n"),
        Ending::Broken(_) => text.push_str("broken\n"),
        Ending::Bounded(_) => Ok(()),
    }
}

// What is told of a complete search.
fn append_none(text: &mut String, sleeping: &Sleeping, outside: Outside) -> Result<(), AllocError>
    ensures { OnOk result (string_bytes text.new
        ≡ string_bytes text.old ++ ending_lines outside sleeping.now Ending.Complete) }
{
    text.push_str("no schedule is stuck\n")?;
    text.push_str(none_fails(outside))?;
    append_later(text, sleeping)
}

// What it tells of threads that sleep for good, and of steps that may not be.
fn append_later(text: &mut String, sleeping: &Sleeping) -> Result<(), AllocError>
    ensures { OnOk result (string_bytes text.new
        ≡ string_bytes text.old ++ later_lines sleeping.now) }
{
    text.push_str(none_sleeps(sleeping))?;
    text.push_str("no step is broken\n")?;
    append_sleeping(text, sleeping)
}

fn none_sleeps(sleeping: &Sleeping) -> &'static str
    ensures { result.now ≡ none_sleeps sleeping.now }
{
    match sleeping {
        Sleeping::Never => "no thread sleeps for good\n",
        Sleeping::Unsought | Sleeping::ForGood { .. } | Sleeping::Unknown(_) => "",
    }
}

// What is told of threads that sleep for good.
fn append_sleeping(text: &mut String, sleeping: &Sleeping) -> Result<(), AllocError>
    ensures { OnOk result (string_bytes text.new
        ≡ string_bytes text.old ++ sleeping_lines sleeping.now) }
{
    match sleeping {
        Sleeping::ForGood { threads, .. } => append_sleepers(text, threads.as_slice()),
        Sleeping::Unsought | Sleeping::Never | Sleeping::Unknown(_) => Ok(()),
    }
}

fn append_sleepers(text: &mut String, threads: &[u32]) -> Result<(), AllocError>
    ensures { OnOk result (string_bytes text.new
        ≡ string_bytes text.old ++ sleepers_line threads.now) }
{
    text.push_str("sleeps for good:")?;
    append_threads(text, threads)?;
    text.push_str("\n")
}

// Appends the numbers of threads.
fn append_threads(text: &mut String, threads: &[u32]) -> Result<(), AllocError>
    ensures { OnOk result (string_bytes text.new
        ≡ string_bytes text.old ++ flat_map thread_word threads.now) }
{
    for thread in threads {
        write!(text, " {thread}")?;
    }
    Ok(())
}

fn none_fails(outside: Outside) -> &'static str
    ensures { result.now ≡ none_fails outside }
{
    if outside.kills > 0 {
        "no thread fails but by a kill\n"
    } else {
        "no thread fails\n"
    }
}

// The file of the schedule of what was found, where one is named.
fn found_file<'a>(
    alloc: Global,
    name: Option<&'a str>,
    found: &ImageExploration,
) -> Result<Option<OutFile<'a>>, AllocError>
    ensures { IfOk result (λ file. put_of file
        ≡ found_put name.entry found.now.sleeping found.now.ending) }
{
    match &found.ending {
        Ending::Stuck(turns) => schedule_file(alloc, name, turns.as_slice()),
        Ending::Failed(turns) => schedule_file(alloc, name, turns.as_slice()),
        Ending::Broken(turns) => schedule_file(alloc, name, turns.as_slice()),
        Ending::Complete => sleeping_file(alloc, name, &found.sleeping),
        Ending::Bounded(_) => Ok(None),
    }
}

// The same of a complete search.
fn sleeping_file<'a>(
    alloc: Global,
    name: Option<&'a str>,
    sleeping: &Sleeping,
) -> Result<Option<OutFile<'a>>, AllocError>
    ensures { IfOk result (λ file. put_of file ≡ sleeping_put name.entry sleeping.now) }
{
    match sleeping {
        Sleeping::ForGood { turns, .. } => schedule_file(alloc, name, turns.as_slice()),
        Sleeping::Unsought => Ok(None),
        Sleeping::Never => Ok(None),
        Sleeping::Unknown(_) => Ok(None),
    }
}

/// The file of a schedule, where one is named.
pub(crate) fn schedule_file<'a>(
    alloc: Global,
    name: Option<&'a str>,
    turns: &[Turn],
) -> Result<Option<OutFile<'a>>, AllocError>
    ensures { IfOk result (λ file. put_of file ≡ schedule_put name.entry turns.now) }
{
    let Some(name) = name else {
        return Ok(None);
    };
    let mut text = String::new(alloc);
    append_turns(&mut text, turns)?;
    let bytes = text.into_bytes();
    Ok(Some(OutFile { name, bytes }))
}

// Appends the words of a schedule, a line each.
fn append_turns(text: &mut String, turns: &[Turn]) -> Result<(), AllocError>
    ensures { OnOk result (string_bytes text.new ≡ string_bytes text.old ++ schedule_text turns.now) }
{
    for turn in turns {
        append_turn(text, *turn)?;
    }
    Ok(())
}

fn append_turn(text: &mut String, turn: Turn) -> Result<(), AllocError>
    ensures { OnOk result (string_bytes text.new ≡ string_bytes text.old ++ turn_line turn) }
{
    match turn {
        Turn::Step(thread) => writeln!(text, "{thread}"),
        Turn::Stray(thread) => writeln!(text, "s{thread}"),
        Turn::Kill(thread) => writeln!(text, "k{thread}"),
    }
}
