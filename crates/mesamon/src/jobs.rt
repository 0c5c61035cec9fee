ghost use Rattle.std.specs.Prelude.{◌≡◌, ◌⊎◌, IfErr, IfOk, IfSome};
ghost use Rattle.devices.specs.Failures.{HaveFailed};
ghost use Rattle.devices.specs.Files.{IsOfFile};
ghost use Rattle.mesamon.specs.Asked.{HasWorkers, asks_for_hints, exits_of, first_most, most_first, most_formed, most_of};
ghost use Rattle.mesamon.specs.Asked.{read_of_explained, read_of_replay, read_of_source, read_second};
ghost use Rattle.mesamon.specs.Commands.{FailsJob, FailsSome, HasDone, HasDoneSome, RefusesJob, RefusesSome};
ghost use Rattle.mesamon.specs.Commands.{UnassemblesJob, UnassemblesSome};
ghost use Rattle.answers.specs.Failures.{IsLeftBy, OrMemory};

use crate::files::{bytes_of, front_of};
use answers::{
    Answer, Drawings, Failure, FoundFiles, NoAnswer, Searched, SourceText, answer_assemble,
    answer_check, answer_compile, answer_emit, answer_exec, answer_explain, answer_explore,
    answer_fmt, answer_follow, answer_list, answer_replay, answer_retell, answer_run,
    answer_schedule, answer_search, answer_shrink, log_bytes, tell_refused,
};
use commandline::{Exits, ExplainedBy, ImageForm, Job, ReplayedBy};
use devices::FileFailures;
use image_states::Outside as ImageOutside;
use source_search::{Asked, Outside, Progress};
use std::rt::Files;
use std::sync::Wait;
use std::thread::Threads;

/// Whether a job asks for hints.
pub fn asks_for_hints(job: &Job<'_>) -> bool
    ensures { result ≡ asks_for_hints job.now }
{
    match *job {
        Job::Check { hints, .. }
        | Job::Compile { hints, .. }
        | Job::List { hints, .. }
        | Job::Run { hints, .. }
        | Job::Replay { hints, .. }
        | Job::Explain { hints, .. }
        | Job::Retell { hints, .. }
        | Job::Emit { hints, .. }
        | Job::Explore { hints, .. }
        | Job::Search { hints, .. }
        | Job::Follow { hints, .. }
        | Job::Assemble { hints, .. }
        | Job::Fmt { hints, .. }
        | Job::Schedule { hints, .. }
        | Job::Shrink { hints, .. } => hints,
        Job::Exec { .. } => false,
    }
}

// By whose rule the exits of the threads wake that a job runs.
fn exits_of(job: Job<'_>) -> Exits
    ensures { result ≡ exits_of job.entry }
{
    match job {
        Job::Run { exits, .. }
        | Job::Exec { exits, .. }
        | Job::Replay { exits, .. }
        | Job::Explain { exits, .. }
        | Job::Retell { exits, .. }
        | Job::Explore { exits, .. }
        | Job::Search { exits, .. }
        | Job::Follow { exits, .. }
        | Job::Shrink { exits, .. } => exits,
        Job::Check { .. }
        | Job::Compile { .. }
        | Job::List { .. }
        | Job::Emit { .. }
        | Job::Assemble { .. }
        | Job::Fmt { .. }
        | Job::Schedule { .. } => Exits::Machine,
    }
}

// The name of the file that a job is about.
fn file_of<'a>(job: Job<'a>) -> &'a str {
    match job {
        Job::Check { file, .. }
        | Job::Compile { file, .. }
        | Job::Run { file, .. }
        | Job::Replay { file, .. }
        | Job::Explain { file, .. }
        | Job::Retell { file, .. }
        | Job::Emit { file, .. }
        | Job::Explore { file, .. }
        | Job::Search { file, .. }
        | Job::Follow { file, .. }
        | Job::Assemble { file, .. }
        | Job::Fmt { file, .. }
        | Job::Shrink { file, .. } => file,
        Job::List { image, .. } | Job::Exec { image, .. } => image,
        Job::Schedule { log, .. } => log,
    }
}

// Whether that file is an image's, an assembly text's or a log's, and not a source text's.
fn is_of_image(job: Job<'_>) -> bool {
    matches!(
        job,
        Job::List { .. }
            | Job::Exec { .. }
            | Job::Search { .. }
            | Job::Follow { .. }
            | Job::Schedule { .. }
    )
}

// The second file that a job reads.
#[derive(Clone, Copy)]
enum Second<'a> {
    // None.
    None,
    // A source text, or a schedule.
    Text(&'a str),
    // The actions of a run, all of them.
    All(&'a str),
    // A log of at most so many steps.
    Log { name: &'a str, steps: u32 },
}

// That of a listing.
fn second_of_list<'a>(source: Option<&'a str>) -> Second<'a>
    ensures { most_of result ≡ read_of_source source.entry }
{
    match source {
        Some(name) => Second::Text(name),
        None => Second::None,
    }
}

// That of a replay.
fn second_of_replay<'a>(by: ReplayedBy<'a>) -> Second<'a>
    ensures { most_of result ≡ read_of_replay by.entry }
{
    match by {
        ReplayedBy::Schedule { schedule, .. } => Second::Text(schedule),
        ReplayedBy::Log { log, steps } => Second::Log { name: log, steps },
    }
}

// That of an explanation.
fn second_of_explained<'a>(by: ExplainedBy<'a>) -> Second<'a>
    ensures { most_of result ≡ read_of_explained by.entry }
{
    match by {
        ExplainedBy::Schedule(name) => Second::Text(name),
        ExplainedBy::Log { log, steps } => Second::Log { name: log, steps },
        ExplainedBy::Order { .. } | ExplainedBy::Seed { .. } => Second::None,
    }
}

// That of a job.
fn second_of<'a>(job: Job<'a>) -> Second<'a>
    ensures { most_of result ≡ read_second job.entry }
{
    match job {
        Job::List { source, .. } => second_of_list(source),
        Job::Replay { by, .. } | Job::Follow { by, .. } => second_of_replay(by),
        Job::Explain { by, .. } => second_of_explained(by),
        Job::Retell { actions, .. } => Second::All(actions),
        Job::Shrink { schedule, .. } => Second::Text(schedule),
        Job::Check { .. }
        | Job::Compile { .. }
        | Job::Run { .. }
        | Job::Exec { .. }
        | Job::Emit { .. }
        | Job::Explore { .. }
        | Job::Search { .. }
        | Job::Assemble { .. }
        | Job::Fmt { .. }
        | Job::Schedule { .. } => Second::None,
    }
}

// How many bytes are read of a file of which all are wanted: more than there is memory for.
const ALL: usize = 1 << 62;

// How much is read of the file that a job is about.
#[derive(Clone, Copy)]
enum First {
    // What a source text or an image may have.
    Text,
    // All: an assembly text may be longer.
    All,
    // What a log of at most so many steps may have.
    Log { steps: u32 },
}

// That of a job.
fn first_of(job: Job<'_>) -> First
    ensures { first_most job.entry ≡ most_first result }
{
    match job {
        Job::Assemble { .. } => First::All,
        Job::Schedule { steps, .. } => First::Log { steps },
        Job::Exec { form, .. } | Job::Search { form, .. } | Job::Follow { form, .. } => {
            first_formed(form)
        }
        Job::Check { .. }
        | Job::Compile { .. }
        | Job::List { .. }
        | Job::Run { .. }
        | Job::Replay { .. }
        | Job::Explain { .. }
        | Job::Retell { .. }
        | Job::Emit { .. }
        | Job::Explore { .. }
        | Job::Fmt { .. }
        | Job::Shrink { .. } => First::Text,
    }
}

// That of an image in this form.
fn first_formed(form: ImageForm) -> First
    ensures { most_formed form ≡ most_first result }
{
    match form {
        ImageForm::Assembly => First::All,
        ImageForm::Image => First::Text,
    }
}

// The bytes of the file that a job is about.
fn first_bytes<'a, R: Files + AllocGlobal>(
    rt: &R,
    failures: &mut FileFailures,
    job: Job<'a>,
) -> Result<Vec<u8>, Failure<'a>>
    ensures read { IfOk result (λ v. IsOfFile R.File.remaining (first_most job.entry) v.items) }
    ensures failed { IfErr result (OrMemory (λ f. HaveFailed failures.new)) }
{
    match first_of(job) {
        First::Text => bytes_of(rt, failures, file_of(job)),
        First::All => front_of(rt, failures, file_of(job), ALL),
        First::Log { steps } => front_of(rt, failures, file_of(job), log_bytes(steps) + 1),
    }
}

// The bytes of a job's second file; none, where it has no such file.
fn second_bytes<'a, R: Files + AllocGlobal>(
    rt: &R,
    failures: &mut FileFailures,
    second: Second<'a>,
) -> Result<Vec<u8>, Failure<'a>>
    ensures read { IfOk result
        (λ v. IfSome (most_of second.entry) (λ most. IsOfFile R.File.remaining most v.items)) }
    ensures failed { IfErr result (OrMemory (λ f. HaveFailed failures.new)) }
{
    match second {
        Second::None => Ok(Vec::new(rt.alloc())),
        Second::Text(name) => bytes_of(rt, failures, name),
        Second::All(name) => front_of(rt, failures, name, ALL),
        Second::Log { name, steps } => front_of(rt, failures, name, log_bytes(steps) + 1),
    }
}

/// Reads a job's files and does it. What is to stand behind what it tells is appended to `told`, where hints are asked for.
/// A file that isn't read is counted.
pub fn do_job<'a, R: Files + AllocGlobal + Threads + Wait + Sync, P: Progress>(
    rt: &R,
    failures: &mut FileFailures,
    job: Job<'a>,
    told: &mut String,
    progress: &mut P,
) -> Result<Answer<'a>, NoAnswer<'a>>
    requires { HasWorkers job }
    ensures done { IfOk result (HasDoneSome (IsOfFile R.File.remaining) job.entry) }
    ensures left { IfErr result (IsLeftBy (RefusesSome (IsOfFile R.File.remaining) job.entry)
        (UnassemblesSome (IsOfFile R.File.remaining) job.entry)
        (λ f. HaveFailed failures.new ⊎ FailsSome (IsOfFile R.File.remaining) job.entry f)) }
{
    let bytes = first_bytes(rt, failures, job)?;
    let second = second_bytes(rt, failures, second_of(job))?;
    answer_job(rt, job, bytes.as_slice(), second.as_slice(), told, progress)
}

/// Does a job, with these bytes in the file that it is about, and these in the second one that it names: `second` is the
/// source text beside an image, the schedule, the log or the actions, and is not looked at where the job has no second file. It reads
/// and writes no file.
///
/// The answer has the exit status, what standard output and standard error get, and the files that are to be written.
/// What is to stand behind that on standard error is appended to `told`, where hints are asked for.
///
/// # Errors
///
/// The refusal of the text that the job is about, or of the source text beside an image. Else the failure: bytes that are
/// no image, the image of another text, or one of the first version that is to be run by Linux's rule of exits; an
/// entry of the schedule or of the log, or a line of the log, that is refused, or a log that is too long; a line that is no
/// action's, or an action that can't come next; a schedule whose run doesn't fail; a fault of the run of an image; or want of memory. Each but the last has its cause in the bytes
/// (`FailsJob`). A job on a source text that makes no run by a schedule or a log fails for want of memory alone.
pub fn answer_job<'a, R: AllocGlobal + Threads + Wait + Sync, P: Progress>(
    rt: &R,
    job: Job<'a>,
    bytes: &[u8],
    second: &[u8],
    told: &mut String,
    progress: &mut P,
) -> Result<Answer<'a>, NoAnswer<'a>>
    requires { HasWorkers job }
    ensures done { IfOk result (HasDone job.entry bytes.now second.now) }
    ensures left { IfErr result (IsLeftBy (RefusesJob job.entry bytes.now second.now)
        (UnassemblesJob job.entry bytes.now) (FailsJob job.entry bytes.now second.now)) }
{
    let text = SourceText {
        file: file_of(job),
        bytes,
        exits: exits_of(job),
        hints: asks_for_hints(&job) && !is_of_image(job),
    };
    let done = answer_of(rt, job, &text, second, told, progress);
    if let Err(left) = &done {
        tell_refused(rt.alloc(), told, &text, *left);
    }
    done
}

// The same, of the text or the image in its file.
fn answer_of<'a, R: AllocGlobal + Threads + Wait + Sync, P: Progress>(
    rt: &R,
    job: Job<'a>,
    text: &SourceText<'_>,
    second: &[u8],
    told: &mut String,
    progress: &mut P,
) -> Result<Answer<'a>, NoAnswer<'a>>
    requires workers { HasWorkers job }
    requires exits { text.now.exits ≡ exits_of job }
    ensures done { IfOk result (HasDone job.entry text.now.bytes.now second.now) }
    ensures left { IfErr result (IsLeftBy (RefusesJob job.entry text.now.bytes.now second.now)
        (UnassemblesJob job.entry text.now.bytes.now)
        (FailsJob job.entry text.now.bytes.now second.now)) }
{
    let alloc = rt.alloc();
    match job {
        Job::Check { .. } => answer_check(alloc, text),
        Job::Compile {
            out,
            workers,
            version,
            ..
        } => answer_compile(rt, text, out, version, workers),
        Job::List {
            linux,
            source,
            hints,
            ..
        } => answer_list(alloc, text, linux, source, second, hints, told),
        Job::Run { options, page, .. } => answer_run(rt, text, options, page, told),
        Job::Exec { form, options, .. } => answer_exec(rt, text, form, options),
        Job::Replay {
            by,
            trace,
            page,
            ..
        } => answer_replay(alloc, text, second, by, trace, page, told),
        Job::Explain {
            by,
            chart,
            timeline,
            page,
            places,
            ..
        } => {
            let drawings = Drawings {
                chart,
                timeline,
                page,
            };
            answer_explain(alloc, text, second, by, drawings, places, told)
        }
        Job::Retell {
            actions,
            chart,
            timeline,
            page,
            places,
            ..
        } => {
            let drawings = Drawings {
                chart,
                timeline,
                page,
            };
            answer_retell(alloc, text, second, actions, drawings, places, told)
        }
        Job::Emit { out, .. } => answer_emit(alloc, text, out),
        Job::Assemble { out, .. } => answer_assemble(alloc, text, out),
        Job::Fmt { check, .. } => answer_fmt(alloc, text, check),
        Job::Schedule { out, steps, .. } => answer_schedule(alloc, text.bytes, steps, out),
        Job::Shrink { out, .. } => answer_shrink(alloc, text, second, out, told),
        Job::Follow {
            form,
            by,
            trace,
            ..
        } => answer_follow(alloc, text, second, form, by, trace),
        Job::Search {
            form,
            states,
            strays,
            kills,
            files,
            ..
        } => {
            let outside = ImageOutside { strays, kills };
            answer_search(alloc, text, form, states, outside, files, told, progress)
        }
        Job::Explore {
            states,
            strays,
            kills,
            ends,
            chart,
            timeline,
            page,
            schedule,
            actions,
            places,
            ..
        } => {
            let drawings = Drawings {
                chart,
                timeline,
                page,
            };
            let written = FoundFiles { schedule, actions };
            let searched = Searched {
                states,
                outside: Outside { strays, kills },
                asked: Asked { ends },
            };
            answer_explore(
                alloc, text, searched, drawings, written, places, told, progress,
            )
        }
    }
}
