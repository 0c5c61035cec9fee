ghost use Rattle.std.specs.Prelude.{IfOk, IfErr, IfSome, None, Some, codes, true, map, ◌≡◌};
ghost use Rattle.clap.specs.Words.{app_of, found_of, kind_of, subcommand_rows_of, takes};
ghost use Rattle.clap.specs.Walk.{rows_of};
ghost use Rattle.clap.specs.declared.error.kind.ErrorKind.TheVariants.{OutOfMemory};
ghost use Rattle.commandline.specs.CommandLine.{AreInOrder, AsksFor, IsAskedBy, IsCheckOf, IsCompileOf, IsEmitOf, IsExplainOf, IsListOf};
ghost use Rattle.commandline.specs.CommandLine.{IsAssembleOf, IsExploreOf, IsFmtOf, IsScheduleOf, IsShrinkOf, ReadsForm};
ghost use Rattle.commandline.specs.CommandLine.{AsksForExec, AsksForReplay, AsksForRun, command_line};
ghost use Rattle.commandline.specs.CommandLine.{is_written as stands};
ghost use Rattle.commandline.specs.declared.job.Job.{Job as JobOf};

use crate::builder::command;
use crate::fault::WordsFault;
use crate::options::{
    ChartOptions, Exits, ExplainedBy, ImageForm, ReplayedBy, RunOptions, SearchFiles,
};
use crate::refusing::refusal_of;
use crate::sources::{
    exits_of, explained_by, form_of, image_form_of, linux_of, names_run, replayed_by,
    replays_source, search_files_of, searches_source,
};
use crate::values::{
    chart_of, is_written, kills_of, options_of, states_of, steps_of, version_of, workers_of,
};
use clap::{ArgMatches, Command, Error};
use std::alloc::Global;
use words::ImageVersion;

/// What a command line asks for.
#[derive(Clone, Copy)]
pub enum Job<'a> {
    /// Check the source text of a file.
    Check {
        /// The name of the source text's file.
        file: &'a str,
        /// Whether hints stand behind a refusal of the source text.
        hints: bool,
    },
    /// Compile the source text of a file, and write the image to another.
    Compile {
        /// The name of the source text's file.
        file: &'a str,
        /// The name of the image's file.
        out: &'a str,
        /// How many workers make the code, from 1 to 64.
        workers: u32,
        /// The version of the image.
        version: ImageVersion,
        /// Whether hints stand behind a refusal of the source text.
        hints: bool,
    },
    /// Print the instructions of an image, or those of a source text's code for Linux.
    List {
        /// The name of the file of the image or the source text.
        image: &'a str,
        /// Whether it is a source text.
        linux: bool,
        /// The name of the file of the source text whose image it is, where its lines stand between the instructions.
        source: Option<&'a str>,
        /// Whether hints stand behind a refusal of the source text.
        hints: bool,
    },
    /// Run the source text of a file.
    Run {
        /// The name of the source text's file.
        file: &'a str,
        /// By whose rule the exits of its threads wake.
        exits: Exits,
        /// How it goes.
        options: RunOptions<'a>,
        /// The name of the page's file, where one is wanted.
        page: Option<&'a str>,
        /// Whether hints stand behind what is told.
        hints: bool,
    },
    /// Run an image.
    Exec {
        /// The name of the file of the image or the assembly text.
        image: &'a str,
        /// Which of the two it is.
        form: ImageForm,
        /// By whose rule the exits of its threads wake.
        exits: Exits,
        /// How it goes.
        options: RunOptions<'a>,
    },
    /// Run the source text of a file by a schedule or by the threads and counts of a log, and show the log where that is
    /// wanted.
    Replay {
        /// The name of the source text's file.
        file: &'a str,
        /// By whose rule the exits of its threads wake.
        exits: Exits,
        /// What it goes by.
        by: ReplayedBy<'a>,
        /// Whether the log is shown.
        trace: bool,
        /// The name of the page's file, where one is wanted.
        page: Option<&'a str>,
        /// Whether hints stand behind what is told.
        hints: bool,
    },
    /// Print the source actions that a run of the source text of a file is, and draw and time them where that is wanted.
    Explain {
        /// The name of the source text's file.
        file: &'a str,
        /// By whose rule the exits of its threads wake.
        exits: Exits,
        /// Which run it is.
        by: ExplainedBy<'a>,
        /// The picture of it, where one is wanted.
        chart: Option<ChartOptions<'a>>,
        /// The name of the timeline's file, where one is wanted.
        timeline: Option<&'a str>,
        /// The name of the page's file, where one is wanted.
        page: Option<&'a str>,
        /// Whether each action goes on with its place.
        places: bool,
        /// Whether hints stand behind what is told.
        hints: bool,
    },
    /// Print the run of the source text of a file whose actions stand in another file, and draw and time it where that is
    /// wanted.
    Retell {
        /// The name of the source text's file.
        file: &'a str,
        /// By whose rule the exits of its image's threads wake.
        exits: Exits,
        /// The name of the file of the actions.
        actions: &'a str,
        /// The picture of it, where one is wanted.
        chart: Option<ChartOptions<'a>>,
        /// The name of the timeline's file, where one is wanted.
        timeline: Option<&'a str>,
        /// The name of the page's file, where one is wanted.
        page: Option<&'a str>,
        /// Whether each action goes on with its place.
        places: bool,
        /// Whether hints stand behind what is told.
        hints: bool,
    },
    /// Write the program of a file as one in C.
    Emit {
        /// The name of the source text's file.
        file: &'a str,
        /// The name of the C file.
        out: &'a str,
        /// Whether hints stand behind a refusal of the source text.
        hints: bool,
    },
    /// Search all runs of the source text of a file for one that gets stuck, and for one in which a process aborts; print
    /// what is found, and draw and time it where that is wanted.
    Explore {
        /// The name of the source text's file.
        file: &'a str,
        /// By whose rule the exits of its image's threads wake.
        exits: Exits,
        /// The most states that are kept.
        states: u32,
        /// Whether the runs with stray wakes are searched too.
        strays: bool,
        /// How many processes may be killed in a run that is searched, at most.
        kills: u32,
        /// Whether it is told too whether each run can end.
        ends: bool,
        /// The picture of it, where one is wanted.
        chart: Option<ChartOptions<'a>>,
        /// The name of the timeline's file, where one is wanted.
        timeline: Option<&'a str>,
        /// The name of the page's file, where one is wanted.
        page: Option<&'a str>,
        /// The name of the file of a schedule by which the text's image goes there, where one is wanted.
        schedule: Option<&'a str>,
        /// The name of the file of the actions of the run that was found, where one is wanted.
        actions: Option<&'a str>,
        /// Whether each action goes on with its place.
        places: bool,
        /// Whether hints stand behind a refusal of the source text.
        hints: bool,
    },
    /// Search all schedules of an image for one that gets stuck, for a thread that fails, and for a step that may not be;
    /// print what is found, and write a schedule that leads there, draw it and time it where that is wanted.
    Search {
        /// The name of the file of the image or the assembly text.
        file: &'a str,
        /// Which of the two it is.
        form: ImageForm,
        /// By whose rule the exits of its threads wake.
        exits: Exits,
        /// The most states that are kept.
        states: u32,
        /// Whether the schedules with stray wakes are searched too.
        strays: bool,
        /// How many threads may be killed in a schedule that is searched, at most.
        kills: u32,
        /// The files that show what is found.
        files: SearchFiles<'a>,
        /// Whether hints stand behind a refusal of the text.
        hints: bool,
    },
    /// Run an image by a schedule or by the threads and counts of a log, and show the log where that is wanted.
    Follow {
        /// The name of the file of the image or the assembly text.
        file: &'a str,
        /// Which of the two it is.
        form: ImageForm,
        /// By whose rule the exits of its threads wake.
        exits: Exits,
        /// What it goes by.
        by: ReplayedBy<'a>,
        /// Whether the log is shown.
        trace: bool,
        /// Whether hints stand behind a refusal of the text.
        hints: bool,
    },
    /// Assemble the text of a file, and write the image to another.
    Assemble {
        /// The name of the assembly text's file.
        file: &'a str,
        /// The name of the image's file.
        out: &'a str,
        /// Whether hints stand behind a refusal of the text.
        hints: bool,
    },
    /// Lay the source text of a file out, or say whether it is laid out.
    Fmt {
        /// The name of the source text's file.
        file: &'a str,
        /// Whether it is only looked at.
        check: bool,
        /// Whether hints stand behind a refusal of the source text.
        hints: bool,
    },
    /// Write the schedule of a log.
    Schedule {
        /// The name of the log's file.
        log: &'a str,
        /// The name of the schedule's file.
        out: &'a str,
        /// The most steps that the log may have.
        steps: u32,
        /// Whether hints stand behind what is told.
        hints: bool,
    },
    /// Make a schedule short by which the run of a source text fails.
    Shrink {
        /// The name of the source text's file.
        file: &'a str,
        /// By whose rule the exits of its threads wake.
        exits: Exits,
        /// The name of the schedule's file.
        schedule: &'a str,
        /// The name of the file that the short one is written to.
        out: &'a str,
        /// Whether hints stand behind what is told.
        hints: bool,
    },
}

/// The job that the words of a command line ask for, those after the program's name.
///
/// Words that are taken and ask for a job are refused for want of memory alone.
pub fn line<'a>(alloc: Global, words: &'a [&'a str]) -> Result<Job<'a>, WordsFault>
    ensures job { IfOk result (AsksFor (map (λ w. w.now) words.now)) }
    ensures taken { IfOk result (λ job. AreInOrder (map (λ w. w.now) words.now)) }
    ensures only { (job : JobOf) → takes command_line (map (λ w. w.now) words.now) ≡ true
        → AsksFor (map (λ w. w.now) words.now) job → IfErr result (λ e. e ≡ WordsFault.Memory) }
{
    parse(alloc, words).map_err(|error| WordsFault::of_error(alloc, &error))
}

fn parse<'a>(alloc: Global, words: &'a [&'a str]) -> Result<Job<'a>, Error>
    ensures job { IfOk result (AsksFor (map (λ w. w.now) words.now)) }
    ensures taken { IfOk result (λ job. AreInOrder (map (λ w. w.now) words.now)) }
    ensures only { (job : JobOf) → takes command_line (map (λ w. w.now) words.now) ≡ true
        → AsksFor (map (λ w. w.now) words.now) job
        → IfErr result (λ e. kind_of e ≡ OutOfMemory) }
{
    let mut command = command(alloc)?;
    parse_by(alloc, &mut command, words)
}

// The job that the words of this command ask for.
fn parse_by<'a>(
    alloc: Global,
    command: &mut Command<'a>,
    words: &'a [&'a str],
) -> Result<Job<'a>, Error>
    requires { app_of command.old ≡ command_line }
    ensures job { IfOk result (AsksFor (map (λ w. w.now) words.now)) }
    ensures taken { IfOk result (λ job. AreInOrder (map (λ w. w.now) words.now)) }
    ensures only { (job : JobOf) → takes command_line (map (λ w. w.now) words.now) ≡ true
        → AsksFor (map (λ w. w.now) words.now) job
        → IfErr result (λ e. kind_of e ≡ OutOfMemory) }
{
    let matches = command.try_get_matches_from_mut(words)?;
    match job_of(&matches) {
        Some(job) => Ok(job),
        None => Err(refusal_of(alloc, command, &matches)),
    }
}

// What the matches ask for.
fn job_of<'a>(matches: &ArgMatches<'a>) -> Option<Job<'a>>
    ensures job { IfSome result (IsAskedBy (subcommand_rows_of matches.now)) }
    ensures none { result ≡ None → (job : JobOf) → IsAskedBy (subcommand_rows_of matches.now) job
        → ⊥ }
{
    let (name, inner) = matches.subcommand()?;
    match name {
        "check" => check_of(inner),
        "compile" => compile_of(inner),
        "list" => list_of(inner),
        "run" => run_of(inner),
        "exec" => exec_of(inner),
        "replay" => replay_of(inner),
        "explain" => explain_of(inner),
        "emit" => emit_of(inner),
        "explore" => explore_of(inner),
        "assemble" => assemble_of(inner),
        "fmt" => fmt_of(inner),
        "schedule" => schedule_of(inner),
        "shrink" => shrink_of(inner),
        _ => None,
    }
}

fn check_of<'a>(matches: &ArgMatches<'a>) -> Option<Job<'a>>
    ensures job { IfSome result (IsCheckOf (rows_of (found_of matches.now))) }
    ensures none { result ≡ None → (job : JobOf) → IsCheckOf (rows_of (found_of matches.now)) job
        → ⊥ }
{
    let file = matches.get_str("FILE")?;
    let hints = matches.get_flag("hints");
    Some(Job::Check { file, hints })
}

fn compile_of<'a>(matches: &ArgMatches<'a>) -> Option<Job<'a>>
    ensures job { IfSome result (IsCompileOf (rows_of (found_of matches.now))) }
    ensures none { result ≡ None → (job : JobOf) → IsCompileOf (rows_of (found_of matches.now)) job
        → ⊥ }
{
    let file = matches.get_str("FILE")?;
    let out = matches.get_str("OUT")?;
    let workers = workers_of(matches)?;
    let version = version_of(matches)?;
    let hints = matches.get_flag("hints");
    Some(Job::Compile {
        file,
        out,
        workers,
        version,
        hints,
    })
}

fn list_of<'a>(matches: &ArgMatches<'a>) -> Option<Job<'a>>
    ensures job { IfSome result (IsListOf (rows_of (found_of matches.now))) }
    ensures none { result ≡ None → (job : JobOf) → IsListOf (rows_of (found_of matches.now)) job
        → ⊥ }
{
    let image = matches.get_str("IMAGE")?;
    let linux = matches.get_flag("linux");
    let source = matches.get_str("source");
    let hints = matches.get_flag("hints");
    Some(Job::List {
        image,
        linux,
        source,
        hints,
    })
}

fn run_of<'a>(matches: &ArgMatches<'a>) -> Option<Job<'a>>
    ensures job { IfSome result (AsksForRun (rows_of (found_of matches.now))) }
    ensures none { result ≡ None → (job : JobOf) → AsksForRun (rows_of (found_of matches.now)) job
        → ⊥ }
{
    let file = matches.get_str("FILE")?;
    let exits = linux_of(matches);
    let options = options_of(matches)?;
    let page = matches.get_str("page");
    let hints = matches.get_flag("hints");
    Some(Job::Run {
        file,
        exits,
        options,
        page,
        hints,
    })
}

fn exec_of<'a>(matches: &ArgMatches<'a>) -> Option<Job<'a>>
    ensures job { IfSome result (AsksForExec (rows_of (found_of matches.now))) }
    ensures none { result ≡ None → (job : JobOf) → AsksForExec (rows_of (found_of matches.now)) job
        → ⊥ }
{
    let image = matches.get_str("IMAGE")?;
    let form = image_form_of(matches);
    let exits = exits_of(matches)?;
    let options = options_of(matches)?;
    Some(Job::Exec {
        image,
        form,
        exits,
        options,
    })
}

fn replay_of<'a>(matches: &ArgMatches<'a>) -> Option<Job<'a>>
    ensures job { IfSome result (AsksForReplay (rows_of (found_of matches.now))) }
    ensures none { result ≡ None → (job : JobOf)
        → AsksForReplay (rows_of (found_of matches.now)) job → ⊥ }
{
    match form_of(matches)? {
        None => replayed_of(matches),
        Some(form) => follow_of(matches, form),
    }
}

// A source text that is run again.
fn replayed_of<'a>(matches: &ArgMatches<'a>) -> Option<Job<'a>>
    requires { ReadsForm (rows_of (found_of matches.now)) None }
    ensures job { IfSome result (AsksForReplay (rows_of (found_of matches.now))) }
    ensures none { result ≡ None → (job : JobOf)
        → AsksForReplay (rows_of (found_of matches.now)) job → ⊥ }
{
    if is_written(matches, "exits") {
        return None;
    }
    let file = matches.get_str("FILE")?;
    let exits = linux_of(matches);
    let by = replayed_by(matches)?;
    let trace = matches.get_flag("trace");
    let page = matches.get_str("page");
    let hints = matches.get_flag("hints");
    Some(Job::Replay {
        file,
        exits,
        by,
        trace,
        page,
        hints,
    })
}

// An image that is run again.
fn follow_of<'a>(matches: &ArgMatches<'a>, form: ImageForm) -> Option<Job<'a>>
    requires { ReadsForm (rows_of (found_of matches.now)) (Some form) }
    ensures job { IfSome result (AsksForReplay (rows_of (found_of matches.now))) }
    ensures none { result ≡ None → (job : JobOf)
        → AsksForReplay (rows_of (found_of matches.now)) job → ⊥ }
{
    if replays_source(matches) {
        return None;
    }
    let file = matches.get_str("FILE")?;
    let exits = exits_of(matches)?;
    let by = replayed_by(matches)?;
    let trace = matches.get_flag("trace");
    let hints = matches.get_flag("hints");
    Some(Job::Follow {
        file,
        form,
        exits,
        by,
        trace,
        hints,
    })
}

fn explain_of<'a>(matches: &ArgMatches<'a>) -> Option<Job<'a>>
    ensures job { IfSome result (IsExplainOf (rows_of (found_of matches.now))) }
    ensures none { result ≡ None → (job : JobOf) → IsExplainOf (rows_of (found_of matches.now)) job
        → ⊥ }
{
    if is_written(matches, "actions") {
        return retold_of(matches);
    }
    let file = matches.get_str("FILE")?;
    let exits = linux_of(matches);
    let by = explained_by(matches)?;
    let chart = chart_of(matches)?;
    let timeline = matches.get_str("timeline");
    let page = matches.get_str("page");
    let places = matches.get_flag("places");
    let hints = matches.get_flag("hints");
    Some(Job::Explain {
        file,
        exits,
        by,
        chart,
        timeline,
        page,
        places,
        hints,
    })
}

// A run whose actions stand in a file.
fn retold_of<'a>(matches: &ArgMatches<'a>) -> Option<Job<'a>>
    requires { stands (codes "actions") (rows_of (found_of matches.now)) ≡ true }
    ensures job { IfSome result (IsExplainOf (rows_of (found_of matches.now))) }
    ensures none { result ≡ None → (job : JobOf) → IsExplainOf (rows_of (found_of matches.now)) job
        → ⊥ }
{
    if names_run(matches) {
        return None;
    }
    let file = matches.get_str("FILE")?;
    let exits = linux_of(matches);
    let actions = matches.get_str("actions")?;
    let chart = chart_of(matches)?;
    let timeline = matches.get_str("timeline");
    let page = matches.get_str("page");
    let places = matches.get_flag("places");
    let hints = matches.get_flag("hints");
    Some(Job::Retell {
        file,
        exits,
        actions,
        chart,
        timeline,
        page,
        places,
        hints,
    })
}

fn emit_of<'a>(matches: &ArgMatches<'a>) -> Option<Job<'a>>
    ensures job { IfSome result (IsEmitOf (rows_of (found_of matches.now))) }
    ensures none { result ≡ None → (job : JobOf) → IsEmitOf (rows_of (found_of matches.now)) job
        → ⊥ }
{
    let file = matches.get_str("FILE")?;
    let out = matches.get_str("OUT")?;
    let hints = matches.get_flag("hints");
    Some(Job::Emit { file, out, hints })
}

fn explore_of<'a>(matches: &ArgMatches<'a>) -> Option<Job<'a>>
    ensures job { IfSome result (IsExploreOf (rows_of (found_of matches.now))) }
    ensures none { result ≡ None → (job : JobOf) → IsExploreOf (rows_of (found_of matches.now)) job
        → ⊥ }
{
    match form_of(matches)? {
        None => explored_of(matches),
        Some(form) => search_of(matches, form),
    }
}

// A source text all runs of which are searched.
fn explored_of<'a>(matches: &ArgMatches<'a>) -> Option<Job<'a>>
    requires { ReadsForm (rows_of (found_of matches.now)) None }
    ensures job { IfSome result (IsExploreOf (rows_of (found_of matches.now))) }
    ensures none { result ≡ None → (job : JobOf) → IsExploreOf (rows_of (found_of matches.now)) job
        → ⊥ }
{
    if is_written(matches, "exits") {
        return None;
    }
    let file = matches.get_str("FILE")?;
    let exits = linux_of(matches);
    let states = states_of(matches)?;
    let strays = matches.get_flag("strays");
    let kills = kills_of(matches)?;
    let ends = matches.get_flag("ends");
    let chart = chart_of(matches)?;
    let timeline = matches.get_str("timeline");
    let page = matches.get_str("page");
    let schedule = matches.get_str("schedule");
    let actions = matches.get_str("actions");
    let places = matches.get_flag("places");
    let hints = matches.get_flag("hints");
    Some(Job::Explore {
        file,
        exits,
        states,
        strays,
        kills,
        ends,
        chart,
        timeline,
        page,
        schedule,
        actions,
        places,
        hints,
    })
}

// An image all schedules of which are searched.
fn search_of<'a>(matches: &ArgMatches<'a>, form: ImageForm) -> Option<Job<'a>>
    requires { ReadsForm (rows_of (found_of matches.now)) (Some form) }
    ensures job { IfSome result (IsExploreOf (rows_of (found_of matches.now))) }
    ensures none { result ≡ None → (job : JobOf) → IsExploreOf (rows_of (found_of matches.now)) job
        → ⊥ }
{
    if searches_source(matches) {
        return None;
    }
    let file = matches.get_str("FILE")?;
    let exits = exits_of(matches)?;
    let states = states_of(matches)?;
    let strays = matches.get_flag("strays");
    let kills = kills_of(matches)?;
    let files = search_files_of(matches);
    let hints = matches.get_flag("hints");
    Some(Job::Search {
        file,
        form,
        exits,
        states,
        strays,
        kills,
        files,
        hints,
    })
}

fn fmt_of<'a>(matches: &ArgMatches<'a>) -> Option<Job<'a>>
    ensures job { IfSome result (IsFmtOf (rows_of (found_of matches.now))) }
    ensures none { result ≡ None → (job : JobOf) → IsFmtOf (rows_of (found_of matches.now)) job
        → ⊥ }
{
    let file = matches.get_str("FILE")?;
    let check = matches.get_flag("check");
    let hints = matches.get_flag("hints");
    Some(Job::Fmt { file, check, hints })
}

fn assemble_of<'a>(matches: &ArgMatches<'a>) -> Option<Job<'a>>
    ensures job { IfSome result (IsAssembleOf (rows_of (found_of matches.now))) }
    ensures none { result ≡ None → (job : JobOf) → IsAssembleOf (rows_of (found_of matches.now)) job
        → ⊥ }
{
    let file = matches.get_str("FILE")?;
    let out = matches.get_str("OUT")?;
    let hints = matches.get_flag("hints");
    Some(Job::Assemble { file, out, hints })
}

fn schedule_of<'a>(matches: &ArgMatches<'a>) -> Option<Job<'a>>
    ensures job { IfSome result (IsScheduleOf (rows_of (found_of matches.now))) }
    ensures none { result ≡ None → (job : JobOf) → IsScheduleOf (rows_of (found_of matches.now)) job
        → ⊥ }
{
    let log = matches.get_str("LOG")?;
    let out = matches.get_str("OUT")?;
    let steps = steps_of(matches)?;
    let hints = matches.get_flag("hints");
    Some(Job::Schedule {
        log,
        out,
        steps,
        hints,
    })
}

fn shrink_of<'a>(matches: &ArgMatches<'a>) -> Option<Job<'a>>
    ensures job { IfSome result (IsShrinkOf (rows_of (found_of matches.now))) }
    ensures none { result ≡ None → (job : JobOf) → IsShrinkOf (rows_of (found_of matches.now)) job
        → ⊥ }
{
    let file = matches.get_str("FILE")?;
    let exits = linux_of(matches);
    let schedule = matches.get_str("SCHEDULE")?;
    let out = matches.get_str("OUT")?;
    let hints = matches.get_flag("hints");
    Some(Job::Shrink {
        file,
        exits,
        schedule,
        out,
        hints,
    })
}
