ghost use Rattle.std.specs.Prelude.{◌≡◌};
ghost use Rattle.answers.specs.Answers.{out_of};
ghost use Rattle.mesamon.specs.Overwriting.{draws_over, finds_over, is_one_of, is_same, is_twice, overwrites, read_by, replay_overwrites};

use commandline::{ChartOptions, ExplainedBy, Job, ReplayedBy};

// Whether two names of files are one.
fn is_same(a: Option<&str>, b: Option<&str>) -> bool
    ensures { result ≡ is_same a.entry b.entry }
{
    match (a, b) {
        (Some(a), Some(b)) => a == b,
        _ => false,
    }
}

// Whether a file that is written is read too, or is written twice.
fn is_twice(
    read: Option<&str>,
    also_read: Option<&str>,
    written: Option<&str>,
    also_written: Option<&str>,
) -> bool
    ensures { result ≡ is_twice read.entry also_read.entry written.entry also_written.entry }
{
    is_same(written, also_written)
        || is_same(written, read)
        || is_same(written, also_read)
        || is_same(also_written, read)
        || is_same(also_written, also_read)
}

// The same of three files that are written.
fn draws_over(
    read: Option<&str>,
    also_read: Option<&str>,
    chart: Option<&str>,
    timeline: Option<&str>,
    page: Option<&str>,
) -> bool
    ensures { result
        ≡ draws_over read.entry also_read.entry chart.entry timeline.entry page.entry }
{
    is_twice(read, also_read, chart, timeline)
        || is_twice(read, also_read, chart, page)
        || is_same(timeline, page)
}

// Whether a file is one of these four.
fn is_one_of(
    name: Option<&str>,
    first: Option<&str>,
    second: Option<&str>,
    third: Option<&str>,
    fourth: Option<&str>,
) -> bool
    ensures { result
        ≡ is_one_of name.entry first.entry second.entry third.entry fourth.entry }
{
    is_same(name, first) || is_same(name, second) || is_same(name, third) || is_same(name, fourth)
}

// The same of what shows a run of the text in a file: its picture, its timeline, its page, a schedule and its actions.
fn finds_over(
    file: &str,
    chart: Option<&str>,
    timeline: Option<&str>,
    page: Option<&str>,
    schedule: Option<&str>,
    actions: Option<&str>,
) -> bool
    ensures { result ≡ finds_over file.entry chart.entry timeline.entry page.entry schedule.entry
        actions.entry }
{
    draws_over(Some(file), None, chart, timeline, page)
        || is_one_of(schedule, Some(file), chart, timeline, page)
        || is_one_of(actions, Some(file), chart, timeline, page)
        || is_same(actions, schedule)
}

// The file of a picture.
fn out_of<'a>(chart: Option<ChartOptions<'a>>) -> Option<&'a str>
    ensures { result ≡ out_of chart.entry }
{
    match chart {
        Some(options) => Some(options.out),
        None => None,
    }
}

// The file that says which run is explained.
fn read_by<'a>(by: ExplainedBy<'a>) -> Option<&'a str>
    ensures { result ≡ read_by by.entry }
{
    match by {
        ExplainedBy::Schedule(name) | ExplainedBy::Log { log: name, .. } => Some(name),
        ExplainedBy::Order { .. } | ExplainedBy::Seed { .. } => None,
    }
}

/// Whether a job would write a file that it reads, or one file twice, by the names that it has for them.
pub fn overwrites(job: &Job<'_>) -> bool
    ensures { result ≡ overwrites job.now }
{
    match *job {
        Job::Check { .. } | Job::List { .. } | Job::Fmt { .. } => false,
        Job::Compile { file, out, .. } => is_twice(Some(file), None, Some(out), None),
        Job::Emit { file, out, .. } => is_twice(Some(file), None, Some(out), None),
        Job::Run {
            file,
            options,
            page,
            ..
        } => is_twice(Some(file), None, options.log, page),
        Job::Assemble { file, out, .. } => is_twice(Some(file), None, Some(out), None),
        Job::Schedule { log, out, .. } => is_twice(Some(log), None, Some(out), None),
        Job::Shrink {
            file,
            schedule,
            out,
            ..
        } => is_twice(Some(file), Some(schedule), Some(out), None),
        Job::Search { file, files, .. } => {
            draws_over(
                Some(file),
                None,
                files.chart,
                files.timeline,
                files.schedule,
            )
        }
        Job::Follow { file, by, .. } => replay_overwrites(file, by, None),
        Job::Exec { image, options, .. } => is_twice(Some(image), None, options.log, None),
        Job::Replay { file, by, page, .. } => replay_overwrites(file, by, page),
        Job::Explain {
            file,
            by,
            chart,
            timeline,
            page,
            ..
        } => draws_over(Some(file), read_by(by), out_of(chart), timeline, page),
        Job::Explore {
            file,
            chart,
            timeline,
            page,
            schedule,
            actions,
            ..
        } => finds_over(file, out_of(chart), timeline, page, schedule, actions),
        Job::Retell {
            file,
            actions,
            chart,
            timeline,
            page,
            ..
        } => draws_over(Some(file), Some(actions), out_of(chart), timeline, page),
    }
}

// The same of a replay.
fn replay_overwrites(file: &str, by: ReplayedBy<'_>, page: Option<&str>) -> bool
    ensures { result ≡ replay_overwrites file.entry by.entry page.entry }
{
    match by {
        ReplayedBy::Schedule { schedule, log } => is_twice(Some(file), Some(schedule), log, page),
        ReplayedBy::Log { log, .. } => is_twice(Some(file), Some(log), page, None),
    }
}
