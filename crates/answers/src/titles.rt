// What stands above the picture of a run: the file, which run it is, and how it ended.

use action_text::RunEnd;
use commandline::ExplainedBy;
use run_hints::Way;
use runner::Verdict;
use std::alloc::{AllocError, Global};

// How a run ended.
fn end_of(verdict: Verdict) -> &'static str {
    match verdict {
        Verdict::Done => "all processes ended",
        Verdict::Stuck => "stuck",
        Verdict::Limit => "not at its end",
    }
}

// Appends which seed a run goes by, and what comes from outside in it.
fn append_seed(
    out: &mut String,
    seed: u64,
    strays: Option<u32>,
    kills: u32,
) -> Result<(), AllocError> {
    write!(out, "seed {seed}")?;
    if let Some(strays) = strays {
        write!(out, ", strays {strays}")?;
    }
    if kills > 0 {
        write!(out, ", kills {kills}")?;
    }
    Ok(())
}

// Appends which run is explained.
fn append_way(out: &mut String, by: ExplainedBy<'_>) -> Result<(), AllocError> {
    match by {
        ExplainedBy::Order { .. } => out.push_str("in order"),
        ExplainedBy::Seed {
            seed,
            strays,
            kills,
            ..
        } => append_seed(out, seed, strays, kills),
        ExplainedBy::Schedule(name) => write!(out, "schedule {name}"),
        ExplainedBy::Log { log: name, .. } => write!(out, "log {name}"),
    }
}

/// The title of a run that was explained.
///
/// # Errors
///
/// Where memory runs out, and for nothing else.
pub(crate) fn title_of(
    alloc: Global,
    file: &str,
    by: ExplainedBy<'_>,
    verdict: Verdict,
) -> Result<String, AllocError> {
    let mut title = String::new(alloc);
    write!(title, "{file}: ")?;
    append_way(&mut title, by)?;
    title.push_str(", ")?;
    title.push_str(end_of(verdict))?;
    Ok(title)
}

// Appends which run was made.
fn append_run_way(out: &mut String, way: Way<'_>) -> Result<(), AllocError> {
    match way {
        Way::Workers(_) => out.push_str("a run"),
        Way::InOrder => out.push_str("in order"),
        Way::Seed(seed, strays) => append_seed(out, seed, strays, 0),
        Way::Schedule(name) => write!(out, "schedule {name}"),
        Way::Log(name) => write!(out, "log {name}"),
    }
}

/// The title of a run that was made.
///
/// # Errors
///
/// Where memory runs out, and for nothing else.
pub(crate) fn title_of_run(
    alloc: Global,
    file: &str,
    way: Way<'_>,
    verdict: Verdict,
) -> Result<String, AllocError> {
    let mut title = String::new(alloc);
    write!(title, "{file}: ")?;
    append_run_way(&mut title, way)?;
    title.push_str(", ")?;
    title.push_str(end_of(verdict))?;
    Ok(title)
}

/// The title of a run that a search found, which ends so.
///
/// # Errors
///
/// Where memory runs out, and for nothing else.
pub(crate) fn title_of_found(alloc: Global, file: &str, end: &str) -> Result<String, AllocError> {
    let mut title = String::new(alloc);
    write!(title, "{file}: found by a search, ")?;
    title.push_str(end)?;
    Ok(title)
}

// How a run ended whose actions stand in a file.
fn end_of_actions(end: RunEnd) -> &'static str {
    match end {
        RunEnd::Over => end_of(Verdict::Done),
        RunEnd::Stuck => end_of(Verdict::Stuck),
        RunEnd::Open => end_of(Verdict::Limit),
    }
}

/// The title of a run whose actions stand in the file of this name.
///
/// # Errors
///
/// Where memory runs out, and for nothing else.
pub(crate) fn title_of_actions(
    alloc: Global,
    file: &str,
    name: &str,
    end: RunEnd,
) -> Result<String, AllocError> {
    let mut title = String::new(alloc);
    write!(title, "{file}: actions {name}, ")?;
    title.push_str(end_of_actions(end))?;
    Ok(title)
}
