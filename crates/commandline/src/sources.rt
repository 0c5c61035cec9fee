ghost use Rattle.std.specs.Prelude.{IfSome, None, Option as OptionOf, Some, [], ◌∷◌, codes, true, false, ◌≡◌};
ghost use Rattle.clap.specs.Words.{first_of, found_of};
ghost use Rattle.clap.specs.Walk.{rows_of};
ghost use Rattle.commandline.specs.CommandLine.{IsExplainedBy, IsReplayedBy, ReadsForm, ReadsImageForm, has_any, of_runs, of_source};
ghost use Rattle.commandline.specs.CommandLine.{IsExits, ReadsExits, ReadsLinux, ReadsSearchFiles};
ghost use Rattle.commandline.specs.CommandLine.{is_written as stands};
ghost use Rattle.commandline.specs.declared.options.Exits.{Exits as ExitsOf};
ghost use Rattle.commandline.specs.declared.options.ExplainedBy.{ExplainedBy as Explained};
ghost use Rattle.commandline.specs.declared.options.ImageForm.{ImageForm as FormOf};
ghost use Rattle.commandline.specs.declared.options.ReplayedBy.{ReplayedBy as Replayed};

use crate::options::{Exits, ExplainedBy, ImageForm, ReplayedBy, SearchFiles};
use crate::values::{is_written, kills_of, names_outside, seed_of, steps_of, strays_of};
use clap::ArgMatches;

/// What a replay goes by: a schedule, beside which a log is written, or else a log.
pub fn replayed_by<'a>(matches: &ArgMatches<'a>) -> Option<ReplayedBy<'a>>
    ensures by { IfSome result (IsReplayedBy (rows_of (found_of matches.now))) }
    ensures none { result ≡ None → (r : Replayed)
        → IsReplayedBy (rows_of (found_of matches.now)) r → ⊥ }
{
    match matches.get_str("SCHEDULE") {
        Some(schedule) => replayed_by_schedule(matches, schedule),
        None => replayed_by_log(matches),
    }
}

// A schedule has its own end, so no limit of steps stands beside it.
fn replayed_by_schedule<'a>(matches: &ArgMatches<'a>, schedule: &'a str) -> Option<ReplayedBy<'a>>
    requires { first_of (codes "SCHEDULE") (rows_of (found_of matches.now)) ≡ Some schedule.now }
    ensures by { IfSome result (IsReplayedBy (rows_of (found_of matches.now))) }
    ensures none { result ≡ None → (r : Replayed)
        → IsReplayedBy (rows_of (found_of matches.now)) r → ⊥ }
{
    if is_written(matches, "steps") {
        return None;
    }
    let log = matches.get_str("log");
    Some(ReplayedBy::Schedule { schedule, log })
}

// A log of at most so many steps.
fn replayed_by_log<'a>(matches: &ArgMatches<'a>) -> Option<ReplayedBy<'a>>
    requires { first_of (codes "SCHEDULE") (rows_of (found_of matches.now)) ≡ None }
    ensures by { IfSome result (IsReplayedBy (rows_of (found_of matches.now))) }
    ensures none { result ≡ None → (r : Replayed)
        → IsReplayedBy (rows_of (found_of matches.now)) r → ⊥ }
{
    let log = matches.get_str("log")?;
    let steps = steps_of(matches)?;
    Some(ReplayedBy::Log { log, steps })
}

/// Whether a file has an assembly text or an image in it, as two flags say; where neither stands it is a source text.
pub fn form_of(matches: &ArgMatches<'_>) -> Option<Option<ImageForm>>
    ensures form { IfSome result (ReadsForm (rows_of (found_of matches.now))) }
    ensures none { result ≡ None → (f : OptionOf FormOf)
        → ReadsForm (rows_of (found_of matches.now)) f → ⊥ }
{
    match (
        is_written(matches, "assembly"),
        is_written(matches, "image"),
    ) {
        (false, false) => Some(None),
        (true, false) => Some(Some(ImageForm::Assembly)),
        (false, true) => Some(Some(ImageForm::Image)),
        (true, true) => None,
    }
}

/// Whether a file of which an image is known has an assembly text or the image itself in it, as a flag says.
pub fn image_form_of(matches: &ArgMatches<'_>) -> ImageForm
    ensures { ReadsImageForm (rows_of (found_of matches.now)) result }
{
    if is_written(matches, "assembly") {
        ImageForm::Assembly
    } else {
        ImageForm::Image
    }
}

/// Whether the words have what a search has that is of a source text alone.
pub fn searches_source(matches: &ArgMatches<'_>) -> bool
    ensures { result ≡ has_any of_source (rows_of (found_of matches.now)) }
{
    is_written(matches, "from")
        || is_written(matches, "to")
        || is_written(matches, "page")
        || is_written(matches, "places")
        || is_written(matches, "linux")
        || is_written(matches, "ends")
        || is_written(matches, "actions")
}

/// Whether the words say which run is made or followed.
pub fn names_run(matches: &ArgMatches<'_>) -> bool
    ensures { result ≡ has_any of_runs (rows_of (found_of matches.now)) }
{
    is_written(matches, "steps")
        || is_written(matches, "schedule")
        || is_written(matches, "log")
        || is_written(matches, "seed")
        || is_written(matches, "strays")
        || is_written(matches, "kills")
}

/// Whether the words have what a replay has that is of a source text alone.
pub fn replays_source(matches: &ArgMatches<'_>) -> bool
    ensures { result
        ≡ has_any (codes "page" ∷ codes "linux" ∷ []) (rows_of (found_of matches.now)) }
{
    is_written(matches, "page") || is_written(matches, "linux")
}

/// By whose rule the exits of a source text's threads wake, as a flag says.
pub fn linux_of(matches: &ArgMatches<'_>) -> Exits
    ensures { ReadsLinux (rows_of (found_of matches.now)) result }
{
    if is_written(matches, "linux") {
        Exits::Linux
    } else {
        Exits::Machine
    }
}

/// By whose rule the exits of an image's threads wake: this machine's, where none is named.
pub fn exits_of(matches: &ArgMatches<'_>) -> Option<Exits>
    ensures exits { IfSome result (ReadsExits (rows_of (found_of matches.now))) }
    ensures none { result ≡ None → (e : ExitsOf)
        → ReadsExits (rows_of (found_of matches.now)) e → ⊥ }
{
    match matches.get_str("exits") {
        Some(rule) => exits_named(rule),
        None => Some(Exits::Machine),
    }
}

// The rule of this name.
fn exits_named(rule: &str) -> Option<Exits>
    ensures exits { IfSome result (IsExits (Some rule.now)) }
    ensures none { result ≡ None → (e : ExitsOf) → IsExits (Some rule.now) e → ⊥ }
{
    match rule {
        "machine" => Some(Exits::Machine),
        "linux" => Some(Exits::Linux),
        _ => None,
    }
}

/// The files that show what a search over an image found.
pub fn search_files_of<'a>(matches: &ArgMatches<'a>) -> SearchFiles<'a>
    ensures { ReadsSearchFiles (rows_of (found_of matches.now)) result }
{
    let schedule = matches.get_str("schedule");
    let chart = matches.get_str("chart");
    let timeline = matches.get_str("timeline");
    SearchFiles {
        schedule,
        chart,
        timeline,
    }
}

/// Which run is explained. A schedule has no limit of steps beside it.
pub fn explained_by<'a>(matches: &ArgMatches<'a>) -> Option<ExplainedBy<'a>>
    ensures by { IfSome result (IsExplainedBy (rows_of (found_of matches.now))) }
    ensures none { result ≡ None → (e : Explained)
        → IsExplainedBy (rows_of (found_of matches.now)) e → ⊥ }
{
    if is_written(matches, "schedule") {
        return by_schedule(matches);
    }
    if is_written(matches, "log") {
        return by_log(matches);
    }
    by_steps(matches)
}

// Whether the words have the other one of a schedule and a log, or what stands beside neither.
fn has_more(matches: &ArgMatches<'_>, other: &str) -> bool
    ensures { result
        ≡ has_any (other.now ∷ codes "seed" ∷ codes "strays" ∷ codes "kills" ∷ [])
        (rows_of (found_of matches.now)) }
{
    is_written(matches, other) || is_written(matches, "seed") || names_outside(matches)
}

fn by_schedule<'a>(matches: &ArgMatches<'a>) -> Option<ExplainedBy<'a>>
    requires { stands (codes "schedule") (rows_of (found_of matches.now)) ≡ true }
    ensures by { IfSome result (IsExplainedBy (rows_of (found_of matches.now))) }
    ensures none { result ≡ None → (e : Explained)
        → IsExplainedBy (rows_of (found_of matches.now)) e → ⊥ }
{
    if is_written(matches, "steps") || has_more(matches, "log") {
        return None;
    }
    let schedule = matches.get_str("schedule")?;
    Some(ExplainedBy::Schedule(schedule))
}

fn by_log<'a>(matches: &ArgMatches<'a>) -> Option<ExplainedBy<'a>>
    requires { stands (codes "log") (rows_of (found_of matches.now)) ≡ true }
    ensures by { IfSome result (IsExplainedBy (rows_of (found_of matches.now))) }
    ensures none { result ≡ None → (e : Explained)
        → IsExplainedBy (rows_of (found_of matches.now)) e → ⊥ }
{
    if has_more(matches, "schedule") {
        return None;
    }
    let log = matches.get_str("log")?;
    let steps = steps_of(matches)?;
    Some(ExplainedBy::Log { log, steps })
}

// A run within a limit of steps. Where no seed stands nothing is asked for from outside.
fn by_steps<'a>(matches: &ArgMatches<'a>) -> Option<ExplainedBy<'a>>
    requires schedule { stands (codes "schedule") (rows_of (found_of matches.now)) ≡ false }
    requires log { stands (codes "log") (rows_of (found_of matches.now)) ≡ false }
    ensures by { IfSome result (IsExplainedBy (rows_of (found_of matches.now))) }
    ensures none { result ≡ None → (e : Explained)
        → IsExplainedBy (rows_of (found_of matches.now)) e → ⊥ }
{
    let steps = steps_of(matches)?;
    if !is_written(matches, "seed") {
        return if names_outside(matches) {
            None
        } else {
            Some(ExplainedBy::Order { steps })
        };
    }
    let seed = seed_of(matches)?;
    let strays = strays_of(matches)?;
    let kills = kills_of(matches)?;
    Some(ExplainedBy::Seed {
        steps,
        seed,
        strays,
        kills,
    })
}
