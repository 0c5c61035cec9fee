use crate::builder::Subcommand;
use crate::sources::{exits_of, explained_by, names_run};
use crate::tables::{EXEC, EXPLAIN, EXPLORE, REPLAY, RUN};
use crate::values::is_written;
use clap::error::ErrorKind;
use clap::{ArgMatches, Command, Error};
use std::alloc::{AllocError, Global};

// What is said of an order in which a run can't go.
const TWO_ORDERS: &str = "the argument '--seed <N>' cannot be used with '--in-order'";

// What is said of stray wakes and of kills where no seed says when they come.
const STRAYS_WITHOUT_SEED: &str = "the argument '--strays <N>' cannot be used without '--seed <N>'";

const KILLS_WITHOUT_SEED: &str = "the argument '--kills <N>' cannot be used without '--seed <N>'";

// What is said of a replay by nothing.
const NO_SCHEDULE: &str = "one of <SCHEDULE> and '--log <LOG>' has to be given";

// What is said of a limit of steps that a schedule doesn't have.
const STEPS_BY_SCHEDULE: &str = "the argument '--steps <N>' cannot be used with <SCHEDULE>";

// What is said of a file that is to be in two forms.
const TWO_FORMS: &str = "the argument '--assembly' cannot be used with '--image'";

// What is said of an image that is to be of a source text.
const LINUX_OF_IMAGE: &str = "the argument '--linux' cannot be used with '--assembly' or '--image'";

// What is said of a rule of exits that is none, or that a source text is to have.
const NO_RULE: &str = "the value of '--exits <RULE>' is machine or linux";

const EXITS_OF_SOURCE: &str =
    "the argument '--exits <RULE>' cannot be used without '--assembly' or '--image'";

// What is said of pictures of an image's runs.
const PAGE_OF_IMAGE: &str =
    "the argument '--page <OUT>' cannot be used with '--assembly' or '--image'";

const PICTURE_OF_IMAGE: &str =
    "the arguments '--from <N>', '--to <N>', '--page <OUT>', '--actions <OUT>', '--places' and '--ends' cannot be used with '--assembly' or '--image'";

// What is said of actions that no picture has.
const NO_CHART_FROM: &str = "the argument '--from <N>' cannot be used without '--chart <OUT>'";

const NO_CHART_TO: &str = "the argument '--to <N>' cannot be used without '--chart <OUT>'";

/// What is said of words that the parser takes and that ask for no job.
pub fn refusal_of(alloc: Global, command: &mut Command<'_>, matches: &ArgMatches<'_>) -> Error {
    match told(alloc, command, matches) {
        Ok(error) => error,
        Err(error) => Error::from(error),
    }
}

fn told(
    alloc: Global,
    command: &mut Command<'_>,
    matches: &ArgMatches<'_>,
) -> Result<Error, AllocError> {
    let Some((name, inner)) = matches.subcommand() else {
        return command.error(ErrorKind::MissingSubcommand, "a command is missing");
    };
    let (subcommand, usage) = refused(name);
    told_by(subcommand.build(alloc)?, usage, reason(name, inner))
}

// The command of a name whose words may ask for no job, and how its usage begins.
fn refused(name: &str) -> (Subcommand<'static>, &'static str) {
    match name {
        "run" => (RUN, "mesamon run"),
        "exec" => (EXEC, "mesamon exec"),
        "replay" => (REPLAY, "mesamon replay"),
        "explore" => (EXPLORE, "mesamon explore"),
        _ => (EXPLAIN, "mesamon explain"),
    }
}

// Why the arguments of the command of a name ask for no job.
fn reason(name: &str, matches: &ArgMatches<'_>) -> (ErrorKind, &'static str) {
    match name {
        "run" => no_order(matches),
        "exec" => no_run_of_image(matches),
        "replay" => no_replay(matches),
        "explore" => no_search(matches),
        _ => no_explanation(matches),
    }
}

// Why the arguments of `replay` ask for nothing.
fn no_replay(matches: &ArgMatches<'_>) -> (ErrorKind, &'static str) {
    let is_assembly = is_written(matches, "assembly");
    let is_image = is_written(matches, "image");
    if is_assembly && is_image {
        (ErrorKind::ArgumentConflict, TWO_FORMS)
    } else if is_assembly || is_image {
        no_follow(matches)
    } else if is_written(matches, "exits") {
        (ErrorKind::MissingRequiredArgument, EXITS_OF_SOURCE)
    } else {
        no_source(matches)
    }
}

// Why those of an image do.
fn no_follow(matches: &ArgMatches<'_>) -> (ErrorKind, &'static str) {
    if is_written(matches, "page") {
        (ErrorKind::ArgumentConflict, PAGE_OF_IMAGE)
    } else if is_written(matches, "linux") {
        (ErrorKind::ArgumentConflict, LINUX_OF_IMAGE)
    } else if exits_of(matches).is_none() {
        (ErrorKind::ValueValidation, NO_RULE)
    } else {
        no_source(matches)
    }
}

// Why the arguments of a replay name nothing that it goes by.
fn no_source(matches: &ArgMatches<'_>) -> (ErrorKind, &'static str) {
    if is_written(matches, "SCHEDULE") {
        (ErrorKind::ArgumentConflict, STEPS_BY_SCHEDULE)
    } else {
        (ErrorKind::MissingRequiredArgument, NO_SCHEDULE)
    }
}

// Why the arguments of `explore` ask for nothing.
fn no_search(matches: &ArgMatches<'_>) -> (ErrorKind, &'static str) {
    let is_assembly = is_written(matches, "assembly");
    let is_image = is_written(matches, "image");
    if is_assembly && is_image {
        (ErrorKind::ArgumentConflict, TWO_FORMS)
    } else if is_assembly || is_image {
        no_search_of_image(matches)
    } else if is_written(matches, "exits") {
        (ErrorKind::MissingRequiredArgument, EXITS_OF_SOURCE)
    } else {
        no_chart(matches)
    }
}

// Why those of an image do.
fn no_search_of_image(matches: &ArgMatches<'_>) -> (ErrorKind, &'static str) {
    if is_written(matches, "linux") {
        (ErrorKind::ArgumentConflict, LINUX_OF_IMAGE)
    } else if exits_of(matches).is_none() {
        (ErrorKind::ValueValidation, NO_RULE)
    } else {
        (ErrorKind::ArgumentConflict, PICTURE_OF_IMAGE)
    }
}

// Why the arguments of `exec` ask for nothing.
fn no_run_of_image(matches: &ArgMatches<'_>) -> (ErrorKind, &'static str) {
    if exits_of(matches).is_none() {
        (ErrorKind::ValueValidation, NO_RULE)
    } else {
        no_order(matches)
    }
}

// A refusal with the usage of a command.
fn told_by(
    command: Command<'_>,
    name: &str,
    (kind, message): (ErrorKind, &str),
) -> Result<Error, AllocError> {
    let mut command = command.bin_name(name)?;
    command.error(kind, message)
}

// Why the arguments of a run name no order.
fn no_order(matches: &ArgMatches<'_>) -> (ErrorKind, &'static str) {
    if is_written(matches, "seed") {
        (ErrorKind::ArgumentConflict, TWO_ORDERS)
    } else {
        (ErrorKind::MissingRequiredArgument, no_seed(matches))
    }
}

// What stands without the seed that it needs.
fn no_seed(matches: &ArgMatches<'_>) -> &'static str {
    if is_written(matches, "strays") {
        STRAYS_WITHOUT_SEED
    } else {
        KILLS_WITHOUT_SEED
    }
}

// Why the arguments of `explain` ask for nothing.
fn no_explanation(matches: &ArgMatches<'_>) -> (ErrorKind, &'static str) {
    if is_written(matches, "actions") {
        no_retelling(matches)
    } else if explained_by(matches).is_some() {
        no_chart(matches)
    } else {
        no_run(matches)
    }
}

// Why those that name the file of a run's actions do.
fn no_retelling(matches: &ArgMatches<'_>) -> (ErrorKind, &'static str) {
    if names_run(matches) {
        (ErrorKind::ArgumentConflict, beside_actions(matches))
    } else {
        no_chart(matches)
    }
}

// Which actions are named where no picture is.
fn no_chart(matches: &ArgMatches<'_>) -> (ErrorKind, &'static str) {
    let message = if is_written(matches, "from") {
        NO_CHART_FROM
    } else {
        NO_CHART_TO
    };
    (ErrorKind::MissingRequiredArgument, message)
}

// Why the arguments name no one run that can be explained.
fn no_run(matches: &ArgMatches<'_>) -> (ErrorKind, &'static str) {
    if is_written(matches, "schedule") || is_written(matches, "log") {
        (ErrorKind::ArgumentConflict, two_runs(matches))
    } else {
        (ErrorKind::MissingRequiredArgument, no_seed(matches))
    }
}

// Which two arguments name no one run that can be explained.
fn two_runs(matches: &ArgMatches<'_>) -> &'static str {
    match (is_written(matches, "schedule"), is_written(matches, "log")) {
        (true, true) => "the argument '--schedule <SCHEDULE>' cannot be used with '--log <LOG>'",
        (true, false) => beside_schedule(matches),
        _ => beside_log(matches),
    }
}

// Which argument can't stand beside a schedule, and does.
fn beside_schedule(matches: &ArgMatches<'_>) -> &'static str {
    if is_written(matches, "seed") {
        "the argument '--seed <N>' cannot be used with '--schedule <SCHEDULE>'"
    } else if is_written(matches, "strays") {
        "the argument '--strays <N>' cannot be used with '--schedule <SCHEDULE>'"
    } else if is_written(matches, "kills") {
        "the argument '--kills <N>' cannot be used with '--schedule <SCHEDULE>'"
    } else {
        "the argument '--steps <N>' cannot be used with '--schedule <SCHEDULE>'"
    }
}

// Which argument can't stand beside a log, and does.
fn beside_log(matches: &ArgMatches<'_>) -> &'static str {
    if is_written(matches, "seed") {
        "the argument '--seed <N>' cannot be used with '--log <LOG>'"
    } else if is_written(matches, "strays") {
        "the argument '--strays <N>' cannot be used with '--log <LOG>'"
    } else {
        "the argument '--kills <N>' cannot be used with '--log <LOG>'"
    }
}

// Which argument can't stand beside the actions of a run, and does.
fn beside_actions(matches: &ArgMatches<'_>) -> &'static str {
    if is_written(matches, "schedule") {
        "the argument '--schedule <SCHEDULE>' cannot be used with '--actions <ACTIONS>'"
    } else if is_written(matches, "log") {
        "the argument '--log <LOG>' cannot be used with '--actions <ACTIONS>'"
    } else if is_written(matches, "seed") {
        "the argument '--seed <N>' cannot be used with '--actions <ACTIONS>'"
    } else if is_written(matches, "strays") {
        "the argument '--strays <N>' cannot be used with '--actions <ACTIONS>'"
    } else if is_written(matches, "kills") {
        "the argument '--kills <N>' cannot be used with '--actions <ACTIONS>'"
    } else {
        "the argument '--steps <N>' cannot be used with '--actions <ACTIONS>'"
    }
}
