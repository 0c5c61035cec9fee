ghost use Rattle.std.specs.Prelude.{IfSome, None, Option as OptionOf, ℕ, ◌≡◌, [], ◌∷◌, codes};
ghost use Rattle.clap.specs.Words.{found_of, one_of};
ghost use Rattle.clap.specs.Walk.{rows_of};
ghost use Rattle.commandline.specs.CommandLine as line;
ghost use Rattle.commandline.specs.CommandLine.{IsCountOf, IsNumberOf, ReadsKills, ReadsOptions, ReadsOrder, ReadsSeed, ReadsSteps};
ghost use Rattle.commandline.specs.CommandLine.{ReadsAction, ReadsChart, ReadsStates, ReadsStrays, ReadsVersion, ReadsWorkers};
ghost use Rattle.words.specs.declared.version.ImageVersion.{ImageVersion as VersionOf};
ghost use Rattle.commandline.specs.declared.options.ChartOptions.{ChartOptions as ChartOf};
ghost use Rattle.commandline.specs.declared.options.Order.{Order as OrderOf};
ghost use Rattle.commandline.specs.declared.options.RunOptions.{RunOptions as OptionsOf};

use crate::options::{ChartOptions, MOST_WORKERS, Order, RunOptions};
use clap::ArgMatches;
use clap::parser::ValueSource;
use words::ImageVersion;

/// Whether the words have this argument.
pub fn is_written(matches: &ArgMatches<'_>, id: &str) -> bool
    ensures { result ≡ line.is_written id.now (rows_of (found_of matches.now)) }
{
    is_of_words(matches.value_source(id))
}

fn is_of_words(source: Option<ValueSource>) -> bool
    ensures { result ≡ line.is_of_words source }
{
    matches!(source, Some(ValueSource::CommandLine))
}

// The number of 32 bits that stands for this argument.
fn number_of(matches: &ArgMatches<'_>, id: &str) -> Option<u32>
    ensures number { IfSome result (IsNumberOf (one_of id.now (rows_of (found_of matches.now))) 32) }
    ensures none { result ≡ None → (n : ℕ)
        → IsNumberOf (one_of id.now (rows_of (found_of matches.now))) 32 n → ⊥ }
{
    matches.get_one::<u32>(id)
}

// The number from 1, of 32 bits, that stands for this argument.
fn count_of(matches: &ArgMatches<'_>, id: &str) -> Option<u32>
    ensures number { IfSome result (IsCountOf (one_of id.now (rows_of (found_of matches.now)))) }
    ensures none { result ≡ None → (n : ℕ)
        → IsCountOf (one_of id.now (rows_of (found_of matches.now))) n → ⊥ }
{
    let number = number_of(matches, id)?;
    if number < 1 {
        return None;
    }
    Some(number)
}

// The number of 64 bits that stands for this argument.
fn long_number_of(matches: &ArgMatches<'_>, id: &str) -> Option<u64>
    ensures number { IfSome result (IsNumberOf (one_of id.now (rows_of (found_of matches.now))) 64) }
    ensures none { result ≡ None → (n : ℕ)
        → IsNumberOf (one_of id.now (rows_of (found_of matches.now))) 64 n → ⊥ }
{
    matches.get_one::<u64>(id)
}

/// The limit of steps.
pub fn steps_of(matches: &ArgMatches<'_>) -> Option<u32>
    ensures number { IfSome result (ReadsSteps (rows_of (found_of matches.now))) }
    ensures none { result ≡ None → (n : ℕ) → ReadsSteps (rows_of (found_of matches.now)) n → ⊥ }
{
    count_of(matches, "steps")
}

/// The limit of states.
pub fn states_of(matches: &ArgMatches<'_>) -> Option<u32>
    ensures number { IfSome result (ReadsStates (rows_of (found_of matches.now))) }
    ensures none { result ≡ None → (n : ℕ) → ReadsStates (rows_of (found_of matches.now)) n → ⊥ }
{
    count_of(matches, "states")
}

/// How many workers compile.
pub fn workers_of(matches: &ArgMatches<'_>) -> Option<u32>
    ensures number { IfSome result (ReadsWorkers (rows_of (found_of matches.now))) }
    ensures none { result ≡ None → (n : ℕ) → ReadsWorkers (rows_of (found_of matches.now)) n
        → ⊥ }
{
    let workers = number_of(matches, "workers")?;
    if workers < 1 || workers > MOST_WORKERS {
        return None;
    }
    Some(workers)
}

/// The version of the image that is compiled.
pub fn version_of(matches: &ArgMatches<'_>) -> Option<ImageVersion>
    ensures version { IfSome result (ReadsVersion (rows_of (found_of matches.now))) }
    ensures none { result ≡ None → (v : VersionOf) → ReadsVersion (rows_of (found_of matches.now)) v
        → ⊥ }
{
    match number_of(matches, "image")? {
        1 => Some(ImageVersion::One),
        2 => Some(ImageVersion::Two),
        _ => None,
    }
}

/// The seed of a run.
pub fn seed_of(matches: &ArgMatches<'_>) -> Option<u64>
    ensures number { IfSome result (ReadsSeed (rows_of (found_of matches.now))) }
    ensures none { result ≡ None → (n : ℕ) → ReadsSeed (rows_of (found_of matches.now)) n → ⊥ }
{
    long_number_of(matches, "seed")
}

/// How often a stray wake comes, where such are asked for.
pub fn strays_of(matches: &ArgMatches<'_>) -> Option<Option<u32>>
    ensures strays { IfSome result (ReadsStrays (rows_of (found_of matches.now))) }
    ensures none { result ≡ None → (s : OptionOf ℕ)
        → ReadsStrays (rows_of (found_of matches.now)) s → ⊥ }
{
    if !is_written(matches, "strays") {
        return Some(None);
    }
    let strays = count_of(matches, "strays")?;
    Some(Some(strays))
}

/// How many threads are killed at most.
pub fn kills_of(matches: &ArgMatches<'_>) -> Option<u32>
    ensures number { IfSome result (ReadsKills (rows_of (found_of matches.now))) }
    ensures none { result ≡ None → (n : ℕ) → ReadsKills (rows_of (found_of matches.now)) n → ⊥ }
{
    number_of(matches, "kills")
}

/// Whether the words say what comes from outside in a run.
pub fn names_outside(matches: &ArgMatches<'_>) -> bool
    ensures { result
        ≡ line.has_any (codes "strays" ∷ codes "kills" ∷ []) (rows_of (found_of matches.now)) }
{
    is_written(matches, "strays") || is_written(matches, "kills")
}

// The number of an action, where one is asked for.
fn action_of(matches: &ArgMatches<'_>, id: &str) -> Option<Option<u64>>
    ensures action { IfSome result (ReadsAction id.now (rows_of (found_of matches.now))) }
    ensures none { result ≡ None → (a : OptionOf ℕ)
        → ReadsAction id.now (rows_of (found_of matches.now)) a → ⊥ }
{
    if !is_written(matches, id) {
        return Some(None);
    }
    let action = long_number_of(matches, id)?;
    Some(Some(action))
}

// Whether the words say which actions a picture has.
fn names_actions(matches: &ArgMatches<'_>) -> bool
    ensures { result
        ≡ line.has_any (codes "from" ∷ codes "to" ∷ []) (rows_of (found_of matches.now)) }
{
    is_written(matches, "from") || is_written(matches, "to")
}

/// The picture that is asked for, where one is. Which actions it has is said beside its file alone.
pub fn chart_of<'a>(matches: &ArgMatches<'a>) -> Option<Option<ChartOptions<'a>>>
    ensures chart { IfSome result (ReadsChart (rows_of (found_of matches.now))) }
    ensures none { result ≡ None → (c : OptionOf ChartOf)
        → ReadsChart (rows_of (found_of matches.now)) c → ⊥ }
{
    let from = action_of(matches, "from")?;
    let to = action_of(matches, "to")?;
    match matches.get_str("chart") {
        Some(out) => Some(Some(ChartOptions { out, from, to })),
        None if names_actions(matches) => None,
        None => Some(None),
    }
}

// Who moves the threads of a run. A fixed order has no seed, and where no seed stands nothing is asked for from outside.
fn order_of(matches: &ArgMatches<'_>) -> Option<Order>
    ensures order { IfSome result (ReadsOrder (rows_of (found_of matches.now))) }
    ensures none { result ≡ None → (o : OrderOf) → ReadsOrder (rows_of (found_of matches.now)) o
        → ⊥ }
{
    let in_order = is_written(matches, "in-order");
    if !is_written(matches, "seed") {
        return if names_outside(matches) {
            None
        } else if in_order {
            Some(Order::InOrder)
        } else {
            Some(Order::Workers)
        };
    }
    if in_order {
        return None;
    }
    let seed = seed_of(matches)?;
    let strays = strays_of(matches)?;
    let kills = kills_of(matches)?;
    Some(Order::Seed {
        seed,
        strays,
        kills,
    })
}

/// How a run goes, and what is kept of it.
pub fn options_of<'a>(matches: &ArgMatches<'a>) -> Option<RunOptions<'a>>
    ensures options { IfSome result (ReadsOptions (rows_of (found_of matches.now))) }
    ensures none { result ≡ None → (o : OptionsOf) → ReadsOptions (rows_of (found_of matches.now)) o
        → ⊥ }
{
    let steps = steps_of(matches)?;
    let order = order_of(matches)?;
    let trace = matches.get_flag("trace");
    let log = matches.get_str("log");
    Some(RunOptions {
        steps,
        order,
        trace,
        log,
    })
}
