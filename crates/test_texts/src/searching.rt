// Searches over all runs of programs.

use crate::failure::Failure;
use compiler::compile_checked;
use program::Checked;
use source_search::{Asked, Blocked, Ending, Exploration, Outside, Untold, explore};
use source_states::Action;
use std::alloc::Global;
use std::io;

/// Searches all runs of a program, and prints whether the search came to its end, how many actions the run has that it
/// found to get stuck, and how many the one in which it found a process to abort, where it found one. Where it looked for
/// them it prints which processes it found to be blocked for good, and how many actions the run has at whose end they are;
/// and where that is asked for, how many actions a run has that can't end any more, or that every run can end.
pub fn show_search<R: AllocGlobal + Print>(rt: &R, said: &str) -> Result<(), Failure> {
    let found = search(rt.alloc(), said)?;
    show(rt, &found)
}

// What a search finds of the program of a row.
fn search(alloc: Global, said: &str) -> Result<Exploration, Failure> {
    let (most, said) = said.split_once(' ').ok_or(Failure::Row)?;
    let (runs, text) = said.split_once(' ').ok_or(Failure::Row)?;
    let most: usize = most.parse().map_err(|_| Failure::Row)?;
    let outside = outside_of(runs)?;
    let asked = Asked {
        ends: runs == "ends",
    };
    let (checked, _lowered) = compile_checked(alloc, text.as_bytes())?;
    explored(alloc, &checked, most, outside, asked)
}

// What a search finds of a program.
fn explored(
    alloc: Global,
    checked: &Checked,
    most: usize,
    outside: Outside,
    asked: Asked,
) -> Result<Exploration, Failure> {
    Ok(explore(alloc, checked, most, outside, asked, None, &mut Untold)?)
}

// What comes from outside in the runs that are searched.
fn outside_of(runs: &str) -> Result<Outside, Failure> {
    let strays = runs == "strays";
    let kills = match runs {
        "own" | "ends" | "strays" => 0,
        _ => kills_of(runs)?,
    };
    Ok(Outside { strays, kills })
}

// How many kills a word says, as `kills1`.
fn kills_of(runs: &str) -> Result<u32, Failure> {
    let digits = runs.strip_prefix("kills").ok_or(Failure::Row)?;
    digits.parse().map_err(|_| Failure::Row)
}

fn show<R: Print>(rt: &R, found: &Exploration) -> Result<(), Failure> {
    let extent = if found.complete {
        "complete"
    } else {
        "not all"
    };
    print!(rt; "{extent}, ")?;
    show_stuck(rt, length_of(&found.stuck))?;
    show_aborted(rt, length_of(&found.aborted))?;
    show_blocked(rt, &found.blocked)?;
    show_ending(rt, &found.ending)?;
    Ok(println!(rt; "")?)
}

// Prints how many actions the run has that gets stuck, if there is one.
fn show_stuck<R: Print>(rt: &R, length: Option<usize>) -> io::Result<()> {
    match length {
        None => print!(rt; "no run is stuck, "),
        Some(count) => print!(rt; "stuck after {count} actions, "),
    }
}

// The same of the run in which a process aborts.
fn show_aborted<R: Print>(rt: &R, length: Option<usize>) -> io::Result<()> {
    match length {
        None => print!(rt; "none aborts"),
        Some(count) => print!(rt; "aborted after {count} actions"),
    }
}

// Prints which processes are blocked for good, where it was looked for.
fn show_blocked<R: Print>(rt: &R, blocked: &Blocked) -> io::Result<()> {
    match blocked {
        Blocked::NotLookedFor => Ok(()),
        Blocked::Never => print!(rt; ", none is blocked"),
        Blocked::NotTold => print!(rt; ", it isn't told who is blocked"),
        Blocked::Found { processes, run } => show_blocked_run(rt, processes, run.len()),
    }
}

// Prints their numbers, and how many actions the run has.
fn show_blocked_run<R: Print>(rt: &R, processes: &[u64], count: usize) -> io::Result<()> {
    print!(rt; ", blocked")?;
    for process in processes {
        print!(rt; " {process}")?;
    }
    print!(rt; " after {count} actions")
}

// Prints how many actions a run has that can't end any more, where it was asked for and looked for.
fn show_ending<R: Print>(rt: &R, ending: &Ending) -> io::Result<()> {
    match ending {
        Ending::NotAsked => Ok(()),
        Ending::NotLookedFor => Ok(()),
        Ending::Never => print!(rt; ", every run can end"),
        Ending::NotTold => print!(rt; ", it isn't told whether every run can end"),
        Ending::Found(run) => {
            let count = run.len();
            print!(rt; ", can't end after {count} actions")
        }
    }
}

// How many actions a run has, where there is one.
fn length_of(run: &Option<Vec<Action>>) -> Option<usize> {
    match run {
        None => None,
        Some(actions) => Some(actions.len()),
    }
}
