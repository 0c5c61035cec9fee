use crate::lists::action::append_actions;
use crate::lists::failure::Failure;
use compiler::compile_checked;
use program::Checked;
use source_states::{Action, SourceState, accepts, accepts_as};
use sourcemeaning::{movers, run_length};
use std::io;
use words::ImageVersion;

/// Prints what comes of a list of actions of the program whose text stands behind it.
pub fn show_actions<R: AllocGlobal + Print>(rt: &R, row: &str) -> Result<(), Failure> {
    let (list, text) = row.split_once('|').ok_or(Failure::Row)?;
    let (checked, _) = compile_checked(rt.alloc(), text.as_bytes())?;
    let mut actions = Vec::new(rt.alloc());
    append_actions(&mut actions, list)?;
    show_run(rt, &checked, actions.as_slice())
}

/// Prints what comes of such a list where the program's image is of the first version.
pub fn show_actions_as_one<R: AllocGlobal + Print>(rt: &R, row: &str) -> Result<(), Failure> {
    let (list, text) = row.split_once('|').ok_or(Failure::Row)?;
    let (checked, _) = compile_checked(rt.alloc(), text.as_bytes())?;
    let mut actions = Vec::new(rt.alloc());
    append_actions(&mut actions, list)?;
    let end = accepts_as(rt.alloc(), &checked, ImageVersion::One, actions.as_slice())?;
    match end {
        Some(state) => show_end(rt, &checked, &state),
        None => {
            println!(rt; "no run")?;
            Ok(())
        }
    }
}

// Prints what comes of actions.
fn show_run<R: AllocGlobal + Print>(
    rt: &R,
    checked: &Checked,
    actions: &[Action],
) -> Result<(), Failure> {
    match accepts(rt.alloc(), checked, actions)? {
        Some(state) => show_end(rt, checked, &state),
        None => show_length(rt, checked, actions),
    }
}

// Prints which action isn't possible, of a list that isn't a run.
fn show_length<R: AllocGlobal + Print>(
    rt: &R,
    checked: &Checked,
    actions: &[Action],
) -> Result<(), Failure> {
    let number = run_length(rt.alloc(), checked, actions)?.saturating_add(1);
    println!(rt; "no run, action {number}")?;
    Ok(())
}

// Prints the processes that can move in a state, and the numbers printed.
fn show_end<R: AllocGlobal + Print>(
    rt: &R,
    checked: &Checked,
    state: &SourceState,
) -> Result<(), Failure> {
    let movers = movers(rt.alloc(), checked, state)?;
    show_both(rt, movers.as_slice(), state.printed())?;
    Ok(())
}

// Prints the line of a run.
fn show_both<R: Print>(rt: &R, movers: &[u64], printed: &[i64]) -> io::Result<()> {
    print!(rt; "run, movers")?;
    show_movers(rt, movers)?;
    print!(rt; ", printed")?;
    show_printed(rt, printed)?;
    println!(rt; "")
}

// Prints the numbers of processes, each behind a blank.
fn show_movers<R: Print>(rt: &R, movers: &[u64]) -> io::Result<()> {
    for process in movers {
        print!(rt; " {process}")?;
    }
    Ok(())
}

// Prints the numbers that a program printed, each behind a blank.
fn show_printed<R: Print>(rt: &R, printed: &[i64]) -> io::Result<()> {
    for number in printed {
        print!(rt; " {number}")?;
    }
    Ok(())
}
