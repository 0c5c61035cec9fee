//! Lists of source actions, and logs of images, which stand in rows of one line.

mod action;
pub mod failure;
mod logs;
mod runs;
mod seeds;

use crate::lists::failure::Failure;
use crate::lists::logs::{Outside, show_logs};
use crate::lists::runs::{show_actions, show_actions_as_one};
use crate::lists::seeds::show_seeds;
use mesamon::Exits;
use std::io;

/// Prints what comes of a row of one line, or why nothing does; false where this line is none.
pub fn take_line<R: AllocGlobal + Print>(rt: &R, line: &str) -> io::Result<bool> {
    let (key, row) = line.split_once(' ').unwrap_or((line, ""));
    let shown = match key {
        "actions" => show_actions(rt, row),
        "actions-as-one" => show_actions_as_one(rt, row),
        "logs" => show_logs(rt, row, Outside::Nothing, Exits::Machine),
        "strays" => show_logs(rt, row, Outside::Strays, Exits::Machine),
        "kills" => show_logs(rt, row, Outside::Kills, Exits::Machine),
        "kills-linux" => show_logs(rt, row, Outside::Kills, Exits::Linux),
        "seeds" => show_seeds(rt, row, Exits::Machine),
        "seeds-linux" => show_seeds(rt, row, Exits::Linux),
        _ => return Ok(false),
    };
    show_failure(rt, shown)?;
    Ok(true)
}

fn show_failure<R: Print>(rt: &R, shown: Result<(), Failure>) -> io::Result<()> {
    match shown {
        Ok(()) => Ok(()),
        Err(failure) => println!(rt; "{failure}"),
    }
}
