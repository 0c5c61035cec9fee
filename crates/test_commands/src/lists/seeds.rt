use crate::lists::failure::Failure;
use mesamon::{Exits, ExplainSourceFault, ExplainedRun, explain_by_seed};
use source_states::{Action, ActionKind, accepts};
use std::alloc::Global;

// What a row says of its runs.
#[derive(Clone, Copy)]
struct SeedRow<'a> {
    count: u32,
    steps: u32,
    strays: u32,
    kills: u32,
    text: &'a str,
}

// The number that is the next of these words.
fn number_of(word: Option<&str>) -> Result<u32, Failure> {
    let word = word.ok_or(Failure::Row)?;
    word.parse().map_err(|_| Failure::Row)
}

fn row_of(row: &str) -> Result<SeedRow<'_>, Failure> {
    let (said, text) = row.split_once('|').ok_or(Failure::Row)?;
    let mut words = said.split_whitespace();
    Ok(SeedRow {
        count: number_of(words.next())?,
        steps: number_of(words.next())?,
        strays: number_of(words.next())?,
        kills: number_of(words.next())?,
        text,
    })
}

// What came of runs: how many are explained by runs of the program, and the most kills that one has.
#[derive(Clone, Copy, Default)]
struct SeedTally {
    explained: u32,
    most_kills: u32,
}

/// Prints what comes of the runs, in the orders of the seeds from 1 and by this rule of exits, of the program whose text
/// stands in the row.
pub fn show_seeds<R: AllocGlobal + Print>(rt: &R, row: &str, exits: Exits) -> Result<(), Failure> {
    let row = row_of(row)?;
    let mut tally = SeedTally::default();
    for before in 0..row.count {
        take_run(rt.alloc(), row, exits, u64::from(before) + 1, &mut tally)?;
    }
    let count = row.count;
    let explained = tally.explained;
    let most = tally.most_kills;
    println!(rt; "{count} runs by seeds, {explained} explained, with up to {most} kills")?;
    Ok(())
}

// Makes the run of a seed, and counts it.
fn take_run(
    alloc: Global,
    row: SeedRow<'_>,
    exits: Exits,
    seed: u64,
    tally: &mut SeedTally,
) -> Result<(), Failure> {
    let text = row.text.as_bytes();
    let strays = Some(row.strays);
    let run = match explain_by_seed(alloc, text, exits, row.steps, seed, strays, row.kills) {
        Ok(run) => run,
        Err(ExplainSourceFault::Refused(refusal)) => return Err(Failure::Text(refusal)),
        Err(ExplainSourceFault::Memory) => return Err(Failure::Memory),
    };
    count_run(alloc, &run, tally)
}

fn count_run(alloc: Global, run: &ExplainedRun<'_>, tally: &mut SeedTally) -> Result<(), Failure> {
    if accepts(alloc, &run.checked, run.actions.as_slice())?.is_some() {
        tally.explained = tally.explained.saturating_add(1);
    }
    tally.most_kills = tally.most_kills.max(kills_in(run.actions.as_slice()));
    Ok(())
}

// How many of these actions are kills.
fn kills_in(actions: &[Action]) -> u32 {
    let mut kills: u32 = 0;
    for action in actions {
        if let ActionKind::Kill(_, _) = action.kind {
            kills = kills.saturating_add(1);
        }
    }
    kills
}
