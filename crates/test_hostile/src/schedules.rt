use crate::counting::count;
use crate::failure::Failure;
use compiler::compile;
use isa::Image;
use runner::{ScheduleFault, Turn, Verdict, follow};
use std::alloc::{AllocError, Global};
use std::io;
use test_schedules::Sequence;

// The most turns of a schedule.
const MOST: u32 = 40;

// How the schedules of a program ended.
#[derive(Clone, Copy)]
struct Ends {
    refused: u32,
    done: u32,
    stuck: u32,
    limit: u32,
    otherwise: u32,
}

/// Prints how schedules end whose turns are drawn, of a text's program, so many as the row says.
pub fn show_schedules<R: AllocGlobal + Print>(rt: &R, row: &str) -> Result<(), Failure> {
    let (times, rest) = row.split_once(' ').ok_or(Failure::Row)?;
    let times: u32 = times.parse().map_err(|_| Failure::Row)?;
    let (seed, text) = rest.split_once(' ').ok_or(Failure::Row)?;
    let seed: u32 = seed.parse().map_err(|_| Failure::Row)?;
    let image = compile(rt.alloc(), text.as_bytes())?;
    let ends = ends_of(rt.alloc(), &image, times, Sequence::new(seed))?;
    ends.show(rt)?;
    Ok(())
}

fn ends_of(
    alloc: Global,
    image: &Image,
    times: u32,
    mut sequence: Sequence,
) -> Result<Ends, AllocError> {
    let mut ends = Ends::new();
    for _ in 0..times {
        let turns = drawn_turns(alloc, &mut sequence)?;
        ends.follow(alloc, image, turns.as_slice());
    }
    Ok(ends)
}

// Some turns of few threads.
fn drawn_turns(alloc: Global, sequence: &mut Sequence) -> Result<Vec<Turn>, AllocError> {
    let mut turns = Vec::new(alloc);
    for _ in 0..sequence.draw() % MOST {
        turns.push(drawn_turn(sequence))?;
    }
    Ok(turns)
}

// A turn: mostly a step of the first thread, so that schedules go on for some turns.
fn drawn_turn(sequence: &mut Sequence) -> Turn {
    let thread = sequence.draw() % 8;
    match sequence.draw() % 16 {
        0 => Turn::Stray(thread),
        1 => Turn::Kill(thread),
        2 | 3 => Turn::Step(thread),
        _ => Turn::Step(1),
    }
}

impl Ends {
    fn new() -> Ends {
        Ends {
            refused: 0,
            done: 0,
            stuck: 0,
            limit: 0,
            otherwise: 0,
        }
    }

    // Follows a schedule, and counts how that ends.
    fn follow(&mut self, alloc: Global, image: &Image, turns: &[Turn]) {
        match follow(alloc, image, turns) {
            Ok(report) => self.count_verdict(report.verdict),
            Err(ScheduleFault::BadEntry(_)) => count(&mut self.refused),
            Err(_) => count(&mut self.otherwise),
        }
    }

    fn count_verdict(&mut self, verdict: Verdict) {
        match verdict {
            Verdict::Done => count(&mut self.done),
            Verdict::Stuck => count(&mut self.stuck),
            Verdict::Limit => count(&mut self.limit),
        }
    }

    fn show<R: Print>(&self, rt: &R) -> io::Result<()> {
        let refused = self.refused;
        let done = self.done;
        let stuck = self.stuck;
        let limit = self.limit;
        let otherwise = self.otherwise;
        print!(rt; "  schedules: {refused} refused at a turn, {done} Done, {stuck} Stuck, ")?;
        println!(rt; "{limit} go on, {otherwise} otherwise")
    }
}
