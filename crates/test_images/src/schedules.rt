use crate::failure::Failure;
use crate::outcome::outcome_of;
use crate::schedule::Schedule;
use isa::Image;
use machine::{Event, EventName, StepFault};
use piece_machine::PieceMachine;
use std::alloc::{AllocError, Global};
use std::io;
use std::str::SplitWhitespace;
use words::{Addr, BUCKETS};

/// Whether threads that sleep are woken from outside.
#[derive(Clone, Copy, PartialEq, Eq, Debug)]
pub enum Outside {
    /// None is.
    Nothing,
    /// Each seventh step is the wake of one, where any sleeps.
    Strays,
}

// Which step is a wake from outside: each of this number.
const STRAY: u32 = 7;

// How a run may end, and how many did.
#[derive(Drop)]
struct Allowed {
    outcome: String,
    runs: u32,
}

// How long a run may be, and what comes from outside.
#[derive(Clone, Copy, Debug)]
struct Bounds {
    limit: u32,
    outside: Outside,
}

impl Bounds {
    // Whether the step behind so many is a wake from outside, if any thread sleeps.
    fn wakes_at(self, before: u32) -> bool {
        self.outside == Outside::Strays && before % STRAY == STRAY - 1
    }
}

// What a row says of the ends of its runs: the words that are looked at, and the outcomes.
#[derive(Drop)]
struct Ends {
    addresses: Vec<Addr>,
    allowed: Vec<Allowed>,
}

/// Runs an image by as many schedules as the first of these words says, those of the seeds from 1 on. The other words
/// are addresses, whose words belong to an outcome, and the outcomes that are allowed. Prints each seed whose run ended
/// otherwise, and how many runs ended in each of these.
pub fn run_schedules<R: Print>(
    rt: &R,
    alloc: Global,
    image: &Image,
    limit: u32,
    outside: Outside,
    mut words: SplitWhitespace,
) -> Result<(), Failure> {
    let count = words.next().ok_or(Failure::Row)?;
    let count: u32 = count.parse().map_err(|_| Failure::Row)?;
    let mut ends = Ends {
        addresses: Vec::new(alloc),
        allowed: Vec::new(alloc),
    };
    take_words(alloc, &mut ends, words)?;
    run_seeds(
        rt,
        alloc,
        image,
        Bounds { limit, outside },
        count,
        &mut ends,
    )
}

// Takes a word that tells of the ends: a number is an address, any other word an outcome.
fn take_word(alloc: Global, ends: &mut Ends, word: &str) -> Result<(), AllocError> {
    if let Ok(address) = word.parse() {
        ends.addresses.push(Addr(address))?;
        return Ok(());
    }
    let outcome = String::from_str(alloc, word)?;
    ends.allowed.push(Allowed { outcome, runs: 0 })?;
    Ok(())
}

// Takes the words that tell of the ends.
fn take_words(alloc: Global, ends: &mut Ends, words: SplitWhitespace) -> Result<(), AllocError> {
    for word in words {
        take_word(alloc, ends, word)?;
    }
    Ok(())
}

// Runs an image by the schedules of the seeds from 1 to a number, and prints what came of them.
fn run_seeds<R: Print>(
    rt: &R,
    alloc: Global,
    image: &Image,
    bounds: Bounds,
    count: u32,
    ends: &mut Ends,
) -> Result<(), Failure> {
    for before in 0..count {
        let seed = before + 1;
        let outcome = outcome_by(alloc, image, bounds, seed, ends.addresses.as_slice())?;
        note(rt, seed, outcome.as_str(), ends.allowed.as_mut_slice())?;
    }
    show_allowed(rt, count, ends.allowed.as_slice())?;
    Ok(())
}

// How a run by the schedule of a seed ends.
fn outcome_by(
    alloc: Global,
    image: &Image,
    bounds: Bounds,
    seed: u32,
    addresses: &[Addr],
) -> Result<String, Failure> {
    let machine = run_schedule(alloc, image, bounds, seed)?;
    outcome_of(alloc, &machine, addresses)
}

// Counts an outcome that is allowed, and prints any other.
fn note<R: Print>(rt: &R, seed: u32, outcome: &str, allowed: &mut [Allowed]) -> io::Result<()> {
    if is_noted(allowed, outcome) {
        return Ok(());
    }
    println!(rt; "  seed {seed}: {outcome}, which is not allowed")
}

// Runs an image by the schedule of a seed.
fn run_schedule(
    alloc: Global,
    image: &Image,
    bounds: Bounds,
    seed: u32,
) -> Result<PieceMachine, Failure> {
    let mut machine = PieceMachine::new(alloc, image, BUCKETS)?;
    let mut schedule = Schedule::new(seed);
    let mut event = Event::new(EventName::Local, 0);
    for before in 0..bounds.limit {
        if bounds.wakes_at(before) && wake(&mut machine, &mut schedule, &mut event)? {
            continue;
        }
        machine.make_room(1)?;
        let Some(thread) = schedule.next(&machine) else {
            break;
        };
        machine.step(thread, &mut event)?;
    }
    Ok(machine)
}

// Wakes a thread that sleeps from outside; false where none sleeps.
fn wake(
    machine: &mut PieceMachine,
    schedule: &mut Schedule,
    event: &mut Event,
) -> Result<bool, StepFault> {
    let Some(thread) = schedule.next_sleeper(machine) else {
        return Ok(false);
    };
    machine.stray(thread, event)?;
    Ok(true)
}

// Whether an outcome is allowed; then it is counted.
fn is_noted(allowed: &mut [Allowed], outcome: &str) -> bool {
    for one in allowed {
        if one.outcome.as_str() == outcome {
            one.runs = one.runs.saturating_add(1);
            return true;
        }
    }
    false
}

fn show_allowed<R: Print>(rt: &R, count: u32, allowed: &[Allowed]) -> io::Result<()> {
    println!(rt; "  {count} schedules")?;
    for one in allowed {
        let runs = one.runs;
        let outcome = one.outcome.as_str();
        println!(rt; "  {runs} {outcome}")?;
    }
    Ok(())
}
