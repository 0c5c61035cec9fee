//! Runs images of the machine that stand as rows on standard input, and prints what came of each. A row is a name, a
//! limit of steps, the bytes of an image in hexadecimal digits, and how it is run, between white space:
//!
//! ```text
//!                     on the calling thread
//! workers             with a worker for each thread; what the schedule decides isn't printed
//! workers_meet        the same through a gate at which the workers of the first two threads wait for one another
//! alone_meet          on the calling thread through that gate
//! by_hand             not at all: a few pieces are handed in, and counted by two shares
//! schedules COUNT ADDRESS .. OUTCOME ..
//!                     step by step on the machine, by the schedules of the seeds 1 to COUNT, none of which may end
//!                     otherwise than in one of these ways, with these words at the addresses
//! strays COUNT ADDRESS .. OUTCOME ..
//!                     the same, but each seventh step is a wake from outside of a thread that sleeps, where any does:
//!                     the next draw, modulo how many sleep, is its place among these
//! stray_by_hand       in rounds until no thread can move; then the second thread is woken from outside, and the rounds
//!                     go on
//! kill_by_hand DEED ..
//!                     by what these words say: `T` is the next entry of thread T, `eT` its entries as long as it can
//!                     move, `kT` its kill, `pT` takes its piece out and keeps it, `hT` hands that in for it, and `wA`
//!                     prints the word at address A. The log is printed from the entry before the first kill on
//! pieces WORD ..      step by step on the machine, with futex calls in pieces over as many buckets as the limit says
//! ```
//!
//! The words behind `pieces` are these. What others see of each step is printed:
//!
//! ```text
//! TxN     up to N steps of thread T, local or shared, as long as none is refused
//! lTxN    up to N local steps of thread T, in its place, and prints how many they were
//! sT      a wake of thread T from outside
//! kT      a kill of thread T
//! rT      prints what a step of thread T would be refused for, or that it can go on
//! movers  prints the threads that can take a step, or that none can
//! ```
//!
//! Empty lines and lines that begin with `#` say nothing.
//!
//! The schedule of a seed follows from a sequence of 32-bit numbers, which begins with the seed: the next one is the
//! last one times 1,664,525, plus 1,013,904,223, modulo 2^32. A draw is the next number of the sequence divided by
//! 2^16, rounded down. For each turn there are two draws. The first, modulo the number of threads that can move, is the
//! place, from 0, of the turn's thread among these, by rising number. The second, modulo 2^(seed MOD 8), is one less
//! than the most steps that the turn has; it ends earlier where its thread can't move. The steps are those of the
//! machine, local or shared. So there are schedules in which the threads change at each step, and such in which one
//! goes on for up to 128.
//!
//! An outcome is a word: Done, Stuck or Limit, then the numbers that were printed, then `T=FAULT` for each thread that
//! aborted and `T@ADDRESS` for each that sleeps, by rising number, then `ADDRESS:WORD` for each address that the row
//! names, with the word at the end in hexadecimal digits, and with a comma before each of these.
//!
//! The script beside/speed/benchmark times it.
#![tactic(auto)]

mod by_hand;
mod failure;
mod kill_by_hand;
mod meeting;
mod opening;
mod outcome;
mod piece_steps;
mod pieces;
mod schedule;
mod schedules;
mod show;
mod stray_by_hand;

use crate::by_hand::hand_in;
use crate::failure::Failure;
use crate::kill_by_hand::run_with_kills;
use crate::meeting::Meeting;
use crate::opening::show_opening;
use crate::pieces::run_pieces;
use crate::schedules::{Outside, run_schedules};
use crate::show::{show, show_end};
use crate::stray_by_hand::run_with_stray;
use isa::{Image, decode};
use runner::{Report, run_in_order};
use std::alloc::Global;
use std::io;
use std::str::SplitWhitespace;
use std::sync::Wait;
use std::thread::Threads;
use words::OpenGate;
use workers::Calls;

// How often a worker looks for the other at the gate.
const TURNS: u32 = 10_000_000;

// The same where no other can come.
const FEW_TURNS: u32 = 1000;

fn main(rt: HostRuntime) -> io::Result<()> {
    for line in rt.lines(rt.alloc()) {
        let line = line?;
        if line.trim().is_empty() || line.starts_with('#') {
            continue;
        }
        if let Err(failure) = run_row(&rt, rt.alloc(), line.as_str()) {
            println!(rt; "{failure}")?;
        }
    }
    Ok(())
}

// Runs the image of one row.
fn run_row<R: Threads + Wait + Sync + Print>(
    rt: &R,
    alloc: Global,
    row: &str,
) -> Result<(), Failure> {
    let mut words = row.split_whitespace();
    let name = words.next().ok_or(Failure::Row)?;
    let limit = words.next().ok_or(Failure::Row)?;
    let digits = words.next().ok_or(Failure::Row)?;
    let limit: u32 = limit.parse().map_err(|_| Failure::Row)?;
    let image = image_of(alloc, digits)?;
    println!(rt; "{name}")?;
    run_image(rt, alloc, &image, limit, words)
}

// The image that digits spell.
fn image_of(alloc: Global, digits: &str) -> Result<Image, Failure> {
    let bytes = hex::decode(alloc, digits).map_err(|_| Failure::Row)?;
    Ok(decode(alloc, bytes.as_slice())?)
}

// Runs an image as these words say.
fn run_image<R: Threads + Wait + Sync + Print>(
    rt: &R,
    alloc: Global,
    image: &Image,
    limit: u32,
    mut words: SplitWhitespace,
) -> Result<(), Failure> {
    match words.next() {
        None => run_alone(rt, alloc, image, limit),
        Some("workers") => run_workers(rt, alloc, image, limit),
        Some("workers_meet") => meet_workers(rt, alloc, image, limit, &Meeting::new(TURNS)),
        Some("alone_meet") => meet_alone(rt, alloc, image, limit, &Meeting::new(FEW_TURNS)),
        Some("by_hand") => hand_in(rt, alloc, image, limit),
        Some("schedules") => run_schedules(rt, alloc, image, limit, Outside::Nothing, words),
        Some("strays") => run_schedules(rt, alloc, image, limit, Outside::Strays, words),
        Some("stray_by_hand") => run_with_stray(rt, alloc, image, limit),
        Some("kill_by_hand") => run_with_kills(rt, alloc, image, limit, words),
        Some("pieces") => run_pieces(rt, alloc, image, limit, words),
        Some(_) => Err(Failure::Row),
    }
}

fn run_alone<R: Print>(rt: &R, alloc: Global, image: &Image, limit: u32) -> Result<(), Failure> {
    show_opening(rt, alloc, image)?;
    let report = run_in_order(alloc, image, limit, &OpenGate)?;
    show(rt, &report)?;
    Ok(())
}

fn run_workers<R: Threads + Wait + Sync + Print>(
    rt: &R,
    alloc: Global,
    image: &Image,
    limit: u32,
) -> Result<(), Failure> {
    let report = workers::run(rt, alloc, image, limit, Calls::PutOff, &OpenGate)?;
    show_end(rt, &report)?;
    Ok(())
}

fn meet_workers<R: Threads + Wait + Sync + Print>(
    rt: &R,
    alloc: Global,
    image: &Image,
    limit: u32,
    gate: &Meeting,
) -> Result<(), Failure> {
    let report = workers::run(rt, alloc, image, limit, Calls::AtOnce, gate)?;
    show_met(rt, gate.was_held(), &report)?;
    Ok(())
}

fn meet_alone<R: Print>(
    rt: &R,
    alloc: Global,
    image: &Image,
    limit: u32,
    gate: &Meeting,
) -> Result<(), Failure> {
    let report = run_in_order(alloc, image, limit, gate)?;
    show_met(rt, gate.was_held(), &report)?;
    Ok(())
}

// Prints whether the gate held both workers, and what came of the run.
fn show_met<R: Print>(rt: &R, held: bool, report: &Report) -> io::Result<()> {
    println!(rt; "  met {held}")?;
    show_end(rt, report)
}
