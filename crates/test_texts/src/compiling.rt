// Texts that are compiled by several workers.

mod alike;
mod handing;
mod meeting;
mod repeating;

ghost use Rattle.std.specs.Prelude.{◌≤◌};
ghost use Rattle.codegen_workers.specs.Limits.{most_workers};

use crate::compiling::alike::show_alike;
use crate::compiling::handing::show_pieces;
use crate::compiling::meeting::Meeting;
use crate::compiling::repeating::repeat;
use crate::failure::Failure;
use compiler::compile_with;
use scanner::Refusal;
use std::sync::Wait;
use std::thread::Threads;

// How often three workers are to meet.
const MEETINGS: u32 = 10;

// How often a worker looks for the others at the gate.
const TURNS: u32 = 10_000_000;

// The same where no other can come.
const FEW_TURNS: u32 = 1000;

/// Does what a row on compiling workers says.
pub fn take_compiling<R: AllocGlobal + Print + Threads + Wait + Sync>(
    rt: &R,
    key: &str,
    said: &str,
) -> Result<(), Failure> {
    match key {
        "alike" => show_alike(rt, said),
        "meet" => show_meetings(rt, said),
        "alone" => show_alone(rt, said),
        "pieces" => show_pieces(rt, said),
        "times" => repeat(rt, said),
        _ => Err(Failure::Row),
    }
}

// Has three workers compile a text again and again, and prints whether all three met at the gate each time.
fn show_meetings<R: AllocGlobal + Print + Threads + Wait + Sync>(
    rt: &R,
    text: &str,
) -> Result<(), Failure> {
    for _ in 0..MEETINGS {
        if !meet(rt, text, 3, &Meeting::new(TURNS))? {
            println!(rt; "missed")?;
            return Ok(());
        }
    }
    println!(rt; "met {MEETINGS} times")?;
    Ok(())
}

// Has one worker compile a text, and prints whether it met others.
fn show_alone<R: AllocGlobal + Print + Threads + Wait + Sync>(
    rt: &R,
    text: &str,
) -> Result<(), Failure> {
    let held = meet(rt, text, 1, &Meeting::new(FEW_TURNS))?;
    println!(rt; "met {held}")?;
    Ok(())
}

// Compiles a text by this many workers, and answers whether all three met at the gate.
fn meet<R: AllocGlobal + Threads + Wait + Sync>(
    rt: &R,
    text: &str,
    workers: u32,
    gate: &Meeting,
) -> Result<bool, Refusal>
    requires { (1 ≤ workers) × (workers ≤ most_workers) }
{
    compile_with(rt, rt.alloc(), text.as_bytes(), workers, gate)?;
    Ok(gate.was_held())
}
