ghost use Rattle.std.specs.Prelude.{◌≤◌, length, IfOk};

use crate::failure::Failure;
use isa::{Image, decode};
use locals::{Local, NextStep, Sequences, opening_local, run_local};
use std::alloc::{AllocError, Global};
use words::Mem;

// The thread whose local steps are taken.
const THREAD: u32 = 5;

// The most local steps that are taken.
const MOST_STEPS: u32 = 1000;

// The most operands of a thread.
const MOST_OPERANDS: usize = 512;

/// Prints how many local steps a thread takes from the start of a code, and the step that it comes to; and whether it is
/// elsewhere by sequences of instructions.
pub fn show_code(rt: &HostRuntime, row: &str) -> Result<(), Failure> {
    let image = image_of(rt.alloc(), row)?;
    let operands = operands_of(rt.alloc(), row)?;
    let (local, steps) = run_local(
        &image,
        THREAD,
        opening_local(0, operands.as_slice()),
        MOST_STEPS,
    );
    let next = local.next_step(&image, THREAD);
    println!(rt; "  {steps} local steps, {next:?}")?;
    let (by_sequences, taken) = led_by_sequences(rt.alloc(), &image, operands.as_slice())?;
    if taken != steps || !by_sequences.equals(&local) {
        println!(rt; "  by sequences {taken}")?;
    }
    Ok(())
}

// Where the same thread comes by sequences of instructions, and how many steps it took.
fn led_by_sequences(
    alloc: Global,
    image: &Image,
    operands: &[u32],
) -> Result<(Local, u32), AllocError>
    requires { length operands.now ≤ 512 }
{
    let sequences = Sequences::new(alloc, image)?;
    let mut nothing = Mem::new(alloc, 0)?;
    let mut local = opening_local(0, operands);
    let taken = local.run_by_sequences(image, &sequences, THREAD, MOST_STEPS, &mut nothing);
    Ok((local, taken))
}

/// Prints the first step of a thread at the start of a code, and what comes of the answer 0.
pub fn show_answered(rt: &HostRuntime, row: &str) -> Result<(), Failure> {
    let image = image_of(rt.alloc(), row)?;
    let operands = operands_of(rt.alloc(), row)?;
    let (first, behind) = answered(&image, operands.as_slice());
    println!(rt; "  {first:?}, behind it {behind:?}")?;
    Ok(())
}

// The step of a thread with these operands, and the one behind the answer 0, which each request takes.
#[tactic(auto, using(crate::proofs::Zero::zero_answers))]
fn answered(image: &Image, operands: &[u32]) -> (NextStep, NextStep)
    requires { length operands.now ≤ 512 }
{
    let mut local = opening_local(0, operands);
    let first = local.next_step(image, THREAD);
    local.go_on(image, THREAD, 0);
    (first, local.next_step(image, THREAD))
}

// The image of a row: how many instructions there are, and their bytes.
fn image_of(alloc: Global, row: &str) -> Result<Image, Failure> {
    let mut words = row.split_whitespace();
    let count: u8 = words
        .next()
        .ok_or(Failure::Row)?
        .parse()
        .map_err(|_| Failure::Row)?;
    let code = hex::decode(alloc, words.next().ok_or(Failure::Row)?).map_err(|_| Failure::Row)?;
    let mut bytes = Vec::from_slice(alloc, &[0x4d, 0x46, 0x55, 0x54, 1, 0, 0, count])?;
    bytes.extend_from_slice(code.as_slice())?;
    Ok(decode(alloc, bytes.as_slice())?)
}

// The operands of a row, behind the image, the lowest first.
fn operands_of(alloc: Global, row: &str) -> Result<Vec<u32>, Failure>
    ensures { IfOk result (λ operands. length operands.items ≤ 512) }
{
    let mut operands = Vec::new(alloc);
    for word in row.split_whitespace().skip(2) {
        match word.parse::<i32>() {
            Ok(number) => operands.push(words::word(number))?,
            Err(_) => return Err(Failure::Row),
        }
    }
    if operands.len() > MOST_OPERANDS {
        return Err(Failure::Outside);
    }
    Ok(operands)
}
