ghost use Rattle.std.specs.Prelude.{◌≡◌, ◌<◌, IfErr, IfOk, Some, length};
ghost use Rattle.answers.specs.Failures.{OrMemory};
ghost use Rattle.answers.specs.Turns.{digit_behind, is_white_space, number_from, turn_of, turns_in};

use crate::failure::Failure;
use runner::Turn;
use scanner::MOST_BYTES;
use std::alloc::{AllocError, Global};

// White space in a schedule, as in a source text: space, tab, line feed and carriage return.
fn is_white_space(byte: u8) -> bool
    ensures { result ≡ is_white_space byte }
{
    byte == b' ' || byte == b'\t' || byte == b'\n' || byte == b'\r'
}

/// The turns of the schedule that these bytes are.
pub fn schedule_of<'a>(alloc: Global, bytes: &[u8]) -> Result<Vec<Turn>, Failure<'a>>
    ensures turns { IfOk result (λ turns. turns.items ≡ turns_in bytes.now) }
    ensures failed { IfErr result
        (OrMemory (λ f. (f ≡ Failure.Schedule 0) × (MOST_BYTES < length bytes.now))) }
{
    if bytes.len() > MOST_BYTES {
        return Err(Failure::Schedule(0));
    }
    Ok(turns_of(alloc, bytes)?)
}

// The turns of a schedule's text: one for each word between white space.
fn turns_of(alloc: Global, text: &[u8]) -> Result<Vec<Turn>, AllocError>
    ensures { IfOk result (λ turns. turns.items ≡ turns_in text.now) }
{
    text.split(|byte| is_white_space(*byte))
        .filter(|word| !word.is_empty())
        .map(|word| turn_of(word))
        .collect(alloc)
}

// The turn of a word: the number of the thread that takes a step, or behind an `s` of the one that is woken from
// outside, or behind a `k` of the one that is killed.
//
// What is no number to 4294967295 names thread 0, which there never is, so that it is refused as the turn of a thread
// that can't move, or doesn't sleep, or was never made.
fn turn_of(word: &[u8]) -> Turn
    ensures { result ≡ turn_of word.now }
{
    let Some((first, digits)) = word.split_first() else {
        return Turn::Step(0);
    };
    if *first == b's' {
        return Turn::Stray(thread_of(digits));
    }
    if *first == b'k' {
        return Turn::Kill(thread_of(digits));
    }
    Turn::Step(thread_of(word))
}

// The number that decimal digits write. Where they write none of 32 bits it is 0.
fn thread_of(digits: &[u8]) -> u32
    ensures { result ≡ number_from (Some 0) digits.now }
{
    let mut number: u32 = 0;
    for digit in digits {
        let Some(more) = digit_behind(number, *digit) else {
            return 0;
        };
        number = more;
    }
    number
}

// The number with a digit behind its own, where it has 32 bits.
fn digit_behind(number: u32, digit: u8) -> Option<u32>
    ensures { result ≡ digit_behind number digit }
{
    if digit < b'0' || digit > b'9' {
        return None;
    }
    let more = number as u64 * 10 + (digit - b'0') as u64;
    if more < 1 << 32 {
        Some(more as u32)
    } else {
        None
    }
}
