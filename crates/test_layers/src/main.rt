//! Runs the calls of the lower layers that stand as rows on standard input, and prints each row with what came of it.
//!
//! A row is `image` or `beginnings` and the bytes of an image in hexadecimal digits, or a call and its numbers, over
//! 512 words and 64 threads: `buckets N` makes them anew, and `load 385` or `wait 5 385 6` is a call on them. A row
//! that begins with a number sign is printed as it is. `code` and `answer` take the steps of one thread: how many
//! instructions there are, their bytes in hexadecimal digits, and its operands. `tokens` is followed by a source text,
//! `spelled` by one in hexadecimal digits, and `blanks` by the length of one that is nothing but blanks. `log` is
//! followed by entries with commas between them, each behind the name of the call that puts it into a packed log, and
//! `map` by calls on a sorted map, likewise apart.
#![tactic(auto)]

mod answer;
mod failure;
mod images;
mod layers;
mod logs;
mod maps;
mod threads;
mod tokens;
mod walk;

use crate::answer::show;
use crate::failure::Failure;
use crate::images::{show_beginnings, show_image};
use crate::layers::Layers;
use crate::logs::show_log;
use crate::maps::show_map;
use crate::threads::{show_answered, show_code};
use crate::tokens::{show_blanks, show_spelled, show_tokens};
use std::io;
use words::BUCKETS;

fn main(rt: HostRuntime) -> io::Result<()> {
    match Layers::new(rt.alloc(), BUCKETS) {
        Ok(mut layers) => run_rows(&rt, &mut layers),
        Err(failure) => println!(rt; "{failure}"),
    }
}

fn run_rows(rt: &HostRuntime, layers: &mut Layers) -> io::Result<()> {
    for line in rt.lines(rt.alloc()) {
        let line = line?;
        show_row(rt, layers, line.as_str())?;
    }
    Ok(())
}

// Prints a row, and what comes of it.
fn show_row(rt: &HostRuntime, layers: &mut Layers, row: &str) -> io::Result<()> {
    println!(rt; "{row}")?;
    match run_row(rt, layers, row) {
        Ok(()) => Ok(()),
        Err(failure) => println!(rt; "  {failure}"),
    }
}

// Makes a call, and prints its answer.
fn call(rt: &HostRuntime, layers: &mut Layers, name: &str, rest: &str) -> Result<(), Failure> {
    let answer = layers.call(rt.alloc(), name, rest)?;
    show(rt, &answer)
}

// What a row asks for: nothing, an image's bytes, or a call.
fn run_row(rt: &HostRuntime, layers: &mut Layers, row: &str) -> Result<(), Failure> {
    let (name, rest) = row.split_once(' ').ok_or(Failure::Row)?;
    match name {
        "#" => Ok(()),
        "image" => show_image(rt, rest),
        "beginnings" => show_beginnings(rt, rest),
        "code" => show_code(rt, rest),
        "answer" => show_answered(rt, rest),
        "tokens" => show_tokens(rt, rest.as_bytes()),
        "spelled" => show_spelled(rt, rest),
        "blanks" => show_blanks(rt, rest),
        "log" => show_log(rt, rest),
        "map" => show_map(rt, rest),
        _ => call(rt, layers, name, rest),
    }
}
