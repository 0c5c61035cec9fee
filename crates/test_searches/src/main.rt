//! Searches all schedules of images that stand as rows on standard input, and prints of each how the search ended. A row is
//! a name, how many states may be kept, 1 with strays and 0 without, how many threads may be killed, and the bytes of an
//! image in hexadecimal digits, in words; a word `DIGITSxN` stands for so many times these digits. Empty lines and lines that
//! begin with `#` say nothing.
//!
//! How many states there are is printed where all were kept: which were kept before an end was found depends on the order in
//! which they are.
#![tactic(auto)]

use image_search::{
    Bound, Doubt, Ending, ImageExploration, NextsBound, Outside, Sleeping, Untold, explore_image,
};
use isa::decode;
use std::alloc::{AllocError, Global};
use std::io;
use std::str::SplitWhitespace;

fn main(rt: HostRuntime) -> io::Result<()> {
    for line in rt.lines(rt.alloc()) {
        let line = line?;
        if line.trim().is_empty() || line.starts_with('#') {
            continue;
        }
        search_row(&rt, line.as_str())?;
    }
    Ok(())
}

// Searches the image of a row, and prints what came of it.
fn search_row<R: AllocGlobal + Print>(rt: &R, row: &str) -> io::Result<()> {
    let mut words = row.split_whitespace();
    let name = words.next().unwrap_or("");
    let most = number(words.next());
    let outside = Outside {
        strays: number(words.next()) == 1,
        kills: number(words.next()),
    };
    let digits = digits_of(rt.alloc(), words)?;
    let Ok(bytes) = hex::decode(rt.alloc(), digits.as_str()) else {
        return println!(rt; "{name}: no digits");
    };
    let Ok(image) = decode(rt.alloc(), bytes.as_slice()) else {
        return println!(rt; "{name}: no image");
    };
    let found = explore_image(rt.alloc(), &image, most, outside, &mut Untold)?;
    show(rt, name, &found)
}

// The number that a word spells; 0 where it spells none.
fn number(word: Option<&str>) -> u32 {
    match word {
        None => 0,
        Some(word) => word.parse().unwrap_or(0),
    }
}

// The digits that these words stand for.
fn digits_of(alloc: Global, words: SplitWhitespace) -> Result<String, AllocError> {
    let mut digits = String::new(alloc);
    for word in words {
        match word.split_once('x') {
            None => digits.push_str(word)?,
            Some((some, times)) => {
                for _ in 0..number(Some(times)) {
                    digits.push_str(some)?;
                }
            }
        }
    }
    Ok(digits)
}

// What a bound is called.
fn bound_name(bound: Bound) -> &'static str {
    match bound {
        Bound::States => "States",
        Bound::Nexts(NextsBound::Sleepers) => "Sleepers",
        Bound::Nexts(_) => "Nexts",
        Bound::Choice => "Choice",
    }
}

// What is told of threads that sleep for good.
fn sleeping_name(sleeping: &Sleeping) -> &'static str {
    match sleeping {
        Sleeping::Unsought => "",
        Sleeping::Never => ", all are woken",
        Sleeping::ForGood { .. } => ", some sleep for good",
        Sleeping::Unknown(Doubt::Wakes) => ", some may sleep for good",
        Sleeping::Unknown(_) => ", unknown",
    }
}

// Prints how a search ended.
fn show<R: Print>(rt: &R, name: &str, found: &ImageExploration) -> io::Result<()> {
    match &found.ending {
        Ending::Complete => {
            println!(rt;
                "{name}: {} states{}",
                found.states,
                sleeping_name(&found.sleeping)
            )
        }
        Ending::Stuck(_) => println!(rt; "{name}: stuck"),
        Ending::Failed(_) => println!(rt; "{name}: failed"),
        Ending::Broken(_) => println!(rt; "{name}: broken"),
        Ending::Bounded(bound) => println!(rt; "{name}: {}", bound_name(*bound)),
    }
}
