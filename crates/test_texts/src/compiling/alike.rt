ghost use Rattle.std.specs.Prelude.{◌≤◌};
ghost use Rattle.codegen_workers.specs.Limits.{most_workers};

use crate::failure::Failure;
use compiler::{compile, compile_as, compile_with_as};
use isa::{Image, encode};
use scanner::Refusal;
use std::alloc::{AllocError, Global};
use std::io;
use std::sync::Wait;
use std::thread::Threads;
use words::{ImageVersion, OpenGate};

// The bytes of a text's image, or the text's refusal.
type Outcome = Result<Vec<u8>, Refusal>;

/// Compiles a text by `compile`, and prints how many bytes its image has, or its refusal; and each number of workers by
/// whom something else comes out, in an image of either version.
pub fn show_alike<R: AllocGlobal + Print + Threads + Wait + Sync>(
    rt: &R,
    text: &str,
) -> Result<(), Failure> {
    let plain = bytes_of(rt.alloc(), compile(rt.alloc(), text.as_bytes()))?;
    show(rt, &plain)?;
    compare_all(rt, text, &plain, ImageVersion::Two)?;
    let first = compile_as(rt.alloc(), text.as_bytes(), ImageVersion::One);
    let first = bytes_of(rt.alloc(), first)?;
    compare_all(rt, text, &first, ImageVersion::One)
}

// Compiles a text for an image of this version by several numbers of workers, and tells by whom something else comes out.
fn compare_all<R: AllocGlobal + Print + Threads + Wait + Sync>(
    rt: &R,
    text: &str,
    plain: &Outcome,
    version: ImageVersion,
) -> Result<(), Failure> {
    compare(rt, text, plain, version, 1)?;
    compare(rt, text, plain, version, 2)?;
    compare(rt, text, plain, version, 3)?;
    compare(rt, text, plain, version, 7)?;
    compare(rt, text, plain, version, 64)
}

fn bytes_of(alloc: Global, outcome: Result<Image, Refusal>) -> Result<Outcome, AllocError> {
    match outcome {
        Ok(image) => Ok(Ok(encode(alloc, &image)?)),
        Err(refusal) => Ok(Err(refusal)),
    }
}

fn show<R: Print>(rt: &R, outcome: &Outcome) -> io::Result<()> {
    match outcome {
        Ok(bytes) => {
            let count = bytes.len();
            println!(rt; "{count} bytes")
        }
        Err(refusal) => println!(rt; "{refusal}"),
    }
}

// Compiles a text for an image of this version by this many workers, and tells where something else comes out.
fn compare<R: AllocGlobal + Print + Threads + Wait + Sync>(
    rt: &R,
    text: &str,
    plain: &Outcome,
    version: ImageVersion,
    workers: u32,
) -> Result<(), Failure>
    requires { (1 ≤ workers) × (workers ≤ most_workers) }
{
    let image = compile_with_as(rt, rt.alloc(), text.as_bytes(), version, workers, &OpenGate);
    let made = bytes_of(rt.alloc(), image)?;
    if !is_same(plain, &made) {
        println!(rt; "another image by {workers} workers")?;
    }
    Ok(())
}

fn is_same(one: &Outcome, other: &Outcome) -> bool {
    match (one, other) {
        (Ok(one), Ok(other)) => one == other,
        (Err(one), Err(other)) => one == other,
        _ => false,
    }
}
