ghost use Rattle.std.specs.Prelude.{◌≡◌, ◌≤◌};
ghost use Rattle.program.specs.Names.{said_by};
ghost use Rattle.lowering.specs.Layout.{layout_of};
ghost use Rattle.codegen_workers.specs.Limits.{most_workers};

use crate::failure::Failure;
use codegen::{CodePiece, generate};
use codegen_workers::{MOST_WORKERS, generate_with};
use compiler::compile_checked;
use layout::Layout;
use program::Checked;
use scanner::Refusal;
use std::sync::Wait;
use std::thread::Threads;
use words::OpenGate;

/// Makes the code of a text's pieces so often, by so many workers, or by `generate` where there are none, and prints
/// how many pieces there are.
pub fn repeat<R: AllocGlobal + Print + Threads + Wait + Sync>(
    rt: &R,
    said: &str,
) -> Result<(), Failure> {
    let (count, said) = said.split_once(' ').ok_or(Failure::Row)?;
    let (workers, text) = said.split_once(' ').ok_or(Failure::Row)?;
    let count: u32 = count.parse().map_err(|_| Failure::Row)?;
    let workers: u32 = workers.parse().map_err(|_| Failure::Row)?;
    if workers > MOST_WORKERS {
        return Err(Failure::Row);
    }
    let pieces = make_of_text(rt, text, count, workers)?;
    println!(rt; "{pieces} pieces")?;
    Ok(())
}

fn make_of_text<R: AllocGlobal + Threads + Wait + Sync>(
    rt: &R,
    text: &str,
    count: u32,
    workers: u32,
) -> Result<usize, Refusal>
    requires { workers ≤ most_workers }
{
    let (checked, lowered) = compile_checked(rt.alloc(), text.as_bytes())?;
    make_often(rt, &checked, &lowered.layout, count, workers)
}

// Makes the pieces of a program so often, and answers how many they are.
fn make_often<R: AllocGlobal + Threads + Wait + Sync>(
    rt: &R,
    checked: &Checked,
    layout: &Layout,
    count: u32,
    workers: u32,
) -> Result<usize, Refusal>
    requires laid_out { layout.now ≡ layout_of (said_by checked.now) }
    requires workers { workers ≤ most_workers }
{
    let mut pieces = 0;
    for _ in 0..count {
        pieces = make(rt, checked, layout, workers)?.len();
    }
    Ok(pieces)
}

fn make<R: AllocGlobal + Threads + Wait + Sync>(
    rt: &R,
    checked: &Checked,
    layout: &Layout,
    workers: u32,
) -> Result<Vec<CodePiece>, Refusal>
    requires laid_out { layout.now ≡ layout_of (said_by checked.now) }
    requires workers { workers ≤ most_workers }
{
    if workers == 0 {
        return generate(rt.alloc(), checked, layout);
    }
    generate_with(rt, rt.alloc(), checked, layout, workers, &OpenGate)
}
