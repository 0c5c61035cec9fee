ghost use Rattle.std.specs.Prelude.{◌≡◌};

use crate::failure::Failure;
use isa::Image;
use runner::{Next, PARTS, RunFault, RunName, Share, Shared};
use std::alloc::Global;
use std::io;
use std::marker::Brand;
use std::sync::ledger::Blank;

/// Hands in pieces of the first two threads by hand, and prints what each is answered, and what the shares of the count
/// say before and after they are put together.
pub fn hand_in<R: Print>(rt: &R, alloc: Global, image: &Image, limit: u32) -> Result<(), Failure> {
    hand_in_as::<Brand, R>(rt, alloc, image, limit, Blank::new(u64::from(PARTS)))
}

fn hand_in_as<J: RunName, R: Print>(
    rt: &R,
    alloc: Global,
    image: &Image,
    limit: u32,
    blank: Blank,
) -> Result<(), Failure>
    requires image { image.now ≡ J.program }
    requires limit { limit ≡ J.limit }
    requires blank { (blank.name ≡ J.name) × (blank.parts ≡ J.parts) × (J.parts ≡ 1024) }
{
    let mut shared = Shared::<J>::new(alloc, image, limit, blank)?;
    Ok(show_shares(rt, &mut shared, image)?)
}

// The same, of a run that has begun.
fn show_shares<J: RunName, R: Print>(
    rt: &R,
    shared: &mut Shared<J>,
    image: &Image,
) -> io::Result<()>
    requires { image.now ≡ J.program }
{
    let (Some(mut one), Some(mut two)) = (shared.share(), shared.share()) else {
        return Ok(());
    };
    show_pieces(rt, shared, image, &mut one, &mut two)?;
    one.merge(two);
    audit(rt, shared, &mut one)
}

// Hands in pieces, the last one after its thread has gone on, and prints the answers and what both shares say.
fn show_pieces<J: RunName, R: Print>(
    rt: &R,
    shared: &mut Shared<J>,
    image: &Image,
    one: &mut Share<J>,
    two: &mut Share<J>,
) -> io::Result<()>
    requires { image.now ≡ J.program }
{
    let late = shared.piece(1);
    show_steps(rt, shared, image, one, two)?;
    if let Some(piece) = late {
        let answer = shared.step(1, piece.run(image), one);
        println!(rt; "  late piece: {}", name_of(answer))?;
    }
    let entries = shared.log().len();
    let steps = shared.steps();
    println!(rt; "  {entries} entries, {steps} steps")?;
    audit(rt, shared, one)?;
    audit(rt, shared, two)
}

// Hands in a piece of the first thread for each of both, and then the second thread's own.
fn show_steps<J: RunName, R: Print>(
    rt: &R,
    shared: &mut Shared<J>,
    image: &Image,
    one: &mut Share<J>,
    two: &mut Share<J>,
) -> io::Result<()>
    requires { image.now ≡ J.program }
{
    step(rt, shared, image, 1, 1, one)?;
    step(rt, shared, image, 2, 1, two)?;
    step(rt, shared, image, 2, 2, two)
}

// Hands in, for thread `t`, the piece of thread `from`, if it can move.
fn step<J: RunName, R: Print>(
    rt: &R,
    shared: &mut Shared<J>,
    image: &Image,
    t: u32,
    from: u32,
    share: &mut Share<J>,
) -> io::Result<()>
    requires { image.now ≡ J.program }
{
    let Some(piece) = shared.piece(from) else {
        return println!(rt; "  thread {from} has no piece");
    };
    let answer = shared.step(t, piece.run(image), share);
    println!(rt; "  piece of {from} for {t}: {}", name_of(answer))
}

fn name_of<J: RunName>(answer: Result<Next<J>, RunFault>) -> &'static str {
    match answer {
        Ok(Next::Go(_)) => "goes on",
        Ok(Next::Sleep) => "sleeps",
        Ok(Next::End) => "has ended",
        Err(RunFault::Stray) => "stray",
        Err(RunFault::Limit) => "limit",
        Err(RunFault::CannotMove) => "cannot move",
        Err(RunFault::Broken) => "broken",
        Err(RunFault::Memory) => "memory",
    }
}

// What a share says, and whether it has all parts that were given out.
fn audit<J: RunName, R: Print>(
    rt: &R,
    shared: &mut Shared<J>,
    share: &mut Share<J>,
) -> io::Result<()> {
    let parts = share.parts();
    let count = share.count();
    let is_whole = shared.audit(share);
    println!(rt; "  {parts} parts, {count} entries, whole {is_whole}")
}
