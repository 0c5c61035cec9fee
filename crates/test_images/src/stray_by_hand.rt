ghost use Rattle.std.specs.Prelude.{◌≡◌, true};

use crate::failure::Failure;
use crate::show::show_run;
use isa::Image;
use runner::{PARTS, RunFault, RunName, Share, Shared};
use std::alloc::Global;
use std::io;
use std::marker::Brand;
use std::sync::ledger::Blank;

// The thread that is woken from outside.
const SLEEPER: u32 = 2;

/// Runs an image in rounds until no thread can move, wakes the second thread from outside, and goes on. Prints what the
/// wake is answered before the first round and then, and how the run ends.
pub fn run_with_stray<R: Print>(
    rt: &R,
    alloc: Global,
    image: &Image,
    limit: u32,
) -> Result<(), Failure> {
    run_as::<Brand, R>(rt, alloc, image, limit, Blank::new(u64::from(PARTS)))
}

fn run_as<J: RunName, R: Print>(
    rt: &R,
    alloc: Global,
    image: &Image,
    limit: u32,
    blank: Blank,
) -> Result<(), Failure>
    requires image { image.now ≡ J.program }
    requires limit { limit ≡ J.limit }
    requires blank { (blank.name ≡ J.name) × (blank.parts ≡ J.parts) × (J.parts ≡ 1024) }
    requires strays { J.outside.strays ≡ true }
{
    let mut shared = Shared::<J>::new(alloc, image, limit, blank)?;
    go_around_wakes(rt, &mut shared, image, limit)?;
    let (log, machine) = shared.into_parts();
    show_run(rt, alloc, log, machine)
}

// Goes on until no thread can move, wakes the sleeper, and goes on again. Prints the answers, and what its share has
// counted.
fn go_around_wakes<J: RunName, R: Print>(
    rt: &R,
    shared: &mut Shared<J>,
    image: &Image,
    limit: u32,
) -> io::Result<()>
    requires image { image.now ≡ J.program }
    requires strays { J.outside.strays ≡ true }
{
    let Some(mut share) = shared.share() else {
        return Ok(());
    };
    wake(rt, shared, &mut share)?;
    go_round(shared, image, limit, &mut share);
    wake(rt, shared, &mut share)?;
    go_round(shared, image, limit, &mut share);
    let is_whole = shared.audit(&mut share);
    let count = share.count();
    println!(rt; "  {count} entries, whole {is_whole}")
}

// Wakes the sleeper from outside, and prints the answer.
fn wake<J: RunName, R: Print>(
    rt: &R,
    shared: &mut Shared<J>,
    share: &mut Share<J>,
) -> io::Result<()>
    requires strays { J.outside.strays ≡ true }
{
    let answer = match shared.stray(SLEEPER, share) {
        Ok(()) => "woken",
        Err(RunFault::CannotMove) => "cannot move",
        Err(RunFault::Limit) => "limit",
        Err(_) => "refused",
    };
    println!(rt; "  thread {SLEEPER}: {answer}")
}

// Hands in a piece of each thread that can move, round after round.
fn go_round<J: RunName>(shared: &mut Shared<J>, image: &Image, limit: u32, share: &mut Share<J>)
    requires { image.now ≡ J.program }
{
    for _ in 0..limit {
        if !hand_in_all(shared, image, share) {
            break;
        }
    }
}

// Hands in a piece of each thread that can move; false where there is none that is taken.
fn hand_in_all<J: RunName>(shared: &mut Shared<J>, image: &Image, share: &mut Share<J>) -> bool
    requires { image.now ≡ J.program }
{
    let mut is_any = false;
    for before in 0..shared.machine().threads() {
        let thread = before + 1;
        if let Some(piece) = shared.piece(thread) {
            is_any = shared.step(thread, piece.run(image), share).is_ok() || is_any;
        }
    }
    is_any
}
