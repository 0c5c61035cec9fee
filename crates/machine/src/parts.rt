ghost use Rattle.std.specs.Prelude.{◌≡◌, ◌^◌, sum, ◌≤◌, ◌<◌, Some, None, Ok, Err, IfOk, IfErr, OnOk, OnErr, [], ◌∷◌};
ghost use Rattle.std.specs.Prelude.{length, replicate, slice_index, slice_set, vec_len, vec_capacity};
ghost use Rattle.words.specs.Limits.{most_threads};
ghost use Rattle.words.specs.Versions.{most_of};
ghost use Rattle.isa.specs.Programs.{memory_size};
ghost use Rattle.locals.specs.Threads.{Thread, opening_thread};
ghost use Rattle.locals.specs.Looks.{look};
ghost use Rattle.locals.specs.Requests.{next_step_of};
ghost use Rattle.buckets.specs.Sleepers.{place_of, thread_count};
ghost use Rattle.machine.specs.States.{thread_at};
ghost use Rattle.machine.specs.ConcreteSteps.{step_of};
ghost use Rattle.machine.specs.RequestMeanings.{AsksFork};
ghost use Rattle.machine.specs.Views.{parts_of, variable_address};

use crate::common::Common;
use crate::event::{Event, StepFault};
use crate::thread_step::{take_exit, take_fork, take_local, take_request};
use isa::Image;
use locals::{Local, NextStep, opening_local};
use std::alloc::{AllocError, Global};
use words::{Addr, Mem, ProcessWord, block};

fn total(numbers: &[u32]) -> u32
    requires { sum numbers.now < 2 ^ 32 }
    ensures { result ≡ sum numbers.now }
{
    numbers.iter().sum()
}

/// How many words the memory of an image has.
pub fn memory_len(image: &Image) -> usize
    ensures value { result ≡ memory_size image.now }
{
    let base = image.version().monitors_base() as usize;
    base + 2 * image.monitors().len() + total(image.monitors()) as usize
}

/// How many threads of an image there can be. A machine can run so many.
#[tactic(auto, using(words::proofs::Versions::most_few))]
pub fn thread_limit(image: &Image) -> u32
    ensures value { result ≡ most_of image.now.version }
    ensures fits { result ≤ most_threads }
{
    image.version().most_processes()
}

/// The words at the start of an image: all 0, but for the id word of the first process, which is its number.
pub fn opening_words(alloc: Global, image: &Image) -> Result<Mem, AllocError>
    ensures { IfOk result (λ words. words ≡ slice_set (replicate (memory_size image.now) 0) 3 1) }
{
    let mut words = Mem::new(alloc, memory_len(image))?;
    words.store(block(1, ProcessWord::Id), 1);
    Ok(words)
}

/// The threads at the start of an image: the first, with room for all that can be made.
pub fn opening_threads(alloc: Global, image: &Image) -> Result<Vec<Local>, AllocError>
    ensures threads { IfOk result (λ threads. threads.items
        ≡ opening_thread image.now.start [] ∷ []) }
    ensures space { IfOk result (λ threads. most_of image.now.version ≤ vec_capacity threads) }
{
    let start = image.start();
    let mut threads = Vec::with_capacity(alloc, thread_limit(image) as usize)?;
    threads.push_reserved(opening_local(start, &[]));
    Ok(threads)
}

/// The address of a member word of a monitor.
#[tactic(auto, using(crate::proofs::Members::member_within))]
pub fn variable(image: &Image, monitor: u32, index: u32) -> Addr
    requires monitor { monitor < length image.now.monitors }
    requires index { index < slice_index image.now.monitors monitor }
    ensures address { result.0 ≡ variable_address image.now.version image.now.monitors monitor index }
    ensures within { result.0 < memory_size image.now }
{
    let members = total(&image.monitors()[..monitor as usize]);
    Addr(image.version().monitors_base() + 2 * monitor + members + 2 + index)
}

/// The step of thread `t`, which was made and is awake, whose next step is `next`, on the parts of a machine.
pub fn step_parts(
    image: &Image,
    shared: &mut Common,
    threads: &mut Vec<Local>,
    t: u32,
    next: NextStep,
    event: &mut Event,
) -> Result<(), StepFault>
    requires room { length shared.old.output < shared.old.capacity }
    requires thread { (0 < t) × (t ≤ vec_len threads.old) }
    requires few { vec_len threads.old ≤ thread_count shared.old.sleepers }
    requires fits { thread_count shared.old.sleepers ≤ most_threads }
    requires awake { place_of shared.old.sleepers t ≡ None }
    requires next { (x : Thread) → thread_at threads.old.items t ≡ Some x
        → next ≡ next_step_of (look image.now t x) }
    requires space { thread_count shared.old.sleepers ≤ vec_capacity threads.old }
    ensures done { OnOk result (step_of image.now (parts_of shared.old threads.old.items) t
        ≡ Ok (parts_of shared.new threads.new.items, event.new)) }
    ensures err { IfErr result (λ f. step_of image.now (parts_of shared.old threads.old.items) t
        ≡ Err f) }
    ensures same { OnErr result ((shared.new ≡ shared.old)
        × (threads.new.items ≡ threads.old.items)) }
    ensures capacity { shared.new.capacity ≡ shared.old.capacity }
    ensures holders { shared.new.sleepers.holders ≡ shared.old.sleepers.holders }
    ensures space { vec_capacity threads.new ≡ vec_capacity threads.old }
{
    match next {
        NextStep::Local => {
            take_local(image, t, &mut threads[t as usize - 1], event);
            Ok(())
        }
        NextStep::Shared(request) => {
            take_request(
                image,
                shared,
                t,
                &mut threads[t as usize - 1],
                request,
                event,
            )
        }
        NextStep::Fork {
            entry: _,
            count: _,
            has_room,
        } => fork_parts(image, shared, threads, t, has_room, event),
        NextStep::Exit(phase) => {
            take_exit(image, shared, t, &mut threads[t as usize - 1], phase, event);
            Ok(())
        }
        NextStep::Broken => Err(StepFault::Broken),
        NextStep::Ended => Err(StepFault::CannotMove),
    }
}

// A fork of thread `t`, which was made, on the parts of a machine. It stands apart so that no other step pays for the
// place of the thread that it makes.
#[inline(never)]
fn fork_parts(
    image: &Image,
    shared: &mut Common,
    threads: &mut Vec<Local>,
    t: u32,
    has_room: bool,
    event: &mut Event,
) -> Result<(), StepFault>
    requires thread { (0 < t) × (t ≤ vec_len threads.old) }
    requires few { vec_len threads.old ≤ thread_count shared.old.sleepers }
    requires fits { thread_count shared.old.sleepers ≤ most_threads }
    requires awake { place_of shared.old.sleepers t ≡ None }
    requires asks { (x : Thread) → thread_at threads.old.items t ≡ Some x
        → AsksFork (look image.now t x) has_room }
    requires space { thread_count shared.old.sleepers ≤ vec_capacity threads.old }
    ensures done { OnOk result (step_of image.now (parts_of shared.old threads.old.items) t
        ≡ Ok (parts_of shared.new threads.new.items, event.new)) }
    ensures err { IfErr result (λ f. step_of image.now (parts_of shared.old threads.old.items) t
        ≡ Err f) }
    ensures same { OnErr result ((shared.new ≡ shared.old)
        × (threads.new.items ≡ threads.old.items)) }
    ensures capacity { shared.new.capacity ≡ shared.old.capacity }
    ensures holders { shared.new.sleepers.holders ≡ shared.old.sleepers.holders }
    ensures space { vec_capacity threads.new ≡ vec_capacity threads.old }
{
    let made = threads.len() as u32;
    let local = &mut threads[t as usize - 1];
    let child = take_fork(image, shared, made, t, local, has_room, event)?;
    if let Some(child) = child {
        threads.push_reserved(child);
    }
    Ok(())
}
