ghost use Rattle.std.specs.Prelude.{◌≡◌, IfOk, IfErr};
ghost use Rattle.runner.specs.Logs.{nothing_outside};
ghost use Rattle.runner.specs.Reports.{IsReport, CanFail};

use crate::image_ref::{ImageRef, RunSequences};
use crate::pool::Pool;
use crate::put_off::Calls;
use crate::shared_run::SharedRun;
use isa::Image;
use runner::{PARTS, Report, RunFault, RunName, Shared, finish};
use std::alloc::{AllocError, Global};
use std::marker::Brand;
use std::sync::Wait;
use std::sync::ledger::Blank;
use std::thread::Threads;
use words::Gate;

/// Runs an image within a limit of steps, from 0 to 2^32 - 1, with a worker for each thread of the machine that ends
/// with it. The gate is passed with a thread's number before each entry of it, and `calls` says when a worker calls those
/// whose threads it woke.
///
/// A worker takes local steps by itself, and hands them in under one lock, with the shared step that comes next. The
/// worker of a thread that sleeps parks until another's entry wakes its thread. One whose entry would pass the limit
/// ends. The calling thread starts the workers, and returns when all have ended. No entry comes from outside.
///
/// Refuses only with `Memory`, also where a worker can't be started, and with `Broken`, where some legal log within the
/// limit leads a thread, within a turn of local steps, to a step that may not be. Then all workers end before their
/// next entry.
pub fn run<R: Threads + Wait + Sync, G: Gate>(
    rt: &R,
    alloc: Global,
    image: &Image,
    limit: u32,
    calls: Calls,
    gate: &G,
) -> Result<Report, RunFault>
    ensures ok { IfOk result (λ report. IsReport image.now nothing_outside limit report) }
    ensures err { IfErr result (λ fault. CanFail image.now nothing_outside limit fault) }
{
    let blank = Blank::new(u64::from(PARTS));
    run_as::<Brand, R, G>(rt, alloc, image, limit, blank, calls, gate)
}

fn run_as<J: RunName + Send + Sync, R: Threads + Wait + Sync, G: Gate>(
    rt: &R,
    alloc: Global,
    image: &Image,
    limit: u32,
    blank: Blank,
    calls: Calls,
    gate: &G,
) -> Result<Report, RunFault>
    requires image { image.now ≡ J.program }
    requires limit { limit ≡ J.limit }
    requires blank { (blank.name ≡ J.name) × (blank.parts ≡ J.parts) × (J.parts ≡ 1024) }
    ensures ok { IfOk result (λ report. IsReport J.program J.outside J.limit report) }
    ensures err { IfErr result (λ fault. CanFail J.program J.outside J.limit fault) }
{
    let Ok(shared) = Shared::<J>::new(alloc, image, limit, blank) else {
        return Err(RunFault::Memory);
    };
    let Ok(shared_run) = run_by_workers(rt, alloc, image, shared, calls, gate) else {
        return Err(RunFault::Memory);
    };
    let (shared, fault, mut kept) = shared_run.into_parts();
    if let Some(fault) = fault {
        return Err(fault);
    }
    // Nothing is left to do but to see that the next entry of each thread that can move is refused.
    finish(alloc, shared, image, &mut kept, gate)
}

// Lets workers make entries until none is left that can.
fn run_by_workers<J: RunName + Send + Sync, R: Threads + Wait + Sync, G: Gate>(
    rt: &R,
    alloc: Global,
    image: &Image,
    shared: Shared<J>,
    calls: Calls,
    gate: &G,
) -> Result<SharedRun<J>, AllocError>
    requires image { image.now ≡ J.program }
    requires given { shared.given ≡ 0 }
{
    let memory = shared.machine().memory_len();
    let pool = pool_of(rt, alloc, shared, calls)?;
    start(rt, alloc, image, memory, &pool, gate)?;
    Ok(pool.into_shared_run())
}

// The pool in which workers make the entries of a run, before any was started.
fn pool_of<J: RunName, R: Threads>(
    rt: &R,
    alloc: Global,
    shared: Shared<J>,
    calls: Calls,
) -> Result<Pool<J>, AllocError>
    requires { shared.given ≡ 0 }
{
    let mut shared = shared;
    let Some(kept) = shared.share() else {
        unreachable!()
    };
    Pool::new(rt, alloc, calls, SharedRun::new(shared, kept))
}

// Starts the workers of a pool, on an image whose memory has so many words, and returns when all have ended.
fn start<J: RunName + Send + Sync, R: Threads + Wait + Sync, G: Gate>(
    rt: &R,
    alloc: Global,
    image: &Image,
    memory: usize,
    pool: &Pool<J>,
    gate: &G,
) -> Result<(), AllocError>
    requires { image.now ≡ J.program }
{
    let image_ref = ImageRef {
        image,
        sequences: RunSequences::new(alloc, image)?,
        memory,
    };
    pool.start(rt, alloc, &image_ref, gate);
    Ok(())
}
