ghost use Rattle.std.specs.Prelude.{◌≡◌, ◌<◌, ◌≤◌, IfOk, vec_len};
ghost use Rattle.program.specs.Trees.{as_version};
ghost use Rattle.program.specs.Views.{program_of};
ghost use Rattle.lowering.specs.Layout.{layout_of};
ghost use Rattle.codegen_workers.specs.Handles.{AreHandles};
ghost use Rattle.codegen_workers.specs.Shares.{AreShares, IsShare};

use crate::share::{ShareOf, generate_share};
use codegen::CodePiece;
use layout::Layout;
use program::Program;
use scanner::Refusal;
use std::alloc::{AllocError, Global};
use std::sync::Wait;
use std::thread;
use std::thread::{PromisedHandle, Scope, Threads};
use words::Gate;

// Starts a worker, from 0.
fn start_worker<'s, E, G: Gate>(
    scope: &Scope<'s, E>,
    alloc: Global,
    share: ShareOf<'s>,
    gate: &'s G,
) -> Result<PromisedHandle<Result<Vec<CodePiece>, Refusal>, ShareOf<'s>>, AllocError>
    requires laid_out { share.layout.now
        ≡ layout_of (as_version share.layout.now.version (program_of share.program.now)) }
    requires worker { share.worker < share.workers }
    ensures { IfOk result (λ handle. handle.promise ≡ share.entry) }
{
    let ShareOf {
        program,
        layout,
        workers,
        worker,
    } = share;
    let handle = scope.spawn_with(
        share,
        move || -> Result<Vec<CodePiece>, Refusal>
            requires { (layout.now
                ≡ layout_of (as_version layout.now.version (program_of program.now)))
                × (worker < workers) }
            ensures { IsShare (as_version layout.entry.now.version (program_of program.entry.now))
                workers worker result }
        {
            let share = ShareOf {
                program,
                layout,
                workers,
                worker,
            };
            generate_share(alloc, share, gate)
        },
    )?;
    Ok(handle)
}

// Starts the workers behind the first, as far as they can be started.
fn start_others<'s, E, G: Gate>(
    scope: &Scope<'s, E>,
    alloc: Global,
    program: &'s Program,
    layout: &'s Layout,
    workers: u32,
    gate: &'s G,
) -> Result<Vec<PromisedHandle<Result<Vec<CodePiece>, Refusal>, ShareOf<'s>>>, AllocError>
    requires laid_out { layout.now
        ≡ layout_of (as_version layout.now.version (program_of program.now)) }
    requires workers { 1 ≤ workers }
    ensures count { IfOk result (λ handles. vec_len handles < workers) }
    ensures each { IfOk result (λ handles. AreHandles program.now layout.now.version workers 1
        handles.items) }
{
    // There is room before the first is started, so that no handle can be lost.
    let mut handles = Vec::with_capacity(alloc, workers as usize - 1)?;
    for worker in 1..workers {
        let share = ShareOf {
            program,
            layout,
            workers,
            worker,
        };
        let Ok(handle) = start_worker(scope, alloc, share, gate) else {
            return Ok(handles);
        };
        let Ok(()) = handles.push(handle) else {
            unreachable!()
        };
    }
    Ok(handles)
}

// What so many workers make, the first of which is the calling thread, and the others threads of this scope. All that
// were started have been joined when it returns.
fn run_in<'s, E, R: Threads, G: Gate>(
    rt: &R,
    scope: &Scope<'s, E>,
    alloc: Global,
    program: &'s Program,
    layout: &'s Layout,
    workers: u32,
    gate: &'s G,
) -> Result<Vec<Result<Vec<CodePiece>, Refusal>>, AllocError>
    requires laid_out { layout.now
        ≡ layout_of (as_version layout.now.version (program_of program.now)) }
    requires workers { 1 ≤ workers }
    ensures { IfOk result (λ made. (vec_len made ≡ workers)
        × AreShares (as_version layout.now.version (program_of program.now)) workers 0 made.items) }
{
    let mut made = Vec::with_capacity(alloc, workers as usize)?;
    let handles = start_others(scope, alloc, program, layout, workers, gate)?;
    let share = ShareOf {
        program,
        layout,
        workers,
        worker: 0,
    };
    let Ok(()) = made.push(generate_share(alloc, share, gate)) else {
        unreachable!()
    };
    for handle in handles {
        let Ok(()) = made.push(handle.join(rt)) else {
            unreachable!()
        };
    }
    // One couldn't be started: what the others made is given back here.
    if made.len() < workers as usize {
        return Err(AllocError);
    }
    Ok(made)
}

// What so many workers make. All have ended when it returns.
pub(crate) fn run_workers<R: Threads + Wait + Sync, G: Gate>(
    rt: &R,
    alloc: Global,
    program: &Program,
    layout: &Layout,
    workers: u32,
    gate: &G,
) -> Result<Vec<Result<Vec<CodePiece>, Refusal>>, AllocError>
    requires laid_out { layout.now
        ≡ layout_of (as_version layout.now.version (program_of program.now)) }
    requires workers { 1 ≤ workers }
    ensures { IfOk result (λ made. (vec_len made ≡ workers)
        × AreShares (as_version layout.now.version (program_of program.now)) workers 0 made.items) }
{
    thread::scope(
        thread::scope_env(),
        rt,
        |scope| -> Result<Vec<Result<Vec<CodePiece>, Refusal>>, AllocError>
            requires { (layout.now
                ≡ layout_of (as_version layout.now.version (program_of program.now)))
                × (1 ≤ workers) }
            ensures { IfOk result (λ made. (vec_len made ≡ workers)
                × AreShares (as_version layout.entry.now.version (program_of program.entry.now))
                workers 0 made.items) }
        { run_in(rt, scope, alloc, program, layout, workers, gate) },
    )
}
