ghost use Rattle.std.specs.Prelude.{◌≡◌, ◌<◌};
ghost use Rattle.program.specs.Trees.{as_version};
ghost use Rattle.program.specs.Views.{program_of};
ghost use Rattle.lowering.specs.Layout.{layout_of};
ghost use Rattle.codegen_workers.specs.Shares.{IsShare};

use codegen::{CodePiece, procedure_code, with_piece};
use layout::Layout;
use program::Program;
use scanner::Refusal;
use std::alloc::Global;
use std::thread::Promise;
use words::Gate;

/// The pieces of one of so many workers, from 0, of a program with its layout: the promise of its thread.
#[derive(Clone, Copy)]
pub(crate) struct ShareOf<'a> {
    pub(crate) program: &'a Program,
    pub(crate) layout: &'a Layout,
    pub(crate) workers: u32,
    pub(crate) worker: u32,
}

impl<'a> Promise<Result<Vec<CodePiece>, Refusal>> for ShareOf<'a> {
    ghost kept_by = { λ share made.
        IsShare (as_version share.layout.now.version (program_of share.program.now)) share.workers
        share.worker made };
}

// Makes the pieces of a worker. It passes the gate before each, by its number from 1.
pub(crate) fn generate_share<G: Gate>(
    alloc: Global,
    share: ShareOf<'_>,
    gate: &G,
) -> Result<Vec<CodePiece>, Refusal>
    requires laid_out { share.layout.now
        ≡ layout_of (as_version share.layout.now.version (program_of share.program.now)) }
    requires worker { share.worker < share.workers }
    ensures { IsShare
        (as_version share.entry.layout.now.version (program_of share.entry.program.now))
        share.entry.workers share.entry.worker result }
{
    let ShareOf {
        program,
        layout,
        workers,
        worker,
    } = share;
    let mut pieces = Vec::new(alloc);
    let mut number = 0;
    let mut total = 0;
    for procedure in &program.procedures {
        if number % workers as usize == worker as usize {
            gate.pass(worker + 1);
            let code = procedure_code(alloc, procedure, program, layout)?;
            total = with_piece(total, &code)?;
            pieces.push(CodePiece { number, code })?;
        }
        number += 1;
    }
    Ok(pieces)
}
