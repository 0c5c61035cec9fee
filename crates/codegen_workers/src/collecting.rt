ghost use Rattle.std.specs.Prelude.{◌≡◌, ◌≤◌, IfOk, IfErr, map};
ghost use Rattle.program.specs.Trees.{as_version};
ghost use Rattle.program.specs.Views.{program_of};
ghost use Rattle.lowering.specs.Layout.{layout_of};
ghost use Rattle.codegen.specs.Generated.{piece_of, RefusesPieces};
ghost use Rattle.codegen_workers.specs.Arrivals.{all_added, handed_in, AreFree};

use crate::starting::run_workers;
use codegen::CodePiece;
use layout::Layout;
use linker::Collector;
use program::Program;
use scanner::Refusal;
use std::alloc::Global;
use std::sync::Wait;
use std::thread::Threads;
use words::Gate;

// Takes in pieces, for each of which there is a free place.
fn take_in(collector: &mut Collector, pieces: Vec<CodePiece>)
    requires { AreFree collector.old (map piece_of pieces.items) }
    ensures { collector.new ≡ all_added collector.old (map piece_of pieces.items) }
{
    for piece in pieces {
        let Ok(()) = collector.add(piece) else {
            unreachable!()
        };
    }
}

// What so many workers make, in places by number; or the refusal of the first of them that refuses. All have ended when it
// returns.
pub(crate) fn collect<R: Threads + Wait + Sync, G: Gate>(
    rt: &R,
    alloc: Global,
    program: &Program,
    layout: &Layout,
    workers: u32,
    gate: &G,
) -> Result<Collector, Refusal>
    requires laid_out { layout.now
        ≡ layout_of (as_version layout.now.version (program_of program.now)) }
    requires workers { 1 ≤ workers }
    ensures all { IfOk result (λ c. c
        ≡ handed_in (as_version layout.now.version (program_of program.now)) workers workers) }
    ensures refusal { IfErr result
        (λ e. RefusesPieces (as_version layout.now.version (program_of program.now)) e) }
{
    let made = run_workers(rt, alloc, program, layout, workers, gate)?;
    let mut collector = Collector::new(alloc, program.procedures.len())?;
    for share in made {
        take_in(&mut collector, share?);
    }
    Ok(collector)
}
