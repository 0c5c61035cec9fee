ghost use Rattle.std.specs.Prelude.{◌≡◌, ◌≤◌, IfOk, IfErr, map};
ghost use Rattle.program.specs.Names.{said_by};
ghost use Rattle.program.specs.Trees.{as_version};
ghost use Rattle.lowering.specs.Layout.{layout_of};
ghost use Rattle.codegen.specs.Generated.{piece_of, unlinked_pieces, RefusesPieces};
ghost use Rattle.codegen_workers.specs.Limits.{most_workers};

use crate::collecting::collect;
use codegen::CodePiece;
use layout::Layout;
use program::Checked;
use scanner::Refusal;
use std::alloc::Global;
use std::sync::Wait;
use std::thread::Threads;
use words::Gate;

/// The most workers that make the code of one program.
pub const MOST_WORKERS: u32 = 64;

/// The pieces of a program, as `codegen::generate` gives them, made by this many workers, from 1 to 64. One tree is lent
/// to all of them. Worker 1 is the calling thread, each other a thread of its own.
///
/// Piece `j`, from 0, belongs to worker `1 + j MOD workers`. A worker passes the gate by its number before each of its
/// pieces; one without pieces passes no gate. The calling thread waits until all workers have ended.
///
/// Code of more instructions than an image may have is `Limit` at 1:1. `Memory` comes also where a worker can't be
/// started.
pub fn generate_with<R: Threads + Wait + Sync, G: Gate>(
    rt: &R,
    alloc: Global,
    checked: &Checked,
    layout: &Layout,
    workers: u32,
    gate: &G,
) -> Result<Vec<CodePiece>, Refusal>
    requires laid_out { layout.now
        ≡ layout_of (as_version layout.now.version (said_by checked.now)) }
    requires workers { (1 ≤ workers) × (workers ≤ most_workers) }
    ensures made { IfOk result (λ pieces. map piece_of pieces.items
        ≡ unlinked_pieces (as_version layout.now.version (said_by checked.now))) }
    ensures refusal { IfErr result
        (λ e. RefusesPieces (as_version layout.now.version (said_by checked.now)) e) }
{
    let program = checked.program();
    let collector = collect(rt, alloc, program, layout, workers, gate)?;
    collector.finish(alloc)
}
