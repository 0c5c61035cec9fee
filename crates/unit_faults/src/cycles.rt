// Procedures on cycles of calls, and chains of calls that are too long.

ghost use Rattle.std.specs.Prelude.{◌≡◌, ◌<◌, ◌^◌, List, IfOk, length, map};
ghost use Rattle.scanner.specs.declared.refusal.RefusalKind.TheVariants.{Recursion};
ghost use Rattle.syntax.specs.Tree.{UnitTree};
ghost use Rattle.callgraph.specs.Calls.{Within, Leads};
ghost use Rattle.callgraph.specs.Graphs.{IsGraph};
ghost use Rattle.callgraph.specs.Levels.{NeverRise};
ghost use Rattle.callgraph.specs.declared.Call.{Call as CallOf};
ghost use Rattle.callees.specs.Pieces.{piece_of};
ghost use Rattle.types.specs.Faults.{fault};
ghost use Rattle.types.specs.Judgement.{is_named as is_named_in, all_calls};
ghost use Rattle.types.specs.Pieces.{pieces as pieces_in};
ghost use Rattle.unit_faults.specs.Collected.{Collects};
ghost use Rattle.unit_faults.specs.Parts.{InCalls};

use crate::least::{is_behind, note_where};
use callees::Piece;
use callgraph::{Call, Graph, chains};
use program::Role;
use scanner::{Place, Refusal, RefusalKind};
use std::alloc::{AllocError, Global};

// The most procedures in a chain of calls.
const MOST_IN_CHAIN: u32 = 15;

// Whether calls can name a piece, or it is MAIN.
fn is_named(role: Role) -> bool
    ensures { result ≡ is_named_in role }
{
    !matches!(role, Role::Recover(_))
}

// The least fault, where the procedure of this number stands at a place: calls lead from it back to it. They are not
// followed where such a fault would come behind the least one.
fn cycle(
    alloc: Global,
    graph: &Graph,
    levels: &[usize],
    number: u32,
    place: Place,
    least: Option<Refusal>,
) -> Result<Option<Refusal>, AllocError>
    requires { (calls : List CallOf) → IsGraph calls graph.now → NeverRise calls levels.now }
    ensures { (calls : List CallOf) → IsGraph calls graph.now
        → IfOk result (λ r. Collects (λ e. Leads calls number number
        × (e ≡ fault Recursion place)) least r) }
{
    let fault = Refusal {
        kind: RefusalKind::Recursion,
        place,
    };
    if is_behind(fault, least) {
        return Ok(least);
    }
    let itself = graph.leads_back(alloc, levels, number)?;
    Ok(note_where(itself, RefusalKind::Recursion, place, least))
}

// The first of the procedures that begin chains without end.
fn first_endless(endless: &[bool]) -> Option<u32> {
    for (number, begins) in endless.iter().enumerate() {
        if *begins {
            return u32::try_from(number).ok();
        }
    }
    None
}

// Levels of procedures, where there is one above a cycle and on none. Else they would help nobody: where the first
// procedure with chains without end is on a cycle, that is the least fault, and no further calls are followed.
fn levels(alloc: Global, graph: &Graph, endless: &[bool]) -> Result<Vec<usize>, AllocError>
    ensures { (calls : List CallOf) → IsGraph calls graph.now
        → IfOk result (λ v. NeverRise calls v.items) }
{
    let none = Vec::new(alloc);
    let Some(first) = first_endless(endless) else {
        return Ok(none);
    };
    if graph.leads_back(alloc, &none, first)? {
        return Ok(none);
    }
    graph.levels(alloc)
}

/// The least fault of the calls of a unit's pieces.
pub fn circular(
    alloc: Global,
    pieces: &[Piece<'_, '_>],
    calls: &[Call],
    least: Option<Refusal>,
) -> Result<Option<Refusal>, AllocError>
    requires few { length pieces.now < 2 ^ 32 }
    requires within { Within calls.now (length pieces.now) }
    ensures { (u : UnitTree) → map piece_of pieces.now ≡ pieces_in u → calls.now ≡ all_calls u
        → IfOk result (λ r. Collects (InCalls u) least r) }
{
    let graph = Graph::new(alloc, calls, pieces.len())?;
    let endless = graph.endless_chains(alloc)?;
    let levels = levels(alloc, &graph, endless.as_slice())?;
    let long = chains(alloc, calls, pieces.len(), MOST_IN_CHAIN)?;
    let mut least = least;
    for (number, piece) in pieces.iter().enumerate() {
        if !is_named(piece.role) {
            continue;
        }
        if endless[number] {
            least = cycle(alloc, &graph, &levels, number as u32, piece.place, least)?;
        } else {
            least = note_where(long[number], RefusalKind::Limit, piece.place, least);
        }
    }
    Ok(least)
}
