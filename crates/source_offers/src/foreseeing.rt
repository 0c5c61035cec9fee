ghost use Rattle.std.specs.Prelude.{◌≡◌, List};
ghost use Rattle.program.specs.Trees.{Program as ProgramOf};
ghost use Rattle.program.specs.Views.{statement_of};
ghost use Rattle.meaning.specs.Offers.{answers, offer as offer_by, statement_offer, with_value};
ghost use Rattle.meaning.specs.Processes.{Caller, Frame as FrameOf};
ghost use Rattle.meaning.specs.Values.{Evaluated, Variables as VariablesOf};
ghost use Rattle.source_offers.specs.Foreseen.{IsForeseen};
ghost use Rattle.source_offers.specs.Stages.{process_of};

use crate::process::{Process, Stage};
use crate::rest::upcoming;
use program::{Member, Role, Statement};

/// What a process does next, as far as where it stands tells.
#[derive(Clone, Copy)]
pub enum Foreseen {
    /// One action, which it does for itself alone.
    Acts,
    /// Notifies this condition.
    Notifies(Member),
    /// Broadcasts this condition.
    Broadcasts(Member),
    /// Nothing, or what depends on a value or on the others.
    Unknown,
}

// At a RETURN, or at the end of a body.
#[tactic(auto, using(crate::proofs::Alone::returned))]
fn foresee_answer(role: Role) -> Foreseen
    ensures { (e : Evaluated) (f : FrameOf) (callers : List Caller)
        → IsForeseen result (with_value e f callers (λ z. answers role z callers)) }
{
    match role {
        Role::Entry(_) | Role::Internal(_) | Role::External => Foreseen::Acts,
        Role::Recover(_) | Role::Main => Foreseen::Unknown,
    }
}

// At the next statement, in a procedure of this role.
#[tactic(auto, using(crate::proofs::Alone::one_statement))]
fn foresee_statement(role: Role, next: &Statement) -> Foreseen
    ensures { (p : ProgramOf) (v : VariablesOf) (f : FrameOf) (callers : List Caller) → f.role ≡ role
        → IsForeseen result (statement_offer p v f callers (statement_of next.now)) }
{
    match next {
        Statement::Notify(condition) => Foreseen::Notifies(*condition),
        Statement::Broadcast(condition) => Foreseen::Broadcasts(*condition),
        Statement::Return(_) => foresee_answer(role),
        Statement::Fork { .. } | Statement::Join { .. } => Foreseen::Unknown,
        Statement::Assign(_, _)
        | Statement::If { .. }
        | Statement::While { .. }
        | Statement::Call { .. }
        | Statement::Wait(_)
        | Statement::Print(_)
        | Statement::Abort => Foreseen::Acts,
    }
}

/// What a process does next, told by where it stands before anything is done.
pub fn foresee(process: &Process) -> Foreseen
    ensures { (p : ProgramOf) (v : VariablesOf)
        → IsForeseen result (offer_by p v (process_of process.now)) }
{
    match &process.stage {
        Stage::Before(_) => match upcoming(process.frame.rest.as_slice()) {
            Some(next) => foresee_statement(process.frame.role, next),
            None => foresee_answer(process.frame.role),
        },
        Stage::Returning(_) | Stage::Failing(_, _) => Foreseen::Acts,
        Stage::Dying(_, _) | Stage::Leaving(_) => Foreseen::Acts,
        Stage::Entering(_) | Stage::Suspended(_) => Foreseen::Unknown,
        Stage::Joining { .. } | Stage::Over(_) => Foreseen::Unknown,
    }
}
