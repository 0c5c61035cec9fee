// CALL, FORK, JOIN, WAIT, NOTIFY and BROADCAST.

ghost use Rattle.std.specs.Prelude.{◌≡◌, ◌++◌, IfOk};
ghost use Rattle.scanner.specs.declared.token.Place.{Place as PlaceOf};
ghost use Rattle.program.specs.Views.{part_in};
ghost use Rattle.syntax.specs.Tree.{PartTree, Broadcast as BroadcastOf, Call, Fork, Join, Notify as NotifyOf, Return};
ghost use Rattle.syntax.specs.Tree.{Wait as WaitOf};
ghost use Rattle.syntax.specs.View as v;
ghost use Rattle.types.specs.CallFaults as c;
ghost use Rattle.types.specs.Scope.{Scope, meaning};
ghost use Rattle.types.specs.Statements as st;
ghost use Rattle.resolver.specs.Clean.{is_clean, IsJudged};
ghost use Rattle.resolver.specs.Sites.{IsSite};

use crate::called::{called, forked};
use crate::flags::both;
use crate::known::Judged;
use crate::operands::{arguments, condition_of, into, local, typed};
use crate::simple::returned;
use crate::site::Site;
use body_faults::{has_monitor, is_recover};
use program::{Member, Statement, ValueType};
use std::alloc::{AllocError, Global};
use syntax::{Callee, Expression, Name};

/// A CALL.
pub fn call(
    alloc: Global,
    site: &Site<'_, '_, '_, '_>,
    callee: &Callee<'_>,
    name: Option<Name<'_>>,
) -> Result<Judged, AllocError>
    ensures { (s : Scope) (place : PlaceOf) → IsSite s site.now
        → IfOk result (IsJudged s (Call place (v.callee_of callee.now) (v.option_name name.entry))) }
{
    let called = called(site, callee, name.is_some());
    let (arguments, fit) = arguments(alloc, site.standing, &callee.arguments, called.parameters)?;
    let (into, takes) = into(site.standing, called.returns, name);
    Ok(Judged {
        statement: Statement::Call {
            procedure: called.number,
            arguments,
            into,
        },
        is_clean: both(both(called.is_clean, fit), takes),
    })
}

/// A FORK.
pub fn fork(
    alloc: Global,
    site: &Site<'_, '_, '_, '_>,
    callee: &Callee<'_>,
    name: Name<'_>,
) -> Result<Judged, AllocError>
    ensures { (s : Scope) (place : PlaceOf) → IsSite s site.now
        → IfOk result (IsJudged s (Fork place (v.callee_of callee.now) (v.name_of name.entry))) }
{
    let forked = forked(site, callee);
    let (arguments, fit) = arguments(alloc, site.standing, &callee.arguments, forked.parameters)?;
    let (into, takes) = local(site.standing, Some(ValueType::Process), name);
    Ok(Judged {
        statement: Statement::Fork {
            procedure: forked.number,
            arguments,
            into,
        },
        is_clean: both(both(forked.is_clean, fit), takes),
    })
}

/// A JOIN, with what stands behind ABORTED, and whether that is clean.
pub fn join(
    alloc: Global,
    site: &Site<'_, '_, '_, '_>,
    tree: &Expression<'_>,
    name: Option<Name<'_>>,
    aborted: Option<Vec<Statement>>,
    is_rest_clean: bool,
) -> Result<Judged, AllocError>
    ensures { (s : Scope) (place : PlaceOf) (rest : PartTree) → IsSite s site.now
        → part_in aborted ≡ st.part s rest
        → is_rest_clean ≡ is_clean (c.part_faults s rest)
        → IfOk result
        (IsJudged s (Join place (v.expression_of tree.now) (v.option_name name.entry) rest)) }
{
    let (handle, fits) = typed(alloc, site.standing, ValueType::Process, tree)?;
    let (into, takes) = into(site.standing, Some(ValueType::Integer), name);
    let is_placed = !is_recover(site.role);
    Ok(Judged {
        statement: Statement::Join {
            handle,
            into,
            aborted,
        },
        is_clean: both(both(both(is_placed, fits), takes), is_rest_clean),
    })
}

/// A RETURN.
pub fn return_from(
    alloc: Global,
    site: &Site<'_, '_, '_, '_>,
    tree: &Option<Expression<'_>>,
) -> Result<Judged, AllocError>
    ensures { (s : Scope) (place : PlaceOf) → IsSite s site.now
        → IfOk result (IsJudged s (Return place (v.option_expression tree.now))) }
{
    let made = returned(alloc, site.standing, site.returns, tree)?;
    let is_placed = !is_recover(site.role);
    Ok(Judged {
        is_clean: both(is_placed, made.is_clean),
        statement: made.statement,
    })
}

// What NOTIFY or BROADCAST names, and whether one may stand here and name it.
fn notified(site: &Site<'_, '_, '_, '_>, name: Name<'_>) -> (Member, bool)
    ensures condition { (s : Scope) → IsSite s site.now
        → result.0 ≡ st.condition s (v.name_of name.entry) }
    ensures clean { (s : Scope) (place : PlaceOf) → IsSite s site.now → result.1
        ≡ is_clean (c.outside_faults s place
        ++ c.condition_faults (meaning s (v.name_of name.entry)) name.entry.place) }
{
    let (condition, is_one) = condition_of(site.standing, name);
    (condition, has_monitor(site.role) && is_one)
}

/// A WAIT.
pub fn wait(site: &Site<'_, '_, '_, '_>, name: Name<'_>) -> Judged
    ensures { (s : Scope) (place : PlaceOf) → IsSite s site.now
        → IsJudged s (WaitOf place (v.name_of name.entry)) result }
{
    let (condition, is_clean) = notified(site, name);
    Judged {
        statement: Statement::Wait(condition),
        is_clean: !is_recover(site.role) && is_clean,
    }
}

/// A NOTIFY.
pub fn notify(site: &Site<'_, '_, '_, '_>, name: Name<'_>) -> Judged
    ensures { (s : Scope) (place : PlaceOf) → IsSite s site.now
        → IsJudged s (NotifyOf place (v.name_of name.entry)) result }
{
    let (condition, is_clean) = notified(site, name);
    Judged {
        statement: Statement::Notify(condition),
        is_clean,
    }
}

/// A BROADCAST.
pub fn broadcast(site: &Site<'_, '_, '_, '_>, name: Name<'_>) -> Judged
    ensures { (s : Scope) (place : PlaceOf) → IsSite s site.now
        → IsJudged s (BroadcastOf place (v.name_of name.entry)) result }
{
    let (condition, is_clean) = notified(site, name);
    Judged {
        statement: Statement::Broadcast(condition),
        is_clean,
    }
}
