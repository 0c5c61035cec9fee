// The names of each scope.

ghost use Rattle.std.specs.Prelude.{◌≡◌, ◌++◌, IfOk, OnOk, map, filter, flat_map};
ghost use Rattle.types.specs.Judgement.{is_condition};

use std::alloc::{AllocError, Global};
use syntax::{
    Local, Member, MemberType, Monitor, MonitorProcedure, Name, Parameter, Procedure, Unit,
};

/// The names of monitors.
pub fn monitor_names<'a>(alloc: Global, unit: &Unit<'a>) -> Result<Vec<Name<'a>>, AllocError>
    ensures { IfOk result (λ v. v.items ≡ map (λ m. m.name) unit.now.monitors.items) }
{
    let mut names = Vec::new(alloc);
    for monitor in &unit.monitors {
        names.push(monitor.name)?;
    }
    Ok(names)
}

/// The names of monitors and external procedures, which share one scope.
pub fn outer_names<'a>(alloc: Global, unit: &Unit<'a>) -> Result<Vec<Name<'a>>, AllocError>
    ensures { IfOk result (λ v. v.items
        ≡ map (λ m. m.name) unit.now.monitors.items ++ map
        (λ q. q.name) unit.now.procedures.items) }
{
    let mut names = monitor_names(alloc, unit)?;
    push_external(&mut names, &unit.procedures)?;
    Ok(names)
}

// The names of members.
fn member_names<'a>(alloc: Global, members: &[Member<'a>]) -> Result<Vec<Name<'a>>, AllocError>
    ensures { IfOk result (λ v. v.items ≡ map (λ m. m.name) members.now) }
{
    let mut names = Vec::new(alloc);
    for member in members {
        names.push(member.name)?;
    }
    Ok(names)
}

/// The names of a monitor's members and procedures, which share one scope.
pub fn monitor_scope<'a>(alloc: Global, monitor: &Monitor<'a>) -> Result<Vec<Name<'a>>, AllocError>
    ensures { IfOk result (λ v. v.items
        ≡ map (λ m. m.name) monitor.now.members.items ++ map
        (λ q. q.procedure.name) monitor.now.procedures.items) }
{
    let mut names = member_names(alloc, &monitor.members)?;
    push_inner(&mut names, &monitor.procedures)?;
    Ok(names)
}

// The names of parameters.
fn parameter_names<'a>(
    alloc: Global,
    parameters: &[Parameter<'a>],
) -> Result<Vec<Name<'a>>, AllocError>
    ensures { IfOk result (λ v. v.items ≡ map (λ p. p.name) parameters.now) }
{
    let mut names = Vec::new(alloc);
    for parameter in parameters {
        names.push(parameter.name)?;
    }
    Ok(names)
}

// Adds the names of locals.
fn push_locals<'a>(names: &mut Vec<Name<'a>>, locals: &[Local<'a>]) -> Result<(), AllocError>
    ensures { OnOk result (names.new.items ≡ names.old.items ++ map (λ l. l.name) locals.now) }
{
    for local in locals {
        names.push(local.name)?;
    }
    Ok(())
}

/// The names of parameters and locals, which share one scope.
pub fn body_scope<'a>(
    alloc: Global,
    parameters: &[Parameter<'a>],
    locals: &[Local<'a>],
) -> Result<Vec<Name<'a>>, AllocError>
    ensures { IfOk result (λ v. v.items
        ≡ map (λ p. p.name) parameters.now ++ map (λ l. l.name) locals.now) }
{
    let mut names = parameter_names(alloc, parameters)?;
    push_locals(&mut names, locals)?;
    Ok(names)
}

/// The members of all monitors.
pub fn all_members<'a>(
    alloc: Global,
    monitors: &[Monitor<'a>],
) -> Result<Vec<Member<'a>>, AllocError>
    ensures { IfOk result (λ v. v.items ≡ flat_map (λ m. m.members.items) monitors.now) }
{
    let mut members = Vec::new(alloc);
    for monitor in monitors {
        members.extend_from_slice(&monitor.members)?;
    }
    Ok(members)
}

/// The names of conditions among members.
pub fn condition_names<'a>(
    alloc: Global,
    members: &[Member<'a>],
) -> Result<Vec<Name<'a>>, AllocError>
    ensures { IfOk result (λ v. v.items
        ≡ map (λ m. m.name) (filter (λ m. is_condition m.kind) members.now)) }
{
    members
        .iter()
        .filter(|member| matches!(member.kind, MemberType::Condition))
        .map(|member| member.name)
        .collect(alloc)
}

// Adds the names of a monitor's procedures.
fn push_inner<'a>(
    names: &mut Vec<Name<'a>>,
    procedures: &[MonitorProcedure<'a>],
) -> Result<(), AllocError>
    ensures { OnOk result (names.new.items ≡ names.old.items ++ map
        (λ q. q.procedure.name) procedures.now) }
{
    for inner in procedures {
        names.push(inner.procedure.name)?;
    }
    Ok(())
}

// Adds the names of external procedures.
fn push_external<'a>(
    names: &mut Vec<Name<'a>>,
    procedures: &[Procedure<'a>],
) -> Result<(), AllocError>
    ensures { OnOk result (names.new.items ≡ names.old.items ++ map (λ q. q.name) procedures.now) }
{
    for procedure in procedures {
        names.push(procedure.name)?;
    }
    Ok(())
}

/// The names of all procedures, in the order of the text.
pub fn procedure_names<'a>(alloc: Global, unit: &Unit<'a>) -> Result<Vec<Name<'a>>, AllocError>
    ensures { IfOk result (λ v. v.items
        ≡ flat_map (λ m. map (λ q. q.procedure.name) m.procedures.items)
        unit.now.monitors.items ++ map (λ q. q.name) unit.now.procedures.items) }
{
    let mut names = Vec::new(alloc);
    for monitor in &unit.monitors {
        push_inner(&mut names, &monitor.procedures)?;
    }
    push_external(&mut names, &unit.procedures)?;
    Ok(names)
}
