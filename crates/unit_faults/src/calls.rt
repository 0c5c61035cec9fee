// The calls of a unit's pieces.

ghost use Rattle.std.specs.Prelude.{◌≡◌, ◌<◌, ◌^◌, ◌++◌, IfOk, OnOk, length, option_to_list};
ghost use Rattle.syntax.specs.Tree.{UnitTree};
ghost use Rattle.syntax.specs.View as v;
ghost use Rattle.callees.specs.Names.{IsCallees};
ghost use Rattle.callees.specs.Pieces.{piece_of};
ghost use Rattle.types.specs.CallFaults as c;
ghost use Rattle.types.specs.Judgement.{all_calls as all_calls_of};
ghost use Rattle.types.specs.Scope.{Scope, callee as callee_in};
ghost use Rattle.unit_faults.specs.Callers.{IsCaller, calls_at};

use callees::{Callees, Piece};
use callgraph::Call;
use program::Role;
use std::alloc::{AllocError, Global};
use syntax::{Callee, Statement};

/// The piece that calls.
#[derive(Clone, Copy)]
pub struct Caller<'c, 'u, 'a> {
    /// What the unit declares.
    pub callees: &'c Callees<'u, 'a>,
    /// Its role.
    pub role: Role,
    /// Its number.
    pub number: u32,
}

// Adds the call of a callee, where it means a procedure.
fn call(
    callee: &Callee<'_>,
    caller: &Caller<'_, '_, '_>,
    calls: &mut Vec<Call>,
) -> Result<(), AllocError>
    ensures { (s : Scope) → IsCaller s caller.now → OnOk result (calls.new.items
        ≡ calls.old.items ++ calls_at caller.now.number
        (option_to_list (callee_in s (v.callee_of callee.now)))) }
{
    if let Some(number) = caller.callees.find(caller.role, callee) {
        calls.push(Call {
            caller: caller.number,
            callee: number,
        })?;
    }
    Ok(())
}

// Adds the calls of a statement.
#[cycle(calls)]
fn statement(
    tree: &Statement<'_>,
    caller: &Caller<'_, '_, '_>,
    calls: &mut Vec<Call>,
) -> Result<(), AllocError>
    ensures { (s : Scope) → IsCaller s caller.now → OnOk result (calls.new.items
        ≡ calls.old.items ++ calls_at caller.now.number (c.calls s (v.statement_of tree.now))) }
{
    match tree {
        Statement::If {
            then_part,
            else_part,
            ..
        } => {
            block(then_part, caller, calls)?;
            match else_part {
                Some(else_part) => block(else_part, caller, calls),
                None => Ok(()),
            }
        }
        Statement::While { body, .. } => block(body, caller, calls),
        Statement::Call { callee, .. } => call(callee, caller, calls),
        Statement::Join { aborted, .. } => match aborted {
            Some(aborted) => block(aborted, caller, calls),
            None => Ok(()),
        },
        _ => Ok(()),
    }
}

// Adds the calls of statements.
#[cycle(calls)]
fn block(
    statements: &[Statement<'_>],
    caller: &Caller<'_, '_, '_>,
    calls: &mut Vec<Call>,
) -> Result<(), AllocError>
    ensures { (s : Scope) → IsCaller s caller.now → OnOk result (calls.new.items
        ≡ calls.old.items ++ calls_at caller.now.number
        (c.block_calls s (v.statements_in statements.now))) }
{
    for tree in statements {
        statement(tree, caller, calls)?;
    }
    Ok(())
}

// Adds the calls of the piece of this number.
fn push_calls(
    callees: &Callees<'_, '_>,
    piece: &Piece<'_, '_>,
    number: u32,
    calls: &mut Vec<Call>,
) -> Result<(), AllocError>
    ensures { (u : UnitTree) → IsCallees u callees.now → OnOk result (calls.new.items
        ≡ calls.old.items ++ calls_at number
        (c.block_calls (record { unit = u; piece = piece_of piece.now })
        (v.statements_in piece.now.body.now.statements.items))) }
{
    let caller = Caller {
        callees,
        role: piece.role,
        number,
    };
    block(&piece.body.statements, &caller, calls)
}

/// The calls of all pieces, in their order. The only error is that memory runs out.
pub fn all_calls(alloc: Global, callees: &Callees<'_, '_>) -> Result<Vec<Call>, AllocError>
    requires { length callees.now.pieces.items < 2 ^ 32 }
    ensures { (u : UnitTree) → IsCallees u callees.now
        → IfOk result (λ v. v.items ≡ all_calls_of u) }
{
    let mut calls = Vec::new(alloc);
    for (number, piece) in callees.pieces.iter().enumerate() {
        push_calls(callees, piece, number as u32, &mut calls)?;
    }
    Ok(calls)
}
