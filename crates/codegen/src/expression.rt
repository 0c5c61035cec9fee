ghost use Rattle.std.specs.Prelude.{◌≡◌, ◌++◌, OnOk, map};
ghost use Rattle.program.specs.Scope.{array_size};
ghost use Rattle.program.specs.Views.{program_of, expression_of};
ghost use Rattle.lowering.specs.Expressions as expressions;
ghost use Rattle.codegen.specs.Sites.{said_at, IsLaidOut};

use crate::site::Site;
use isa::{Instr, Operator as Operation, Slot};
use lowering::{Mark, Marked, append, append_plain};
use program::{Expression, Member, MemberType, Operator, Program, UnaryOperator};
use std::alloc::AllocError;

// How many elements an array has.
fn size_of_array(program: &Program, array: Member) -> u32
    ensures { result ≡ array_size (program_of program.now) array }
{
    match program.monitors.get(array.monitor as usize) {
        Some(monitor) => match monitor.members.get(array.number as usize) {
            Some(MemberType::Array(size)) => *size,
            _ => 0,
        },
        None => 0,
    }
}

// The instruction that leads from an index to the address of that element.
pub(crate) fn index(site: &Site, array: Member) -> Instr
    requires { IsLaidOut site.now }
    ensures { result ≡ expressions.index_code (said_at site.now) array }
{
    Instr::Index(
        site.layout.address(array),
        size_of_array(site.program, array),
    )
}

fn operation(operator: Operator) -> Operation
    ensures { result ≡ expressions.operation operator }
{
    match operator {
        Operator::Add => Operation::Add,
        Operator::Subtract => Operation::Sub,
        Operator::Multiply => Operation::Mul,
        Operator::Divide => Operation::Div,
        Operator::Modulo => Operation::Mod,
        Operator::Equal => Operation::Eq,
        Operator::NotEqual => Operation::Ne,
        Operator::Less => Operation::Lt,
        Operator::LessEqual => Operation::Le,
        Operator::Greater => Operation::Gt,
        Operator::GreaterEqual => Operation::Ge,
        Operator::And => Operation::BitAnd,
        Operator::Or => Operation::BitOr,
    }
}

fn unary(operator: UnaryOperator) -> Instr
    ensures { result ≡ expressions.unary_code operator }
{
    match operator {
        UnaryOperator::Negate => Instr::Negate,
        UnaryOperator::Not => Instr::Not,
    }
}

// The code of an expression, behind other code.
pub(crate) fn expression(
    e: &Expression,
    site: &Site,
    code: &mut Vec<Marked>,
) -> Result<(), AllocError>
    requires { IsLaidOut site.now }
    ensures { OnOk result (code.new.items
        ≡ code.old.items ++ expressions.expression_code (said_at site.now) (expression_of e.now)) }
{
    match e {
        Expression::Number(n) => append(code, Mark::Plain, Instr::Push(*n)),
        Expression::Truth(truth) => {
            let word = if *truth { 1 } else { 0 };
            append(code, Mark::Plain, Instr::Push(word))
        }
        Expression::Local(slot) => append(code, Mark::Plain, Instr::GetLocal(Slot::Local(*slot))),
        Expression::Member(member) => append_plain(
            code,
            &[Instr::Push(site.layout.address(*member)), Instr::Load],
        ),
        Expression::Element(element) => {
            expression(&element.index, site, code)?;
            append_plain(code, &[index(site, element.array), Instr::Load])
        }
        Expression::Unary(operator, operand) => {
            expression(operand, site, code)?;
            append(code, Mark::Plain, unary(*operator))
        }
        Expression::Both(both) => {
            expression(&both.left, site, code)?;
            expression(&both.right, site, code)?;
            append(code, Mark::Plain, Instr::Operate(operation(both.operator)))
        }
    }
}

// The code of arguments, one after the other.
pub(crate) fn arguments(
    es: &[Expression],
    site: &Site,
    code: &mut Vec<Marked>,
) -> Result<(), AllocError>
    requires { IsLaidOut site.now }
    ensures { OnOk result (code.new.items
        ≡ code.old.items ++ expressions.arguments_code (said_at site.now)
        (map expression_of es.now)) }
{
    for e in es {
        expression(e, site, code)?;
    }
    Ok(())
}
