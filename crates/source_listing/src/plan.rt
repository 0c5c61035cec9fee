// Where the code of each statement begins, in the order of the text, which is that of the code.

use crate::lengths::{broadcast, ending, entering, join, join_alone, notify, wait};
use program::{Expression, Procedure, Program, Role, Statement, Target};
use std::alloc::{AllocError, Global};
use words::ImageVersion;

/// Where things of the code lie.
#[derive(Drop)]
pub(crate) struct Plan<'p> {
    program: &'p Program,
    version: ImageVersion,
    // Whether memory ran out.
    failed: bool,
    // Where the next instruction lies.
    place: usize,
    // How many instructions a RETURN has behind its value.
    ending: usize,
    /// Where each piece begins.
    pub pieces: Vec<usize>,
    /// Where the end of each piece begins, behind its last statement.
    pub ends: Vec<usize>,
    /// Where each statement begins.
    pub statements: Vec<usize>,
    /// Where a number of the text is pushed, which is no address.
    pub numbers: Vec<usize>,
}

// Passes the code of an expression.
fn expression(e: &Expression, plan: &mut Plan<'_>) {
    match e {
        Expression::Number(_) => plan.pass_number(),
        Expression::Member(_) => plan.pass(2),
        Expression::Element(element) => {
            expression(&element.index, plan);
            plan.pass(2)
        }
        Expression::Unary(_, inner) => {
            expression(inner, plan);
            plan.pass(1)
        }
        Expression::Both(both) => {
            expression(&both.left, plan);
            expression(&both.right, plan);
            plan.pass(1)
        }
        _ => plan.pass(1),
    }
}

// Passes an expression, and instructions behind it.
fn value(e: &Expression, behind: usize, plan: &mut Plan<'_>) {
    expression(e, plan);
    plan.pass(behind);
}

// Passes an assignment.
fn assign(target: &Target, e: &Expression, plan: &mut Plan<'_>) {
    match target {
        Target::Local(_) => {}
        Target::Member(_) => plan.pass(1),
        Target::Element(element) => value(&element.index, 1, plan),
    }
    value(e, 1, plan)
}

// Passes arguments, and instructions behind them.
fn arguments(es: &[Expression], behind: usize, plan: &mut Plan<'_>) {
    for e in es {
        expression(e, plan);
    }
    plan.pass(behind);
}

// Passes a RETURN.
fn return_from(e: &Option<Expression>, plan: &mut Plan<'_>) {
    let ending = plan.ending;
    match e {
        Some(e) => value(e, ending, plan),
        None => {
            plan.pass(ending);
        }
    }
}

// Passes a test, what is done behind it, and instructions behind that.
#[cycle(statements)]
fn tested(statements: &[Statement], condition: &Expression, behind: usize, plan: &mut Plan<'_>) {
    value(condition, 1, plan);
    block(statements, plan);
    plan.pass(behind);
}

// Passes a JOIN with an ABORTED part.
#[cycle(statements)]
fn join_aborted(statements: &[Statement], handle: &Expression, plan: &mut Plan<'_>) {
    value(handle, join(), plan);
    block(statements, plan)
}

// Passes a statement.
#[cycle(statements)]
fn statement(s: &Statement, plan: &mut Plan<'_>) {
    plan.begin_statement();
    match s {
        Statement::Assign(target, e) => assign(target, e, plan),
        Statement::If {
            condition,
            then_part,
            else_part,
        } => match else_part {
            Some(others) => {
                tested(then_part, condition, 1, plan);
                block(others, plan)
            }
            None => tested(then_part, condition, 0, plan),
        },
        Statement::While { condition, body } => tested(body, condition, 1, plan),
        Statement::Call {
            procedure,
            arguments: es,
            into,
        } => arguments(es, plan.call(*procedure, *into), plan),
        Statement::Fork { arguments: es, .. } => arguments(es, 2, plan),
        Statement::Join {
            handle,
            aborted,
            ..
        } => match aborted {
            Some(statements) => join_aborted(statements, handle, plan),
            None => value(handle, join_alone(), plan),
        },
        Statement::Return(e) => return_from(e, plan),
        Statement::Print(e) => value(e, 1, plan),
        Statement::Wait(_) => plan.pass(wait(plan.version)),
        Statement::Notify(_) => plan.pass(notify()),
        Statement::Broadcast(_) => plan.pass(broadcast()),
        Statement::Abort => plan.pass(1),
    }
}

// Passes statements, one after another.
#[cycle(statements)]
fn block(statements: &[Statement], plan: &mut Plan<'_>) {
    for s in statements {
        statement(s, plan);
    }
}

impl<'p> Plan<'p> {
    // Passes instructions.
    fn pass(&mut self, count: usize) {
        self.place = self.place.saturating_add(count);
    }

    // Passes the instruction of a number.
    fn pass_number(&mut self) {
        if self.numbers.push(self.place).is_err() {
            self.failed = true;
        }
        self.pass(1)
    }

    // A statement begins.
    fn begin_statement(&mut self) {
        if self.statements.push(self.place).is_err() {
            self.failed = true;
        }
    }

    // A piece of a role begins.
    fn begin_piece(&mut self, role: Role) {
        self.ending = ending(role, self.version);
        if self.pieces.push(self.place).is_err() {
            self.failed = true;
        }
    }

    // The end of a piece begins.
    fn begin_end(&mut self) {
        if self.ends.push(self.place).is_err() {
            self.failed = true;
        }
    }

    // How many instructions a CALL has behind its arguments.
    fn call(&self, procedure: u32, into: Option<u32>) -> usize {
        if into.is_some() {
            return 2;
        }
        match self.program.procedures.get(procedure as usize) {
            Some(called) if called.result.is_some() => 2,
            _ => 1,
        }
    }

    // Passes a piece.
    fn piece(&mut self, procedure: &Procedure) {
        self.begin_piece(procedure.role);
        self.pass(procedure.parameters.len());
        self.pass(entering(procedure.role));
        block(procedure.body.as_slice(), self);
        self.begin_end();
        self.pass(if procedure.result.is_some() { 1 } else { 0 });
        self.pass(self.ending)
    }

    /// The plan of a program, for an image of this version.
    pub fn of(
        alloc: Global,
        program: &'p Program,
        version: ImageVersion,
    ) -> Result<Plan<'p>, AllocError> {
        let mut plan = Plan::new(alloc, program, version);
        plan.pass_all();
        match plan.failed {
            true => Err(AllocError),
            false => Ok(plan),
        }
    }

    // Passes all pieces.
    fn pass_all(&mut self) {
        for procedure in self.program.procedures.iter() {
            self.piece(procedure);
        }
    }

    // A plan of nothing yet.
    fn new(alloc: Global, program: &'p Program, version: ImageVersion) -> Plan<'p> {
        Plan {
            program,
            version,
            failed: false,
            place: 0,
            ending: 1,
            pieces: Vec::new(alloc),
            ends: Vec::new(alloc),
            statements: Vec::new(alloc),
            numbers: Vec::new(alloc),
        }
    }
}
