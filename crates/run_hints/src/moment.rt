use crate::level::Standing;
use program::{Expression, Program, Statement, Target};
use source_offers::{Process, Stage, Variables, evaluate, upcoming};

/// A process right before an action of it.
#[derive(Clone, Copy)]
pub(crate) struct Moment<'a> {
    /// Whether the action is that of its next statement, or of the end of its body.
    pub is_before: bool,
    /// The statement, where there is one.
    pub statement: Option<&'a Statement>,
    /// Of an IF, a WHILE and a RETURN the value of what stands behind the keyword; of an assignment to an element its
    /// index.
    pub value: i64,
    /// The number of the piece that runs.
    pub piece: u32,
    /// Where that stands.
    pub standing: Standing,
    /// The token at which the procedure stands that called it, where one did.
    pub below: Option<usize>,
}

// The expression of a statement whose value is told.
fn told(statement: &Statement) -> Option<&Expression> {
    match statement {
        Statement::If { condition, .. } => Some(condition),
        Statement::While { condition, .. } => Some(condition),
        Statement::Return(Some(value)) => Some(value),
        Statement::Assign(Target::Element(element), _) => Some(&element.index),
        _ => None,
    }
}

impl<'a> Moment<'a> {
    /// Where no process is.
    pub fn nowhere() -> Moment<'a> {
        Moment {
            is_before: false,
            statement: None,
            value: 0,
            piece: 0,
            standing: Standing::Ends,
            below: None,
        }
    }

    /// That of a process; which piece runs is not told yet.
    pub fn of(program: &Program, variables: &Variables, process: &Process<'a>) -> Moment<'a> {
        let mut moment = Moment::nowhere();
        match &process.stage {
            Stage::Before(_) => moment.is_before = true,
            Stage::Returning(value) => {
                moment.value = *value;
                return moment;
            }
            _ => return moment,
        }
        moment.statement = upcoming(process.frame.rest.as_slice());
        if let Some(expression) = moment.statement.and_then(told) {
            let locals = process.frame.locals.as_slice();
            moment.value = evaluate(program, variables, locals, expression).unwrap_or(0);
        }
        moment
    }
}
