// The trees of statements.

use crate::expression::{Expression, Variable};
use crate::leaf::Name;
use scanner::Place;

/// What is called: a procedure, of a monitor where one is named, and its arguments.
///
/// `open_place` is the place of the opening parenthesis.
#[derive(Drop)]
pub struct Callee<'a> {
    /// The monitor, where one is named.
    pub monitor: Option<Name<'a>>,
    /// The procedure.
    pub procedure: Name<'a>,
    /// The place of the opening parenthesis.
    pub open_place: Place,
    /// The arguments, in their order.
    pub arguments: Vec<Expression<'a>>,
}

/// A statement. The place of each is that of its keyword.
#[derive(Drop)]
pub enum Statement<'a> {
    /// What is assigned to, and its new value.
    Assign(Variable<'a>, Expression<'a>),
    /// `IF condition THEN .. ELSE .. ENDIF`
    If {
        /// The place of `IF`.
        place: Place,
        /// What is tested.
        condition: Expression<'a>,
        /// The statements behind `THEN`.
        then_part: Vec<Statement<'a>>,
        /// Those behind `ELSE`, where it stands.
        else_part: Option<Vec<Statement<'a>>>,
    },
    /// `WHILE condition DO .. ENDLOOP`
    While {
        /// The place of `WHILE`.
        place: Place,
        /// What is tested before each pass.
        condition: Expression<'a>,
        /// The statements of a pass.
        body: Vec<Statement<'a>>,
    },
    /// `CALL callee INTO name`
    Call {
        /// The place of `CALL`.
        place: Place,
        /// What is called, and on what.
        callee: Callee<'a>,
        /// The variable that takes the result, where one is named.
        into: Option<Name<'a>>,
    },
    /// `FORK callee INTO name`
    Fork {
        /// The place of `FORK`.
        place: Place,
        /// What the new process runs, and on what.
        callee: Callee<'a>,
        /// The variable that takes the process.
        into: Name<'a>,
    },
    /// `JOIN process INTO name ABORTED .. END`
    Join {
        /// The place of `JOIN`.
        place: Place,
        /// The process that is waited for.
        process: Expression<'a>,
        /// The variable that takes its result, where one is named.
        into: Option<Name<'a>>,
        /// The statements that run where it was aborted, if there are any.
        aborted: Option<Vec<Statement<'a>>>,
    },
    /// `RETURN value`
    Return {
        /// The place of `RETURN`.
        place: Place,
        /// The result, where there is one.
        value: Option<Expression<'a>>,
    },
    /// `WAIT condition`
    Wait {
        /// The place of `WAIT`.
        place: Place,
        /// The condition that is waited on.
        condition: Name<'a>,
    },
    /// `NOTIFY condition`
    Notify {
        /// The place of `NOTIFY`.
        place: Place,
        /// The condition of which a waiting process is woken.
        condition: Name<'a>,
    },
    /// `BROADCAST condition`
    Broadcast {
        /// The place of `BROADCAST`.
        place: Place,
        /// The condition of which each waiting process is woken.
        condition: Name<'a>,
    },
    /// `PRINT value`
    Print {
        /// The place of `PRINT`.
        place: Place,
        /// What is printed.
        value: Expression<'a>,
    },
    /// `ABORT`
    Abort {
        /// The place of `ABORT`.
        place: Place,
    },
}
