// Statements.

use crate::expression::{Element, Expression};
use crate::kinds::Member;

/// What is assigned to.
#[derive(Drop)]
pub enum Target {
    /// A local of the procedure.
    Local(u32),
    /// A variable of the own monitor.
    Member(Member),
    /// An element of an array of the own monitor.
    Element(Box<Element>),
}

/// A statement. Procedures are named by the number of their piece, locals by their number.
#[derive(Drop)]
pub enum Statement {
    /// `v := e;`
    Assign(Target, Expression),
    /// `IF .. THEN .. ELSE .. ENDIF;`
    If {
        /// The test.
        condition: Expression,
        /// What stands behind THEN.
        then_part: Vec<Statement>,
        /// What stands behind ELSE, where there is one.
        else_part: Option<Vec<Statement>>,
    },
    /// `WHILE .. DO .. ENDLOOP;`
    While {
        /// The test.
        condition: Expression,
        /// What stands behind DO.
        body: Vec<Statement>,
    },
    /// `CALL p(..) INTO x;`
    Call {
        /// The procedure.
        procedure: u32,
        /// The arguments, from the left.
        arguments: Vec<Expression>,
        /// The local that takes the result.
        into: Option<u32>,
    },
    /// `FORK p(..) INTO h;`
    Fork {
        /// The procedure.
        procedure: u32,
        /// The arguments, from the left.
        arguments: Vec<Expression>,
        /// The local that takes the new process's handle.
        into: u32,
    },
    /// `JOIN h INTO x ABORTED .. END;`
    Join {
        /// The handle.
        handle: Expression,
        /// The local that takes the result.
        into: Option<u32>,
        /// What stands behind ABORTED, where there is one.
        aborted: Option<Vec<Statement>>,
    },
    /// `RETURN e;`
    Return(Option<Expression>),
    /// `WAIT c;`
    Wait(Member),
    /// `NOTIFY c;`
    Notify(Member),
    /// `BROADCAST c;`
    Broadcast(Member),
    /// `PRINT e;`
    Print(Expression),
    /// `ABORT;`
    Abort,
}
