// The trees of declarations.

use crate::leaf::{Name, Number};
use crate::statement::Statement;
use scanner::Place;

/// The type of a local variable or a parameter.
#[derive(Clone, Copy, PartialEq, Eq)]
pub enum LocalType {
    /// `INTEGER`
    Integer,
    /// `BOOLEAN`
    Boolean,
    /// `PROCESS`
    Process,
}

/// The type of a result.
#[derive(Clone, Copy, PartialEq, Eq)]
pub enum ResultType {
    /// `INTEGER`
    Integer,
    /// `BOOLEAN`
    Boolean,
}

/// The type of a member of a monitor. An array has its number of elements.
#[derive(Clone, Copy)]
pub enum MemberType {
    /// `INTEGER`
    Integer,
    /// `BOOLEAN`
    Boolean,
    /// `PROCESS`
    Process,
    /// `CONDITION`
    Condition,
    /// `ARRAY n OF INTEGER`, with the number n.
    Array(Number),
}

/// A local variable. The place is that of `VAR`.
#[derive(Clone, Copy)]
pub struct Local<'a> {
    /// The place of `VAR`.
    pub place: Place,
    /// The name of the variable.
    pub name: Name<'a>,
    /// Its type.
    pub kind: LocalType,
}

/// A parameter of a procedure.
#[derive(Clone, Copy)]
pub struct Parameter<'a> {
    /// The name of the parameter.
    pub name: Name<'a>,
    /// Its type.
    pub kind: LocalType,
}

/// A member of a monitor. The place is that of `VAR`.
#[derive(Clone, Copy)]
pub struct Member<'a> {
    /// The place of `VAR`.
    pub place: Place,
    /// The name of the member.
    pub name: Name<'a>,
    /// Its type.
    pub kind: MemberType,
}

/// Local variables, and the statements that use them.
#[derive(Drop)]
pub struct Body<'a> {
    /// The local variables, in their order.
    pub locals: Vec<Local<'a>>,
    /// The statements, in their order.
    pub statements: Vec<Statement<'a>>,
}

/// A procedure. The places are those of `PROCEDURE` and of the opening parenthesis.
#[derive(Drop)]
pub struct Procedure<'a> {
    /// The place of `PROCEDURE`.
    pub place: Place,
    /// The name of the procedure.
    pub name: Name<'a>,
    /// The place of the opening parenthesis.
    pub open_place: Place,
    /// The parameters, in their order.
    pub parameters: Vec<Parameter<'a>>,
    /// The type of its result, where it has one.
    pub returns: Option<ResultType>,
    /// The local variables and statements.
    pub body: Body<'a>,
}

/// Whether a procedure of a monitor takes the monitor's lock, or runs with it held.
#[derive(Clone, Copy, PartialEq, Eq)]
pub enum Access {
    /// `ENTRY`: it takes the lock of the monitor, and lets it go at its end.
    Entry,
    /// `INTERNAL`: it runs where the lock is held already.
    Internal,
}

/// A procedure of a monitor.
#[derive(Drop)]
pub struct MonitorProcedure<'a> {
    /// Whether it takes the lock of the monitor.
    pub access: Access,
    /// The procedure.
    pub procedure: Procedure<'a>,
}

/// What the next process that enters an abandoned monitor runs first. The place is that of `RECOVER`.
#[derive(Drop)]
pub struct Recover<'a> {
    /// The place of `RECOVER`.
    pub place: Place,
    /// The local variables and statements.
    pub body: Body<'a>,
}

/// A monitor. The place is that of `MONITOR`.
#[derive(Drop)]
pub struct Monitor<'a> {
    /// The place of `MONITOR`.
    pub place: Place,
    /// The name of the monitor.
    pub name: Name<'a>,
    /// The members, in their order.
    pub members: Vec<Member<'a>>,
    /// The procedures, in their order.
    pub procedures: Vec<MonitorProcedure<'a>>,
    /// The recover part, where there is one.
    pub recover: Option<Recover<'a>>,
}

/// What process 1 runs. The place is that of `MAIN`.
#[derive(Drop)]
pub struct Main<'a> {
    /// The place of `MAIN`.
    pub place: Place,
    /// The local variables and statements.
    pub body: Body<'a>,
}
