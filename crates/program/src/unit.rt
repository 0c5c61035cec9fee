// Programs.

use crate::kinds::{MemberType, Role, ValueType};
use crate::statement::Statement;

/// A monitor.
#[derive(Drop)]
pub struct Monitor {
    /// The types of its members, in the order of their declarations.
    pub members: Vec<MemberType>,
    /// The number of its RECOVER part's piece, where it has one.
    pub recover: Option<u32>,
}

/// A procedure, a RECOVER part, or the main part.
#[derive(Drop)]
pub struct Procedure {
    /// Which part of the program it is.
    pub role: Role,
    /// The types of its parameters.
    pub parameters: Vec<ValueType>,
    /// The types of its other locals, which come behind the parameters.
    pub locals: Vec<ValueType>,
    /// The type of its result.
    pub result: Option<ValueType>,
    /// Its statements.
    pub body: Vec<Statement>,
}

/// A program.
#[derive(Drop)]
pub struct Program {
    /// Its monitors, in the order of their declarations.
    pub monitors: Vec<Monitor>,
    /// Its pieces, by their numbers: for each monitor its procedures in order, then its RECOVER part; then the external
    /// procedures; then the main part.
    pub procedures: Vec<Procedure>,
}
