// The small kinds of things in a program.

/// The type of a value.
#[derive(Clone, Copy, PartialEq, Eq, Debug)]
pub enum ValueType {
    /// A number from -2147483648 to 2147483647.
    Integer,
    /// FALSE, the number 0, or TRUE, the number 1.
    Boolean,
    /// The number of a process, or 0 for the empty handle.
    Process,
}

/// The type of a member of a monitor.
#[derive(Clone, Copy, PartialEq, Eq, Debug)]
pub enum MemberType {
    /// A variable of this type.
    Variable(ValueType),
    /// A condition, on which processes wait.
    Condition,
    /// An array of this many INTEGER variables, from 1 to 1,024.
    Array(u32),
}

/// A member of a monitor.
#[derive(Clone, Copy, PartialEq, Eq, Debug)]
pub struct Member {
    /// The monitor, from 0 in the order of declaration.
    pub monitor: u32,
    /// The member, from 0 in the order of the monitor's declarations.
    pub number: u32,
}

/// What stands before one operand.
#[derive(Clone, Copy, PartialEq, Eq, Debug)]
pub enum UnaryOperator {
    /// `-`
    Negate,
    /// `NOT`
    Not,
}

/// What stands between two operands.
#[derive(Clone, Copy, PartialEq, Eq, Debug)]
pub enum Operator {
    /// `+`
    Add,
    /// `-`
    Subtract,
    /// `*`
    Multiply,
    /// `/`, which cuts toward zero
    Divide,
    /// `MOD`, with the sign of the left operand
    Modulo,
    /// `=`
    Equal,
    /// `#`
    NotEqual,
    /// `<`
    Less,
    /// `<=`
    LessEqual,
    /// `>`
    Greater,
    /// `>=`
    GreaterEqual,
    /// `AND`, which evaluates both operands
    And,
    /// `OR`, which evaluates both operands
    Or,
}

/// Which part of a program a procedure is (Lampson and Redell, section 2).
#[derive(Clone, Copy, PartialEq, Eq, Debug)]
pub enum Role {
    /// An ENTRY procedure of this monitor: it takes the monitor's lock.
    Entry(u32),
    /// An INTERNAL procedure of this monitor: it runs with the lock held.
    Internal(u32),
    /// The RECOVER part of this monitor.
    Recover(u32),
    /// A procedure outside all monitors.
    External,
    /// The main part.
    Main,
}
