//! The trees of the language, what each is spelled as, and how deep it is nested.
#![tactic(auto)]

mod declaration;
mod expression;
mod leaf;
mod limits;
mod statement;
mod unit;

pub use declaration::{
    Access, Body, Local, LocalType, Main, Member, MemberType, Monitor, MonitorProcedure, Parameter,
    Procedure, Recover, ResultType,
};
pub use expression::{
    AllOf, AnyOf, Comparator, Comparison, Conjunction, Element, Expression, Factor, Multiplier,
    Product, ProductOperator, Relation, Sum, SumOperator, Summand, Term, Total, Variable,
};
pub use leaf::{Name, Number, Truth};
pub use limits::{MOST_NESTINGS, limit_laws};
pub use statement::{Callee, Statement};
pub use unit::Unit;
