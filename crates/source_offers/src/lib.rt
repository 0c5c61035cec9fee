//! What the source means, decided by code: values of expressions over the variables and locals as they stand.
#![tactic(auto)]

mod ahead;
mod copies;
mod evaluation;
mod foreseeing;
mod frame;
mod monitors;
mod next;
mod next_action;
mod offers;
mod operators;
mod process;
mod rest;
mod statements;
mod variables;

pub use ahead::{Ahead, look_ahead};
pub use evaluation::{array_size, element, evaluate, evaluate_all};
pub use foreseeing::{Foreseen, foresee};
pub use frame::Frame;
pub use monitors::{add_monitor, add_monitors, recover_part};
pub use next::{before, statement};
pub use next_action::{Offer, next_offer};
pub use offers::{
    Effect, Label, Offered, answer, assign, broadcast, claim, fault, notify, print, return_value,
    wait,
};
pub use operators::{both, unary};
pub use process::{End, Process, Stage};
pub use rest::{take_first, upcoming};
pub use statements::{branch, call, fork, join, repeat_while};
pub use variables::{Place, Variables};
