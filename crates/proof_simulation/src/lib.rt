//! The code of programs and the protocol of their threads together: each run of the machine on the code of a program is
//! explained by a run of the program.
#![tactic(auto)]

mod law;

pub use law::{
    code_refines, piece_runs_explain, run_explains, source_defers, source_follows, traces_explain,
};
