//! A run of a program as a trace-event file, as Perfetto and Chrome's tracing read it: a track for each process.
#![tactic(auto)]

mod recording;
mod slice;
mod takers;
mod tape;
mod texts;
mod track;

pub use recording::timeline;
