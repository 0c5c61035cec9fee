//! Pictures of a run of an image: one as SVG, and its trace events as JSON. A lane for each thread.
#![tactic(auto)]

mod escaping;
mod lanes;
mod picture;
mod sheet;
mod styles;
mod timeline;

pub use picture::image_chart;
pub use timeline::image_timeline;
