//! What a program reads and writes, by calls each of which can fail.
#![tactic(auto)]

mod counted;
mod failures;
mod files;
mod reading;
mod report;
mod sweeping;
mod writing;

pub use counted::Counted;
pub use failures::FileFailures;
pub use files::{FileFault, put_counted, put_file, read_file};
pub use reading::{ReadFault, read_front, read_source, read_whole};
pub use report::{ReportTexts, WriteFault, write_report};
pub use writing::write_bytes;
