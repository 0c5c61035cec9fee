//! The log of a run in a form that takes little memory.
//!
//! An entry has a head, a word of 64 bits, in a list of its own. A set of threads that its step woke or moved stands in
//! words of a second list, where it isn't empty: of each entry that of the woken threads first. A set of one thread is one
//! word, the thread's number, and a set of several its 16 words. So an entry takes 8 bytes, one that woke a thread 8 more,
//! and one that woke several 128 more. The bits of a head, from the lowest:
//!
//! | Bits | Width | What they say |
//! |---|---|---|
//! | 0 to 9 | 10 | the thread |
//! | 10 to 18 | 9 | how many local steps it took |
//! | 19 to 23 | 5 | the kind of its shared step, from 1; 0 for a turn |
//! | 24 and 25 | 2 | the form of the set of the woken threads: 0 for nobody, 1 for one thread, 2 for several |
//! | 26 and 27 | 2 | the same of the moved threads |
//! | 28 to 59 | 32 | the step's value |
//! | 60 to 63 | 4 | 0 |
//!
//! The numbers of 1,000 threads have room, and so have 8 kinds more.
//!
//! The thread and the local steps of an entry have no room in a head where the thread is above 1,023, or the steps are more
//! than 511. From the first such entry on these two numbers stand beside each head, in a third list, and the head says none:
//! 16 bytes for an entry. No run makes such an entry, but a log that somebody wrote may have one.
#![tactic(auto)]

mod head;
mod names;
mod packed_log;
mod reader;
mod wide_head;

pub use packed_log::PackedLog;
pub use reader::LogReader;
