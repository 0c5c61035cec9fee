ghost use Rattle.std.specs.Prelude.{◌≡◌, List, MatchResult};
ghost use Rattle.machine.specs.declared.event.Entry.{Entry as LogEntry};
ghost use Rattle.log_text.specs.Spelled.{IsLogText, RefusesLines};
ghost use Rattle.log_text.specs.declared.reading.ReadLogFault.TheVariants.{Memory};

use crate::fields::read_line;
use crate::parts::{cut, past_first};
use packed_log::PackedLog;
use std::alloc::{AllocError, Global};
use thiserror::Error;

/// Why a text isn't read as a log. Its lines are numbered from 1.
#[derive(Clone, Copy, PartialEq, Eq, Debug, Error)]
pub enum ReadLogFault {
    /// The line of this number is the first that is no entry's, or that has no end.
    #[error("log line {0}")]
    Line(u64),
    /// There is no memory for the entries.
    #[error("memory")]
    Memory,
}

impl From<AllocError> for ReadLogFault {
    ghost from_gives = { λ _ f. f ≡ Memory };

    fn from(_error: AllocError) -> ReadLogFault {
        ReadLogFault::Memory
    }
}

/// The entries of which a text has the lines, just as `append_log` writes them: each ends by a line feed, its parts stand
/// apart by one space, numbers have no zeros in front, and the threads of a set rise. The empty text is the empty log.
///
/// So each list of entries of the machine's size is read back from its lines, memory aside.
pub fn read_log(alloc: Global, text: &[u8]) -> Result<PackedLog, ReadLogFault>
    ensures read { MatchResult result (λ entries. IsLogText text.now entries.items)
        (λ fault. RefusesLines text.now fault) }
    ensures reads { (log : List LogEntry) → IsLogText text.now log
        → MatchResult result (λ entries. entries.items ≡ log) (λ fault. fault ≡ Memory) }
{
    let mut entries = PackedLog::new(alloc);
    let mut rest = text;
    let mut number: u64 = 0;
    while !rest.is_empty() {
        number += 1;
        let line = cut(rest, b'\n');
        if line.rest.is_empty() {
            return Err(ReadLogFault::Line(number));
        }
        let Some(entry) = read_line(line.front) else {
            return Err(ReadLogFault::Line(number));
        };
        if entries.push(entry).is_err() {
            return Err(ReadLogFault::Memory);
        }
        rest = past_first(line.rest);
    }
    Ok(entries)
}
