ghost use Rattle.std.specs.Prelude.{◌≡◌, ◌≤◌, ◌<◌, ◌+◌, ◌^◌, IfErr, length, true, false};
ghost use Rattle.runner.specs.Logs.{cost, event_cost};
ghost use Rattle.answers.specs.LogLimits.{log_bytes};

use crate::failure::Failure;
use machine::Entry;
use packed_log::LogReader;

// How many bytes of lines come to a step of a log, at most, and how many more a log may have. A line has up to forty, and
// some ten for each thread that it wakes or moves, which went to sleep by a step of its own.
const STEP_BYTES: usize = 64;

const MORE_BYTES: usize = 1 << 20;

/// How many bytes the lines of a log of at most so many steps may have.
pub fn log_bytes(steps: u32) -> usize
    ensures value { result ≡ log_bytes steps }
    ensures few { (2 ^ 20 ≤ result) × (result < 2 ^ 40) }
{
    STEP_BYTES * steps as usize + MORE_BYTES
}

/// Refuses the lines of a log that has more bytes than one of at most so many steps may have.
pub fn check_bytes<'a>(lines: &[u8], steps: u32) -> Result<(), Failure<'a>>
    ensures { IfErr result (λ f. (f ≡ Failure.LogBytes (log_bytes steps))
        × (log_bytes steps < length lines.now)) }
{
    let most = log_bytes(steps);
    if lines.len() > most {
        return Err(Failure::LogBytes(most));
    }
    Ok(())
}

/// Whether a log has at most so many steps.
pub fn has_few_steps(entries: LogReader<'_>, most: u32) -> bool
    ensures few { result ≡ true → cost entries.entry ≤ most }
    ensures many { result ≡ false → most < cost entries.entry }
{
    let mut steps: u64 = 0;
    for entry in entries {
        steps += steps_of(&entry);
        if steps > u64::from(most) {
            return false;
        }
    }
    true
}

// How many steps an entry has.
fn steps_of(entry: &Entry) -> u64
    ensures value { result ≡ entry.now.local + event_cost entry.now.event }
    ensures few { result ≤ 2 ^ 32 }
{
    u64::from(entry.local) + u64::from(entry.event.is_some())
}
