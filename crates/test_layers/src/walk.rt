ghost use Rattle.std.specs.Prelude.{◌≡◌, ◌<◌, ◌≤◌, length};
ghost use Rattle.words.specs.Process.{process_word};
ghost use Rattle.buckets.specs.Sleepers.{thread_count};

use buckets::{Buckets, ThreadList};
use robustexit::{ExitPhase, ExitRule, exit_step, first_phase};
use words::{MOST_THREADS, Mem};

// More steps than any exit takes.
const MOST_STEPS: u32 = 5000;

/// Takes the steps of the exit of thread `t` by this rule, and answers how many they were. Each writes into `woken` whom it
/// woke.
pub fn walk(
    rule: ExitRule,
    mem: &mut Mem,
    buckets: &mut Buckets,
    t: u32,
    woken: &mut ThreadList,
) -> u32
    requires thread { (0 < t) × (t ≤ MOST_THREADS) }
    requires block { process_word t 5 < length mem.old }
    ensures words { length mem.new ≡ length mem.old }
    ensures threads { thread_count buckets.new ≡ thread_count buckets.old }
{
    let mut phase = first_phase(mem, t);
    for step in 0..MOST_STEPS {
        if phase == ExitPhase::Ended {
            return step;
        }
        phase = exit_step(rule, mem, buckets, t, phase, woken);
    }
    MOST_STEPS
}
