ghost use Rattle.std.specs.Prelude.{◌≡◌};
ghost use Rattle.words.specs.Limits.{most_threads, run_buckets, most_local_steps};

/// The most threads that a machine can run: those for which a set of threads and the lists of sleepers have room.
pub const MOST_THREADS: u32 = 1000;

/// The buckets of sleepers that a run has.
pub const BUCKETS: u32 = 64;

/// The most local steps in one entry of a log, which is what a thread takes in one turn.
pub const MOST_LOCAL_STEPS: u32 = 256;

/// The limits in code are those of the contracts.
pub fn limit_laws()
    ensures threads { MOST_THREADS ≡ most_threads }
    ensures buckets { BUCKETS ≡ run_buckets }
    ensures local_steps { MOST_LOCAL_STEPS ≡ most_local_steps }
{}
