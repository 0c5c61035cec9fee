ghost use Rattle.proof_pieces.specs.Laws.{HeldSo, ReducesSo, TellsSo, RunsSo, RestsSo, GoesOn, BreaksBoth, SleepsSo};

/// Each step of the machine with calls in pieces is silent, or one step of the whole calls by the same thread, which
/// wakes the same: a wait at its comparison, a wake and a requeue at their act. So each run in pieces, with any number
/// of buckets, is a trace of steps with whole calls, in which no thread takes more silent pieces than its call has. It
/// keeps that the buckets are held as the threads' phases say.
pub fn pieces_are_whole_calls()
    ensures held { HeldSo }
    ensures reduces { ReducesSo }
    ensures tells { TellsSo }
    ensures runs { RunsSo }
{}

/// No thread waits for a bucket for ever: where a bucket is held, a thread within a call can go on; and where no thread
/// can take a step no bucket is held, and the state is that of the whole calls, in which none can step either. A next
/// step is broken in the one just where it is in the other, and who sleeps sleeps in both.
pub fn pieces_come_to_rest()
    ensures rests { RestsSo }
    ensures goes_on { GoesOn }
    ensures breaks { BreaksBoth }
    ensures sleeps { SleepsSo }
{}
