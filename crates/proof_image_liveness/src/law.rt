ghost use Rattle.proof_image_liveness.specs.Laws.{NeverSleepsSo, SleepsForGoodSo};

/// Where a search over an image is complete, and of each kept state and each thread that sleeps there a list is known in
/// which the state is live for the thread, then from each state that a run in pieces comes to, over any number of buckets,
/// a run of the threads' own steps wakes each thread that sleeps there. A state is live for a thread where the thread is
/// awake, or where a step of some thread leads, whatever it does, to what states behind it in the list cover.
///
/// A thread that sleeps in each of some states, which are closed under steps of the threads' own, sleeps for good in each
/// state that they cover.
pub fn image_liveness_laws()
    ensures never { NeverSleepsSo }
    ensures for_good { SleepsForGoodSo }
{}
