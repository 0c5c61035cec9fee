use runner::Turn;

/// Why a search ended before it kept all states, though it found no end that it shows.
#[derive(Clone, Copy)]
pub enum Bound {
    /// As many states are kept as may be.
    States,
    /// Not all that may come next of a kept state was found, for this reason. Where the reason is `Sleepers`, a schedule leads
    /// to where more than twelve threads sleep on one address.
    Nexts(image_states::Bound),
    /// All states are kept, and some are ends that are looked for; or more than twelve threads sleep on one address in a kept
    /// state. But the schedules that lead there need another choice of sleepers than this machine's, which takes them from the
    /// front of each list.
    Choice,
}

/// How a search ended.
#[derive(Drop)]
pub enum Ending {
    /// All states were kept, and none is an end that is looked for.
    Complete,
    /// By this schedule the machine comes to where no thread can move and not all have ended.
    Stuck(Vec<Turn>),
    /// By this schedule it comes to where a thread dies of a fault.
    Failed(Vec<Turn>),
    /// The last turn of this schedule is a step that may not be.
    Broken(Vec<Turn>),
    /// A bound was met.
    Bounded(Bound),
}

/// Why it is not known whether a thread sleeps for good.
#[derive(Clone, Copy)]
pub enum Doubt {
    /// Some choice of sleepers wakes each thread that sleeps, but from some state no thread's next step leads on whichever
    /// sleepers it wakes or moves; or there are more threads than numbers. Where a thread can step and any choice leads on, a
    /// run goes on so.
    Wakes,
    /// Some thread sleeps for good in a kept state, but the schedules that lead there need another choice of sleepers than
    /// this machine's, which takes them from the front of each list.
    Choice,
    /// Not all that may come next of a kept state was found a second time, for this reason.
    Nexts(image_states::Bound),
}

/// Whether a thread sleeps for good in a state that a schedule leads to: it sleeps there, and no run of the threads' own
/// steps from there wakes it, though others may go on for ever.
#[derive(Drop)]
pub enum Sleeping {
    /// It wasn't looked for: not all states were kept without an end, or wakes that nobody called for are searched, and
    /// any sleeper may be woken so.
    Unsought,
    /// None does: from each state that a run comes to, a run of the threads' own steps wakes each thread that sleeps there.
    Never,
    /// By this schedule the machine comes to where these threads sleep for good.
    ForGood {
        /// The schedule.
        turns: Vec<Turn>,
        /// The threads, by rising numbers.
        threads: Vec<u32>,
    },
    /// It isn't known.
    Unknown(Doubt),
}

/// What a search over all schedules of an image found.
#[derive(Drop)]
pub struct ImageExploration {
    /// How many states were kept.
    pub states: usize,
    /// How the search ended.
    pub ending: Ending,
    /// Whether a thread sleeps for good.
    pub sleeping: Sleeping,
}
