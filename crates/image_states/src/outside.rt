/// What comes from outside in the runs that are searched.
#[derive(Clone, Copy, PartialEq, Eq, Debug)]
pub struct Outside {
    /// Whether a thread that sleeps may be woken though nobody called for it.
    pub strays: bool,
    /// How many threads may begin to die by a kill in a run, at most.
    pub kills: u32,
}
