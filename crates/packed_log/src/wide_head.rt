/// The head of an entry, with the entry's thread and local steps beside it.
#[derive(Clone, Copy)]
pub struct WideHead {
    /// The thread, in place of the one that the head says.
    pub thread: u32,
    /// How many local steps it took, in place of those that the head says.
    pub local: u32,
    /// What else the entry says.
    pub head: u64,
}
