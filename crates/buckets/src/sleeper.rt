use words::Addr;

/// A thread, and the address on which it sleeps.
#[derive(Clone, Copy, PartialEq, Eq, Debug)]
pub struct Sleeper {
    /// The thread's number, from 1.
    pub thread: u32,
    /// The address of the word on which it sleeps.
    pub address: Addr,
}
