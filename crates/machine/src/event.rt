ghost use Rattle.std.specs.Prelude.{◌≡◌};
ghost use Rattle.std.specs.List.{All};
ghost use Rattle.machine.specs.ThreadSets.{IsThread};
ghost use Rattle.machine.specs.ConcreteServing.{plain, event_of};

use crate::thread_set::ThreadSet;
use thiserror::Error;

/// What one step of a thread was, as a line of the log names it.
#[derive(Clone, Copy, PartialEq, Eq, Debug)]
pub enum EventName {
    /// A local step. A log shows it as TURN.
    Local,
    /// A word read: the word.
    Load,
    /// A word stored: the word.
    Store,
    /// A word swapped: the word before.
    Swap,
    /// A compare-and-swap: the word before.
    CompareSwap,
    /// Bits set in a word: the word before.
    FetchOr,
    /// A number added to a word: the word before.
    FetchAdd,
    /// A new thread: its number, or 0 where no more can be made.
    Fork,
    /// A number printed: the number's word.
    Print,
    /// A wait: 0 for a sleep, 1 for Again (futex(2), FUTEX_WAIT).
    Wait,
    /// A wake: how many were woken (futex(2), FUTEX_WAKE).
    Wake,
    /// A compare-requeue: how many were woken or moved, or 4294967295 for Again (futex(2), FUTEX_CMP_REQUEUE).
    Requeue,
    /// The piece of a futex call that takes a bucket: the bucket's number.
    FutexLock,
    /// The piece of a wait or a compare-requeue that finds its word as expected: the word.
    FutexCompare,
    /// The return of the last frame: 16, the outcome word of a process that ended.
    Ret,
    /// The return of the last frame with a value: the value.
    RetValue,
    /// A fault written: its number.
    Die,
    /// The step of an exit at an entry of the robust list: the entry's address.
    Entry,
    /// The step of an exit that treats the pending entry: its address, 0 for none.
    Pending,
    /// The step of an exit that clears the id word: 0.
    Clear,
    /// The step of an exit that wakes one sleeper on the id word: how many were woken.
    Last,
    /// A wake from outside, which nobody called for: the address at which the thread slept.
    Stray,
    /// A kill from outside: 1 where the thread begins to die by it, else 0.
    Kill,
}

/// What one step of a thread did that others can see.
#[derive(Clone, Copy, PartialEq, Eq, Debug)]
pub struct Event {
    /// The kind of step.
    pub name: EventName,
    /// Its value, as `EventName` says.
    pub value: u32,
    /// The threads that it woke.
    pub woken: ThreadSet,
    /// The threads that it moved to another address.
    pub moved: ThreadSet,
}

impl Event {
    /// An event that wakes and moves nobody.
    pub fn new(name: EventName, value: u32) -> Event
        ensures { result ≡ plain name value }
    {
        Event {
            name,
            value,
            woken: ThreadSet::new(),
            moved: ThreadSet::new(),
        }
    }

    /// An event that wakes and moves these threads.
    #[tactic(auto, using(crate::proofs::Sets::threads_members))]
    pub fn with_threads(name: EventName, value: u32, woken: &[u32], moved: &[u32]) -> Event
        requires woken { All IsThread woken.now }
        requires moved { All IsThread moved.now }
        ensures { result ≡ event_of name value woken.now moved.now }
    {
        Event {
            name,
            value,
            woken: ThreadSet::of(woken),
            moved: ThreadSet::of(moved),
        }
    }

    /// Becomes an event that wakes and moves nobody.
    pub fn put(&mut self, name: EventName, value: u32)
        ensures { self.new ≡ plain name value }
    {
        self.name = name;
        self.value = value;
        self.woken.clear();
        self.moved.clear();
    }

    /// Becomes an event that wakes and moves these threads.
    #[tactic(auto, using(crate::proofs::Sets::threads_members))]
    pub fn put_with(&mut self, name: EventName, value: u32, woken: &[u32], moved: &[u32])
        requires woken { All IsThread woken.now }
        requires moved { All IsThread moved.now }
        ensures { self.new ≡ event_of name value woken.now moved.now }
    {
        self.name = name;
        self.value = value;
        self.woken.put(woken);
        self.moved.put(moved);
    }
}

/// One entry of a log: local steps of a thread, and then at most one shared step.
#[derive(Clone, Copy, PartialEq, Eq, Debug)]
pub struct Entry {
    /// The thread, from 1.
    pub thread: u32,
    /// How many local steps it took.
    pub local: u32,
    /// The shared step after them; None for a turn.
    pub event: Option<Event>,
}

/// Why a step of a thread is refused.
#[derive(Clone, Copy, PartialEq, Eq, Debug, Error)]
pub enum StepFault {
    /// There is no such thread, it sleeps, or it has ended.
    #[error("fault 1")]
    CannotMove = 1,
    /// The step may not be: a missing operand, a 513th operand, a 17th frame, a place outside the code, a process
    /// number out of range, or an address outside the memory.
    #[error("fault 2")]
    Broken = 2,
}
