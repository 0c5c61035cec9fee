use crate::failure::Failure;
use buckets::ThreadList;
use futexcalls::{FutexLists, WaitAnswer};
use words::Addr;

/// What a call answers.
#[derive(Drop)]
pub enum Answer {
    /// Nothing but that it was done.
    Done,
    /// A word.
    Word(u32),
    /// How many steps it took.
    Steps(u32),
    /// Where a thread sleeps.
    Place(Option<Addr>),
    /// Threads, in their order.
    Threads(ThreadList),
    /// Whether a thread sleeps.
    Waited(WaitAnswer),
    /// Those woken and those moved, or none where the word differs.
    Requeued(Option<FutexLists>),
}

/// Prints an answer.
pub fn show(rt: &HostRuntime, answer: &Answer) -> Result<(), Failure> {
    let shown = match answer {
        Answer::Done => println!(rt; "  done"),
        Answer::Word(word) => println!(rt; "  {word}"),
        Answer::Steps(steps) => println!(rt; "  {steps} steps"),
        Answer::Place(None) => println!(rt; "  awake"),
        Answer::Place(Some(address)) => println!(rt; "  on {}", address.0),
        Answer::Threads(threads) => println!(rt; "  {:?}", threads.as_slice()),
        Answer::Waited(answer) => println!(rt; "  {answer:?}"),
        Answer::Requeued(None) => println!(rt; "  Again"),
        Answer::Requeued(Some(both)) => println!(rt;
            "  {:?} moved {:?}",
            both.woken.as_slice(),
            both.moved.as_slice()
        ),
    };
    Ok(shown?)
}
