use crate::events::{Act, Point, Told, after_event};
use machine::Entry;
use packed_log::LogReader;
use source_states::{Action, ActionKind};
use std::alloc::{AllocError, Global};
use words::MOST_THREADS;

/// An attempt of a process to take a monitor that failed, since another process held it, or the process itself.
#[derive(Clone, Copy, PartialEq, Eq, Debug)]
pub struct Attempt {
    /// How many of the actions come before it.
    pub behind: usize,
    /// The process, from 1.
    pub process: u64,
    /// The process that held the monitor then.
    pub holder: u64,
    /// The monitor, from 0; None where the process never took it.
    pub monitor: Option<u32>,
}

// A thread while its events are read.
#[derive(Drop)]
struct Thread {
    point: Point,
    // Who held the monitor at its last failed attempt, until it takes it; else 0.
    holder: u32,
    // The places of its attempts whose monitor isn't known yet.
    open: Vec<usize>,
}

// A log while it is read beside its actions.
#[derive(Drop)]
struct Reading<'p> {
    actions: &'p [Action],
    // How many of the actions come before the next entry, as far as its entries tell.
    behind: usize,
    // The threads up to the last that has an entry, the first of thread 1.
    threads: Vec<Thread>,
    attempts: Vec<Attempt>,
}

// Whether an action is of this kind.
fn is_act(kind: &ActionKind, act: Act) -> bool {
    match kind {
        ActionKind::Enter(_) | ActionKind::Resume(_) => act == Act::Takes,
        ActionKind::Exit(_) | ActionKind::Wait(_) => act == Act::GivesUp,
        ActionKind::Claim(_) => act == Act::Claims,
        ActionKind::Fork(_) => act == Act::Forks,
        ActionKind::Print(_) => act == Act::Prints,
        ActionKind::Notify(_, _) => act == Act::Notifies,
        ActionKind::Broadcast(_, _) => act == Act::Broadcasts,
        ActionKind::Kill(_, _) => act == Act::Dies,
        ActionKind::Finish => act == Act::Ends,
        _ => false,
    }
}

// The monitor that an action takes.
fn taken(action: &Action) -> Option<u32> {
    match action.kind {
        ActionKind::Enter(monitor) | ActionKind::Resume(monitor) => Some(monitor),
        _ => None,
    }
}

// A thread as it begins.
fn new_thread(alloc: Global) -> Thread {
    Thread {
        point: Point::Elsewhere,
        holder: 0,
        open: Vec::new(alloc),
    }
}

// The place of a thread.
fn index_of(thread: u32) -> usize {
    thread.saturating_sub(1) as usize
}

impl<'p> Reading<'p> {
    // The next action of a process that is of this kind, and how many come up to it.
    fn find(&self, process: u64, act: Act) -> Option<(&'p Action, usize)> {
        let mut count = self.behind;
        for action in self.actions.get(self.behind..).unwrap_or(&[]) {
            count = count.saturating_add(1);
            if action.process == process && is_act(&action.kind, act) {
                return Some((action, count));
            }
        }
        None
    }

    // A thread took this monitor, or waits for it no longer: its attempts were for it.
    fn settle(&mut self, thread: u32, monitor: Option<u32>) {
        let Some(thread) = self.threads.get_mut(index_of(thread)) else {
            return;
        };
        for place in thread.open.iter() {
            if let Some(attempt) = self.attempts.get_mut(*place) {
                attempt.monitor = monitor;
            }
        }
        thread.open.clear();
        thread.holder = 0;
    }

    // An entry is this action of its thread: those that follow come behind it.
    fn pass(&mut self, thread: u32, act: Act) {
        let Some((action, count)) = self.find(u64::from(thread), act) else {
            return;
        };
        self.behind = count;
        match act {
            Act::Takes | Act::Dies => self.settle(thread, taken(action)),
            _ => {}
        }
    }

    // A thread failed to take a lock. Who tries again while the same thread holds it waits on.
    fn fail(&mut self, number: u32, holder: u32) -> Result<(), AllocError> {
        let Some(thread) = self.threads.get_mut(index_of(number)) else {
            return Ok(());
        };
        if thread.holder == holder {
            return Ok(());
        }
        thread.holder = holder;
        thread.open.push(self.attempts.len())?;
        self.attempts.push(Attempt {
            behind: self.behind,
            process: u64::from(number),
            holder: u64::from(holder),
            monitor: None,
        })?;
        Ok(())
    }

    // Has a place for this thread, where there can be such a one.
    fn know(&mut self, alloc: Global, thread: u32) -> Result<(), AllocError> {
        let known = self.threads.len();
        for _ in known..thread.min(MOST_THREADS) as usize {
            self.threads.push(new_thread(alloc))?;
        }
        Ok(())
    }

    // Reads an entry.
    fn read(&mut self, alloc: Global, entry: &Entry) -> Result<(), AllocError> {
        let Some(event) = entry.event else {
            return Ok(());
        };
        self.know(alloc, entry.thread)?;
        let Some(thread) = self.threads.get_mut(index_of(entry.thread)) else {
            return Ok(());
        };
        let (point, told) = after_event(entry.thread, thread.point, event);
        thread.point = point;
        match told {
            Told::Nothing => Ok(()),
            Told::Acts(act) => {
                self.pass(entry.thread, act);
                Ok(())
            }
            Told::Fails(holder) => self.fail(entry.thread, holder),
        }
    }
}

/// The attempts to take a monitor that failed, in their order: of each process that waits for a monitor the first one,
/// and each later one at which another process held it. The log is that of a run of a program's image, and the actions
/// are those that it explains; of others nothing is said.
///
/// An attempt comes behind the last action before it that an entry of the log shows by itself: one that takes or gives
/// up a monitor, claims, makes or ends a process, prints, notifies or broadcasts. So it lies within the time in which the
/// other process holds the monitor.
pub fn attempts(
    alloc: Global,
    log: LogReader<'_>,
    actions: &[Action],
) -> Result<Vec<Attempt>, AllocError> {
    let mut reading = Reading {
        actions,
        behind: 0,
        threads: Vec::new(alloc),
        attempts: Vec::new(alloc),
    };
    for entry in log {
        reading.read(alloc, &entry)?;
    }
    Ok(reading.attempts)
}
