ghost use Rattle.std.specs.Prelude.{◌≡◌, ◌<◌, ◌≤◌, ◌+◌, ◌^◌, ◌++◌, OnOk, length};
ghost use Rattle.lowering.specs.Marks.{plain, rebase_all};
ghost use Rattle.lowering.specs.Locks as locks;

use isa::{Instr, Operator, Slot};
use lowering::{Mark, Marked};
use std::alloc::AllocError;
use words::{Fault, ImageVersion, OWNER_DIED, ProcessWord, TID_MASK, WAITERS};

const GET: Marked = Marked {
    instruction: Instr::GetLocal(Slot::Template),
    mark: Mark::Plain,
};

const KEEP: Marked = Marked {
    instruction: Instr::SetLocal(Slot::Template),
    mark: Mark::Plain,
};

const AND: Marked = Marked {
    instruction: Instr::Operate(Operator::BitAnd),
    mark: Mark::Plain,
};

const OR: Marked = Marked {
    instruction: Instr::Operate(Operator::BitOr),
    mark: Mark::Plain,
};

const EQUAL: Marked = Marked {
    instruction: Instr::Operate(Operator::Eq),
    mark: Mark::Plain,
};

const HEAD: Marked = Marked {
    instruction: Instr::ProcessAddress(ProcessWord::Head),
    mark: Mark::Plain,
};

const PENDING: Marked = Marked {
    instruction: Instr::ProcessAddress(ProcessWord::Pending),
    mark: Mark::Plain,
};

const OWN: Marked = Marked {
    instruction: Instr::OwnNumber,
    mark: Mark::Plain,
};

const LOAD: Marked = Marked {
    instruction: Instr::Load,
    mark: Mark::Plain,
};

const STORE: Marked = Marked {
    instruction: Instr::Store,
    mark: Mark::Plain,
};

const POP: Marked = Marked {
    instruction: Instr::Pop,
    mark: Mark::Plain,
};

const ZERO: Marked = Marked {
    instruction: Instr::Push(0),
    mark: Mark::Plain,
};

const WAITS_BIT: Marked = Marked {
    instruction: Instr::Push(WAITERS),
    mark: Mark::Plain,
};

const ONE: Marked = Marked {
    instruction: Instr::Push(1),
    mark: Mark::Plain,
};

const NEGATE: Marked = Marked {
    instruction: Instr::Negate,
    mark: Mark::Plain,
};

const OWNER: Marked = Marked {
    instruction: Instr::Push(TID_MASK),
    mark: Mark::Plain,
};

const DIED: Marked = Marked {
    instruction: Instr::Push(OWNER_DIED),
    mark: Mark::Plain,
};

const COMPARE_SWAP: Marked = Marked {
    instruction: Instr::CompareSwap,
    mark: Mark::Plain,
};

const SLEEP: Marked = Marked {
    instruction: Instr::FutexWait,
    mark: Mark::Plain,
};

const WAKE: Marked = Marked {
    instruction: Instr::FutexWake,
    mark: Mark::Plain,
};

// An instruction at which no action stands.
#[inline]
fn plain(instruction: Instr) -> Marked
    ensures { result ≡ plain instruction }
{
    Marked {
        instruction,
        mark: Mark::Plain,
    }
}

/// What is done in an abandoned monitor: the call of its RECOVER part at this place, or the fault where it has none.
pub fn recovery(place: Option<u32>) -> Instr
    ensures { result ≡ locks.recovery place }
{
    match place {
        Some(place) => Instr::Call(place),
        None => Instr::Raise(Fault::AbandonedMonitor),
    }
}

/// The lock of the monitor with this link word is taken, in a template that begins at `start`, from its place `a` on.
pub fn take_from(
    code: &mut Vec<Marked>,
    mark: Mark,
    link: u32,
    start: u32,
    a: u32,
) -> Result<(), AllocError>
    requires { (link < 2 ^ 16) × (start ≤ 2 ^ 17) × (a < 100) }
    ensures { OnOk result (code.new.items
        ≡ code.old.items ++ rebase_all start (locks.take_at mark link a)) }
{
    let lock = plain(Instr::Push(link + 1));
    let again = plain(Instr::JumpIfZero(start + a));
    let free = plain(Instr::JumpIfZero(start + (a + 23)));
    let read = plain(Instr::Jump(start + a));
    let swap = Marked {
        instruction: Instr::CompareSwap,
        mark,
    };
    code.extend_from_slice(&[
        lock,
        LOAD,
        KEEP,
        GET,
        OWNER,
        AND,
        free,
        lock,
        GET,
        GET,
        WAITS_BIT,
        OR,
        COMPARE_SWAP,
        GET,
        EQUAL,
        again,
        lock,
        GET,
        WAITS_BIT,
        OR,
        SLEEP,
        POP,
        read,
        lock,
        GET,
        OWN,
        WAITS_BIT,
        OR,
        swap,
        GET,
        EQUAL,
        again,
    ])
}

/// The monitor with this link word comes first in the robust list and is recovered, in a template that begins at
/// `start`, from its place `a` on.
pub fn got_from(
    code: &mut Vec<Marked>,
    link: u32,
    recover: Option<u32>,
    start: u32,
    a: u32,
) -> Result<(), AllocError>
    requires { (start ≤ 2 ^ 17) × (a < 100) }
    ensures { OnOk result (code.new.items
        ≡ code.old.items ++ rebase_all start (locks.got_at link (locks.recovery recover) a)) }
{
    let link = plain(Instr::Push(link));
    let passed = plain(Instr::JumpIfZero(start + (a + 18)));
    let recovered = plain(recovery(recover));
    code.extend_from_slice(&[
        link, OWN, HEAD, LOAD, STORE, OWN, HEAD, link, STORE, OWN, PENDING, ZERO, STORE, GET, DIED,
        AND, passed, recovered,
    ])
}

/// The lock of the monitor with this link word is given up as in an image of this version, in a template that begins
/// at `start`, from its place `a` on.
pub fn leave_from(
    code: &mut Vec<Marked>,
    version: ImageVersion,
    mark: Mark,
    link: u32,
    start: u32,
    a: u32,
) -> Result<(), AllocError>
    requires { (link < 2 ^ 16) × (start ≤ 2 ^ 17) × (a < 100) }
    ensures { OnOk result (code.new.items
        ≡ code.old.items ++ rebase_all start (locks.leave_at version mark link a)) }
{
    let lock = plain(Instr::Push(link + 1));
    let link = plain(Instr::Push(link));
    match version {
        ImageVersion::One | ImageVersion::Two => {
            let unwanted = plain(Instr::JumpIfZero(start + (a + 19)));
            let swap = Marked {
                instruction: Instr::Swap,
                mark,
            };
            code.extend_from_slice(&[
                OWN, PENDING, link, STORE, OWN, HEAD, link, LOAD, STORE, lock, ZERO, swap,
                WAITS_BIT, AND, unwanted, lock, ONE, WAKE, POP,
            ])
        }
        ImageVersion::Linux => {
            let unwanted = plain(Instr::JumpIfZero(start + (a + 20)));
            let add = Marked {
                instruction: Instr::FetchAdd,
                mark,
            };
            code.extend_from_slice(&[
                OWN, PENDING, link, STORE, OWN, HEAD, link, LOAD, STORE, lock, OWN, NEGATE, add,
                WAITS_BIT, AND, unwanted, lock, ONE, WAKE, POP,
            ])
        }
    }
}

/// How many instructions `leave` is, in an image of this version.
pub fn leave_length(version: ImageVersion) -> u32
    ensures length { result ≡ locks.leave_length version }
    ensures few { result ≤ 20 }
{
    match version {
        ImageVersion::One | ImageVersion::Two => 19,
        ImageVersion::Linux => 20,
    }
}

/// The lock is taken in the form that tells of waiters; the mark stands where it is taken.
pub fn take(code: &mut Vec<Marked>, mark: Mark, link: u32) -> Result<(), AllocError>
    requires { (link < 2 ^ 16) × (length code.old.items ≤ 2 ^ 17) }
    ensures { OnOk result (code.new.items ≡ code.old.items
        ++ rebase_all (length code.old.items) (locks.take_code mark link)) }
{
    let start = code.len() as u32;
    take_from(code, mark, link, start, 0)
}

/// With the lock: the robust list is mended, and an abandoned monitor is recovered first.
pub fn got(code: &mut Vec<Marked>, link: u32, recover: Option<u32>) -> Result<(), AllocError>
    requires { length code.old.items ≤ 2 ^ 17 }
    ensures { OnOk result (code.new.items
        ≡ code.old.items ++ rebase_all (length code.old.items)
        (locks.got_code link (locks.recovery recover))) }
{
    let start = code.len() as u32;
    got_from(code, link, recover, start, 0)
}

/// The lock is given up, and a waiter is woken where there may be one; the mark stands where it is given up.
pub fn leave(
    code: &mut Vec<Marked>,
    version: ImageVersion,
    mark: Mark,
    link: u32,
) -> Result<(), AllocError>
    requires { (link < 2 ^ 16) × (length code.old.items ≤ 2 ^ 17) }
    ensures { OnOk result (code.new.items ≡ code.old.items
        ++ rebase_all (length code.old.items) (locks.leave_code version mark link)) }
{
    let start = code.len() as u32;
    leave_from(code, version, mark, link, start, 0)
}

// The beginning of `enter`, at this place: the entry is pending, and the lock is taken where it is free.
fn try_lock(code: &mut Vec<Marked>, monitor: u32, link: u32, start: u32) -> Result<(), AllocError>
    requires { (link < 2 ^ 16) × (start ≤ 2 ^ 17) }
    ensures { OnOk result (code.new.items
        ≡ code.old.items ++ rebase_all start (locks.try_code monitor link)) }
{
    let lock = plain(Instr::Push(link + 1));
    let link = plain(Instr::Push(link));
    let taken = plain(Instr::JumpIfZero(start + 43));
    let swap = Marked {
        instruction: Instr::CompareSwap,
        mark: Mark::Enter(monitor),
    };
    code.extend_from_slice(&[
        OWN, PENDING, link, STORE, lock, ZERO, OWN, swap, KEEP, GET, taken,
    ])
}

// The same as `enter`, at this place.
fn enter_from(
    code: &mut Vec<Marked>,
    monitor: u32,
    link: u32,
    recover: Option<u32>,
    start: u32,
) -> Result<(), AllocError>
    requires { (link < 2 ^ 16) × (start ≤ 2 ^ 17) }
    ensures { OnOk result (code.new.items
        ≡ code.old.items ++ rebase_all start
        (locks.enter_code monitor link (locks.recovery recover))) }
{
    try_lock(code, monitor, link, start)?;
    take_from(code, Mark::Enter(monitor), link, start, 11)?;
    got_from(code, link, recover, start, 43)
}

/// A monitor is entered, by its number and its link word, with the place of its RECOVER part.
pub fn enter(
    code: &mut Vec<Marked>,
    monitor: u32,
    link: u32,
    recover: Option<u32>,
) -> Result<(), AllocError>
    requires { (link < 2 ^ 16) × (length code.old.items ≤ 2 ^ 17) }
    ensures { OnOk result (code.new.items
        ≡ code.old.items ++ rebase_all (length code.old.items)
        (locks.enter_code monitor link (locks.recovery recover))) }
{
    let start = code.len() as u32;
    enter_from(code, monitor, link, recover, start)
}

/// A monitor is left, by its number and its link word.
pub fn exit(
    code: &mut Vec<Marked>,
    version: ImageVersion,
    monitor: u32,
    link: u32,
) -> Result<(), AllocError>
    requires { (link < 2 ^ 16) × (length code.old.items ≤ 2 ^ 17) }
    ensures { OnOk result (code.new.items ≡ code.old.items
        ++ rebase_all (length code.old.items) (locks.exit_code version monitor link)) }
{
    let start = code.len() as u32;
    leave_from(code, version, Mark::Exit(monitor), link, start, 0)?;
    code.extend_from_slice(&[OWN, PENDING, ZERO, STORE])
}
