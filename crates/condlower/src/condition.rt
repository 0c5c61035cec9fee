ghost use Rattle.std.specs.Prelude.{◌≡◌, ◌<◌, ◌≤◌, ◌+◌, ◌^◌, ◌++◌, OnOk, length};
ghost use Rattle.lowering.specs.Marks.{rebase_all};
ghost use Rattle.lowering.specs.Locks.{recovery};
ghost use Rattle.lowering.specs.Conditions as conditions;

use isa::Instr;
use locklower::{got_from, leave_from, leave_length, take_from};
use lowering::{Mark, Marked, append, append_plain};
use program::Member;
use std::alloc::AllocError;
use words::{ImageVersion, WAITERS};

// The beginning of `wait`, at this place: the sequence word is read, the lock is given up, and the process sleeps.
fn sleep_from(
    code: &mut Vec<Marked>,
    version: ImageVersion,
    condition: Member,
    link: u32,
    sequence: u32,
    start: u32,
) -> Result<(), AllocError>
    requires { (link < 2 ^ 16) × (start ≤ 2 ^ 17) }
    ensures { OnOk result (code.new.items ≡ code.old.items
        ++ rebase_all start (conditions.sleep_code version condition link sequence)) }
{
    append_plain(
        code,
        &[Instr::Push(sequence), Instr::Push(sequence), Instr::Load],
    )?;
    leave_from(code, version, Mark::Wait(condition), link, start, 3)?;
    append_plain(code, &[Instr::FutexWait, Instr::Pop])
}

// The same as `wait`, at this place.
fn wait_from(
    code: &mut Vec<Marked>,
    version: ImageVersion,
    condition: Member,
    link: u32,
    sequence: u32,
    recover: Option<u32>,
    start: u32,
) -> Result<(), AllocError>
    requires { (link < 2 ^ 16) × (start ≤ 2 ^ 17) }
    ensures { OnOk result (code.new.items
        ≡ code.old.items ++ rebase_all start
        (conditions.wait_code version condition link sequence (recovery recover))) }
{
    sleep_from(code, version, condition, link, sequence, start)?;
    let takes = leave_length(version) + 5;
    take_from(code, Mark::Resume(condition.monitor), link, start, takes)?;
    got_from(code, link, recover, start, takes + 32)
}

/// WAIT on a condition, with the link word of its monitor, its own sequence word, and the place of the monitor's
/// RECOVER part.
pub fn wait(
    code: &mut Vec<Marked>,
    version: ImageVersion,
    condition: Member,
    link: u32,
    sequence: u32,
    recover: Option<u32>,
) -> Result<(), AllocError>
    requires { (link < 2 ^ 16) × (length code.old.items ≤ 2 ^ 17) }
    ensures { OnOk result (code.new.items ≡ code.old.items
        ++ rebase_all (length code.old.items)
        (conditions.wait_code version condition link sequence (recovery recover))) }
{
    let start = code.len() as u32;
    wait_from(code, version, condition, link, sequence, recover, start)
}

/// NOTIFY of a condition, with its sequence word.
pub fn notify(code: &mut Vec<Marked>, condition: Member, sequence: u32) -> Result<(), AllocError>
    ensures { OnOk result (code.new.items
        ≡ code.old.items ++ conditions.notify_code condition sequence) }
{
    append_plain(
        code,
        &[
            Instr::Push(sequence),
            Instr::Push(1),
            Instr::FetchAdd,
            Instr::Pop,
            Instr::Push(sequence),
            Instr::Push(1),
        ],
    )?;
    append(code, Mark::Notify(condition), Instr::FutexWake)?;
    append(code, Mark::Plain, Instr::Pop)
}

/// BROADCAST of a condition, with the link word of its monitor and its sequence word.
pub fn broadcast(
    code: &mut Vec<Marked>,
    condition: Member,
    link: u32,
    sequence: u32,
) -> Result<(), AllocError>
    requires { link < 2 ^ 16 }
    ensures { OnOk result (code.new.items
        ≡ code.old.items ++ conditions.broadcast_code condition link sequence) }
{
    append_plain(
        code,
        &[
            Instr::Push(sequence),
            Instr::Push(1),
            Instr::FetchAdd,
            Instr::Pop,
            Instr::Push(link + 1),
            Instr::Push(WAITERS),
            Instr::FetchOr,
            Instr::Pop,
            Instr::Push(sequence),
            Instr::Push(link + 1),
            Instr::Push(0),
            Instr::Push(u32::MAX),
            Instr::Push(sequence),
            Instr::Load,
        ],
    )?;
    append(code, Mark::Broadcast(condition), Instr::FutexRequeue)?;
    append(code, Mark::Plain, Instr::Pop)
}
