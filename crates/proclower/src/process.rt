ghost use Rattle.std.specs.Prelude.{◌≡◌, ◌<◌, ◌≤◌, ◌+◌, ◌^◌, [], ◌∷◌, ◌++◌, OnOk, length};
ghost use Rattle.isa.specs.declared.instr.Instr.TheVariants.{Raise as RaiseOf};
ghost use Rattle.lowering.specs.Marks.{plain, rebase_all};
ghost use Rattle.lowering.specs.Processes as processes;

use isa::{Instr, Operator, Slot};
use lowering::{Mark, Marked, append, append_plain};
use program::{Role, ValueType};
use std::alloc::AllocError;
use words::{ENDED, Fault, ProcessWord};

const GET: Instr = Instr::GetLocal(Slot::Template);

const KEEP: Instr = Instr::SetLocal(Slot::Template);

// A result on the operands goes into a local, or away.
fn into_local(into: Option<u32>) -> Instr
    ensures { result ≡ processes.into_code into }
{
    match into {
        Some(slot) => Instr::SetLocal(Slot::Local(slot)),
        None => Instr::Pop,
    }
}

// The mark at a return.
fn return_mark(role: Role, outcome: Option<ValueType>) -> Mark
    ensures { result ≡ processes.return_mark role outcome }
{
    match (role, outcome) {
        (Role::Recover(_) | Role::Main, _) => Mark::Plain,
        (_, None) => Mark::Return,
        (_, Some(_)) => Mark::LastReturn,
    }
}

/// Behind its arguments: a process of so many arguments is forked at a place, and its handle goes into a local.
pub fn fork(code: &mut Vec<Marked>, place: u32, arguments: u32, into: u32) -> Result<(), AllocError>
    ensures { OnOk result (code.new.items
        ≡ code.old.items ++ processes.fork_code place arguments into) }
{
    append(code, Mark::Fork, Instr::Fork(place, arguments))?;
    append(code, Mark::Plain, Instr::SetLocal(Slot::Local(into)))
}

/// Behind its arguments: a procedure at a place is called, and its result, if there is one, is taken.
pub fn call(
    code: &mut Vec<Marked>,
    place: u32,
    into: Option<u32>,
    outcome: Option<ValueType>,
) -> Result<(), AllocError>
    ensures { OnOk result (code.new.items
        ≡ code.old.items ++ processes.call_code place into outcome) }
{
    append(code, Mark::Call, Instr::Call(place))?;
    match (into, outcome) {
        (Some(slot), _) => append(code, Mark::Return, Instr::SetLocal(Slot::Local(slot))),
        (None, Some(_)) => append(code, Mark::Return, Instr::Pop),
        (None, None) => Ok(()),
    }
}

// The first part of `join`, at this place: the claim, and the sleep up to the end.
fn await_end(code: &mut Vec<Marked>, start: u32) -> Result<(), AllocError>
    requires { start ≤ 2 ^ 17 }
    ensures { OnOk result (code.new.items
        ≡ code.old.items ++ rebase_all start processes.await_code) }
{
    let id = Instr::ProcessAddress(ProcessWord::Id);
    let claim = Instr::ProcessAddress(ProcessWord::Claim);
    append_plain(
        code,
        &[
            KEEP,
            GET,
            Instr::JumpIfZero(start + 8),
            GET,
            claim,
            Instr::Push(1),
        ],
    )?;
    append(code, Mark::Claim, Instr::Swap)?;
    append_plain(
        code,
        &[
            Instr::JumpIfZero(start + 9),
            Instr::Raise(Fault::HandleNotJoinable),
            GET,
            id,
        ],
    )?;
    append(code, Mark::Join, Instr::Load)?;
    append_plain(
        code,
        &[
            Instr::JumpIfZero(start + 19),
            GET,
            id,
            GET,
            Instr::FutexWait,
            Instr::Pop,
            Instr::Jump(start + 9),
        ],
    )
}

// The second part of `join`, at this place: the result, and where the process aborted, the jump past it.
fn take_result(code: &mut Vec<Marked>, into: Option<u32>, start: u32) -> Result<(), AllocError>
    requires { start ≤ 2 ^ 17 }
    ensures { OnOk result (code.new.items ≡ code.old.items
        ++ (rebase_all start processes.ended_code ++ plain (processes.into_code into) ∷ [])) }
{
    append_plain(
        code,
        &[
            GET,
            Instr::ProcessAddress(ProcessWord::Outcome),
            Instr::Load,
            Instr::Push(ENDED),
            Instr::Operate(Operator::Eq),
            Instr::JumpIfZero(start + 30),
            GET,
            Instr::ProcessAddress(ProcessWord::Result),
            Instr::Load,
        ],
    )?;
    append(code, Mark::Plain, into_local(into))
}

// The same as `join`, at this place.
fn join_from(code: &mut Vec<Marked>, into: Option<u32>, start: u32) -> Result<(), AllocError>
    requires { start ≤ 2 ^ 17 }
    ensures { OnOk result (code.new.items
        ≡ code.old.items ++ rebase_all start (processes.join_code into)) }
{
    await_end(code, start)?;
    take_result(code, into, start)
}

/// Behind the handle: the JOIN up to where the result of a process that has ended is taken. The next instruction is a
/// jump past what is done where the process aborted, and behind it comes that.
pub fn join(code: &mut Vec<Marked>, into: Option<u32>) -> Result<(), AllocError>
    requires { length code.old.items ≤ 2 ^ 17 }
    ensures { OnOk result (code.new.items ≡ code.old.items
        ++ rebase_all (length code.old.items) (processes.join_code into)) }
{
    let start = code.len() as u32;
    join_from(code, into, start)
}

/// The return of a procedure, or of a RECOVER or the main part, with or without a result.
pub fn ret(code: &mut Vec<Marked>, role: Role, outcome: Option<ValueType>) -> Result<(), AllocError>
    ensures { OnOk result (code.new.items
        ≡ code.old.items ++ processes.return_code role outcome ∷ []) }
{
    let instruction = match outcome {
        None => Instr::Ret,
        Some(_) => Instr::RetValue,
    };
    append(code, return_mark(role, outcome), instruction)
}

/// A fault.
pub fn fault(code: &mut Vec<Marked>, fault: Fault) -> Result<(), AllocError>
    ensures { OnOk result (code.new.items ≡ code.old.items ++ plain (RaiseOf fault) ∷ []) }
{
    append(code, Mark::Plain, Instr::Raise(fault))
}
