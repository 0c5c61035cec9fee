ghost use Rattle.std.specs.Prelude.{◌≡◌};
ghost use Rattle.isa.specs.Opcodes.{faults, process_words, row_of, slot_of};
ghost use Rattle.isa.specs.Instructions.{target};
ghost use Rattle.assembler.specs.Named.{made_of};

use isa::{Instr, MOST_ARGUMENTS, MOST_LOCALS, Slot};
use words::{Fault, ProcessWord};

fn slot(number: u32) -> Option<Slot>
    ensures { result ≡ slot_of number }
{
    if number < MOST_LOCALS {
        return Some(Slot::Local(number));
    }
    if number == MOST_LOCALS {
        Some(Slot::Template)
    } else {
        None
    }
}

fn process_word(number: u32) -> Option<ProcessWord>
    ensures { result ≡ row_of process_words number }
{
    match number {
        0 => Some(ProcessWord::Head),
        1 => Some(ProcessWord::Pending),
        2 => Some(ProcessWord::Id),
        3 => Some(ProcessWord::Claim),
        4 => Some(ProcessWord::Result),
        5 => Some(ProcessWord::Outcome),
        _ => None,
    }
}

fn fault(number: u32) -> Option<Fault>
    ensures { result ≡ row_of faults number }
{
    match number {
        1 => Some(Fault::ResultOutOfRange),
        2 => Some(Fault::DivisionByZero),
        3 => Some(Fault::IndexOutOfRange),
        4 => Some(Fault::HandleNotJoinable),
        5 => Some(Fault::ProcessTableFull),
        6 => Some(Fault::AbortStatement),
        7 => Some(Fault::AbandonedMonitor),
        8 => Some(Fault::JoinedAborted),
        _ => None,
    }
}

fn fork(place: u32, arguments: u32) -> Option<Instr>
    ensures { result ≡ made_of (Instr.Fork 0 0) place arguments }
{
    if arguments > MOST_ARGUMENTS {
        return None;
    }
    Some(Instr::Fork(place, arguments))
}

/// The instruction of the kind of this one with these operands, as many as it has. None where an operand is past its
/// limit.
pub(crate) fn made(kind: Instr, first: u32, second: u32) -> Option<Instr>
    ensures { result ≡ made_of kind first second }
{
    match kind {
        Instr::Push(_) => Some(Instr::Push(first)),
        Instr::GetLocal(_) => Some(Instr::GetLocal(slot(first)?)),
        Instr::SetLocal(_) => Some(Instr::SetLocal(slot(first)?)),
        Instr::Jump(_) => Some(Instr::Jump(first)),
        Instr::JumpIfZero(_) => Some(Instr::JumpIfZero(first)),
        Instr::Call(_) => Some(Instr::Call(first)),
        Instr::Index(_, _) => Some(Instr::Index(first, second)),
        Instr::ProcessAddress(_) => Some(Instr::ProcessAddress(process_word(first)?)),
        Instr::Raise(_) => Some(Instr::Raise(fault(first)?)),
        Instr::Fork(_, _) => fork(first, second),
        other => Some(other),
    }
}

/// The place that an instruction names.
pub(crate) fn target_of(instr: Instr) -> Option<u32>
    ensures { result ≡ target instr }
{
    match instr {
        Instr::Jump(place)
        | Instr::JumpIfZero(place)
        | Instr::Call(place)
        | Instr::Fork(place, _) => Some(place),
        _ => None,
    }
}

/// How many operands stand in an instruction itself.
pub(crate) fn own_operands(instr: Instr) -> usize {
    match instr {
        Instr::Push(_)
        | Instr::GetLocal(_)
        | Instr::SetLocal(_)
        | Instr::Jump(_)
        | Instr::JumpIfZero(_)
        | Instr::Call(_)
        | Instr::ProcessAddress(_)
        | Instr::Raise(_) => 1,
        Instr::Index(_, _) | Instr::Fork(_, _) => 2,
        _ => 0,
    }
}

/// How many operands an instruction takes from those that were pushed, at most: a FORK as many as it says, and a CALL all
/// that its procedure takes.
pub(crate) fn taken_operands(instr: Instr) -> usize {
    match instr {
        Instr::FutexRequeue => 5,
        Instr::CompareSwap => 3,
        Instr::Operate(_)
        | Instr::Store
        | Instr::Swap
        | Instr::FetchOr
        | Instr::FetchAdd
        | Instr::FutexWait
        | Instr::FutexWake => 2,
        Instr::SetLocal(_)
        | Instr::Pop
        | Instr::Negate
        | Instr::Not
        | Instr::JumpIfZero(_)
        | Instr::RetValue
        | Instr::Index(_, _)
        | Instr::ProcessAddress(_)
        | Instr::Load
        | Instr::Print => 1,
        Instr::Call(_) => usize::MAX,
        _ => 0,
    }
}

/// Whether an answer lies behind an instruction that can be put into a local: that of a CALL is what its procedure leaves.
pub(crate) fn has_answer(instr: Instr) -> bool {
    !matches!(
        instr,
        Instr::SetLocal(_)
            | Instr::Pop
            | Instr::Jump(_)
            | Instr::JumpIfZero(_)
            | Instr::Ret
            | Instr::RetValue
            | Instr::Raise(_)
            | Instr::Store
            | Instr::Print
    )
}
