ghost use Rattle.std.specs.Prelude.{◌≡◌};
ghost use Rattle.isa.specs.Instructions.{numbers_of, operands, target};
ghost use Rattle.isa.specs.Opcodes.{opcode};
ghost use Rattle.isa.specs.Texts.{mnemonic};

use crate::opcode;
use crate::operands::Operands;
use crate::operator::Operator;
use crate::slot::Slot;
use std::fmt;
use words::{Fault, ProcessWord};

/// An instruction of the machine. A stack effect is written `before -> after`, the top to the right; the place goes on
/// by one where nothing else is said.
///
/// From `Load` on they are shared steps, each one step of the machine; those before are steps of one thread alone, but
/// for a return of its last frame. It is shown by its name and its operands, as `PUSH 7` or `INDEX 385 3`.
#[derive(Clone, Copy, PartialEq, Eq, Debug)]
pub enum Instr {
    /// `-> n`, shown as `PUSH n`.
    Push(u32),
    /// `-> v`, what the local holds, shown as `GETL i`.
    GetLocal(Slot),
    /// `v ->` into the local, shown as `SETL i`.
    SetLocal(Slot),
    /// `v ->`, shown as `POP`.
    Pop,
    /// `a b -> r`, shown by the operator's name.
    Operate(Operator),
    /// `a -> -a`, signed, shown as `NEG`. The fault is a result out of range.
    Negate,
    /// `a -> 1` where a is 0, else `a -> 0`, shown as `NOT`.
    Not,
    /// To a place, shown as `JUMP p`.
    Jump(u32),
    /// `a ->`, and to a place where a is 0, shown as `JZ p`.
    JumpIfZero(u32),
    /// To a place in a new frame, which keeps the place to return to, shown as `CALL p`.
    Call(u32),
    /// Ends the frame, shown as `RET`. In the last frame a shared step: the thread ends.
    Ret,
    /// As `Ret` with one operand, which stays, shown as `RETV`. In the last frame `v ->` into the thread's result word.
    RetValue,
    /// `i -> b + i` modulo 2^32, shown as `INDEX b n`, where i is from 0 to n - 1 as a signed number. Else the fault is
    /// an index out of range.
    Index(u32, u32),
    /// `-> t`, the thread's number, shown as `SELF`.
    OwnNumber,
    /// `h -> the address of this word of process h`, shown as `PADDR k`.
    ProcessAddress(ProcessWord),
    /// The thread fails with this fault, shown as `FAULT k`.
    Raise(Fault),
    /// `a -> the word at a`, shown as `LOAD`.
    Load,
    /// `a v ->`, v into the word at a, shown as `STORE`.
    Store,
    /// `a v -> the old word`, v into the word at a, shown as `SWAP`.
    Swap,
    /// `a expected new -> the old word`, new into the word at a where that is as expected, shown as `CAS`.
    CompareSwap,
    /// `a v -> the old word`, the bits of v set in the word at a, shown as `AOR`.
    FetchOr,
    /// `a v -> the old word`, v added to the word at a modulo 2^32, shown as `AADD`.
    FetchAdd,
    /// A new thread at a place, shown as `FORK p n`: the n uppermost operands move to it, `-> its number`. The fault is
    /// a full process table.
    Fork(u32, u32),
    /// `v ->` to the output as a signed number, shown as `PRINT`.
    Print,
    /// `a expected -> 0`, and the thread sleeps, where the word at a is as expected, else `-> 1`, shown as `FWAIT`
    /// (futex(2), FUTEX_WAIT).
    FutexWait,
    /// `a n -> how many` threads that slept on a were woken, at most n, shown as `FWAKE` (futex(2), FUTEX_WAKE).
    FutexWake,
    /// `a b wake moves expected -> how many` threads that slept on a were woken or moved to b, or 4294967295 where the
    /// word at a isn't as expected, shown as `FREQ` (futex(2), FUTEX_CMP_REQUEUE).
    FutexRequeue,
}

impl Instr {
    // Its opcode.
    pub(crate) fn opcode(self) -> u8
        ensures { result ≡ opcode self }
    {
        match self {
            Instr::Push(_) => opcode::PUSH,
            Instr::GetLocal(_) => opcode::GETL,
            Instr::SetLocal(_) => opcode::SETL,
            Instr::Pop => opcode::POP,
            Instr::Operate(operator) => operator.opcode(),
            Instr::Negate => opcode::NEG,
            Instr::Not => opcode::NOT,
            Instr::Jump(_) => opcode::JUMP,
            Instr::JumpIfZero(_) => opcode::JZ,
            Instr::Call(_) => opcode::CALL,
            Instr::Ret => opcode::RET,
            Instr::RetValue => opcode::RETV,
            Instr::Index(_, _) => opcode::INDEX,
            Instr::OwnNumber => opcode::SELF,
            Instr::ProcessAddress(_) => opcode::PADDR,
            Instr::Raise(_) => opcode::FAULT,
            Instr::Load => opcode::LOAD,
            Instr::Store => opcode::STORE,
            Instr::Swap => opcode::SWAP,
            Instr::CompareSwap => opcode::CAS,
            Instr::FetchOr => opcode::AOR,
            Instr::FetchAdd => opcode::AADD,
            Instr::Fork(_, _) => opcode::FORK,
            Instr::Print => opcode::PRINT,
            Instr::FutexWait => opcode::FWAIT,
            Instr::FutexWake => opcode::FWAKE,
            Instr::FutexRequeue => opcode::FREQ,
        }
    }

    // The place that it names, where another instruction may follow it than the next one.
    pub(crate) fn target(self) -> Option<u32>
        ensures { result ≡ target self }
    {
        match self {
            Instr::Jump(place)
            | Instr::JumpIfZero(place)
            | Instr::Call(place)
            | Instr::Fork(place, _) => Some(place),
            _ => None,
        }
    }

    // The numbers behind its opcode.
    pub(crate) fn operands(self) -> Operands
        ensures { numbers_of result ≡ operands self }
    {
        match self {
            Instr::Push(n) => Operands::One(n),
            Instr::GetLocal(slot) | Instr::SetLocal(slot) => Operands::One(slot.number()),
            Instr::Jump(place) | Instr::JumpIfZero(place) | Instr::Call(place) => Operands::One(
                place,
            ),
            Instr::Index(base, length) => Operands::Two(base, length),
            Instr::ProcessAddress(word) => Operands::One(word as u32),
            Instr::Raise(fault) => Operands::One(fault.number()),
            Instr::Fork(place, arguments) => Operands::Two(place, arguments),
            _ => Operands::Without,
        }
    }

    // The name that it is shown with.
    fn mnemonic(self) -> &'static str
        ensures { result.now ≡ mnemonic self }
    {
        match self {
            Instr::Push(_) => "PUSH",
            Instr::GetLocal(_) => "GETL",
            Instr::SetLocal(_) => "SETL",
            Instr::Pop => "POP",
            Instr::Operate(operator) => operator.mnemonic(),
            Instr::Negate => "NEG",
            Instr::Not => "NOT",
            Instr::Jump(_) => "JUMP",
            Instr::JumpIfZero(_) => "JZ",
            Instr::Call(_) => "CALL",
            Instr::Ret => "RET",
            Instr::RetValue => "RETV",
            Instr::Index(_, _) => "INDEX",
            Instr::OwnNumber => "SELF",
            Instr::ProcessAddress(_) => "PADDR",
            Instr::Raise(_) => "FAULT",
            Instr::Load => "LOAD",
            Instr::Store => "STORE",
            Instr::Swap => "SWAP",
            Instr::CompareSwap => "CAS",
            Instr::FetchOr => "AOR",
            Instr::FetchAdd => "AADD",
            Instr::Fork(_, _) => "FORK",
            Instr::Print => "PRINT",
            Instr::FutexWait => "FWAIT",
            Instr::FutexWake => "FWAKE",
            Instr::FutexRequeue => "FREQ",
        }
    }
}

impl fmt::Display for Instr {
    ghost use Rattle.std.specs.Prelude.{Some};
    ghost use Rattle.isa.specs.Texts.{instruction_text};

    ghost output = { λ i. Some (instruction_text i) };

    fn fmt<W: fmt::Write>(&self, f: &mut fmt::Formatter<W>) -> fmt::Result {
        let name = self.mnemonic();
        match self.operands() {
            Operands::Without => write!(f, "{name}"),
            Operands::One(n) => write!(f, "{name} {n}"),
            Operands::Two(n, m) => write!(f, "{name} {n} {m}"),
        }
    }
}
