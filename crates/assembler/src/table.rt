ghost use Rattle.std.specs.Prelude.{◌≡◌, ℕ, List};
ghost use Rattle.std.specs.Str.{bytes_eq};
ghost use Rattle.assembler.specs.Named.{called, row_named};

use isa::{Instr, Operator, Slot};
use words::{Fault, ProcessWord};

// A row of the table: the name that an instruction is shown with, and the instruction, with the first operands that there
// are.
#[derive(Clone, Copy)]
struct Row<'a>(&'a str, Instr);

// The instructions by their names.
const ROWS: &[Row] = &[
    Row("PUSH", Instr::Push(0)),
    Row("GETL", Instr::GetLocal(Slot::Local(0))),
    Row("SETL", Instr::SetLocal(Slot::Local(0))),
    Row("POP", Instr::Pop),
    Row("ADD", Instr::Operate(Operator::Add)),
    Row("SUB", Instr::Operate(Operator::Sub)),
    Row("MUL", Instr::Operate(Operator::Mul)),
    Row("DIV", Instr::Operate(Operator::Div)),
    Row("MOD", Instr::Operate(Operator::Mod)),
    Row("EQ", Instr::Operate(Operator::Eq)),
    Row("NE", Instr::Operate(Operator::Ne)),
    Row("LT", Instr::Operate(Operator::Lt)),
    Row("LE", Instr::Operate(Operator::Le)),
    Row("GT", Instr::Operate(Operator::Gt)),
    Row("GE", Instr::Operate(Operator::Ge)),
    Row("BAND", Instr::Operate(Operator::BitAnd)),
    Row("BOR", Instr::Operate(Operator::BitOr)),
    Row("NEG", Instr::Negate),
    Row("NOT", Instr::Not),
    Row("JUMP", Instr::Jump(0)),
    Row("JZ", Instr::JumpIfZero(0)),
    Row("CALL", Instr::Call(0)),
    Row("RET", Instr::Ret),
    Row("RETV", Instr::RetValue),
    Row("INDEX", Instr::Index(0, 0)),
    Row("SELF", Instr::OwnNumber),
    Row("PADDR", Instr::ProcessAddress(ProcessWord::Head)),
    Row("FAULT", Instr::Raise(Fault::ResultOutOfRange)),
    Row("LOAD", Instr::Load),
    Row("STORE", Instr::Store),
    Row("SWAP", Instr::Swap),
    Row("CAS", Instr::CompareSwap),
    Row("AOR", Instr::FetchOr),
    Row("AADD", Instr::FetchAdd),
    Row("FORK", Instr::Fork(0, 0)),
    Row("PRINT", Instr::Print),
    Row("FWAIT", Instr::FutexWait),
    Row("FWAKE", Instr::FutexWake),
    Row("FREQ", Instr::FutexRequeue),
];

// Whether two texts are the same.
fn is_same(text: &[u8], other: &[u8]) -> bool
    ensures { result ≡ bytes_eq text.now other.now }
{
    if text.len() != other.len() {
        return false;
    }
    for i in 0..text.len() {
        if text[i] != other[i] {
            return false;
        }
    }
    true
}

// The instruction of the first of these rows that has this name.
fn find(rows: &[Row<'_>], name: &[u8]) -> Option<Instr>
    ensures { result ≡ row_named rows.now name.now }
{
    for row in rows {
        if is_same(row.0.as_bytes(), name) {
            return Some(row.1);
        }
    }
    None
}

// The table, which has the names that instructions are shown with.
#[tactic(auto, unfolding(crate::specs::Named::called))]
fn rows() -> &'static [Row<'static>]
    ensures { (name : List ℕ) → row_named result.now name ≡ called name }
{
    ROWS
}

/// The instruction of this name, with the first operands that there are.
pub(crate) fn named(name: &[u8]) -> Option<Instr>
    ensures { result ≡ called name.now }
{
    find(rows(), name)
}
