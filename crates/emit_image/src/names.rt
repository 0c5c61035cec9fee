ghost use Rattle.std.specs.Prelude.{◌≡◌};
ghost use Rattle.isa.specs.Texts.{mnemonic, operator_text};

use isa::{Instr, Operator};

// The name of an operator.
fn operator_name(operator: Operator) -> &'static str
    ensures { result.now ≡ operator_text operator }
{
    match operator {
        Operator::Add => "ADD",
        Operator::Sub => "SUB",
        Operator::Mul => "MUL",
        Operator::Div => "DIV",
        Operator::Mod => "MOD",
        Operator::Eq => "EQ",
        Operator::Ne => "NE",
        Operator::Lt => "LT",
        Operator::Le => "LE",
        Operator::Gt => "GT",
        Operator::Ge => "GE",
        Operator::BitAnd => "BAND",
        Operator::BitOr => "BOR",
    }
}

/// The name that an instruction is shown with.
pub(crate) fn name_of(instr: Instr) -> &'static str
    ensures { result.now ≡ mnemonic instr }
{
    match instr {
        Instr::Push(_) => "PUSH",
        Instr::GetLocal(_) => "GETL",
        Instr::SetLocal(_) => "SETL",
        Instr::Pop => "POP",
        Instr::Operate(operator) => operator_name(operator),
        Instr::Negate => "NEG",
        Instr::Not => "NOT",
        Instr::Jump(_) => "JUMP",
        Instr::JumpIfZero(_) => "JZ",
        Instr::Call(_) => "CALL",
        Instr::Ret => "RET",
        Instr::RetValue => "RETV",
        Instr::Index(_, _) => "INDEX",
        Instr::OwnNumber => "SELF",
        Instr::ProcessAddress(_) => "PADDR",
        Instr::Raise(_) => "FAULT",
        Instr::Load => "LOAD",
        Instr::Store => "STORE",
        Instr::Swap => "SWAP",
        Instr::CompareSwap => "CAS",
        Instr::FetchOr => "AOR",
        Instr::FetchAdd => "AADD",
        Instr::Fork(_, _) => "FORK",
        Instr::Print => "PRINT",
        Instr::FutexWait => "FWAIT",
        Instr::FutexWake => "FWAKE",
        Instr::FutexRequeue => "FREQ",
    }
}
