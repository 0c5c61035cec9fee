ghost use Rattle.std.specs.Prelude.{◌≡◌};
ghost use Rattle.isa.specs.Opcodes.{operator_opcode};
ghost use Rattle.isa.specs.Texts.{operator_text};

use crate::opcode;
use std::fmt;

/// What an instruction makes of two operands, `a b -> r`.
///
/// Arithmetic and comparisons take words as signed numbers. It is shown by its name, as `ADD`.
#[derive(Clone, Copy, PartialEq, Eq, Debug)]
pub enum Operator {
    /// The sum.
    Add,
    /// The difference.
    Sub,
    /// The product.
    Mul,
    /// The quotient.
    Div,
    /// The remainder.
    Mod,
    /// 1 where both are the same, else 0.
    Eq,
    /// 0 where both are the same, else 1.
    Ne,
    /// 1 where the first is less, else 0.
    Lt,
    /// 1 where the first is less or the same, else 0.
    Le,
    /// 1 where the first is greater, else 0.
    Gt,
    /// 1 where the first is greater or the same, else 0.
    Ge,
    /// The bits that both have.
    BitAnd,
    /// The bits that either has.
    BitOr,
}

impl Operator {
    // Its opcode.
    pub(crate) fn opcode(self) -> u8
        ensures { result ≡ operator_opcode self }
    {
        match self {
            Operator::Add => opcode::ADD,
            Operator::Sub => opcode::SUB,
            Operator::Mul => opcode::MUL,
            Operator::Div => opcode::DIV,
            Operator::Mod => opcode::MOD,
            Operator::Eq => opcode::EQ,
            Operator::Ne => opcode::NE,
            Operator::Lt => opcode::LT,
            Operator::Le => opcode::LE,
            Operator::Gt => opcode::GT,
            Operator::Ge => opcode::GE,
            Operator::BitAnd => opcode::BAND,
            Operator::BitOr => opcode::BOR,
        }
    }

    // The name that it is shown with.
    pub(crate) fn mnemonic(self) -> &'static str
        ensures { result.now ≡ operator_text self }
    {
        match self {
            Operator::Add => "ADD",
            Operator::Sub => "SUB",
            Operator::Mul => "MUL",
            Operator::Div => "DIV",
            Operator::Mod => "MOD",
            Operator::Eq => "EQ",
            Operator::Ne => "NE",
            Operator::Lt => "LT",
            Operator::Le => "LE",
            Operator::Gt => "GT",
            Operator::Ge => "GE",
            Operator::BitAnd => "BAND",
            Operator::BitOr => "BOR",
        }
    }
}

impl fmt::Display for Operator {
    ghost use Rattle.std.specs.Prelude.{Some};
    ghost use Rattle.isa.specs.Texts.{operator_text};

    ghost output = { λ o. Some (operator_text o) };

    fn fmt<W: fmt::Write>(&self, f: &mut fmt::Formatter<W>) -> fmt::Result {
        write!(f, "{}", self.mnemonic())
    }
}
