ghost use Rattle.std.specs.Prelude.{◌≡◌, [], ◌∷◌, Some, None, IfOk, MatchResult};
ghost use Rattle.isa.specs.Opcodes.{row_of, slot_of, process_words, faults, plain_opcodes, place_opcodes};
ghost use Rattle.isa.specs.Opcodes.{operand_opcodes};
ghost use Rattle.isa.specs.Programs.{Program};
ghost use Rattle.isa.specs.Reading.{Gives, fixed_at, version_at, number_at, limited_at, numbers_at, monitors_at};
ghost use Rattle.isa.specs.Reading.{operands_at, instruction_at, instructions_at, code_at, program_of};
ghost use Rattle.isa.specs.Reading as Reading;
ghost use Rattle.isa.specs.Spelling.{HasByte, IsSpelled, spelling};

use crate::fault::DecodeFault;
use crate::format::{MAGIC, VERSION_ONE, VERSION_TWO};
use crate::image::Image;
use crate::instr::Instr;
use crate::limits::{
    MOST_ARGUMENTS, MOST_INSTRUCTIONS, MOST_LOCALS, MOST_MEMBER_WORDS, MOST_MONITORS,
};
use crate::opcode;
use crate::operator::Operator;
use crate::slot::Slot;
use std::alloc::Global;
use words::{Fault, ImageVersion, ProcessWord};

fn byte(bytes: &[u8]) -> Result<(u8, &[u8]), DecodeFault>
    ensures { MatchResult result (λ x. bytes.now ≡ x.0 ∷ x.1.now)
        (λ e. (e ≡ DecodeFault.Short) × (bytes.now ≡ [])) }
{
    match bytes {
        [] => Err(DecodeFault::Short),
        [first, rest @ ..] => Ok((*first, rest)),
    }
}

// What stands behind `wanted`, where the bytes begin with that.
fn fixed<'a>(bytes: &'a [u8], wanted: &[u8], fault: DecodeFault) -> Result<&'a [u8], DecodeFault>
    ensures { Gives (λ x. x.now) result (fixed_at wanted.now fault bytes.now) }
{
    let mut rest = bytes;
    for expected in wanted {
        let (first, after) = byte(rest)?;
        if first != *expected {
            return Err(fault);
        }
        rest = after;
    }
    Ok(rest)
}

#[tactic(auto, unfolding(crate::specs::Reading::version_at))]
fn version(bytes: &[u8]) -> Result<(ImageVersion, &[u8]), DecodeFault>
    ensures { Gives (λ x. (x.0, x.1.now)) result (version_at bytes.now) }
{
    let (first, rest) = byte(bytes)?;
    match first {
        VERSION_ONE => Ok((ImageVersion::One, rest)),
        VERSION_TWO => Ok((ImageVersion::Two, rest)),
        _ => Err(DecodeFault::Version),
    }
}

fn number(bytes: &[u8]) -> Result<(u32, &[u8]), DecodeFault>
    ensures { Gives (λ x. (x.0, x.1.now)) result (number_at bytes.now) }
{
    let mut value = 0;
    let mut weight = 1;
    for (place, byte) in bytes.iter().enumerate() {
        if place == 4 && *byte > 0x0f {
            return Err(DecodeFault::Limit);
        }
        value += u32::from(*byte % 128) * weight;
        if *byte < 128 {
            if *byte == 0 && place > 0 {
                return Err(DecodeFault::BadInstr);
            }
            return Ok((value, &bytes[place + 1..]));
        }
        weight *= 128;
    }
    Err(DecodeFault::Short)
}

#[tactic(auto, unfolding(crate::specs::Reading::limited_at))]
fn limited(bytes: &[u8], limit: u32) -> Result<(u32, &[u8]), DecodeFault>
    ensures { Gives (λ x. (x.0, x.1.now)) result (limited_at limit bytes.now) }
{
    let (value, rest) = number(bytes)?;
    if value > limit {
        return Err(DecodeFault::Limit);
    }
    Ok((value, rest))
}

fn numbers(
    alloc: Global,
    count: u32,
    limit: u32,
    bytes: &[u8],
) -> Result<(Vec<u32>, &[u8]), DecodeFault>
    ensures { Gives (λ x. (x.0.items, x.1.now)) result (numbers_at count limit bytes.now) }
{
    let mut values = Vec::new(alloc);
    let mut left = limit;
    let mut rest = bytes;
    for _ in 0..count {
        let (value, after) = limited(rest, left)?;
        values.push(value)?;
        left -= value;
        rest = after;
    }
    Ok((values, rest))
}

#[tactic(auto, unfolding(crate::specs::Reading::monitors_at))]
fn monitors(alloc: Global, bytes: &[u8]) -> Result<(Vec<u32>, &[u8]), DecodeFault>
    ensures { Gives (λ x. (x.0.items, x.1.now)) result (monitors_at bytes.now) }
{
    let (count, rest) = limited(bytes, MOST_MONITORS as u32)?;
    numbers(alloc, count, MOST_MEMBER_WORDS, rest)
}

fn slot(n: u32) -> Result<Slot, DecodeFault>
    ensures { MatchResult result (λ s. slot_of n ≡ Some s)
        (λ e. (e ≡ DecodeFault.Limit) × (slot_of n ≡ None)) }
{
    if n < MOST_LOCALS {
        return Ok(Slot::Local(n));
    }
    if n > MOST_LOCALS {
        return Err(DecodeFault::Limit);
    }
    Ok(Slot::Template)
}

fn process_word(k: u32) -> Result<ProcessWord, DecodeFault>
    ensures { MatchResult result (λ w. row_of process_words k ≡ Some w)
        (λ e. (e ≡ DecodeFault.Limit) × (row_of process_words k ≡ None)) }
{
    match k {
        0 => Ok(ProcessWord::Head),
        1 => Ok(ProcessWord::Pending),
        2 => Ok(ProcessWord::Id),
        3 => Ok(ProcessWord::Claim),
        4 => Ok(ProcessWord::Result),
        5 => Ok(ProcessWord::Outcome),
        _ => Err(DecodeFault::Limit),
    }
}

fn fault(k: u32) -> Result<Fault, DecodeFault>
    ensures { MatchResult result (λ f. row_of faults k ≡ Some f)
        (λ e. (e ≡ DecodeFault.Limit) × (row_of faults k ≡ None)) }
{
    match k {
        1 => Ok(Fault::ResultOutOfRange),
        2 => Ok(Fault::DivisionByZero),
        3 => Ok(Fault::IndexOutOfRange),
        4 => Ok(Fault::HandleNotJoinable),
        5 => Ok(Fault::ProcessTableFull),
        6 => Ok(Fault::AbortStatement),
        7 => Ok(Fault::AbandonedMonitor),
        8 => Ok(Fault::JoinedAborted),
        _ => Err(DecodeFault::Limit),
    }
}

// The instructions without operands.
fn plain(first: u8) -> Option<Instr>
    ensures { result ≡ row_of plain_opcodes first }
{
    match first {
        opcode::POP => Some(Instr::Pop),
        opcode::ADD => Some(Instr::Operate(Operator::Add)),
        opcode::SUB => Some(Instr::Operate(Operator::Sub)),
        opcode::MUL => Some(Instr::Operate(Operator::Mul)),
        opcode::DIV => Some(Instr::Operate(Operator::Div)),
        opcode::MOD => Some(Instr::Operate(Operator::Mod)),
        opcode::NEG => Some(Instr::Negate),
        opcode::EQ => Some(Instr::Operate(Operator::Eq)),
        opcode::NE => Some(Instr::Operate(Operator::Ne)),
        opcode::LT => Some(Instr::Operate(Operator::Lt)),
        opcode::LE => Some(Instr::Operate(Operator::Le)),
        opcode::GT => Some(Instr::Operate(Operator::Gt)),
        opcode::GE => Some(Instr::Operate(Operator::Ge)),
        opcode::BAND => Some(Instr::Operate(Operator::BitAnd)),
        opcode::BOR => Some(Instr::Operate(Operator::BitOr)),
        opcode::NOT => Some(Instr::Not),
        opcode::RET => Some(Instr::Ret),
        opcode::RETV => Some(Instr::RetValue),
        opcode::SELF => Some(Instr::OwnNumber),
        opcode::LOAD => Some(Instr::Load),
        opcode::STORE => Some(Instr::Store),
        opcode::SWAP => Some(Instr::Swap),
        opcode::CAS => Some(Instr::CompareSwap),
        opcode::AOR => Some(Instr::FetchOr),
        opcode::AADD => Some(Instr::FetchAdd),
        opcode::PRINT => Some(Instr::Print),
        opcode::FWAIT => Some(Instr::FutexWait),
        opcode::FWAKE => Some(Instr::FutexWake),
        opcode::FREQ => Some(Instr::FutexRequeue),
        _ => None,
    }
}

// The instructions that name a place.
#[tactic(auto, unfolding(crate::specs::Reading::operands_at))]
fn with_place(first: u8, bytes: &[u8]) -> Result<(Instr, &[u8]), DecodeFault>
    ensures { Gives (λ x. (x.0, x.1.now)) result
        (operands_at (row_of place_opcodes first) bytes.now) }
{
    match first {
        opcode::JUMP => {
            let (place, rest) = number(bytes)?;
            Ok((Instr::Jump(place), rest))
        }
        opcode::JZ => {
            let (place, rest) = number(bytes)?;
            Ok((Instr::JumpIfZero(place), rest))
        }
        opcode::CALL => {
            let (place, rest) = number(bytes)?;
            Ok((Instr::Call(place), rest))
        }
        opcode::FORK => {
            let (place, rest) = number(bytes)?;
            let (arguments, rest) = number(rest)?;
            if arguments > MOST_ARGUMENTS {
                return Err(DecodeFault::Limit);
            }
            Ok((Instr::Fork(place, arguments), rest))
        }
        _ => Err(DecodeFault::BadInstr),
    }
}

// The instructions with operands.
#[tactic(auto, unfolding(crate::specs::Reading::operands_at))]
fn with_operands(first: u8, bytes: &[u8]) -> Result<(Instr, &[u8]), DecodeFault>
    ensures { Gives (λ x. (x.0, x.1.now)) result
        (operands_at (row_of operand_opcodes first) bytes.now) }
{
    match first {
        opcode::PUSH => {
            let (n, rest) = number(bytes)?;
            Ok((Instr::Push(n), rest))
        }
        opcode::GETL => {
            let (n, rest) = number(bytes)?;
            Ok((Instr::GetLocal(slot(n)?), rest))
        }
        opcode::SETL => {
            let (n, rest) = number(bytes)?;
            Ok((Instr::SetLocal(slot(n)?), rest))
        }
        opcode::INDEX => {
            let (base, rest) = number(bytes)?;
            let (size, rest) = number(rest)?;
            Ok((Instr::Index(base, size), rest))
        }
        opcode::PADDR => {
            let (k, rest) = number(bytes)?;
            Ok((Instr::ProcessAddress(process_word(k)?), rest))
        }
        opcode::FAULT => {
            let (k, rest) = number(bytes)?;
            Ok((Instr::Raise(fault(k)?), rest))
        }
        _ => with_place(first, bytes),
    }
}

#[tactic(auto, unfolding(crate::specs::Reading::instruction_at, crate::specs::Reading::behind_opcode))]
fn instruction(bytes: &[u8]) -> Result<(Instr, &[u8]), DecodeFault>
    ensures { Gives (λ x. (x.0, x.1.now)) result (instruction_at bytes.now) }
{
    let (first, rest) = byte(bytes)?;
    match plain(first) {
        Some(instr) => Ok((instr, rest)),
        None => with_operands(first, rest),
    }
}

fn instructions(alloc: Global, count: u32, bytes: &[u8]) -> Result<(Vec<Instr>, &[u8]), DecodeFault>
    ensures { Gives (λ x. (x.0.items, x.1.now)) result (instructions_at count bytes.now) }
{
    // An instruction takes a byte at least: no more room than the bytes can fill.
    let mut code = Vec::with_capacity(alloc, (count as usize).min(bytes.len()))?;
    let mut rest = bytes;
    for _ in 0..count {
        let (instr, after) = instruction(rest)?;
        code.push(instr)?;
        rest = after;
    }
    Ok((code, rest))
}

#[tactic(auto, unfolding(crate::specs::Reading::code_at))]
fn code(alloc: Global, bytes: &[u8]) -> Result<(Vec<Instr>, &[u8]), DecodeFault>
    ensures { Gives (λ x. (x.0.items, x.1.now)) result (code_at bytes.now) }
{
    let (count, rest) = limited(bytes, MOST_INSTRUCTIONS as u32)?;
    instructions(alloc, count, rest)
}

// Whether each place that an instruction names is one of so many.
fn lead_below(code: &[Instr], count: usize) -> bool
    ensures { result ≡ Reading.lead_below count code.now }
{
    for instr in code {
        if let Some(place) = instr.target()
            && place as usize >= count
        {
            return false;
        }
    }
    true
}

#[tactic(auto, unfolding(crate::specs::Reading::image_at, crate::specs::Reading::program_of))]
fn image(alloc: Global, bytes: &[u8]) -> Result<Image, DecodeFault>
    ensures { Gives (λ i. i) result (program_of bytes.now) }
{
    let rest = fixed(bytes, &MAGIC, DecodeFault::BadMagic)?;
    let (version, rest) = version(rest)?;
    let (monitors, rest) = monitors(alloc, rest)?;
    let (start, rest) = number(rest)?;
    let (code, rest) = code(alloc, rest)?;
    if !rest.is_empty() {
        return Err(DecodeFault::Trailing);
    }
    if start as usize >= code.len() || !lead_below(code.as_slice(), code.len()) {
        return Err(DecodeFault::BadTarget);
    }
    Ok(Image::new(version, monitors, start, code))
}

/// The image that the bytes spell, all of the bytes.
///
/// The fault is the first one in the order of the bytes: a byte that is missing is the fault at its place, and a limit
/// is tested at the last byte of its number. After the last instruction comes `Trailing`, then `BadTarget`.
pub fn decode(alloc: Global, bytes: &[u8]) -> Result<Image, DecodeFault>
    // What is read is spelled so.
    ensures found { IfOk result (λ i. HasByte i.version × IsSpelled i × (spelling i ≡ bytes.now)) }
    // What is spelled so is read, unless memory runs out.
    ensures only { (p : Program) → HasByte p.version → IsSpelled p → spelling p ≡ bytes.now
        → MatchResult result (λ i. i ≡ p) (λ e. e ≡ DecodeFault.Memory) }
    // Which fault it is.
    ensures exact { Gives (λ i. i) result (program_of bytes.now) }
{
    image(alloc, bytes)
}
