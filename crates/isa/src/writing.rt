ghost use Rattle.std.specs.Prelude.{◌≡◌, ◌++◌, OnOk, IfOk};
ghost use Rattle.isa.specs.Numbers.{number};
ghost use Rattle.isa.specs.Spelling.{numbers, instruction, instructions, spelling, IsSpelled};
ghost use Rattle.isa.specs.Spelling as Spelling;

use crate::format::{MAGIC, VERSION_ONE, VERSION_TWO};
use crate::image::Image;
use crate::instr::Instr;
use crate::operands::Operands;
use std::alloc::{AllocError, Global};
use words::ImageVersion;

fn put_version(out: &mut Vec<u8>, version: ImageVersion) -> Result<(), AllocError>
    ensures { OnOk result (out.new.items ≡ out.old.items ++ Spelling.version version) }
{
    match version {
        ImageVersion::One => out.push(VERSION_ONE)?,
        ImageVersion::Two | ImageVersion::Linux => out.push(VERSION_TWO)?,
    }
    Ok(())
}

fn put_number(out: &mut Vec<u8>, value: u32) -> Result<(), AllocError>
    ensures { OnOk result (out.new.items ≡ out.old.items ++ number value) }
{
    let mut rest = value;
    while rest >= 128 {
        out.push((rest % 128) as u8 + 128)?;
        rest /= 128;
    }
    out.push(rest as u8)?;
    Ok(())
}

fn put_numbers(out: &mut Vec<u8>, values: &[u32]) -> Result<(), AllocError>
    ensures { OnOk result (out.new.items ≡ out.old.items ++ numbers values.now) }
{
    for value in values {
        put_number(out, *value)?;
    }
    Ok(())
}

fn put_instruction(out: &mut Vec<u8>, instr: Instr) -> Result<(), AllocError>
    ensures { OnOk result (out.new.items ≡ out.old.items ++ instruction instr) }
{
    out.push(instr.opcode())?;
    match instr.operands() {
        Operands::Without => {}
        Operands::One(n) => put_number(out, n)?,
        Operands::Two(n, m) => {
            put_number(out, n)?;
            put_number(out, m)?;
        }
    }
    Ok(())
}

fn put_instructions(out: &mut Vec<u8>, code: &[Instr]) -> Result<(), AllocError>
    ensures { OnOk result (out.new.items ≡ out.old.items ++ instructions code.now) }
{
    for instr in code {
        put_instruction(out, *instr)?;
    }
    Ok(())
}

/// The one spelling of an image. Each image has one. One of the layout `Linux`, which has no byte, is written as of version two.
pub fn encode(alloc: Global, image: &Image) -> Result<Vec<u8>, AllocError>
    ensures spelled { IsSpelled image.now }
    ensures bytes { IfOk result (λ bytes. bytes.items ≡ spelling image.now) }
{
    let version = image.version();
    let start = image.start();
    let monitors = image.monitors();
    let code = image.code();
    let mut out = Vec::new(alloc);
    out.extend_from_slice(&MAGIC)?;
    put_version(&mut out, version)?;
    put_number(&mut out, monitors.len() as u32)?;
    put_numbers(&mut out, monitors)?;
    put_number(&mut out, start)?;
    put_number(&mut out, code.len() as u32)?;
    put_instructions(&mut out, code)?;
    Ok(out)
}
