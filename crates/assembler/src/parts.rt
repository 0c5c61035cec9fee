ghost use Rattle.std.specs.Prelude.{◌≡◌, ◌<◌, ◌≤◌, IfSome, MatchBool, MatchOption, sum};
ghost use Rattle.isa.specs.Programs.{IsProgram, Program};
ghost use Rattle.isa.specs.Reading as Reading;
ghost use Rattle.isa.specs.Spelling.{IsSpelled};
ghost use Rattle.assembler.specs.Within as Within;

use crate::instructions::target_of;
use isa::{
    Image, Instr, MOST_ARGUMENTS, MOST_INSTRUCTIONS, MOST_LOCALS, MOST_MEMBER_WORDS, MOST_MONITORS,
    Slot,
};
use words::ImageVersion;

// Whether an instruction is within its limits.
fn is_within(instr: Instr) -> bool
    ensures { result ≡ Within.is_within instr }
{
    match instr {
        Instr::GetLocal(Slot::Local(number)) => number < MOST_LOCALS,
        Instr::SetLocal(Slot::Local(number)) => number < MOST_LOCALS,
        Instr::Fork(_, arguments) => arguments <= MOST_ARGUMENTS,
        _ => true,
    }
}

// Whether all instructions are within their limits.
fn are_within(code: &[Instr]) -> bool
    ensures { result ≡ Within.are_within code.now }
{
    for instr in code {
        if !is_within(*instr) {
            return false;
        }
    }
    true
}

// Whether each place that an instruction names is one of so many.
fn lead_below(code: &[Instr], count: usize) -> bool
    ensures { result ≡ Reading.lead_below count code.now }
{
    for instr in code {
        if let Some(place) = target_of(*instr)
            && place as usize >= count
        {
            return false;
        }
    }
    true
}

// Whether these numbers have at most so large a sum.
fn sum_is_within(numbers: &[u32], most: u32) -> bool
    ensures { MatchBool result (sum numbers.now ≤ most) (most < sum numbers.now) }
{
    let mut left = most;
    for number in numbers {
        if *number > left {
            return false;
        }
        left -= *number;
    }
    true
}

// Whether these parts are within the limits of an image.
fn is_program(version: ImageVersion, monitors: &[u32], start: u32, code: &[Instr]) -> bool
    ensures { let p : Program = record {
      version = version;
      monitors = monitors.now;
      start = start;
      code = code.now;
    } in MatchBool result (IsProgram p) (IsProgram p → ⊥) }
{
    let count = code.len();
    let monitor_count = monitors.len();
    if monitor_count > MOST_MONITORS {
        return false;
    }
    if !sum_is_within(monitors, MOST_MEMBER_WORDS) {
        return false;
    }
    if count > MOST_INSTRUCTIONS {
        return false;
    }
    if start as usize >= count {
        return false;
    }
    if !are_within(code) {
        return false;
    }
    lead_below(code, count)
}

// An image has a spelling. Nothing is done when it runs.
fn image_is_spelled(image: &Image)
    ensures { IsSpelled image.now }
{
    image.start();
}

/// The image of these parts. None where they are not within the limits of an image.
pub(crate) fn image_of(
    version: ImageVersion,
    monitors: Vec<u32>,
    start: u32,
    code: Vec<Instr>,
) -> Option<Image>
    ensures image { let p : Program = record {
      version = version;
      monitors = monitors.items;
      start = start;
      code = code.items;
    } in MatchOption result (IsProgram p → ⊥) (λ i. i ≡ p) }
    ensures spelled { IfSome result IsSpelled }
{
    if is_program(version, monitors.as_slice(), start, code.as_slice()) {
        let image = Image::new(version, monitors, start, code);
        image_is_spelled(&image);
        Some(image)
    } else {
        None
    }
}
