ghost use Rattle.std.specs.Prelude.{◌≡◌, ◌<◌, ◌≤◌, ◌+◌, ◌++◌, ◌∷◌, ℕ, List, Some, IfOk, IfSome, MatchOption, length, slice_index};
ghost use Rattle.std.specs.List.{AllByRecursion};
ghost use Rattle.isa.specs.Lines.{lines, place_text};
ghost use Rattle.isa.specs.Spelling.{AreWords};
ghost use Rattle.isa.specs.Texts.{instruction_text};
ghost use Rattle.isa.specs.declared.instr.Instr.{Instr as InstrOf};
ghost use Rattle.assembler.specs.Listings.{IsEncoded, IsListing, IsShown, plain, spaced};

use crate::cuts::{cut, past_byte, past_word};
use crate::instructions::made;
use crate::numbers::decimal_number;
use crate::parts::image_of;
use crate::table::named;
use isa::{Image, Instr, list_lines};
use std::alloc::{AllocError, Global};
use words::ImageVersion;

// The place of the last instruction that an image can have.
const LAST_PLACE: u32 = 65_535;

// A place in five digits.
fn digits_of(place: u32) -> [u8; 5]
    requires { place < 100000 }
    ensures { result ≡ place_text place }
{
    [
        b'0' + (place / 10000) as u8,
        b'0' + (place / 1000 % 10) as u8,
        b'0' + (place / 100 % 10) as u8,
        b'0' + (place / 10 % 10) as u8,
        b'0' + (place % 10) as u8,
    ]
}

// The numbers behind an instruction's name, each behind a space: two at most, and 0 for one that isn't there.
fn operands_of(text: &[u8]) -> Option<(u32, u32)>
    ensures { (ns : List ℕ) → length ns ≤ 2 → AreWords ns → text.now ≡ spaced ns
        → result ≡ Some (slice_index ns 0, slice_index ns 1) }
{
    if text.is_empty() {
        return Some((0, 0));
    }
    let words = past_byte(text, b' ')?;
    let halves = cut(words, b' ');
    let first = decimal_number(halves.front)?;
    if halves.rest.is_empty() {
        return Some((first, 0));
    }
    let more = past_byte(halves.rest, b' ')?;
    let second = decimal_number(more)?;
    Some((first, second))
}

// The instruction that a text shows.
fn instruction_of(text: &[u8]) -> Option<Instr>
    ensures { (i : InstrOf) → IsShown i → text.now ≡ instruction_text i → result ≡ Some i }
{
    let halves = cut(text, b' ');
    let kind = named(halves.front)?;
    let pair = operands_of(halves.rest)?;
    made(kind, pair.0, pair.1)
}

// The instruction whose line this is, at a place.
fn instruction_at(line: &[u8], place: u32) -> Option<Instr>
    requires { place < 65536 }
    ensures { (i : InstrOf) → IsShown i → line.now ≡ place_text place ++ 32 ∷ instruction_text i
        → result ≡ Some i }
{
    let digits = digits_of(place);
    let behind = past_word(line, &digits)?;
    let text = past_byte(behind, b' ')?;
    instruction_of(text)
}

// The instruction whose line comes next, at a place, and what follows its line.
fn next_line(rest: &[u8], place: u32) -> Option<(Instr, &[u8])>
    requires { place < 65536 }
    ensures reads { (i : InstrOf) (is : List InstrOf) → IsShown i → rest.now ≡ lines place (i ∷ is)
        → MatchOption result ⊥ (λ p. (p.0 ≡ i) × (p.1.now ≡ lines (place + 1) is)) }
    ensures shorter { IfSome result (λ p. length p.1.now < length rest.now) }
{
    let halves = cut(rest, b'\n');
    let instr = instruction_at(halves.front, place)?;
    let behind = past_byte(halves.rest, b'\n')?;
    Some((instr, behind))
}

// The instructions whose lines a text is.
fn listed_code(alloc: Global, text: &[u8]) -> Result<Option<Vec<Instr>>, AllocError>
    ensures { (code : List InstrOf) → AllByRecursion IsShown code → length code ≤ 65536
        → text.now ≡ lines 0 code
        → IfOk result (λ o. MatchOption o ⊥ (λ v. v.items ≡ code)) }
{
    let mut code = Vec::new(alloc);
    let mut rest = text;
    let mut place: u32 = 0;
    'lines: while !rest.is_empty() {
        if place > LAST_PLACE {
            return Ok(None);
        }
        let Some((instr, behind)) = next_line(rest, place) else {
            return Ok(None);
        };
        code.push(instr)?;
        rest = behind;
        place += 1;
    }
    Ok(Some(code))
}

// An image, where these are its lines.
fn with_lines(alloc: Global, image: Image, text: &[u8]) -> Result<Option<Image>, AllocError>
    ensures lines { IfOk result (λ o. IfSome o (λ i. text.now ≡ lines 0 i.code)) }
    ensures own { IfOk result (λ o. IfSome o (λ i. i ≡ image)) }
    ensures same { text.now ≡ lines 0 image.code → IfOk result (λ o. o ≡ Some image) }
{
    let own = list_lines(alloc, &image)?;
    if own.as_bytes() == text {
        Ok(Some(image))
    } else {
        Ok(None)
    }
}

/// The image of which a text has just the lines that `list` prints, of the second version, without monitors and from its
/// first instruction on. None where the text is no such lines.
pub(crate) fn listed_image(alloc: Global, text: &[u8]) -> Result<Option<Image>, AllocError>
    ensures lines { IfOk result (λ o. IfSome o (λ i. text.now ≡ lines 0 i.code)) }
    ensures encoded { IfOk result (λ o. IfSome o IsEncoded) }
    ensures listing { (code : List InstrOf) → IsListing text.now code
        → IfOk result (λ o. o ≡ Some (plain code)) }
{
    let Some(code) = listed_code(alloc, text)? else {
        return Ok(None);
    };
    let monitors = Vec::new(alloc);
    match image_of(ImageVersion::Two, monitors, 0, code) {
        Some(image) => with_lines(alloc, image, text),
        None => Ok(None),
    }
}
