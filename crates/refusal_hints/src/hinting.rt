ghost use Rattle.std.specs.Prelude.{IfOk};
ghost use Rattle.std.specs.String.{string_bytes};
ghost use Rattle.hint_lines.specs.HintLines.{AreHintLines};

use crate::byte_slips::{append_not_ascii, bad_token_slip};
use crate::checked::append_checked;
use crate::excerpt::{append_excerpt, split_line};
use crate::expected::append_expected;
use crate::limits::append_limit;
use crate::spot::{Spot, tokens_around, tokens_of};
use hint_lines::hint_lines;
use scanner::{Place, Refusal, RefusalKind, Token};
use std::alloc::{AllocError, Global};
use text_writer::TextWriter;

// Appends what helps where these tokens of a text tell it.
fn append_at_token(
    alloc: Global,
    out: &mut TextWriter,
    text: &[u8],
    tokens: &[Token],
    refusal: Refusal,
) {
    let (before, from) = tokens_around(tokens, refusal.place);
    if refusal.kind == RefusalKind::Expected {
        return append_expected(alloc, out, before, from);
    }
    let spot = Spot {
        before,
        from,
        accepted: &[],
    };
    if refusal.kind == RefusalKind::Limit {
        return append_limit(alloc, out, text, tokens, &spot, refusal.place);
    }
    append_checked(alloc, out, tokens, refusal.kind, &spot)
}

// Appends what helps where the tokens of a text tell it.
fn append_by_tokens(alloc: Global, out: &mut TextWriter, text: &[u8], refusal: Refusal) {
    match tokens_of(alloc, text) {
        Ok(tokens) => append_at_token(alloc, out, text, tokens.as_slice(), refusal),
        Err(_) => out.fail(),
    }
}

// Appends the line of a refusal's place, and what helps with it.
fn append_at_place(alloc: Global, out: &mut TextWriter, text: &[u8], refusal: Refusal) {
    let Place { line, column } = refusal.place;
    let (before, rest) = split_line(text, line, column);
    append_excerpt(out, before, rest);
    match refusal.kind {
        RefusalKind::NotAscii => append_not_ascii(out, rest),
        RefusalKind::BadToken => out.line(bad_token_slip(before, rest)),
        _ => append_by_tokens(alloc, out, text, refusal),
    }
}

// Lines without the line feed that ends the last of them.
fn without_last_feed(lines: &[u8]) -> &[u8] {
    match lines {
        [front @ .., b'\n'] => front,
        whole => whole,
    }
}

// Appends all that is said, as lines.
fn append_said(alloc: Global, out: &mut TextWriter, file: &str, text: &[u8], refusal: Refusal) {
    let Place { line, column } = refusal.place;
    out.text(file);
    out.form(":$:$\n", &[u64::from(line), u64::from(column)]);
    match refusal.kind {
        RefusalKind::Memory => out.text("memory ran out\n"),
        RefusalKind::StrayPiece => out.text("a worker's piece of code went astray\n"),
        _ => append_at_place(alloc, out, text, refusal),
    }
}

/// The hints to a refusal of a source text, where the file of this name has the text: lines that come behind the
/// refusal's own.
///
/// They say where it is, show the line, and say what may help: `docs/hints.md`. Each begins with two blanks and has
/// printable ASCII alone. A refusal that isn't the text's gets hints too, though of no use.
///
/// # Errors
///
/// Where memory runs out, and for nothing else.
pub fn hints_of(
    alloc: Global,
    file: &str,
    text: &[u8],
    refusal: &Refusal,
) -> Result<String, AllocError>
    ensures { IfOk result (λ s. AreHintLines (string_bytes s)) }
{
    let mut out = TextWriter::new(alloc);
    append_said(alloc, &mut out, file, text, *refusal);
    let said = out.finish()?;
    hint_lines(alloc, without_last_feed(said.as_bytes()))
}
