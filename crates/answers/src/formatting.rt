ghost use Rattle.std.specs.Prelude.{◌≡◌, [], None, IfOk, IfErr, bytes_eq};
ghost use Rattle.source_layout.specs.Laid.{RefusesUnit};
ghost use Rattle.answers.specs.Answers.{ArePuts};
ghost use Rattle.answers.specs.Failures.{HasNoMemory, IsRefusalOrMemory};
ghost use Rattle.answers.specs.Formatting.{HasLaidOut, TellsLayout};

use crate::answer::{Answer, OutFiles};
use crate::failure::NoAnswer;
use crate::hinting::SourceText;
use crate::status::Status;
use source_layout::lay_out;
use std::alloc::Global;

/// Lays a source text out, or says whether it is laid out.
pub fn answer_fmt<'a>(
    alloc: Global,
    text: &SourceText<'_>,
    check: bool,
) -> Result<Answer<'a>, NoAnswer<'a>>
    ensures done { IfOk result (HasLaidOut check text.now.bytes.now) }
    ensures refused { IfErr result (IsRefusalOrMemory (RefusesUnit text.now.bytes.now)) }
{
    let laid = lay_out(alloc, text.bytes)?;
    let same = laid.as_slice() == text.bytes;
    layout_answer(alloc, check, same, laid)
}

// What is told of a text that was laid out.
fn layout_answer<'a>(
    alloc: Global,
    check: bool,
    same: bool,
    laid: Vec<u8>,
) -> Result<Answer<'a>, NoAnswer<'a>>
    ensures told { IfOk result (TellsLayout check same laid.items) }
    ensures failed { IfErr result HasNoMemory }
{
    let none = OutFiles::only(None);
    match (check, same) {
        (false, _) => Ok(Answer::quiet(alloc, Status::Done, laid, none)),
        (true, true) => said(alloc, Status::Done, "ok\n"),
        (true, false) => said(alloc, Status::Found, "not laid out\n"),
    }
}

// One line.
fn said<'a>(alloc: Global, status: Status, line: &str) -> Result<Answer<'a>, NoAnswer<'a>>
    ensures status { IfOk result (λ a. a.status ≡ status) }
    ensures output { IfOk result (λ a. a.output.items ≡ line.now) }
    ensures account { IfOk result (λ a. a.account.items ≡ []) }
    ensures files { IfOk result (λ a. ArePuts None a.files) }
    ensures failed { IfErr result HasNoMemory }
{
    let line = Vec::from_slice(alloc, line.as_bytes())?;
    Ok(Answer::quiet(alloc, status, line, OutFiles::only(None)))
}
