ghost use Rattle.std.specs.Prelude.{◌≡◌, ◌⊎◌, ◌++◌, List, [], ℕ, false, IfOk, map, string_bytes};
ghost use Rattle.commandline.specs.CommandLine.{AsksFor};
ghost use Rattle.devices.specs.Writing.{HasAll};
ghost use Rattle.log_text.specs.LogLines.{line_feed};
ghost use Rattle.scanner.specs.Refusals.{refusal_text};
ghost use Rattle.assembler.specs.Refusals.{refusal_text as assembly_refusal_text};
ghost use Rattle.answers.specs.Answers.{HasMetFailure, IsTold, IsToldOrMemory};
ghost use Rattle.mesamon.specs.Commands.{EndsSo, FinishesSo, IsToldFailed, IsToldLeft, devices_by};
ghost use Rattle.answers.specs.Statuses.{status_code};
ghost use Rattle.answers.specs.declared.status.Status.{Status as StatusOf};

use crate::files::put_files;
use crate::jobs::{asks_for_hints, do_job};
use crate::overwriting::overwrites;
use answers::{Answer, Failure, NoAnswer, Status, tell_more, write_text};
use assembler::AssemblyRefusal;
use commandline::{Job, WordsFault, line};
use devices::{Counted, FileFailures};
use scanner::Refusal;
use source_search::Progress;
use std::alloc::{AllocError, Global};
use std::fmt::Write as _;
use std::io::Write;
use std::rt::Files;
use std::sync::Wait;
use std::thread::Threads;

// What is told where there was no memory.
const MEMORY: &str = "memory\n";

// What is told where a job would write over what it reads or has written.
const TWICE: &str = "error: a file that is to be written is named twice\n";

/// Does the command that these words ask for, those after the program's name, and answers the exit status. `output`
/// and `errors` stand for standard output and standard error; the hints that the words ask for stand behind all else that
/// `errors` gets. `progress` is told how far a search over all runs has come, as it goes, and gives nothing back.
///
/// `failures` counts the files that can't be opened, read or written.
///
/// The first fault decides: of the words, of reading the files, of the source text or the image, of its run, of writing
/// the files, of writing what is told.
///
/// A text or an image is run with a worker for each thread, but where a fixed order or that of a seed is asked for: then
/// on the calling thread, so that the log is the same each time.
///
/// The status is 0 where the command was done, 1 where the source text is refused, 2 for words that are no command, 3
/// where the run was stuck, 4 where it reached its limit, 5 where memory ran out, 6 for any other failure, and 7 where a
/// search found a run that fails otherwise, or a text isn't laid out.
pub fn perform_with_hints<
    R: Files + AllocGlobal + Threads + Wait + Sync,
    O: Write,
    E: Write,
    P: Progress,
>(
    rt: &R,
    words: &[&str],
    failures: &mut FileFailures,
    output: &mut Counted<O>,
    errors: &mut Counted<E>,
    progress: &mut P,
) -> u8
    ensures { (status : StatusOf) × (result ≡ status_code status) × EndsSo (map (λ w. w.now) words.now)
        (devices_by R.File.remaining R.File.contents failures.new O.contents E.contents output.old output.new
        errors.old errors.new) status }
{
    perform(rt, words, failures, output, errors, progress).code()
}

// The same, and answers how it ended.
fn perform<R: Files + AllocGlobal + Threads + Wait + Sync, O: Write, E: Write, P: Progress>(
    rt: &R,
    words: &[&str],
    failures: &mut FileFailures,
    output: &mut Counted<O>,
    errors: &mut Counted<E>,
    progress: &mut P,
) -> Status
    ensures { EndsSo (map (λ w. w.now) words.now)
        (devices_by R.File.remaining R.File.contents failures.new O.contents E.contents output.old output.new
        errors.old errors.new) result }
{
    match line(rt.alloc(), words) {
        Ok(job) => perform_job(rt, job, failures, output, errors, progress),
        Err(WordsFault::Usage(text)) => tell(errors, text.as_str(), Status::Usage),
        Err(WordsFault::Memory) => tell(errors, MEMORY, Status::Memory),
    }
}

// Does a job, and writes what comes of it.
fn perform_job<R: Files + AllocGlobal + Threads + Wait + Sync, O: Write, E: Write, P: Progress>(
    rt: &R,
    job: Job<'_>,
    failures: &mut FileFailures,
    output: &mut Counted<O>,
    errors: &mut Counted<E>,
    progress: &mut P,
) -> Status
    requires { (ws : List (List ℕ)) × AsksFor ws job }
    ensures { (ws : List (List ℕ)) → AsksFor ws job.entry → EndsSo ws
        (devices_by R.File.remaining R.File.contents failures.new O.contents E.contents output.old output.new
        errors.old errors.new) result }
{
    if overwrites(&job) {
        return tell(errors, TWICE, Status::Usage);
    }
    let mut hints = String::new(rt.alloc());
    let done = do_job(rt, failures, job, &mut hints, progress);
    let asked = asks_for_hints(&job);
    match done {
        Ok(answer) => finish(rt, &answer, asked, hints.as_str(), failures, output, errors),
        Err(left) => {
            tell_more(rt.alloc(), &mut hints, left);
            tell_left(rt.alloc(), left, asked_hints(asked, hints.as_str()), errors)
        }
    }
}

// Writes the files of a job that was done, and then what it tells.
fn finish<R: Files + AllocGlobal, O: Write, E: Write>(
    rt: &R,
    answer: &Answer<'_>,
    asked: bool,
    hints: &str,
    failures: &mut FileFailures,
    output: &mut Counted<O>,
    errors: &mut Counted<E>,
) -> Status
    ensures { FinishesSo
        (devices_by R.File.remaining R.File.contents failures.new O.contents E.contents output.old output.new
        errors.old errors.new) asked answer.now result }
{
    match put_files(rt, failures, &answer.files) {
        Ok(()) => tell_answer(answer, asked_hints(asked, hints), output, errors),
        Err(failure) => tell_unput(rt.alloc(), failure, asked, errors),
    }
}

// Writes that a file couldn't be written, and why where that is known.
fn tell_unput<E: Write>(
    alloc: Global,
    failure: Failure<'_>,
    asked: bool,
    errors: &mut Counted<E>,
) -> Status
    ensures { (hints : List ℕ) × (asked ≡ false → hints ≡ [])
        × IsToldFailed (HasAll E.contents errors.old errors.new) (HasMetFailure errors.new) hints
        failure.entry result }
{
    let mut hints = String::new(alloc);
    tell_more(alloc, &mut hints, NoAnswer::Failed(failure));
    tell_failed(alloc, failure, asked_hints(asked, hints.as_str()), errors)
}

// The hints, where they are asked for.
fn asked_hints<'h>(asked: bool, hints: &'h str) -> &'h str
    ensures { asked ≡ false → result.now ≡ [] }
{
    if asked { hints } else { "" }
}

// Writes a text to standard error, and answers this status; where it can't be written, the command has failed.
fn tell<E: Write>(errors: &mut Counted<E>, text: &str, status: Status) -> Status
    ensures { IsTold (HasAll E.contents errors.old errors.new text.now) (HasMetFailure errors.new) status result }
{
    match write_text(errors, text) {
        Ok(()) => status,
        Err(_) => Status::Failed,
    }
}

// Writes what a command that was done tells, and hints behind it.
fn tell_answer<O: Write, E: Write>(
    answer: &Answer<'_>,
    hints: &str,
    output: &mut Counted<O>,
    errors: &mut Counted<E>,
) -> Status
    ensures { IsTold
        (HasAll O.contents output.old output.new answer.now.output.items
        × HasAll E.contents errors.old errors.new (answer.now.account.items ++ hints.now))
        (HasMetFailure output.new ⊎ HasMetFailure errors.new) answer.now.status result }
{
    match answer.write(hints, output, errors) {
        Ok(()) => answer.status,
        Err(_) => Status::Failed,
    }
}

// Writes why a job has no answer, and hints behind it.
fn tell_left<E: Write>(
    alloc: Global,
    left: NoAnswer<'_>,
    hints: &str,
    errors: &mut Counted<E>,
) -> Status
    ensures { IsToldLeft (HasAll E.contents errors.old errors.new) (HasMetFailure errors.new) hints.now
        left.entry result }
{
    match left {
        NoAnswer::Refused(refusal) => tell_refusal(alloc, refusal, hints, errors),
        NoAnswer::Unassembled(refusal) => tell_unassembled(alloc, refusal, hints, errors),
        NoAnswer::Failed(failure) => tell_failed(alloc, failure, hints, errors),
    }
}

// Writes the line of a refusal, and hints behind it, at once.
fn tell_refusal<E: Write>(
    alloc: Global,
    refusal: Refusal,
    hints: &str,
    errors: &mut Counted<E>,
) -> Status
    ensures { IsToldOrMemory (HasAll E.contents errors.old errors.new)
        (HasAll E.contents errors.old errors.new ((refusal_text refusal ++ line_feed) ++ hints.now))
        (HasMetFailure errors.new) Status.Refused result }
{
    match refusal_lines(alloc, refusal, hints) {
        Ok(lines) => tell(errors, lines.as_str(), Status::Refused),
        Err(_) => tell(errors, MEMORY, Status::Memory),
    }
}

// Writes the line of the refusal of an assembly text, and hints behind it, at once.
fn tell_unassembled<E: Write>(
    alloc: Global,
    refusal: AssemblyRefusal,
    hints: &str,
    errors: &mut Counted<E>,
) -> Status
    ensures { IsToldOrMemory (HasAll E.contents errors.old errors.new)
        (HasAll E.contents errors.old errors.new ((assembly_refusal_text refusal ++ line_feed) ++ hints.now))
        (HasMetFailure errors.new) Status.Refused result }
{
    match assembly_lines(alloc, refusal, hints) {
        Ok(lines) => tell(errors, lines.as_str(), Status::Refused),
        Err(_) => tell(errors, MEMORY, Status::Memory),
    }
}

// Writes the line of a failure, and hints behind it, at once.
fn tell_failed<E: Write>(
    alloc: Global,
    failure: Failure<'_>,
    hints: &str,
    errors: &mut Counted<E>,
) -> Status
    ensures { IsToldFailed (HasAll E.contents errors.old errors.new) (HasMetFailure errors.new)
        hints.now failure.entry result }
{
    if let Failure::Memory = failure {
        return tell(errors, MEMORY, Status::Memory);
    }
    match failure_lines(alloc, failure, hints) {
        Ok(lines) => tell(errors, lines.as_str(), Status::Failed),
        Err(_) => tell(errors, MEMORY, Status::Memory),
    }
}

// The line of a refusal, and hints.
fn refusal_lines(alloc: Global, refusal: Refusal, hints: &str) -> Result<String, AllocError>
    ensures { IfOk result (λ s. string_bytes s ≡ (refusal_text refusal ++ line_feed) ++ hints.now) }
{
    let mut lines = String::new(alloc);
    writeln!(lines, "{refusal}")?;
    lines.push_str(hints)?;
    Ok(lines)
}

// The line of the refusal of an assembly text, and hints.
fn assembly_lines(
    alloc: Global,
    refusal: AssemblyRefusal,
    hints: &str,
) -> Result<String, AllocError>
    ensures { IfOk result (λ s. string_bytes s ≡ (assembly_refusal_text refusal ++ line_feed) ++ hints.now) }
{
    let mut lines = String::new(alloc);
    writeln!(lines, "{refusal}")?;
    lines.push_str(hints)?;
    Ok(lines)
}

// The line of a failure, and hints.
fn failure_lines(alloc: Global, failure: Failure<'_>, hints: &str) -> Result<String, AllocError>
    ensures { IfOk result (λ s. (name : List ℕ) × (string_bytes s ≡ (name ++ line_feed) ++ hints.now)) }
{
    let mut lines = String::new(alloc);
    write!(lines, "{failure}")?;
    lines.push_str("\n")?;
    lines.push_str(hints)?;
    Ok(lines)
}
