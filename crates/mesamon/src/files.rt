ghost use Rattle.std.specs.Prelude.{◌≤◌, ◌+◌, ◌^◌, IfErr, IfOk, IfSome, OnErr, OnOk};
ghost use Rattle.devices.specs.Failures.{HaveFailed, IsCounted};
ghost use Rattle.devices.specs.declared.failures.FileFailures.{FileFailures as FailuresOf};
ghost use Rattle.devices.specs.Files.{IsOfFile, IsPut};
ghost use Rattle.answers.specs.Answers.{ArePut, put_of};
ghost use Rattle.answers.specs.Failures.{OrMemory};

use answers::{Failure, OutFile, OutFiles};
use devices::{FileFailures, FileFault, put_counted, read_file};
use scanner::MOST_BYTES;
use std::rt::Files;

// The file that a name is for: `-` is standard input.
fn path_of<'a>(name: &'a str) -> &'a str {
    if name == "-" {
        return "/dev/stdin";
    }
    name
}

/// The bytes of the file of this name, or the first `MOST_BYTES + 1` of a longer one; the failure names it. `-` is standard
/// input.
///
/// No more is needed: a source text of so many bytes is refused as too long, and an image ends earlier, since each of
/// its 65,536 instructions has at most 11 bytes.
pub fn bytes_of<'a, R: Files + AllocGlobal>(
    rt: &R,
    failures: &mut FileFailures,
    name: &'a str,
) -> Result<Vec<u8>, Failure<'a>>
    ensures read { IfOk result (λ v. IsOfFile R.File.remaining (MOST_BYTES + 1) v.items) }
    ensures failed { IfErr result (OrMemory (λ f. HaveFailed failures.new)) }
{
    match read_file(rt, failures, path_of(name), MOST_BYTES + 1) {
        Ok(bytes) => Ok(bytes),
        Err(fault) => Err(failure_of(name, fault)),
    }
}

/// The bytes of the file of this name, or the first so many of a longer one; the failure names it.
pub fn front_of<'a, R: Files + AllocGlobal>(
    rt: &R,
    failures: &mut FileFailures,
    name: &'a str,
    most: usize,
) -> Result<Vec<u8>, Failure<'a>>
    requires { (1 ≤ most) × (most ≤ 2 ^ 62) }
    ensures read { IfOk result (λ v. IsOfFile R.File.remaining most v.items) }
    ensures failed { IfErr result (OrMemory (λ f. HaveFailed failures.new)) }
{
    match read_file(rt, failures, name, most) {
        Ok(bytes) => Ok(bytes),
        Err(fault) => Err(failure_of(name, fault)),
    }
}

// The failure of reading the file of this name.
fn failure_of<'a>(name: &'a str, fault: FileFault) -> Failure<'a>
    ensures { (failures : FailuresOf) → IsCounted failures fault
        → OrMemory (λ f. HaveFailed failures) result }
{
    match fault {
        FileFault::Open(error) => Failure::of_read(name, &error),
        FileFault::Read(fault) => Failure::of_source(name, fault),
    }
}

/// Writes the files of a command, where it has any, in their order; the failure names the one that isn't written.
pub fn put_files<'a, R: Files + AllocGlobal>(
    rt: &R,
    failures: &mut FileFailures,
    files: &OutFiles<'a>,
) -> Result<(), Failure<'a>>
    ensures put { OnOk result (ArePut (IsPut R.File.contents) files.now) }
    ensures failed { OnErr result (HaveFailed failures.new) }
{
    put_wanted(rt, failures, &files.out)?;
    put_wanted(rt, failures, &files.timeline)?;
    put_wanted(rt, failures, &files.page)?;
    put_wanted(rt, failures, &files.schedule)?;
    put_wanted(rt, failures, &files.actions)
}

// Writes a file, where there is one, in place of what it held, as `put_counted` does; the failure names it.
fn put_wanted<'a, R: Files + AllocGlobal>(
    rt: &R,
    failures: &mut FileFailures,
    file: &Option<OutFile<'a>>,
) -> Result<(), Failure<'a>>
    ensures put { OnOk result (IfSome (put_of file.now) (λ p. IsPut R.File.contents p.1)) }
    ensures failed { OnErr result (HaveFailed failures.new) }
{
    let Some(file) = file else {
        return Ok(());
    };
    match put_counted(rt, failures, file.name, file.bytes.as_slice()) {
        Ok(()) => Ok(()),
        Err(error) => Err(Failure::of_write(file.name, &error)),
    }
}
