ghost use Rattle.std.specs.Prelude.{◌≡◌, ◌++◌, ◌⊎◌, None, [], IfOk, IfErr, OnOk, OnErr};
ghost use Rattle.account_text.specs.Accounts.{account, output_lines};
ghost use Rattle.devices.specs.Writing.{HasAll};
ghost use Rattle.log_text.specs.LogLines.{log_lines};
ghost use Rattle.answers.specs.Answers.{HasMetFailure, TellsReport, log_put, name_of, put_of, status_of_verdict};
ghost use Rattle.answers.specs.Failures.{HasNoMemory};

use crate::failure::NoAnswer;
use crate::status::Status;
use account_text::{append_account, append_output};
use devices::{Counted, write_bytes};
use log_text::append_log;
use packed_log::LogReader;
use runner::{Report, Verdict};
use std::alloc::{AllocError, Global};
use std::io;
use std::io::Write;

/// A file that a command writes.
#[derive(Drop)]
pub struct OutFile<'a> {
    /// Its name.
    pub name: &'a str,
    /// What it gets, in place of what it held.
    pub bytes: Vec<u8>,
}

/// The files that a command writes.
#[derive(Drop)]
pub struct OutFiles<'a> {
    /// That of the image, of the C, of the log or of the picture.
    pub out: Option<OutFile<'a>>,
    /// That of the timeline.
    pub timeline: Option<OutFile<'a>>,
    /// That of the page.
    pub page: Option<OutFile<'a>>,
    /// That of the schedule of what a search found.
    pub schedule: Option<OutFile<'a>>,
    /// That of the actions of what a search found.
    pub actions: Option<OutFile<'a>>,
}

impl<'a> OutFiles<'a> {
    /// None, or this one.
    pub fn only(out: Option<OutFile<'a>>) -> OutFiles<'a>
        ensures out { result.out ≡ out.entry }
        ensures timeline { result.timeline ≡ None }
        ensures page { result.page ≡ None }
        ensures schedule { result.schedule ≡ None }
        ensures actions { result.actions ≡ None }
    {
        OutFiles {
            out,
            timeline: None,
            page: None,
            schedule: None,
            actions: None,
        }
    }
}

/// What comes of a job that was done.
#[derive(Drop)]
pub struct Answer<'a> {
    /// How it ended.
    pub status: Status,
    /// What standard output gets.
    pub output: Vec<u8>,
    /// What standard error gets, but for hints.
    pub account: Vec<u8>,
    /// The files that it writes.
    pub files: OutFiles<'a>,
}

impl<'a> Answer<'a> {
    /// That of a job that ended so and has nothing for standard error.
    pub fn quiet(alloc: Global, status: Status, output: Vec<u8>, files: OutFiles<'a>) -> Answer<'a>
        ensures status { result.status ≡ status }
        ensures output { result.output.items ≡ output.items }
        ensures account { result.account.items ≡ [] }
        ensures files { result.files ≡ files.entry }
    {
        Answer {
            status,
            output,
            account: Vec::new(alloc),
            files,
        }
    }

    /// That of a run with this report, with its log on standard error or without, and in the file of this name, where one is
    /// named; and with this page, where there is one.
    pub fn of_report(
        alloc: Global,
        report: &Report,
        trace: bool,
        log: Option<&'a str>,
        page: Option<OutFile<'a>>,
    ) -> Result<Answer<'a>, NoAnswer<'a>>
        ensures told { IfOk result (TellsReport report.now trace log.entry (name_of page.entry)) }
        ensures failed { IfErr result HasNoMemory }
    {
        let output = output_of(alloc, report)?;
        let account = account_of(alloc, report, trace)?;
        let out = log_file(alloc, log, report.log.iter())?;
        Ok(Answer {
            status: status_of(report.verdict),
            output,
            account,
            files: OutFiles {
                out,
                timeline: None,
                page,
                schedule: None,
                actions: None,
            },
        })
    }

    /// Writes what it tells, and hints behind its account. Each of the two devices gets all of its bytes, also where the
    /// other failed.
    pub fn write<O: Write, E: Write>(
        &self,
        hints: &str,
        output: &mut Counted<O>,
        errors: &mut Counted<E>,
    ) -> io::Result<()>
        ensures output { OnOk result (HasAll O.contents output.old output.new self.now.output.items) }
        ensures errors { OnOk result
            (HasAll E.contents errors.old errors.new (self.now.account.items ++ hints.now)) }
        ensures failed { OnErr result (HasMetFailure output.new ⊎ HasMetFailure errors.new) }
    {
        let written = write_bytes(output, self.output.as_slice());
        let told = write_both(errors, self.account.as_slice(), hints.as_bytes());
        if written.is_err() {
            return written;
        }
        told
    }
}

// Writes these bytes, and then those.
fn write_both<W: Write>(writer: &mut Counted<W>, first: &[u8], second: &[u8]) -> io::Result<()>
    ensures ok { OnOk result (HasAll W.contents writer.old writer.new (first.now ++ second.now)) }
    ensures failed { OnErr result (HasMetFailure writer.new) }
{
    write_bytes(writer, first)?;
    write_bytes(writer, second)
}

// The lines of what a run printed.
fn output_of(alloc: Global, report: &Report) -> Result<Vec<u8>, AllocError>
    ensures { IfOk result (λ v. v.items ≡ output_lines report.now.output.items) }
{
    let mut lines = String::new(alloc);
    append_output(&mut lines, report.output.as_slice())?;
    Ok(lines.into_bytes())
}

// The account of a run, with its log or without.
fn account_of(alloc: Global, report: &Report, trace: bool) -> Result<Vec<u8>, AllocError>
    ensures { IfOk result (λ v. v.items ≡ account report.now trace) }
{
    let mut lines = String::new(alloc);
    append_account(&mut lines, report, trace)?;
    Ok(lines.into_bytes())
}

// The file of a log, where one is named.
fn log_file<'a>(
    alloc: Global,
    name: Option<&'a str>,
    log: LogReader<'_>,
) -> Result<Option<OutFile<'a>>, AllocError>
    ensures { IfOk result (λ file. put_of file ≡ log_put name.entry log.entry) }
{
    let Some(name) = name else {
        return Ok(None);
    };
    let bytes = log_bytes(alloc, log)?;
    Ok(Some(OutFile { name, bytes }))
}

// The lines of a log.
fn log_bytes(alloc: Global, log: LogReader<'_>) -> Result<Vec<u8>, AllocError>
    ensures { IfOk result (λ v. v.items ≡ log_lines log.entry) }
{
    let mut lines = String::new(alloc);
    append_log(&mut lines, log)?;
    Ok(lines.into_bytes())
}

/// How a run that came to its end so ended.
pub fn status_of(verdict: Verdict) -> Status
    ensures { result ≡ status_of_verdict verdict }
{
    match verdict {
        Verdict::Done => Status::Done,
        Verdict::Stuck => Status::Stuck,
        Verdict::Limit => Status::Limit,
    }
}
