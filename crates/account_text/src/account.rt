ghost use Rattle.std.specs.Prelude.{◌≡◌, ◌++◌, length, OnOk, string_bytes};
ghost use Rattle.account_text.specs.Accounts.{account, output_lines};
ghost use Rattle.account_text.specs.Accounts.{aborted_line, asleep_line, threads_lines};
ghost use Rattle.machine.specs.Views.{address_of, concrete};

use log_text::append_log;
use machine::Machine;
use runner::{Report, Verdict};
use std::alloc::AllocError;
use std::fmt::Write as _;
use words::{Addr, Outcome};

/// Appends each number of the output on a line of its own.
pub fn append_output(text: &mut String, output: &[i32]) -> Result<(), AllocError>
    ensures { OnOk result (string_bytes text.new
        ≡ string_bytes text.old ++ output_lines output.now) }
{
    for number in output {
        writeln!(text, "{number}")?;
    }
    Ok(())
}

/// Appends what else a run tells: the log where it is wanted, the verdict where not all threads have ended, and the
/// threads that have aborted or sleep.
pub fn append_account(text: &mut String, report: &Report, trace: bool) -> Result<(), AllocError>
    ensures { OnOk result (string_bytes text.new
        ≡ string_bytes text.old ++ account report.now trace) }
{
    if trace {
        append_log(text, report.log.iter())?;
    }
    match report.verdict {
        Verdict::Done => {}
        Verdict::Stuck => writeln!(text, "stuck")?,
        Verdict::Limit => writeln!(text, "limit")?,
    }
    append_threads(
        text,
        report.last.machine(),
        report.verdict == Verdict::Stuck,
    )
}

// The threads that have aborted, and, where nothing can move, those that sleep, by rising number.
fn append_threads(text: &mut String, last: &Machine, stuck: bool) -> Result<(), AllocError>
    ensures { OnOk result (string_bytes text.new
        ≡ string_bytes text.old
        ++ threads_lines (concrete last.now) stuck (length (concrete last.now).threads)) }
{
    for before in 0..last.threads() {
        let thread = before + 1;
        append_end(text, thread, last.outcome(thread))?;
        if stuck {
            append_sleep(text, thread, last.asleep(thread))?;
        }
    }
    Ok(())
}

fn append_end(text: &mut String, thread: u32, outcome: Outcome) -> Result<(), AllocError>
    ensures { OnOk result (string_bytes text.new
        ≡ string_bytes text.old ++ aborted_line thread outcome) }
{
    if let Outcome::Aborted(cause) = outcome {
        let number = cause.number();
        writeln!(text, "process {thread} aborted: fault {number}")?;
    }
    Ok(())
}

fn append_sleep(text: &mut String, thread: u32, address: Option<Addr>) -> Result<(), AllocError>
    ensures { OnOk result (string_bytes text.new
        ≡ string_bytes text.old ++ asleep_line thread (address_of address)) }
{
    if let Some(address) = address {
        let word = address.0;
        writeln!(text, "process {thread} sleeps on word {word}")?;
    }
    Ok(())
}
