ghost use Rattle.std.specs.Prelude.{◌≡◌, IfErr, IfOk, OnOk};
ghost use Rattle.account_text.specs.Accounts.{account, output_lines};
ghost use Rattle.devices.specs.Writing.{HasAll};
ghost use Rattle.devices.specs.Reports.{IsWriteFault, account_of, output_of};
ghost use Rattle.devices.specs.declared.report.WriteFault.TheVariants.{Memory};

use crate::counted::Counted;
use crate::writing::write_bytes;
use account_text::{append_account, append_output};
use runner::Report;
use std::alloc::{AllocError, Global};
use std::io::Write;
use thiserror::Error;

/// Why what a run tells isn't written. Where both writers failed it is `Output`.
#[derive(Clone, Copy, PartialEq, Eq, Debug, Error)]
pub enum WriteFault {
    /// The writer of the output failed.
    #[error("output")]
    Output,
    /// The writer of the account failed.
    #[error("errors")]
    Errors,
    /// There is no memory for the texts.
    #[error("memory")]
    Memory,
}

impl From<AllocError> for WriteFault {
    ghost from_gives = { λ _ f. f ≡ Memory };

    fn from(_error: AllocError) -> WriteFault {
        WriteFault::Memory
    }
}

/// What a run tells, as the texts that are written.
///
/// Both are made before the first byte is written, so without memory nothing is.
#[derive(Drop)]
pub struct ReportTexts {
    output: String,
    account: String,
}

impl ReportTexts {
    /// The texts of a report, with its log or without.
    pub fn new(alloc: Global, report: &Report, trace: bool) -> Result<ReportTexts, AllocError>
        ensures output { IfOk result (λ texts. output_of texts ≡ output_lines report.now.output.items) }
        ensures account { IfOk result (λ texts. account_of texts ≡ account report.now trace) }
    {
        let mut output = String::new(alloc);
        append_output(&mut output, report.output.as_slice())?;
        let mut account = String::new(alloc);
        append_account(&mut account, report, trace)?;
        Ok(ReportTexts { output, account })
    }

    /// Writes the output to one writer, and the account to the other, also where the first failed.
    pub fn write<O: Write, E: Write>(
        &self,
        output: &mut Counted<O>,
        errors: &mut Counted<E>,
    ) -> Result<(), WriteFault>
        ensures output { OnOk result (HasAll O.contents output.old output.new (output_of self.now)) }
        ensures errors { OnOk result (HasAll E.contents errors.old errors.new (account_of self.now)) }
        ensures fault { IfErr result (λ fault. IsWriteFault O.contents E.contents output.old output.new
            errors.old errors.new (output_of self.now) (account_of self.now) fault) }
    {
        let first = write_bytes(output, self.output.as_bytes());
        let second = write_bytes(errors, self.account.as_bytes());
        if first.is_err() {
            return Err(WriteFault::Output);
        }
        if second.is_err() {
            return Err(WriteFault::Errors);
        }
        Ok(())
    }
}

/// Writes what a run tells: its output to one writer, and its account to the other, also where the first failed.
pub fn write_report<O: Write, E: Write>(
    alloc: Global,
    report: &Report,
    trace: bool,
    output: &mut Counted<O>,
    errors: &mut Counted<E>,
) -> Result<(), WriteFault>
    ensures output { OnOk result
        (HasAll O.contents output.old output.new (output_lines report.now.output.items)) }
    ensures errors { OnOk result (HasAll E.contents errors.old errors.new (account report.now trace)) }
    ensures fault { IfErr result (λ fault. IsWriteFault O.contents E.contents output.old output.new
        errors.old errors.new (output_lines report.now.output.items) (account report.now trace)
        fault) }
{
    ReportTexts::new(alloc, report, trace)?.write(output, errors)
}
