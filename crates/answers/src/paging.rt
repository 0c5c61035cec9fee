ghost use Rattle.std.specs.Prelude.{◌≡◌, IfOk, IfErr};
ghost use Rattle.answers.specs.Answers.{TellsReport, name_of};
ghost use Rattle.answers.specs.Failures.{HasNoMemory};

use crate::answer::{Answer, OutFile};
use crate::drawing::{ShownRun, page_file};
use crate::failure::NoAnswer;
use crate::hinting::SourceText;
use crate::run_entries::explained;
use crate::titles::title_of_run;
use program::Checked;
use run_hints::Way;
use runner::Report;
use source_states::Action;
use std::alloc::{AllocError, Global};

/// What is kept of a run of a text, beside what it prints.
#[derive(Clone, Copy)]
pub struct Kept<'a> {
    /// Whether its log is shown.
    pub trace: bool,
    /// The name of the file that its log is written to, where that is wanted.
    pub log: Option<&'a str>,
    /// The name of its page's file, where one is wanted.
    pub page: Option<&'a str>,
}

/// The answer to a run of a text with this report, which was made so.
pub fn report_answer<'a>(
    alloc: Global,
    text: &SourceText<'_>,
    report: &Report,
    way: Way<'_>,
    kept: Kept<'a>,
) -> Result<Answer<'a>, NoAnswer<'a>>
    ensures told { IfOk result (TellsReport report.now kept.entry.trace kept.entry.log
        kept.entry.page) }
    ensures failed { IfErr result HasNoMemory }
{
    let page = run_page(alloc, text, report, way, kept.page)?;
    Answer::of_report(alloc, report, kept.trace, kept.log, page)
}

// The file of the page of a run, whose log is explained, where one is wanted.
fn run_page<'a>(
    alloc: Global,
    text: &SourceText<'_>,
    report: &Report,
    way: Way<'_>,
    wanted: Option<&'a str>,
) -> Result<Option<OutFile<'a>>, AllocError>
    ensures { IfOk result (λ file. name_of file ≡ wanted.entry) }
{
    if wanted.is_none() {
        return Ok(None);
    }
    match explained(alloc, text, report.log.iter())? {
        None => Err(AllocError),
        Some((checked, actions)) => {
            let actions = actions.as_slice();
            known_page(alloc, text, report, way, &checked, actions, wanted)
        }
    }
}

// The same of a run that these actions are.
fn known_page<'a>(
    alloc: Global,
    text: &SourceText<'_>,
    report: &Report,
    way: Way<'_>,
    checked: &Checked<'_>,
    actions: &[Action],
    wanted: Option<&'a str>,
) -> Result<Option<OutFile<'a>>, AllocError>
    ensures { IfOk result (λ file. name_of file ≡ wanted.entry) }
{
    let title = title_of_run(alloc, text.file, way, report.verdict)?;
    let run = ShownRun {
        file: text.file,
        text: text.bytes,
        checked,
        actions,
        log: &report.log,
        title: title.as_str(),
    };
    page_file(alloc, &run, wanted)
}
