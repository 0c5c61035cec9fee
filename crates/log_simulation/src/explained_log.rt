ghost use Rattle.std.specs.Prelude.{◌≡◌, IfOk};
ghost use Rattle.lowering.specs.Layout.{layout_of};
ghost use Rattle.lowering.specs.Pieces.{code_of, marks_of};
ghost use Rattle.program.specs.Names.{said_by};
ghost use Rattle.program.specs.Trees.{as_version};
ghost use Rattle.program.specs.WellFormed.{WellFormed};
ghost use Rattle.log_simulation.specs.Explanations.{ExplainsLog};

use crate::recorder::Recorder;
use crate::walking::{Walked, walk};
use isa::Image;
use layout::Layout;
use lowering::Mark;
use packed_log::LogReader;
use piece_machine::PieceMachine;
use program::Checked;
use source_states::Action;
use std::alloc::{AllocError, Global};

/// A log of a run of a program's image, explained.
#[derive(Drop)]
pub struct ExplainedLog {
    /// The actions of the source, in order.
    pub actions: Vec<Action>,
    /// The machine behind the log's last entry.
    pub last: PieceMachine,
}

/// How a log of a program's image is explained.
#[derive(Drop)]
pub enum LogExplanation {
    /// The entry of this number, from 1, is the first with which the entries are no log of a run: it isn't legal, or
    /// there are 2^32 steps or more with it, which the machine's words don't count.
    StopsAt(u64),
    /// The entries are a log of a run.
    Explained(ExplainedLog),
}

// A checked program is well formed. Nothing is done when it runs.
fn checked_is_well_formed(checked: &Checked)
    ensures { WellFormed (said_by checked.now) }
{
    checked.program();
}

/// The source behind a log of a program's image of either version: the log is walked once, by the machine's own steps,
/// with the layout of the program for that version and the marks of its code. The marks say which actions are deferred
/// until the next visible one of their process. The walk ends at the first entry that isn't legal.
pub fn explain_log(
    alloc: Global,
    checked: &Checked,
    image: &Image,
    log: LogReader<'_>,
    layout: Layout,
    marks: Vec<Mark>,
) -> Result<LogExplanation, AllocError>
    requires own { image.now ≡ code_of (as_version layout.version (said_by checked.now)) }
    requires layout { layout ≡ layout_of (as_version layout.version (said_by checked.now)) }
    requires marks { marks.items ≡ marks_of (as_version layout.version (said_by checked.now)) }
    ensures { let p = as_version layout.version (said_by checked.now) in
        IfOk result (λ told. ExplainsLog p log.entry told) }
{
    checked_is_well_formed(checked);
    let mut recorder = Recorder::new(alloc, checked, layout, marks)?;
    match walk(alloc, image, log, &mut recorder)? {
        Walked::StopsAt(number) => Ok(LogExplanation::StopsAt(number)),
        Walked::LeadsTo(last) => {
            let actions = recorder.finish(&last)?;
            Ok(LogExplanation::Explained(ExplainedLog { actions, last }))
        }
    }
}
