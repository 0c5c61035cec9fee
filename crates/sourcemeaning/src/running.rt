ghost use Rattle.std.specs.Prelude.{IfOk};
ghost use Rattle.program.specs.Views.{program_of};
ghost use Rattle.sourcemeaning.specs.Running.{IsRunLength};

use program::Checked;
use source_states::{Action, SourceState};
use std::alloc::{AllocError, Global};
use words::ImageVersion;

/// How many of these actions, from the first on, are a run of the program: all, where they are one.
pub fn run_length(alloc: Global, checked: &Checked, actions: &[Action]) -> Result<usize, AllocError>
    ensures { IfOk result (λ n. IsRunLength (program_of checked.now.tree) actions.now n) }
{
    let mut state = SourceState::opening(alloc, checked, ImageVersion::Two)?;
    for i in 0..actions.len() {
        if !state.advance(alloc, checked.program(), &actions[i])? {
            return Ok(i);
        }
    }
    Ok(actions.len())
}
