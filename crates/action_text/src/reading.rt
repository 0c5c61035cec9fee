ghost use Rattle.std.specs.Prelude.{◌≡◌, IfOk, List, MatchOption, MatchResult, map};
ghost use Rattle.meaning.specs.Labels.{Action as ActionOf};
ghost use Rattle.program.specs.Names.{naming_of};
ghost use Rattle.source_states.specs.Actions.{action_of};
ghost use Rattle.action_text.specs.ActionText.{run_lines};
ghost use Rattle.action_text.specs.Reading.{IsActionsText, IsNoText, IsTextOf, RefusesText};
ghost use Rattle.action_text.specs.declared.reading.ReadActionsFault.TheVariants.{Memory};

use crate::kinds::kind_of_text;
use log_text::{cut, number, past_byte, past_first};
use program::Names;
use source_states::Action;
use std::alloc::{AllocError, Global};
use thiserror::Error;

/// Why a text isn't read as the actions of a run. Its lines are numbered from 1.
#[derive(Clone, Copy, PartialEq, Eq, Debug, Error)]
pub enum ReadActionsFault {
    /// The line of this number is the first that is no action's, or that has no end.
    #[error("action line {0}")]
    Line(u64),
    /// There is no memory for the actions.
    #[error("memory")]
    Memory,
}

impl From<AllocError> for ReadActionsFault {
    ghost from_gives = { λ _ f. f ≡ Memory };

    fn from(_error: AllocError) -> ReadActionsFault {
        ReadActionsFault::Memory
    }
}

// The action of a line, without its end.
fn read_line(alloc: Global, names: &Names, line: &[u8]) -> Result<Option<Action>, AllocError>
    ensures { IfOk result (λ o. MatchOption o (IsNoText (naming_of names.now) line.now)
        (λ a. IsTextOf (naming_of names.now) line.now (action_of a))) }
{
    let Some((process, behind)) = number(line) else {
        return Ok(None);
    };
    let Some(text) = past_byte(behind, b' ') else {
        return Ok(None);
    };
    match kind_of_text(alloc, names, text)? {
        Some(kind) => Ok(Some(Action {
            process: u64::from(process),
            kind,
        })),
        None => Ok(None),
    }
}

/// The actions of which a text has the lines, just as `append_action` writes them: each ends by a line feed, its parts stand
/// apart by one space, and numbers have no zeros in front. The empty text has none.
///
/// Lines of actions whose numbers are of the machine's size, and whose monitors and conditions are there, are never refused,
/// memory aside.
pub fn read_actions(
    alloc: Global,
    names: &Names,
    text: &[u8],
) -> Result<Vec<Action>, ReadActionsFault>
    ensures read { MatchResult result
        (λ v. IsActionsText (naming_of names.now) text.now (map action_of v.items))
        (λ fault. RefusesText (naming_of names.now) text.now fault) }
    ensures reads { (actions : List ActionOf)
        → IsActionsText (naming_of names.now) text.now actions
        → MatchResult result (λ v. run_lines (naming_of names.now) (map action_of v.items)
        ≡ run_lines (naming_of names.now) actions) (λ fault. fault ≡ Memory) }
{
    let mut actions = Vec::new(alloc);
    let mut rest = text;
    let mut number: u64 = 0;
    while !rest.is_empty() {
        number += 1;
        let line = cut(rest, b'\n');
        if line.rest.is_empty() {
            return Err(ReadActionsFault::Line(number));
        }
        let Some(action) = read_line(alloc, names, line.front)? else {
            return Err(ReadActionsFault::Line(number));
        };
        if actions.push(action).is_err() {
            return Err(ReadActionsFault::Memory);
        }
        rest = past_first(line.rest);
    }
    Ok(actions)
}
