ghost use Rattle.std.specs.Prelude.{◌≡◌, ◌≢◌, IfOk, List, MatchOption, Option as OptionOf, ℕ, ⊤};
ghost use Rattle.program.specs.Names.{Naming, naming_of};
ghost use Rattle.program.specs.declared.kinds.Member.{Member as MemberOf};
ghost use Rattle.source_states.specs.Actions.{kind_of};
ghost use Rattle.action_text.specs.ActionText.{last_text};
ghost use Rattle.action_text.specs.Reading.{IsCondition, IsKindText, IsNoKind};
ghost use Rattle.action_text.specs.Sized.{HasLast, HasNumber, IsOfCondition, IsOfKill, IsOfMonitor, IsPlain};

use crate::conditions::{Notified, condition_named};
use crate::counting::{fault_of, number_after, numbers_of, printed};
use crate::monitors::monitor_after;
use log_text::{are_same, past_word};
use program::Names;
use source_states::ActionKind;
use std::alloc::{AllocError, Global};

/// What an action does whose text this is, behind its process.
pub fn kind_of_text(
    alloc: Global,
    names: &Names,
    text: &[u8],
) -> Result<Option<ActionKind>, AllocError>
    ensures { IfOk result (λ o. MatchOption o
        (IsNoKind (λ k. ⊤) (naming_of names.now) text.now)
        (λ kind. IsKindText (naming_of names.now) text.now (kind_of kind))) }
{
    if let Some(kind) = plain(text) {
        return Ok(Some(kind));
    }
    if let Some(kind) = with_number(text) {
        return Ok(Some(kind));
    }
    if let Some(kind) = of_monitor(names, text) {
        return Ok(Some(kind));
    }
    if let Some(kind) = of_condition(alloc, names, text)? {
        return Ok(Some(kind));
    }
    of_kill(alloc, names, text)
}

// One that has its name alone.
fn plain(text: &[u8]) -> Option<ActionKind>
    ensures { (names : Naming) → MatchOption result (IsNoKind IsPlain names text.now)
        (λ kind. IsKindText names text.now (kind_of kind)) }
{
    if are_same(text, b"assign") {
        return Some(ActionKind::Assign);
    }
    if are_same(text, b"test") {
        return Some(ActionKind::Test);
    }
    if are_same(text, b"call") {
        return Some(ActionKind::Call);
    }
    if are_same(text, b"return") {
        return Some(ActionKind::Return);
    }
    if are_same(text, b"end") {
        return Some(ActionKind::Finish);
    }
    None
}

// One with a number behind its name.
fn with_number(text: &[u8]) -> Option<ActionKind>
    ensures { (names : Naming) → MatchOption result (IsNoKind HasNumber names text.now)
        (λ kind. IsKindText names text.now (kind_of kind)) }
{
    if let Some(number) = printed(text) {
        return Some(ActionKind::Print(number));
    }
    if let Some(fault) = fault_of(text) {
        return Some(ActionKind::Fails(fault));
    }
    if let Some(child) = number_after(text, b"fork ") {
        return Some(ActionKind::Fork(child));
    }
    if let Some(child) = number_after(text, b"claim ") {
        return Some(ActionKind::Claim(child));
    }
    if let Some(child) = number_after(text, b"join ") {
        return Some(ActionKind::Join(child));
    }
    None
}

// One with a monitor behind its name.
fn of_monitor(names: &Names, text: &[u8]) -> Option<ActionKind>
    ensures { MatchOption result (IsNoKind IsOfMonitor (naming_of names.now) text.now)
        (λ kind. IsKindText (naming_of names.now) text.now (kind_of kind)) }
{
    if let Some(monitor) = monitor_after(names, text, b"enter ") {
        return Some(ActionKind::Enter(monitor));
    }
    if let Some(monitor) = monitor_after(names, text, b"exit ") {
        return Some(ActionKind::Exit(monitor));
    }
    if let Some(monitor) = monitor_after(names, text, b"resume ") {
        return Some(ActionKind::Resume(monitor));
    }
    if let Some(monitor) = monitor_after(names, text, b"abandon ") {
        return Some(ActionKind::Abandon(monitor));
    }
    None
}

// What names a condition behind a word.
fn condition_after(
    alloc: Global,
    names: &Names,
    text: &[u8],
    word: &[u8],
    alone: bool,
) -> Result<Option<Notified>, AllocError>
    ensures { IfOk result (λ o. MatchOption o
        ((c : MemberOf) (ns : List ℕ)
        → IsCondition (naming_of names.now) word.now alone text.now c ns → ⊥)
        (λ n. IsCondition (naming_of names.now) word.now alone text.now n.condition n.resumed.items)) }
{
    match past_word(text, word) {
        Some(behind) => condition_named(alloc, names, behind, alone),
        None => Ok(None),
    }
}

// One with a condition behind its name.
fn of_condition(alloc: Global, names: &Names, text: &[u8]) -> Result<Option<ActionKind>, AllocError>
    ensures { IfOk result (λ o. MatchOption o (IsNoKind IsOfCondition (naming_of names.now) text.now)
        (λ kind. IsKindText (naming_of names.now) text.now (kind_of kind))) }
{
    if let Some(found) = condition_after(alloc, names, text, b"wait ", true)? {
        return Ok(Some(ActionKind::Wait(found.condition)));
    }
    if let Some(found) = condition_after(alloc, names, text, b"stray ", true)? {
        return Ok(Some(ActionKind::Stray(found.condition)));
    }
    if let Some(found) = condition_after(alloc, names, text, b"notify ", false)? {
        return Ok(Some(ActionKind::Notify(found.condition, found.resumed)));
    }
    if let Some(found) = condition_after(alloc, names, text, b"broadcast ", false)? {
        return Ok(Some(ActionKind::Broadcast(found.condition, found.resumed)));
    }
    Ok(None)
}

// A kill, with the processes that it resumes and the monitor that is abandoned last.
fn of_kill(alloc: Global, names: &Names, text: &[u8]) -> Result<Option<ActionKind>, AllocError>
    ensures { IfOk result (λ o. MatchOption o (IsNoKind IsOfKill (naming_of names.now) text.now)
        (λ kind. IsKindText (naming_of names.now) text.now (kind_of kind))) }
{
    let Some(behind) = past_word(text, b"kill") else {
        return Ok(None);
    };
    let counted = numbers_of(alloc, behind)?;
    match last_of(names, counted.rest) {
        Some(last) => Ok(Some(ActionKind::Kill(counted.numbers, last))),
        None => Ok(None),
    }
}

// The monitor that a text says is abandoned last; none where it says nothing.
fn last_of(names: &Names, text: &[u8]) -> Option<Option<u32>>
    ensures { MatchOption result
        ((last : OptionOf ℕ) → HasLast (naming_of names.now) last
        → text.now ≢ last_text (naming_of names.now) last)
        (λ last. HasLast (naming_of names.now) last
        × (text.now ≡ last_text (naming_of names.now) last)) }
{
    if text.is_empty() {
        return Some(None);
    }
    match monitor_after(names, text, b" last ") {
        Some(monitor) => Some(Some(monitor)),
        None => None,
    }
}
