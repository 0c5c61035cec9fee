ghost use Rattle.std.specs.Prelude.{◌≡◌, ◌≢◌, ◌<◌, ◌≤◌, ◌++◌, ◌∷◌, IfOk, IfSome, List, MatchBool, MatchOption, ℕ, length, slice_get};
ghost use Rattle.program.specs.Names.{naming_of};
ghost use Rattle.program.specs.declared.kinds.Member.{Member as MemberOf};
ghost use Rattle.actionlines.specs.Lines.{condition_name, member_in, monitor_name};
ghost use Rattle.action_text.specs.Reading.{IsWhole, NamesCondition};
ghost use Rattle.action_text.specs.Sized.{HasMember, IsNumber};

use crate::counting::{Counted, numbers_of};
use log_text::{past_byte, past_word};
use program::{Member, Names};
use std::alloc::{AllocError, Global};

/// A condition, and the processes that are named behind it.
#[derive(Drop)]
pub struct Notified {
    /// The condition.
    pub condition: Member,
    /// The processes.
    pub resumed: Vec<u64>,
}

/// The first condition that a text names, and the processes behind it; `alone` asks for a condition behind which none are.
pub fn condition_named(
    alloc: Global,
    names: &Names,
    text: &[u8],
    alone: bool,
) -> Result<Option<Notified>, AllocError>
    ensures { IfOk result (λ o. MatchOption o
        ((c : MemberOf) (ns : List ℕ)
        → NamesCondition (naming_of names.now) alone text.now c ns → ⊥)
        (λ n. NamesCondition (naming_of names.now) alone text.now n.condition n.resumed.items)) }
{
    for place in 0..names.monitors.len() {
        match notified_of(alloc, names, place, text, alone)? {
            Some(found) => return Ok(Some(found)),
            None => {}
        }
    }
    Ok(None)
}

// The first condition of this monitor that a text names.
fn notified_of(
    alloc: Global,
    names: &Names,
    monitor: usize,
    text: &[u8],
    alone: bool,
) -> Result<Option<Notified>, AllocError>
    ensures { IfOk result (λ o. MatchOption o
        ((c : MemberOf) (ns : List ℕ) → c.monitor ≡ monitor
        → NamesCondition (naming_of names.now) alone text.now c ns → ⊥)
        (λ n. NamesCondition (naming_of names.now) alone text.now n.condition n.resumed.items)) }
{
    for place in 0..members_of(names, monitor) {
        match notified_at(alloc, names, monitor, place, text, alone)? {
            Some(found) => return Ok(Some(found)),
            None => {}
        }
    }
    Ok(None)
}

// How many members a monitor has.
fn members_of(names: &Names, monitor: usize) -> usize
    ensures { IfSome (slice_get (naming_of names.now).monitors monitor) (λ m. result ≡ length m.members) }
{
    match names.monitors.get(monitor) {
        Some(naming) => naming.members.len(),
        None => 0,
    }
}

// This condition, where a text names it.
fn notified_at(
    alloc: Global,
    names: &Names,
    monitor: usize,
    number: usize,
    text: &[u8],
    alone: bool,
) -> Result<Option<Notified>, AllocError>
    ensures { IfOk result (λ o. MatchOption o
        ((c : MemberOf) (ns : List ℕ) → c.monitor ≡ monitor → c.number ≡ number
        → NamesCondition (naming_of names.now) alone text.now c ns → ⊥)
        (λ n. NamesCondition (naming_of names.now) alone text.now n.condition n.resumed.items)) }
{
    let Some(condition) = member_at(monitor, number) else {
        return Ok(None);
    };
    let Some(behind) = past_condition(names, condition, text) else {
        return Ok(None);
    };
    let counted = numbers_of(alloc, behind)?;
    if !is_whole(&counted, alone) {
        return Ok(None);
    }
    Ok(Some(Notified {
        condition,
        resumed: counted.numbers,
    }))
}

// Whether nothing stands behind the numbers, and where they are to be none, they are.
fn is_whole(counted: &Counted<'_>, alone: bool) -> bool
    ensures { MatchBool result (IsWhole counted.now alone) (IsWhole counted.now alone → ⊥) }
{
    if !counted.rest.is_empty() {
        return false;
    }
    !alone || counted.numbers.is_empty()
}

// The member of these numbers, where they are small enough.
fn member_at(monitor: usize, number: usize) -> Option<Member>
    ensures { MatchOption result (IsNumber monitor → IsNumber number → ⊥)
        (λ c. (c.monitor ≡ monitor) × (c.number ≡ number)) }
{
    let Ok(monitor) = u32::try_from(monitor) else {
        return None;
    };
    match u32::try_from(number) {
        Ok(number) => Some(Member { monitor, number }),
        Err(_) => None,
    }
}

// What stands in a text behind the name of a condition, where there is such a condition.
fn past_condition<'t>(names: &Names, condition: Member, text: &'t [u8]) -> Option<&'t [u8]>
    ensures { MatchOption result
        ((rest : List ℕ) → HasMember (naming_of names.now) condition
        → text.now ≢ condition_name (naming_of names.now) condition ++ rest)
        (λ rest. HasMember (naming_of names.now) condition
        × (text.now ≡ condition_name (naming_of names.now) condition ++ rest.now)) }
{
    let Some(name) = monitor_called(names, condition.monitor) else {
        return None;
    };
    let Some(member) = member_called(names, condition) else {
        return None;
    };
    past_name(text, name, member)
}

// The name of a monitor, where it is there.
fn monitor_called<'n>(names: &'n Names<'_>, monitor: u32) -> Option<&'n [u8]>
    ensures { MatchOption result (length (naming_of names.now).monitors ≤ monitor)
        (λ name. (monitor < length (naming_of names.now).monitors)
        × (name.now ≡ monitor_name (naming_of names.now) monitor)) }
{
    match names.monitors.get(monitor as usize) {
        Some(naming) => Some(naming.name),
        None => None,
    }
}

// The name of a member, where it is there.
fn member_called<'n>(names: &'n Names<'_>, member: Member) -> Option<&'n [u8]>
    ensures { MatchOption result
        (HasMember (naming_of names.now) member → ⊥)
        (λ name. IfSome (slice_get (naming_of names.now).monitors member.monitor)
        (λ m. member.number < length m.members)
        × (name.now ≡ member_in (slice_get (naming_of names.now).monitors member.monitor) member.number)) }
{
    let Some(naming) = names.monitors.get(member.monitor as usize) else {
        return None;
    };
    match naming.members.get(member.number as usize) {
        Some(name) => Some(*name),
        None => None,
    }
}

// What stands in a text behind two names with a dot between them.
fn past_name<'t>(text: &'t [u8], name: &[u8], member: &[u8]) -> Option<&'t [u8]>
    ensures { MatchOption result
        ((rest : List ℕ) → text.now ≢ (name.now ++ 46 ∷ member.now) ++ rest)
        (λ rest. text.now ≡ (name.now ++ 46 ∷ member.now) ++ rest.now) }
{
    let Some(behind) = past_word(text, name) else {
        return None;
    };
    let Some(behind) = past_byte(behind, b'.') else {
        return None;
    };
    let rest = past_word(behind, member);
    rest
}
