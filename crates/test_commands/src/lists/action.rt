use crate::lists::failure::Failure;
use program::Member;
use source_states::{Action, ActionKind};
use std::alloc::{AllocError, Global};
use std::str::SplitWhitespace;
use words::{Cause, Outcome};

/// Appends the actions of a list.
pub fn append_actions(actions: &mut Vec<Action>, list: &str) -> Result<(), Failure> {
    for text in list.split(',') {
        append_action(actions, text)?;
    }
    Ok(())
}

// Appends the action that stands here.
fn append_action(actions: &mut Vec<Action>, text: &str) -> Result<(), Failure> {
    let action = action_of(*actions.allocator(), text)?;
    actions.push(action)?;
    Ok(())
}

// The action that stands here.
fn action_of(alloc: Global, text: &str) -> Result<Action, Failure> {
    let mut words = text.split_whitespace();
    let process = words.next().and_then(number_of).ok_or(Failure::Row)?;
    let name = words.next().ok_or(Failure::Row)?;
    let mut numbers = Vec::new(alloc);
    append_numbers(&mut numbers, words)?;
    let process = u64::from(process.unsigned_abs());
    let kind = kind_of(alloc, name, numbers.as_slice())?;
    Ok(Action { process, kind })
}

// Appends the numbers that words are.
fn append_numbers(numbers: &mut Vec<i32>, words: SplitWhitespace) -> Result<(), Failure> {
    for word in words {
        let number = number_of(word).ok_or(Failure::Row)?;
        numbers.push(number)?;
    }
    Ok(())
}

fn number_of(word: &str) -> Option<i32> {
    word.parse().ok()
}

// What an action of this name and these numbers does.
fn kind_of(alloc: Global, name: &str, numbers: &[i32]) -> Result<ActionKind, Failure> {
    let first = number_at(numbers, 0);
    let condition = Member {
        monitor: first.unsigned_abs(),
        number: number_at(numbers, 1).unsigned_abs(),
    };
    match name {
        "wait" => Ok(ActionKind::Wait(condition)),
        "notify" => Ok(ActionKind::Notify(condition, resumed(alloc, numbers)?)),
        "broadcast" => Ok(ActionKind::Broadcast(condition, resumed(alloc, numbers)?)),
        _ => plain_kind(name, first).ok_or(Failure::Row),
    }
}

// The number that stands here, or 0 where there is none.
fn number_at(numbers: &[i32], index: usize) -> i32 {
    match numbers.get(index) {
        Some(number) => *number,
        None => 0,
    }
}

// The processes that stand behind a condition.
fn resumed(alloc: Global, numbers: &[i32]) -> Result<Vec<u64>, AllocError> {
    let mut resumed = Vec::new(alloc);
    for number in numbers.iter().skip(2) {
        resumed.push(u64::from(number.unsigned_abs()))?;
    }
    Ok(resumed)
}

// What an action does that has at most one number.
fn plain_kind(name: &str, number: i32) -> Option<ActionKind> {
    let process = u64::from(number.unsigned_abs());
    let monitor = number.unsigned_abs();
    let kind = match name {
        "assign" => ActionKind::Assign,
        "test" => ActionKind::Test,
        "call" => ActionKind::Call,
        "return" => ActionKind::Return,
        "end" => ActionKind::Finish,
        "print" => ActionKind::Print(i64::from(number)),
        "fork" => ActionKind::Fork(process),
        "claim" => ActionKind::Claim(process),
        "join" => ActionKind::Join(process),
        "enter" => ActionKind::Enter(monitor),
        "exit" => ActionKind::Exit(monitor),
        "resume" => ActionKind::Resume(monitor),
        "abandon" => ActionKind::Abandon(monitor),
        "fault" => return fault_of(monitor),
        _ => return None,
    };
    Some(kind)
}

// The fault of this number.
fn fault_of(number: u32) -> Option<ActionKind> {
    match Outcome::of_word(number) {
        Outcome::Aborted(Cause::Faulted(fault)) => Some(ActionKind::Fails(fault)),
        _ => None,
    }
}
