ghost use Rattle.std.specs.Prelude.{◌≡◌, ◌++◌, [], OnOk, codes, string_bytes, if◌then◌else◌};
ghost use Rattle.std.specs.Fmt.{decimal};
ghost use Rattle.log_text.specs.LogLines.{entry_line, event_text, log_lines, name_text, set_text, value_text};

use itoa::Buffer;
use machine::{Entry, Event, EventName, MOST_THREADS, ThreadSet};
use packed_log::LogReader;
use std::alloc::AllocError;
use words::signed;

/// Appends the lines of a log: of each entry its thread, its local steps, and what came then.
pub fn append_log(text: &mut String, log: LogReader<'_>) -> Result<(), AllocError>
    ensures { OnOk result (string_bytes text.new ≡ string_bytes text.old ++ log_lines log.entry) }
{
    for entry in log {
        append_entry(text, &entry)?;
    }
    Ok(())
}

// Appends the line of an entry.
fn append_entry(text: &mut String, entry: &Entry) -> Result<(), AllocError>
    ensures { OnOk result (string_bytes text.new ≡ string_bytes text.old ++ entry_line entry.now) }
{
    append_number(text, entry.thread)?;
    text.push_str(" ")?;
    append_number(text, entry.local)?;
    match &entry.event {
        Some(event) => append_event(text, event),
        None => text.push_str(" TURN 0\n"),
    }
}

// The end of the line of a shared step: its name, its value, and the threads that it woke and moved.
fn append_event(text: &mut String, event: &Event) -> Result<(), AllocError>
    ensures { OnOk result (string_bytes text.new
        ≡ string_bytes text.old ++ (codes " " ++ (event_text event.now ++ codes "\n"))) }
{
    text.push_str(" ")?;
    text.push_str(name_of(event.name))?;
    text.push_str(" ")?;
    append_value(text, event)?;
    append_set(text, " woke", &event.woken)?;
    append_set(text, " moved", &event.moved)?;
    text.push_str("\n")
}

// A step's value: of a printed word the number that it stands for.
fn append_value(text: &mut String, event: &Event) -> Result<(), AllocError>
    ensures { OnOk result (string_bytes text.new
        ≡ string_bytes text.old ++ value_text event.now.name event.now.value) }
{
    if event.name == EventName::Print {
        text.push_str(Buffer::new().format(signed(event.value)))
    } else {
        append_number(text, event.value)
    }
}

// A number in decimal digits.
fn append_number(text: &mut String, number: u32) -> Result<(), AllocError>
    ensures { OnOk result (string_bytes text.new ≡ string_bytes text.old ++ decimal number) }
{
    text.push_str(Buffer::new().format(number))
}

// A space and a number.
fn append_spaced(text: &mut String, number: u32) -> Result<(), AllocError>
    ensures { OnOk result (string_bytes text.new
        ≡ string_bytes text.old ++ (codes " " ++ decimal number)) }
{
    text.push_str(" ")?;
    append_number(text, number)
}

// The threads of a set by rising number, after a word, where there are any.
fn append_set(text: &mut String, word: &str, set: &ThreadSet) -> Result<(), AllocError>
    ensures { OnOk result (string_bytes text.new ≡ string_bytes text.old ++ set_text word.now set.now) }
{
    if set.is_empty() {
        return Ok(());
    }
    append_members(text, word, set)
}

// The same, from thread to thread.
fn append_members(text: &mut String, word: &str, set: &ThreadSet) -> Result<(), AllocError>
    ensures { OnOk result (string_bytes text.new ≡ string_bytes text.old ++ set_text word.now set.now) }
{
    let mut from = 1;
    for before in 0..MOST_THREADS {
        let Some(thread) = set.next_from(from) else {
            return Ok(())
        };
        if thread > MOST_THREADS {
            return Ok(());
        }
        append_member(text, word, before == 0, thread)?;
        from = thread + 1;
    }
    Ok(())
}

// A thread of a set, behind the word where it is the first.
fn append_member(
    text: &mut String,
    word: &str,
    is_first: bool,
    thread: u32,
) -> Result<(), AllocError>
    ensures { OnOk result (string_bytes text.new ≡ string_bytes text.old
        ++ ((if is_first then word.now else []) ++ (codes " " ++ decimal thread))) }
{
    if is_first {
        text.push_str(word)?;
    }
    append_spaced(text, thread)
}

/// How the log names a step.
pub fn name_of(name: EventName) -> &'static str
    ensures { result.now ≡ name_text name }
{
    match name {
        EventName::Local => "TURN",
        EventName::Load => "LOAD",
        EventName::Store => "STORE",
        EventName::Swap => "SWAP",
        EventName::CompareSwap => "CAS",
        EventName::FetchOr => "AOR",
        EventName::FetchAdd => "AADD",
        EventName::Fork => "FORK",
        EventName::Print => "PRINT",
        EventName::Wait => "FWAIT",
        EventName::Wake => "FWAKE",
        EventName::Requeue => "FREQ",
        EventName::FutexLock => "FLOCK",
        EventName::FutexCompare => "FCMP",
        EventName::Ret => "RET",
        EventName::RetValue => "RETV",
        EventName::Die => "DIE",
        EventName::Entry => "ENTRY",
        EventName::Pending => "PENDING",
        EventName::Clear => "CLEAR",
        EventName::Last => "LAST",
        EventName::Stray => "STRAY",
        EventName::Kill => "KILL",
    }
}
