ghost use Rattle.std.specs.Prelude.{◌≡◌, ◌≢◌, MatchBool, MatchOption, Option};
ghost use Rattle.machine.specs.declared.event.Entry.{Entry as LogEntry};
ghost use Rattle.machine.specs.declared.event.Event.{Event as LogEvent};
ghost use Rattle.machine.specs.declared.event.EventName.TheVariants.{Local};
ghost use Rattle.log_text.specs.LogLines.{entry_text, step_text};
ghost use Rattle.log_text.specs.Spelled.{EndsEvent, IsSharedEvent, IsSized, IsStep};

use crate::numbers::{number, spaced_number, value_of};
use crate::parts::{are_same, cut, name_called, past_byte};
use crate::sets::set_after;
use machine::{Entry, Event, EventName};

/// The entry of a line, without its end.
pub fn read_line(line: &[u8]) -> Option<Entry>
    ensures { MatchOption result ((e : LogEntry) → IsSized e → line.now ≢ entry_text e)
        (λ e. IsSized e × (line.now ≡ entry_text e)) }
{
    let Some((thread, after_thread)) = number(line) else {
        return None;
    };
    let Some((local, after_local)) = spaced_number(after_thread) else {
        return None;
    };
    let Some(step) = past_byte(after_local, b' ') else {
        return None;
    };
    match read_step(step) {
        Some(event) => Some(Entry {
            thread,
            local,
            event,
        }),
        None => None,
    }
}

// The step that a text is; none is a turn.
fn read_step(text: &[u8]) -> Option<Option<Event>>
    ensures { MatchOption result ((o : Option LogEvent) → IsStep o → text.now ≢ step_text o)
        (λ o. IsStep o × (text.now ≡ step_text o)) }
{
    let called = cut(text, b' ');
    let Some(name) = name_called(called.front) else {
        return None;
    };
    let Some(value) = past_byte(called.rest, b' ') else {
        return None;
    };
    if is_local(name) {
        if are_same(value, b"0") {
            return Some(None);
        }
        return None;
    }
    match read_event(name, value) {
        Some(event) => Some(Some(event)),
        None => None,
    }
}

// The event of this name whose text ends so.
fn read_event(name: EventName, text: &[u8]) -> Option<Event>
    requires shared { name ≢ Local }
    ensures { MatchOption result ((e : LogEvent) → IsSharedEvent e → EndsEvent name text.now e → ⊥)
        (λ e. IsSharedEvent e × EndsEvent name text.now e) }
{
    let Some((value, after_value)) = value_of(name, text) else {
        return None;
    };
    let Some((woken, after_woken)) = set_after(after_value, b" woke") else {
        return None;
    };
    let Some((moved, after_moved)) = set_after(after_woken, b" moved") else {
        return None;
    };
    if !after_moved.is_empty() {
        return None;
    }
    Some(Event {
        name,
        value,
        woken,
        moved,
    })
}

fn is_local(name: EventName) -> bool
    ensures { MatchBool result (name ≡ Local) (name ≢ Local) }
{
    name == EventName::Local
}
