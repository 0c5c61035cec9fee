ghost use Rattle.std.specs.Prelude.{◌≡◌, ◌≢◌, ◌≤◌, ◌^◌, ◌++◌, MatchBool, MatchOption, ℕ};
ghost use Rattle.program.specs.Names.{naming_of};
ghost use Rattle.actionlines.specs.Lines.{monitor_name};
ghost use Rattle.action_text.specs.Sized.{HasMonitor, IsNumber};

use log_text::{are_same, past_word};
use program::Names;

/// The monitor whose name a text is behind a word.
pub fn monitor_after(names: &Names, text: &[u8], word: &[u8]) -> Option<u32>
    ensures { MatchOption result
        ((m : ℕ) → HasMonitor (naming_of names.now) m
        → text.now ≢ word.now ++ monitor_name (naming_of names.now) m)
        (λ m. HasMonitor (naming_of names.now) m
        × (text.now ≡ word.now ++ monitor_name (naming_of names.now) m)) }
{
    match past_word(text, word) {
        Some(name) => monitor_named(names, name),
        None => None,
    }
}

// The first monitor of this name.
fn monitor_named(names: &Names, name: &[u8]) -> Option<u32>
    ensures { MatchOption result
        ((m : ℕ) → HasMonitor (naming_of names.now) m
        → name.now ≢ monitor_name (naming_of names.now) m)
        (λ m. HasMonitor (naming_of names.now) m
        × (name.now ≡ monitor_name (naming_of names.now) m)) }
{
    for place in 0..names.monitors.len() {
        if is_named(names, place, name) {
            return monitor_at(place);
        }
    }
    None
}

// The monitor of this number, where that is small enough.
fn monitor_at(place: usize) -> Option<u32>
    ensures { MatchOption result (2 ^ 32 ≤ place) (λ m. (m ≡ place) × IsNumber m) }
{
    match u32::try_from(place) {
        Ok(monitor) => Some(monitor),
        Err(_) => None,
    }
}

// Whether the monitor of this number is called so.
fn is_named(names: &Names, place: usize, name: &[u8]) -> bool
    ensures { MatchBool result (name.now ≡ monitor_name (naming_of names.now) place)
        (name.now ≢ monitor_name (naming_of names.now) place) }
{
    match names.monitors.get(place) {
        Some(naming) => are_same(name, naming.name),
        None => are_same(name, b""),
    }
}
