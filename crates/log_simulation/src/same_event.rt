ghost use Rattle.std.specs.Prelude.{◌≡◌, ◌≢◌, MatchBool};

use machine::{Event, ThreadSet};

// Whether two sets are the same.
fn same_set(a: &ThreadSet, b: &ThreadSet) -> bool
    ensures { MatchBool result (a.now ≡ b.now) (a.now ≢ b.now) }
{
    match (a, b) {
        (ThreadSet::Nobody, ThreadSet::Nobody) => true,
        (ThreadSet::Single(a), ThreadSet::Single(b)) => a == b,
        (ThreadSet::Several(a), ThreadSet::Several(b)) => a == b,
        _ => false,
    }
}

/// Whether two events are the same.
pub fn same_event(a: &Event, b: &Event) -> bool
    ensures { MatchBool result (a.now ≡ b.now) (a.now ≢ b.now) }
{
    a.name == b.name
        && a.value == b.value
        && same_set(&a.woken, &b.woken)
        && same_set(&a.moved, &b.moved)
}
