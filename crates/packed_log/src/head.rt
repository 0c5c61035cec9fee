//! The head of an entry, as the crate's page has its bits.
ghost use Rattle.std.specs.Prelude.{◌≡◌, ◌+◌, ◌≤◌, Some, length, take, drop, MatchBool, option_copied};
ghost use Rattle.machine.specs.ConcreteServing.{plain};
ghost use Rattle.packed_log.specs.Packing.{entry_of, event_of, form_of as form_in, kind_in, name_of, set_at as set_in};
ghost use Rattle.packed_log.specs.Packing.{sets_in, widened, words_of as words_in};
ghost use Rattle.packed_log.specs.Views.{IsHeadOf, IsWhole, HasHead, Woke};

use crate::names::{name_at, number_of};
use crate::wide_head::WideHead;
use machine::{Entry, Event, EventName, ThreadSet};

// The lowest bit of each part but the first.
const LOCAL: u64 = 1 << 10;

const KIND: u64 = 1 << 19;

const WOKEN: u64 = 1 << 24;

const MOVED: u64 = 1 << 26;

const VALUE: u64 = 1 << 28;

const END: u64 = 1 << 60;

// The forms of a set that isn't empty.
const SINGLE: u64 = 1;

const SEVERAL: u64 = 2;

// The words of a set of several threads.
const WORDS: usize = 16;

/// Whether a thread and its local steps have room in a head.
pub fn has_head(thread: u32, local: u32) -> bool
    ensures { MatchBool result (HasHead thread local) (HasHead thread local → ⊥) }
{
    u64::from(thread) < LOCAL && u64::from(local) < KIND / LOCAL
}

/// The head of the entry of a thread, its local steps, which have room in one, and its shared step, if it has one.
#[inline(always)]
pub fn head_of(thread: u32, local: u32, event: Option<&Event>) -> u64
    requires { HasHead thread local }
    ensures { IsHeadOf (record { thread = thread; local = local; event = option_copied event.entry }) (widened result) }
{
    let turn = u64::from(thread) + u64::from(local) * LOCAL;
    match event {
        None => turn,
        Some(event) => {
            // Read by itself, where its type tells its bound.
            let value = event.value;
            turn + number_of(event.name) * KIND
                + form_of(&event.woken) * WOKEN
                + form_of(&event.moved) * MOVED
                + u64::from(value) * VALUE
        }
    }
}

/// The same where the shared step, of this kind and value, woke and moved nobody.
#[inline(always)]
pub fn plain_head(thread: u32, local: u32, name: EventName, value: u32) -> u64
    requires { HasHead thread local }
    ensures { IsHeadOf (record { thread = thread; local = local; event = Some (plain name value) }) (widened result) }
{
    u64::from(thread) + u64::from(local) * LOCAL + number_of(name) * KIND + u64::from(value) * VALUE
}

/// The head of any entry, with its thread and its local steps beside it.
pub fn wide_head_of(thread: u32, local: u32, event: Option<&Event>) -> WideHead
    ensures { IsHeadOf (record { thread = thread; local = local; event = option_copied event.entry }) result }
{
    WideHead {
        thread,
        local,
        head: head_of(0, 0, event),
    }
}

/// The same where the shared step, of this kind and value, woke and moved nobody.
pub fn wide_plain_head(thread: u32, local: u32, name: EventName, value: u32) -> WideHead
    ensures { IsHeadOf (record { thread = thread; local = local; event = Some (plain name value) }) result }
{
    WideHead {
        thread,
        local,
        head: plain_head(0, 0, name, value),
    }
}

/// A head with the thread and the local steps that it says beside it.
pub fn widen(head: u64) -> WideHead
    ensures { result ≡ widened head }
{
    WideHead {
        thread: (head % LOCAL) as u32,
        local: (head / LOCAL % (KIND / LOCAL)) as u32,
        head,
    }
}

// The form of a set. What it holds is looked at, so that callers learn what its type says of it.
#[inline(always)]
fn form_of(set: &ThreadSet) -> u64
    ensures form { result ≡ form_in set.now }
    ensures whole { IsWhole set.now }
{
    match set {
        ThreadSet::Nobody => 0,
        ThreadSet::Single(thread) => {
            let _thread = *thread;
            SINGLE
        }
        ThreadSet::Several(words) => form_of_several(words),
    }
}

// The form of a set of several threads.
fn form_of_several(words: &[u64; WORDS]) -> u64
    ensures form { result ≡ 2 }
    ensures whole { length words.now ≡ 16 }
{
    let _words = words.len();
    SEVERAL
}

/// The entry of a head, where these are the words of its sets and of those that follow.
pub fn entry_at(wide: WideHead, sets: &[u64]) -> Entry
    requires { sets_in wide.head ≤ length sets.now }
    ensures { result ≡ entry_of wide sets.now }
{
    Entry {
        thread: wide.thread,
        local: wide.local,
        event: event_at(wide.head, sets),
    }
}

// The step of such an entry, where it has one.
fn event_at(head: u64, sets: &[u64]) -> Option<Event>
    requires { sets_in head ≤ length sets.now }
    ensures { result ≡ event_of (name_of (kind_in head)) head sets.now }
{
    let name = name_at(head / KIND % (WOKEN / KIND))?;
    let woken = head / WOKEN % (MOVED / WOKEN);
    let moved = head / MOVED % (VALUE / MOVED);
    Some(Event {
        name,
        value: (head / VALUE % (END / VALUE)) as u32,
        woken: set_at(woken, sets, 0),
        moved: set_at(moved, sets, words_of(woken)),
    })
}

/// The kind of such an entry's step, where it has one. The threads that it woke are put in their place.
pub fn woken_at(head: u64, sets: &[u64], woken: &mut ThreadSet) -> Option<EventName>
    requires { sets_in head ≤ length sets.now }
    ensures { Woke (event_of (name_of (kind_in head)) head sets.now) result woken.new }
{
    let name = name_at(head / KIND % (WOKEN / KIND));
    if name.is_none() {
        woken.clear();
        return None;
    }
    put_set(head / WOKEN % (MOVED / WOKEN), sets, woken);
    name
}

// Puts the set of this form whose words come first in its place. No more is written than must be.
fn put_set(form: u64, words: &[u64], set: &mut ThreadSet)
    requires { words_in form ≤ length words.now }
    ensures { set.new ≡ set_in form words.now 0 }
{
    match form {
        SINGLE | SEVERAL => *set = set_at(form, words, 0),
        _ => set.clear(),
    }
}

// The set of this form whose words stand at a place.
fn set_at(form: u64, words: &[u64], place: usize) -> ThreadSet
    requires { place + words_in form ≤ length words.now }
    ensures { result ≡ set_in form words.now place }
{
    match form {
        SINGLE => ThreadSet::Single((words[place] % (1 << 32)) as u32),
        SEVERAL => ThreadSet::Several(several_at(words, place)),
        _ => ThreadSet::Nobody,
    }
}

// The words of a set of several threads.
fn several_at(words: &[u64], place: usize) -> [u64; WORDS]
    requires { place + 16 ≤ length words.now }
    ensures { result ≡ take 16 (drop place words.now) }
{
    let mut several = [0; WORDS];
    several.copy_from_slice(&words[place..place + WORDS]);
    several
}

// How many words a set of this form has.
fn words_of(form: u64) -> usize
    ensures { result ≡ words_in form }
{
    match form {
        SINGLE => 1,
        SEVERAL => WORDS,
        _ => 0,
    }
}

/// How many words of sets stand beside a head.
pub fn sets_beside(head: u64) -> usize
    ensures { result ≡ sets_in head }
{
    words_of(head / WOKEN % (MOVED / WOKEN)) + words_of(head / MOVED % (VALUE / MOVED))
}
