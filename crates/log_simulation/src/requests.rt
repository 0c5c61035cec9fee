ghost use Rattle.std.specs.Prelude.{◌≡◌, ◌==◌, ◌&&◌, ◌+◌, ◌<◌, ◌≤◌, ◌^◌, length, not};
ghost use Rattle.lowering.specs.Layout.{layout_of};
ghost use Rattle.words.specs.Limits.{most_threads};
ghost use Rattle.words.specs.Process.{number_of, process_word};
ghost use Rattle.machine.specs.States.{state_of};
ghost use Rattle.machine.specs.Views.{concrete};
ghost use Rattle.program.specs.Trees.{Program};
ghost use Rattle.proof_simulation.specs.Kills.{linked_monitor};
ghost use Rattle.proof_simulation.specs.Ordering.{completes_exit, is_link_word, is_lock_word, is_process_word};
ghost use Rattle.protocol.specs.Word.{owner};
ghost use Rattle.log_simulation.specs.Requests.{raises, visible_request, visible_step};

use layout::Layout;
use locals::{NextStep, Request};
use machine::Machine;
use robustexit::ExitPhase;
use words::{Addr, ImageVersion, MOST_THREADS, ProcessWord, block, tid};

// Whether the address is that of this word of some process, in an image of this version.
fn is_of_process(version: ImageVersion, address: Addr, word: ProcessWord) -> bool
    ensures { (p : Program) → version ≡ p.version
        → result ≡ is_process_word p (number_of word) address.0 }
{
    address.0 > 0 && address.0 < version.monitors_base() && (address.0 - 1) % 6 == word as u32
}

// Whether the address is that of a monitor's link word.
fn is_link(layout: &Layout, monitors: u32, address: Addr) -> bool
    ensures { (p : Program) → layout.now ≡ layout_of p → monitors ≡ length p.monitors
        → result ≡ is_link_word p address.0 }
{
    for monitor in 0..monitors {
        if layout.link(monitor) == address.0 {
            return true;
        }
    }
    false
}

// Whether the address is that of a monitor's lock word.
fn is_lock(layout: &Layout, monitors: u32, address: Addr) -> bool
    ensures { (p : Program) → layout.now ≡ layout_of p → monitors ≡ length p.monitors
        → result ≡ is_lock_word p address.0 }
{
    for monitor in 0..monitors {
        if layout.link(monitor) + 1 == address.0 {
            return true;
        }
    }
    false
}

// Whether a store is into a variable: not into a list head, a pending word or a link word.
fn is_variable(version: ImageVersion, layout: &Layout, monitors: u32, address: Addr) -> bool
    ensures { (p : Program) → version ≡ p.version → layout.now ≡ layout_of p → monitors ≡ length p.monitors
        → result ≡ (not (is_process_word p 0 address.0) && not (is_process_word p 1 address.0)
        && not (is_link_word p address.0)) }
{
    !is_of_process(version, address, ProcessWord::Head)
        && !is_of_process(version, address, ProcessWord::Pending)
        && !is_link(layout, monitors, address)
}

// Whether the answer to a request is that of a visible action.
fn completes(
    version: ImageVersion,
    layout: &Layout,
    monitors: u32,
    request: Request,
    value: u32,
) -> bool
    ensures { (p : Program) → version ≡ p.version → layout.now ≡ layout_of p → monitors ≡ length p.monitors
        → result ≡ visible_request p request value }
{
    match request {
        Request::CompareSwap { expected, .. } => value == expected && tid(expected) == 0,
        Request::Swap(_, new) => new == 0 || value == 0,
        Request::Load(address) => is_of_process(version, address, ProcessWord::Id) && value == 0,
        Request::Store(address, _) => is_variable(version, layout, monitors, address),
        Request::Wake { address, .. } => !is_lock(layout, monitors, address),
        Request::FetchAdd(_, added) => added != 1,
        Request::Requeue { .. } | Request::Print(_) => true,
        _ => false,
    }
}

// The word at an address, 0 where the memory has none.
fn word_at(machine: &Machine, address: Addr) -> u32
    ensures { result ≡ (state_of (concrete machine.now)).word address.0 }
{
    if address.0 as usize >= machine.memory_len() {
        return 0;
    }
    machine.word(address)
}

/// The pending word of thread `t`.
pub fn pending_word(machine: &Machine, t: u32) -> u32
    ensures { 0 < t → t ≤ most_threads
        → result ≡ (state_of (concrete machine.now)).word (process_word t 1) }
{
    if t == 0 || t > MOST_THREADS {
        return 0;
    }
    word_at(machine, block(t, ProcessWord::Pending))
}

/// Whether thread `t` owns the lock of its pending entry, if it has one.
pub fn owns_pending(machine: &Machine, t: u32) -> bool
    ensures { let word = (state_of (concrete machine.now)).word in 0 < t → t ≤ most_threads
        → length machine.now.words < 2 ^ 32
        → result ≡ (not (word (process_word t 1) == 0)
        && (owner (word (word (process_word t 1) + 1)) == t)) }
{
    let pending = pending_word(machine, t);
    if pending == 0 || pending == u32::MAX {
        return false;
    }
    tid(word_at(machine, Addr(pending + 1))) == t
}

// Whether the next step of the exit of thread `t` is a visible action.
fn abandons(machine: &Machine, t: u32, phase: ExitPhase) -> bool
    ensures { 0 < t → t ≤ most_threads → length machine.now.words < 2 ^ 32
        → result ≡ completes_exit (state_of (concrete machine.now)).word t phase }
{
    match phase {
        ExitPhase::Entry { entry, .. } => pending_word(machine, t) != entry.0,
        ExitPhase::Pending => owns_pending(machine, t),
        ExitPhase::ClearId => true,
        ExitPhase::LastWake | ExitPhase::Ended => false,
    }
}

/// Whether the step of thread `t` that comes to this, with this value in its event, is a visible action of its process,
/// in a program's image of this version. It is asked before the step.
pub fn is_visible(
    version: ImageVersion,
    layout: &Layout,
    monitors: u32,
    machine: &Machine,
    t: u32,
    step: NextStep,
    value: u32,
) -> bool
    ensures { (p : Program) → version ≡ p.version → layout.now ≡ layout_of p → monitors ≡ length p.monitors
        → 0 < t → t ≤ most_threads → length machine.now.words < 2 ^ 32
        → result ≡ visible_step p (state_of (concrete machine.now)).word t step value }
{
    match step {
        NextStep::Shared(request) => completes(version, layout, monitors, request, value),
        NextStep::Fork { .. } => value != 0,
        NextStep::Exit(phase) => abandons(machine, t, phase),
        _ => false,
    }
}

/// Whether a thread that comes to this raises the number of a condition's word.
pub fn is_raise(step: NextStep) -> bool
    ensures { result ≡ raises step }
{
    match step {
        NextStep::Shared(Request::FetchAdd(_, added)) => added == 1,
        _ => false,
    }
}

/// The monitor whose link word has this address, if one has.
pub fn linked_monitor(layout: &Layout, monitors: u32, address: u32) -> Option<u32>
    ensures { (p : Program) → layout.now ≡ layout_of p → result ≡ linked_monitor p address monitors }
{
    let mut found = None;
    for monitor in 0..monitors {
        if layout.link(monitor) == address {
            found = Some(monitor);
        }
    }
    found
}
