ghost use Rattle.std.specs.Prelude.{◌≡◌, ℕ, IfSome, None, true, false};
ghost use Rattle.words.specs.declared.outcome.Fault.{Fault as FaultOf};
ghost use Rattle.machine.specs.Views.{concrete};
ghost use Rattle.schedules.specs.Failing.{FailsBy, HasAborted, HasFaulted, fault_in};
ghost use Rattle.schedules.specs.declared.failing.RunFailure.{RunFailure as FailureOf};

use machine::{Entry, EventName, Machine};
use packed_log::LogReader;
use runner::{Report, Verdict};
use words::{Cause, Fault, Outcome};

/// What a run fails by.
#[derive(Clone, Copy, PartialEq, Eq, Debug)]
pub enum RunFailure {
    /// Not all threads have ended, and none can move.
    Stuck,
    /// A thread aborted by a fault. One that was killed from outside did not.
    Aborted {
        /// Its number.
        thread: u32,
        /// The fault.
        fault: Fault,
    },
}

/// What a run fails by: that it is stuck, or else that a thread aborted by its fault, of several the one that died first.
/// None where it doesn't fail.
pub fn failure_of(report: &Report) -> Option<RunFailure>
    ensures some { IfSome result (λ f. FailsBy report.now f) }
    ensures none { result ≡ None → (f : FailureOf) → FailsBy report.now f → ⊥ }
{
    if is_stuck(report.verdict) {
        return Some(RunFailure::Stuck);
    }
    let machine = report.last.machine();
    if let Some((thread, fault)) = first_to_die(machine, report.log.iter()) {
        return Some(RunFailure::Aborted { thread, fault });
    }
    match first_fault(machine) {
        Some((thread, fault)) => Some(RunFailure::Aborted { thread, fault }),
        None => None,
    }
}

fn is_stuck(verdict: Verdict) -> bool
    ensures stuck { result ≡ true → verdict ≡ Verdict.Stuck }
    ensures other { result ≡ false → verdict ≡ Verdict.Stuck → ⊥ }
{
    matches!(verdict, Verdict::Stuck)
}

// The thread that aborted by a fault and died before the others that did, as the log has it, with its fault.
fn first_to_die(last: &Machine, log: LogReader<'_>) -> Option<(u32, Fault)>
    ensures { IfSome result (λ f. HasFaulted (concrete last.now) f.0 f.1) }
{
    for entry in log {
        if let Some(fault) = fault_at(last, &entry) {
            return Some((entry.thread, fault));
        }
    }
    None
}

// The fault by which the thread of an entry aborted, where it died there.
fn fault_at(last: &Machine, entry: &Entry) -> Option<Fault>
    ensures { IfSome result (λ fault. HasFaulted (concrete last.now) entry.now.thread fault) }
{
    if dies(entry) && entry.thread >= 1 && entry.thread <= last.threads() {
        fault_in(last.outcome(entry.thread))
    } else {
        None
    }
}

// Whether a thread dies at an entry.
fn dies(entry: &Entry) -> bool {
    match entry.event {
        Some(event) => event.name == EventName::Die,
        None => false,
    }
}

// The first thread that aborted by a fault, with that one.
fn first_fault(last: &Machine) -> Option<(u32, Fault)>
    ensures some { IfSome result (λ f. HasFaulted (concrete last.now) f.0 f.1) }
    ensures none { result ≡ None → (t : ℕ) (fault : FaultOf)
        → HasFaulted (concrete last.now) t fault → ⊥ }
{
    for before in 0..last.threads() {
        let thread = before + 1;
        if let Some(fault) = fault_in(last.outcome(thread)) {
            return Some((thread, fault));
        }
    }
    None
}

// The fault by which a thread with this outcome aborted.
fn fault_in(outcome: Outcome) -> Option<Fault>
    ensures { result ≡ fault_in outcome }
{
    match outcome {
        Outcome::Aborted(Cause::Faulted(fault)) => Some(fault),
        _ => None,
    }
}

/// Whether a run that left this report fails so.
pub(crate) fn fails_by(report: &Report, failure: RunFailure) -> bool
    ensures fails { result ≡ true → FailsBy report.now failure }
    ensures other { result ≡ false → FailsBy report.now failure → ⊥ }
{
    match failure {
        RunFailure::Stuck => is_stuck(report.verdict),
        RunFailure::Aborted { .. } => has_aborted(report.last.machine(), failure),
    }
}

/// Whether a thread has aborted so.
pub(crate) fn has_aborted(machine: &Machine, failure: RunFailure) -> bool
    ensures aborted { result ≡ true → HasAborted (concrete machine.now) failure }
    ensures other { result ≡ false → HasAborted (concrete machine.now) failure → ⊥ }
{
    match failure {
        RunFailure::Stuck => false,
        RunFailure::Aborted { thread, fault } => has_faulted(machine, thread, fault),
    }
}

fn has_faulted(machine: &Machine, thread: u32, fault: Fault) -> bool
    ensures faulted { result ≡ true → HasFaulted (concrete machine.now) thread fault }
    ensures other { result ≡ false → HasFaulted (concrete machine.now) thread fault → ⊥ }
{
    let made = machine.threads();
    if thread < 1 {
        return false;
    }
    if thread > made {
        return false;
    }
    match fault_in(machine.outcome(thread)) {
        Some(other) => is_same(other, fault),
        None => false,
    }
}

fn is_same(a: Fault, b: Fault) -> bool
    ensures same { result ≡ true → a ≡ b }
    ensures other { result ≡ false → a ≡ b → ⊥ }
{
    a == b
}
