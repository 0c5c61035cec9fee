ghost use Rattle.std.specs.Prelude.{◌≡◌, ◌<◌, ◌≤◌, IfOk, false, true, ℕ};
ghost use Rattle.machine.specs.States.{state_of};
ghost use Rattle.machine.specs.Views.{address_of, concrete};
ghost use Rattle.image_states.specs.Nexts.{may_of};
ghost use Rattle.image_states.specs.Crowds.{IsCrowded, counted, sleepers_on};
ghost use Rattle.image_search.specs.Found.{EndsCrowded, LeadsTo};

use crate::shown::no_run;
use crate::turns::are_from;
use image_states::Outside;
use isa::Image;
use machine::Machine;
use runner::{Report, Turn, follow};
use std::alloc::{AllocError, Global};
use words::Addr;

// Whether there are more than those of which each choice is tried.
fn is_many(count: usize) -> bool
    ensures { result ≡ true → 12 < count }
{
    count > 12
}

// 1 where this is so.
fn one_if(is: bool) -> usize
    ensures yes { is ≡ true → result ≡ 1 }
    ensures no { is ≡ false → result ≡ 0 }
{
    if is { 1 } else { 0 }
}

// 1 where a thread sleeps on this address.
fn counted(place: Option<Addr>, a: Addr) -> usize
    ensures is { result ≡ counted (address_of place) a.0 }
    ensures few { result ≤ 1 }
{
    let Some(other) = place else {
        return 0;
    };
    one_if(other.0 == a.0)
}

// How many threads of a machine sleep on an address.
fn sleepers_in(machine: &Machine, a: Addr) -> usize
    ensures { (n : ℕ) × (result ≡ sleepers_on (state_of (concrete machine.now)).asleep a.0 n) }
{
    let mut count: usize = 0;
    for before in 0..machine.threads() {
        let one = counted(machine.asleep(before + 1), a);
        count += one;
    }
    count
}

// Whether more than twelve sleep where some thread does.
fn is_crowded_at(machine: &Machine, place: Option<Addr>) -> bool
    ensures { result ≡ true → IsCrowded (state_of (concrete machine.now)).asleep }
{
    let Some(a) = place else {
        return false;
    };
    let count = sleepers_in(machine, a);
    is_many(count)
}

// Whether more than twelve threads of a machine sleep on one address.
fn is_crowded(machine: &Machine) -> bool
    ensures { result ≡ true → IsCrowded (state_of (concrete machine.now)).asleep }
{
    for before in 0..machine.threads() {
        if is_crowded_at(machine, machine.asleep(before + 1)) {
            return true;
        }
    }
    false
}

// The same of where a run has come to.
fn has_crowd(report: &Report) -> bool
    ensures { result ≡ true → EndsCrowded report.now }
{
    is_crowded(report.last.machine())
}

/// Whether a schedule in which no more comes from outside than may be is followed to where more than twelve threads sleep on
/// one address.
pub(crate) fn is_crowded_run(
    alloc: Global,
    image: &Image,
    turns: &[Turn],
    outside: Outside,
) -> Result<bool, AllocError>
    ensures { IfOk result (λ is. is ≡ true
        → LeadsTo image.now (may_of outside) EndsCrowded turns.now) }
{
    if !are_from(turns, outside) {
        return Ok(false);
    }
    match follow(alloc, image, turns) {
        Ok(report) => Ok(has_crowd(&report)),
        Err(fault) => no_run(fault),
    }
}
