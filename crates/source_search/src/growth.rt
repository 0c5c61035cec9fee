ghost use Rattle.std.specs.Prelude.{◌≡◌, ◌≤◌, ◌++◌, All, Contains, IfOk, IfSome, List, None, OnOk, Some, length, map, suc, true, ℕ};
ghost use Rattle.std.specs.List.{flat_map, slice_get};
ghost use Rattle.source_search.specs.Counting.{AreNumbersOf, listed, part_at, value_in, variables_number};
ghost use Rattle.source_search.specs.Growth.{AreSoMany, HasGrown, HasStood, HasTaken, HaveStood, places_in};
ghost use Rattle.source_search.specs.Kept.{IsSound, states_in, states_of};
ghost use Rattle.source_search.specs.Packed.{IsWithin};
ghost use Rattle.source_search.specs.declared.growth.Taken.{Taken as TakenOf};
ghost use Rattle.source_search.specs.declared.packed.Packed.{Packed as PackedOf};

use crate::kept::Kept;
use crate::living::most_made;
use crate::packed::Packed;
use crate::parts::Parts;
use source_offers::{Place, Variables};
use std::alloc::{AllocError, Global};

/// How many values a variable took in the states that a search kept.
#[derive(Clone, Copy)]
pub struct Taken {
    /// The variable.
    pub place: Place,
    /// How many values it took.
    pub values: usize,
}

/// What grew in a search that wasn't complete: what a user may make smaller.
#[derive(Drop)]
pub struct Growth {
    /// Of each variable that was asked for, how many values it took.
    pub variables: Vec<Taken>,
    /// Of each process, by its number from 1, in how many ways it stood at most: at how many places, each with how many
    /// values of its locals.
    pub processes: Vec<usize>,
}

// These numbers, each once.
fn numbers_once(numbers: Vec<u32>) -> Vec<u32>
    ensures all { (n : ℕ) → Contains numbers.items n → Contains result.items n }
    ensures only { (n : ℕ) → Contains result.items n → Contains numbers.items n }
{
    let mut once = numbers;
    once.sort_unstable();
    once.dedup();
    once
}

// How many different values are among these.
fn count_values(values: Vec<i64>) -> usize
    ensures { AreSoMany values.items result }
{
    let mut once = values;
    once.sort_unstable();
    once.dedup();
    once.len()
}

// The numbers of the values of the variables of each of these states.
fn variables_numbers(alloc: Global, states: &[Packed]) -> Result<Vec<u32>, AllocError>
    ensures { IfOk result (λ v. v.items ≡ map variables_number states.now) }
{
    let mut numbers = Vec::with_capacity(alloc, states.len())?;
    for packed in states {
        numbers.push(packed.variables)?;
    }
    Ok(numbers)
}

// Those numbers, each once.
fn used_variables(alloc: Global, states: &[Packed]) -> Result<Vec<u32>, AllocError>
    ensures { IfOk result (λ v. AreNumbersOf states.now v.items) }
{
    let numbers = variables_numbers(alloc, states)?;
    Ok(numbers_once(numbers))
}

// The value of a variable in the values of this number; 0 where there are none.
fn value_in(variables: &[Variables], number: u32, place: Place) -> i64
    ensures { result ≡ value_in variables.now place number }
{
    match variables.get(number as usize) {
        None => 0,
        Some(values) => values.get(place),
    }
}

// The values of a variable in the values of these numbers.
fn values_in(
    alloc: Global,
    variables: &[Variables],
    numbers: &[u32],
    place: Place,
) -> Result<Vec<i64>, AllocError>
    ensures { IfOk result (λ v. v.items ≡ map (value_in variables.now place) numbers.now) }
{
    let mut values = Vec::with_capacity(alloc, numbers.len())?;
    for number in numbers {
        values.push(value_in(variables, *number, place))?;
    }
    Ok(values)
}

// How many values a variable took in states of these parts, whose values of the variables have these numbers.
fn count_taken(
    alloc: Global,
    parts: &Parts<'_>,
    numbers: &[u32],
    place: Place,
) -> Result<Taken, AllocError>
    ensures place { IfOk result (λ t. t.place ≡ place) }
    ensures taken { IfOk result (λ t. (states : List PackedOf) → AreNumbersOf states numbers.now
        → HasTaken (states_in parts.now states) t) }
{
    let values = values_in(alloc, parts.variables.as_slice(), numbers, place)?;
    let count = count_values(values);
    Ok(Taken {
        place,
        values: count,
    })
}

// How many values each of these variables took in states of these parts, whose values of the variables have these
// numbers.
fn count_all_taken(
    alloc: Global,
    parts: &Parts<'_>,
    numbers: &[u32],
    places: &[Place],
) -> Result<Vec<Taken>, AllocError>
    ensures places { IfOk result (λ v. map (λ (t : TakenOf). t.place) v.items ≡ places.now) }
    ensures taken { IfOk result (λ v. (states : List PackedOf) → AreNumbersOf states numbers.now
        → All (HasTaken (states_in parts.now states)) v.items) }
{
    let mut all = Vec::with_capacity(alloc, places.len())?;
    for place in places {
        let taken = count_taken(alloc, parts, numbers, *place)?;
        all.push(taken)?;
    }
    Ok(all)
}

// Appends a number, where there is one.
fn push_some(numbers: &mut Vec<u32>, number: Option<u32>) -> Result<(), AllocError>
    ensures { OnOk result (numbers.new.items ≡ numbers.old.items ++ listed number) }
{
    if let Some(number) = number {
        numbers.push(number)?;
    }
    Ok(())
}

// The number of the part of the process at this place of a state, where there is one.
fn part_of(packed: &Packed, place: usize) -> Option<u32>
    ensures { result ≡ slice_get packed.now.processes.items place }
{
    packed.processes.get(place).copied()
}

// The number of the part of the process at this place of each of these states that has one.
fn parts_at(alloc: Global, states: &[Packed], place: usize) -> Result<Vec<u32>, AllocError>
    ensures { IfOk result (λ v. v.items ≡ flat_map (part_at place) states.now) }
{
    let mut numbers = Vec::new(alloc);
    for packed in states {
        push_some(&mut numbers, part_of(packed, place))?;
    }
    Ok(numbers)
}

// In how many ways the process at this place stood in these states.
fn count_ways(
    alloc: Global,
    parts: &Parts<'_>,
    states: &[Packed],
    place: usize,
) -> Result<usize, AllocError>
    requires { All (IsWithin parts.now) states.now }
    ensures { IfOk result (HasStood (states_in parts.now states.now) (suc place)) }
{
    let numbers = parts_at(alloc, states, place)?;
    let once = numbers_once(numbers);
    Ok(once.len())
}

// In how many ways each process stood in these states, each of which has so many processes at most.
fn count_all_ways(
    alloc: Global,
    parts: &Parts<'_>,
    states: &[Packed],
    most: usize,
) -> Result<Vec<usize>, AllocError>
    requires within { All (IsWithin parts.now) states.now }
    requires few { All (λ x. length x.processes.items ≤ most) states.now }
    ensures { IfOk result (λ v. HaveStood (states_in parts.now states.now) v.items) }
{
    let mut counts = Vec::with_capacity(alloc, most)?;
    for place in 0..most {
        let ways = count_ways(alloc, parts, states, place)?;
        counts.push(ways)?;
    }
    Ok(counts)
}

// What grew in the kept states.
fn growth_of(alloc: Global, kept: &Kept<'_>, places: &[Place]) -> Result<Growth, AllocError>
    requires { IsSound kept.now }
    ensures grown { IfOk result (HasGrown (states_of kept.now)) }
    ensures places { IfOk result (λ g. places_in g ≡ places.now) }
{
    let states = kept.states.as_slice();
    let numbers = used_variables(alloc, states)?;
    let variables = count_all_taken(alloc, &kept.parts, numbers.as_slice(), places)?;
    let processes = count_all_ways(alloc, &kept.parts, states, most_made(states))?;
    Ok(Growth {
        variables,
        processes,
    })
}

/// What grew in the kept states, where that is asked for and the search wasn't complete; none where there is no memory to
/// count it.
pub(crate) fn growth_if(
    alloc: Global,
    kept: &Kept<'_>,
    places: Option<&[Place]>,
    complete: bool,
) -> Option<Growth>
    requires { IsSound kept.now }
    ensures grown { IfSome result (HasGrown (states_of kept.now)) }
    ensures places { IfSome result (λ g. IfSome places.entry (λ xs. places_in g ≡ xs.now)) }
    ensures asked { places.entry ≡ None → result ≡ None }
    ensures incomplete { complete ≡ true → result ≡ None }
{
    if complete {
        return None;
    }
    match places {
        None => None,
        Some(places) => growth_of(alloc, kept, places).ok(),
    }
}
