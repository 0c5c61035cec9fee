ghost use Rattle.std.specs.Prelude.{◌≡◌, IfOk, IfSome, List, MatchOption, None, OnOk, false, length, true};
ghost use Rattle.program.specs.Trees.{Program as ProgramOf};
ghost use Rattle.program.specs.Views.{program_of};
ghost use Rattle.proof_exploration.specs.Exploring.{IsStuck};
ghost use Rattle.meaning.specs.States.{SourceState as SourceStateOf, opening};
ghost use Rattle.source_search.specs.Blocking.{IsTold};
ghost use Rattle.source_search.specs.Bounds.{AreAll, HasSearched, IsMet};
ghost use Rattle.source_search.specs.Ending.{IsEndTold};
ghost use Rattle.source_search.specs.Found.{HasFailed, LeadsNowhere, LeadsTo, interleaves};
ghost use Rattle.source_search.specs.Growth.{places_in};
ghost use Rattle.source_search.specs.declared.outside.Outside.{Outside as OutsideOf};
ghost use Rattle.source_search.specs.Kept.{IsSeen, IsSound, states_of};

use crate::asked::Asked;
use crate::blocking::{Blocked, look_for_resting, told_blocked};
use crate::bounds::Bound;
use crate::ending::{Ending, look_for_lost, told_ending};
use crate::ends::{has_failed, is_stuck};
use crate::growth::{Growth, growth_if};
use crate::kept::Kept;
use crate::outside::{Outside, are_from};
use crate::progress::Progress;
use crate::replay::actions_to;
use crate::search::{Findings, search};
use program::Checked;
use source_offers::Place;
use source_states::{Action, SourceState, accepts};
use std::alloc::{AllocError, Global};
use words::ImageVersion;

/// What a search over all runs of a program found.
#[derive(Drop)]
pub struct Exploration {
    /// How many states were kept.
    pub states: usize,
    /// Whether the search came to its end, so that all states were kept, and what was found is told.
    pub complete: bool,
    /// A run at whose end no process can move and not all are over, where one was found.
    pub stuck: Option<Vec<Action>>,
    /// A run at whose end some process has aborted, and not of a kill where kills are searched, where one was found.
    pub aborted: Option<Vec<Action>>,
    /// A run at whose end some processes are blocked for good, where it was looked for and found.
    pub blocked: Blocked,
    /// A run that can't end any more, where it was asked for, looked for and found.
    pub ending: Ending,
    /// Why the search wasn't complete, where it wasn't.
    pub bound: Option<Bound>,
    /// What grew in the kept states, where it was asked for and the search ended early; none where there was no memory to
    /// count it.
    pub growth: Option<Growth>,
}

// Whether these are a run of actions that are searched, at whose end no process can move and not all are over.
fn is_stuck_run(
    alloc: Global,
    checked: &Checked,
    actions: &[Action],
    outside: Outside,
) -> Result<bool, AllocError>
    ensures { IfOk result (λ is. is ≡ true → LeadsTo (program_of checked.now.tree) outside
        (IsStuck (program_of checked.now.tree)) actions.now) }
{
    if !are_from(actions, outside) {
        return Ok(false);
    }
    let walked = accepts(alloc, checked, actions)?;
    match walked {
        None => Ok(false),
        Some(state) => {
            let stuck = is_stuck(alloc, checked, &state)?;
            Ok(stuck)
        }
    }
}

// Whether these are a run of actions that are searched, at whose end some process has aborted.
fn is_aborted_run(
    alloc: Global,
    checked: &Checked,
    actions: &[Action],
    outside: Outside,
) -> Result<bool, AllocError>
    ensures { IfOk result (λ is. is ≡ true
        → LeadsTo (program_of checked.now.tree) outside (HasFailed outside) actions.now) }
{
    if !are_from(actions, outside) {
        return Ok(false);
    }
    let walked = accepts(alloc, checked, actions)?;
    match walked {
        None => Ok(false),
        Some(state) => {
            let aborted = has_failed(alloc, &state, outside)?;
            Ok(aborted)
        }
    }
}

// A run to the kept state at this place, in which no process can move.
fn stuck_run<'a>(
    alloc: Global,
    checked: &'a Checked,
    kept: &mut Kept<'a>,
    place: Option<usize>,
    outside: Outside,
) -> Result<Option<Vec<Action>>, AllocError>
    ensures { IfOk result (λ o. IfSome o (λ v. LeadsTo (program_of checked.now.tree) outside
        (IsStuck (program_of checked.now.tree)) v.items)) }
{
    let Some(place) = place else {
        return Ok(None);
    };
    let actions = actions_to(alloc, checked, kept, place, outside)?;
    let listed = actions.as_slice();
    if is_stuck_run(alloc, checked, listed, outside)? {
        return Ok(Some(actions));
    }
    Ok(None)
}

// A run to the kept state at this place, in which some process has aborted.
fn aborted_run<'a>(
    alloc: Global,
    checked: &'a Checked,
    kept: &mut Kept<'a>,
    place: Option<usize>,
    outside: Outside,
) -> Result<Option<Vec<Action>>, AllocError>
    ensures { IfOk result (λ o. IfSome o
        (λ v. LeadsTo (program_of checked.now.tree) outside (HasFailed outside) v.items)) }
{
    let Some(place) = place else {
        return Ok(None);
    };
    let actions = actions_to(alloc, checked, kept, place, outside)?;
    let listed = actions.as_slice();
    if is_aborted_run(alloc, checked, listed, outside)? {
        return Ok(Some(actions));
    }
    Ok(None)
}

// What a search found, as runs.
#[derive(Drop)]
struct Told {
    // A run at whose end no process can move.
    stuck: Option<Vec<Action>>,
    // A run at whose end some process has aborted.
    aborted: Option<Vec<Action>>,
}

// The runs to what was found, as far as they are told.
fn runs_found<'a>(
    alloc: Global,
    checked: &'a Checked,
    kept: &mut Kept<'a>,
    findings: &Findings,
    outside: Outside,
) -> Result<Told, AllocError>
    ensures stuck { IfOk result (λ t. IfSome t.stuck (λ v. LeadsTo (program_of checked.now.tree) outside
        (IsStuck (program_of checked.now.tree)) v.items)) }
    ensures aborted { IfOk result (λ t. IfSome t.aborted
        (λ v. LeadsTo (program_of checked.now.tree) outside (HasFailed outside) v.items)) }
{
    let stuck = stuck_run(alloc, checked, kept, findings.stuck, outside)?;
    let aborted = aborted_run(alloc, checked, kept, findings.aborted, outside)?;
    Ok(Told { stuck, aborted })
}

// Whether what was found is told, where anything was.
fn is_told(place: Option<usize>, run: &Option<Vec<Action>>) -> bool
    ensures { result ≡ true → run.now ≡ None → place ≡ None }
{
    place.is_none() || run.is_some()
}

// Whether the first state was kept, the search came to its end, and what it found is told.
fn is_complete(opens: bool, findings: &Findings, told: &Told) -> bool
    ensures opens { result ≡ true → opens ≡ true }
    ensures complete { result ≡ true → findings.now.complete ≡ true }
    ensures stuck { result ≡ true → told.now.stuck ≡ None → findings.now.stuck ≡ None }
    ensures aborted { result ≡ true → told.now.aborted ≡ None → findings.now.aborted ≡ None }
{
    opens
        && findings.complete
        && is_told(findings.stuck, &told.stuck)
        && is_told(findings.aborted, &told.aborted)
}

// What kept a search from its end that may keep so many states, and keeps so many.
fn met_bound(opens: bool, findings: &Findings, most: usize, states: usize) -> Bound
    ensures { (p : ProgramOf) (may : OutsideOf) (kept : List SourceStateOf) → length kept ≡ states
        → (findings.now.complete ≡ false → IsMet p may most kept findings.now.bound)
        × (opens ≡ true → findings.now.complete ≡ true → AreAll p may kept) → IsMet p may most kept result }
{
    if states >= most {
        return Bound::States;
    }
    if !opens {
        return Bound::Lost;
    }
    if !findings.complete {
        return findings.bound;
    }
    Bound::Run
}

// The same, unless it was complete.
fn bound_unless(
    complete: bool,
    opens: bool,
    findings: &Findings,
    most: usize,
    states: usize,
) -> Option<Bound>
    ensures { MatchOption result (complete ≡ true) (λ b. (complete ≡ false)
        × ((p : ProgramOf) (may : OutsideOf) (kept : List SourceStateOf) → length kept ≡ states
        → (findings.now.complete ≡ false → IsMet p may most kept findings.now.bound)
        × (opens ≡ true → findings.now.complete ≡ true → AreAll p may kept) → IsMet p may most kept b)) }
{
    if complete {
        return None;
    }
    Some(met_bound(opens, findings, most, states))
}

// Keeps the state in which every run begins, or what calm actions lead to from it; false where it can't be kept.
fn keep_opening<'a>(
    alloc: Global,
    checked: &'a Checked,
    kept: &mut Kept<'a>,
    outside: Outside,
) -> Result<bool, AllocError>
    requires sound { IsSound kept.old }
    ensures sound { OnOk result (IsSound kept.new) }
    ensures seen { IfOk result (λ opens. opens ≡ true → IsSeen (program_of checked.now.tree) (interleaves outside)
        (states_of kept.new) (opening (program_of checked.now.tree))) }
{
    let opening = SourceState::opening(alloc, checked, ImageVersion::Two)?;
    kept.open(alloc, checked, opening, outside)
}

// What is found where nothing is kept yet.
fn explore_from<'a, P: Progress>(
    alloc: Global,
    checked: &'a Checked,
    kept: &mut Kept<'a>,
    most_states: usize,
    outside: Outside,
    asked: Asked,
    places: Option<&[Place]>,
    progress: &mut P,
) -> Result<Exploration, AllocError>
    requires sound { IsSound kept.old }
    ensures stuck { IfOk result (λ e. IfSome e.stuck (λ v. LeadsTo (program_of checked.now.tree) outside
        (IsStuck (program_of checked.now.tree)) v.items)) }
    ensures aborted { IfOk result (λ e. IfSome e.aborted
        (λ v. LeadsTo (program_of checked.now.tree) outside (HasFailed outside) v.items)) }
    ensures never_stuck { IfOk result (λ e. e.complete ≡ true → e.stuck ≡ None
        → LeadsNowhere (program_of checked.now.tree) outside (IsStuck (program_of checked.now.tree))) }
    ensures never_aborted { IfOk result (λ e. e.complete ≡ true → e.aborted ≡ None
        → LeadsNowhere (program_of checked.now.tree) outside (HasFailed outside)) }
    ensures blocked { IfOk result
        (λ e. IsTold (program_of checked.now.tree) outside e.complete e.blocked) }
    ensures ending { IfOk result
        (λ e. IsEndTold (program_of checked.now.tree) outside asked.ends e.complete e.ending) }
    ensures searched { IfOk result (HasSearched (program_of checked.now.tree) outside most_states) }
    ensures places { IfOk result (λ e. IfSome e.growth
        (λ g. IfSome places.entry (λ xs. places_in g ≡ xs.now))) }
    ensures unasked { places.entry ≡ None → IfOk result (λ e. e.growth ≡ None) }
{
    let _program = checked.program();
    let opens = keep_opening(alloc, checked, kept, outside)?;
    let findings = search(alloc, checked, kept, most_states, outside, progress)?;
    let growth = growth_if(alloc, kept, places, findings.complete);
    let all = kept.states.as_slice();
    let states = all.len();
    let lost = look_for_lost(alloc, checked, kept, asked.ends, findings.complete, outside)?;
    let found = look_for_resting(alloc, checked, kept, findings.complete, outside)?;
    let told = runs_found(alloc, checked, kept, &findings, outside)?;
    let complete = is_complete(opens, &findings, &told);
    let blocked = told_blocked(alloc, checked, kept, found, complete, most_states, outside)?;
    let ending = told_ending(
        alloc,
        checked,
        kept,
        lost,
        asked.ends,
        complete,
        most_states,
        outside,
    )?;
    let bound = bound_unless(complete, opens, &findings, most_states, states);
    let Told { stuck, aborted } = told;
    Ok(Exploration {
        states,
        complete,
        stuck,
        aborted,
        blocked,
        ending,
        bound,
        growth,
    })
}

/// Searches all runs of actions of a program's own processes, and of what may come from outside: with strays those too
/// in which a process that waits resumes though nobody notified it, and with kills those in which so many processes at
/// most are killed, wherever they stand; breadth first, keeping at most so many states: for one that gets stuck, and for
/// one in which a process aborts. Without kills a process whose next action is calm, so that none of
/// the others races with it, is followed alone. What is found is such a run. Where the search came to its end and none
/// was found, there is none. Where nothing from outside is searched, a complete search tells a run at whose end some
/// processes are blocked for good, or that there is none; and where it is asked for, a run that can't end any more, or
/// that each run can end. It comes to its end unless it meets a bound, which is named: as many states are kept as may be,
/// or one of the others. Where it ends early it is counted what grew in the kept states: of each of the variables of these
/// places how many values it took, and of each process in how many ways it stood. How far it has come is told as it goes.
pub fn explore<P: Progress>(
    alloc: Global,
    checked: &Checked,
    most_states: usize,
    outside: Outside,
    asked: Asked,
    places: Option<&[Place]>,
    progress: &mut P,
) -> Result<Exploration, AllocError>
    ensures stuck { IfOk result (λ e. IfSome e.stuck (λ v. LeadsTo (program_of checked.now.tree) outside
        (IsStuck (program_of checked.now.tree)) v.items)) }
    ensures aborted { IfOk result (λ e. IfSome e.aborted
        (λ v. LeadsTo (program_of checked.now.tree) outside (HasFailed outside) v.items)) }
    ensures never_stuck { IfOk result (λ e. e.complete ≡ true → e.stuck ≡ None
        → LeadsNowhere (program_of checked.now.tree) outside (IsStuck (program_of checked.now.tree))) }
    ensures never_aborted { IfOk result (λ e. e.complete ≡ true → e.aborted ≡ None
        → LeadsNowhere (program_of checked.now.tree) outside (HasFailed outside)) }
    ensures blocked { IfOk result
        (λ e. IsTold (program_of checked.now.tree) outside e.complete e.blocked) }
    ensures ending { IfOk result
        (λ e. IsEndTold (program_of checked.now.tree) outside asked.ends e.complete e.ending) }
    ensures searched { IfOk result (HasSearched (program_of checked.now.tree) outside most_states) }
    ensures places { IfOk result (λ e. IfSome e.growth
        (λ g. IfSome places.entry (λ xs. places_in g ≡ xs.now))) }
    ensures unasked { places.entry ≡ None → IfOk result (λ e. e.growth ≡ None) }
{
    let mut kept = Kept::new(alloc, most_states);
    explore_from(
        alloc,
        checked,
        &mut kept,
        most_states,
        outside,
        asked,
        places,
        progress,
    )
}
