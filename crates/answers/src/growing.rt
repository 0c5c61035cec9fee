use crate::exploring::ExploredText;
use crate::hinting::{SourceText, append_told};
use program::{Checked, MemberType};
use source_offers::Place;
use source_search::{Bound, Growth, Taken};
use std::alloc::{AllocError, Global};
use text_writer::TextWriter;

// Of how many elements of an array it is counted how many values each took.
const MOST_ELEMENTS: u32 = 64;

// Of how many variables, and of how many processes, it is told.
const FEW: usize = 4;

// How many of a member's variables are counted.
fn elements_of(of: MemberType) -> u32 {
    match of {
        MemberType::Variable(_) => 1,
        MemberType::Condition => 0,
        MemberType::Array(length) if length < MOST_ELEMENTS => length,
        MemberType::Array(_) => MOST_ELEMENTS,
    }
}

// Adds the first variables of a member.
fn add_elements(
    places: &mut Vec<Place>,
    monitor: u32,
    member: u32,
    count: u32,
) -> Result<(), AllocError> {
    for index in 0..count {
        places.push(Place {
            monitor,
            member,
            index,
        })?;
    }
    Ok(())
}

// Adds those of the members of a monitor.
fn add_members(
    places: &mut Vec<Place>,
    monitor: u32,
    members: &[MemberType],
) -> Result<(), AllocError> {
    let mut member: u32 = 0;
    for of in members {
        add_elements(places, monitor, member, elements_of(*of))?;
        member = member.wrapping_add(1);
    }
    Ok(())
}

/// The variables of a program of which it is counted how many values each took: of an array the first 64.
pub(crate) fn counted_places(alloc: Global, checked: &Checked) -> Result<Vec<Place>, AllocError> {
    let mut places = Vec::new(alloc);
    let mut number: u32 = 0;
    for monitor in checked.program().monitors.as_slice() {
        add_members(&mut places, number, monitor.members.as_slice())?;
        number = number.wrapping_add(1);
    }
    Ok(places)
}

// What a bound of a search of a text says.
fn words_of(bound: Bound) -> &'static str {
    match bound {
        Bound::States => "  as many states are kept as --states allows\n",
        Bound::Waiters => "  more than twelve processes wait on one condition\n",
        Bound::Lost => "  what comes next of a kept state isn't known\n",
        Bound::Run => "  a run to what was found isn't known\n",
    }
}

// Whether a variable is an element of an array.
fn is_element(checked: &Checked, place: Place) -> bool {
    let Some(monitor) = checked.program().monitors.get(place.monitor as usize) else {
        return false;
    };
    match monitor.members.get(place.member as usize) {
        Some(MemberType::Array(_)) => true,
        Some(MemberType::Variable(_) | MemberType::Condition) | None => false,
    }
}

// Writes the name of a variable.
fn write_name(out: &mut TextWriter, checked: &Checked, place: Place) {
    let Some(monitor) = checked.names().monitors.get(place.monitor as usize) else {
        return;
    };
    let Some(member) = monitor.members.get(place.member as usize) else {
        return;
    };
    out.shown(monitor.name);
    out.text(".");
    out.shown(member);
    if is_element(checked, place) {
        out.form("[$]", &[u64::from(place.index)]);
    }
}

// Whether a variable of the same member is among these.
fn is_listed(listed: &[Taken], place: Place) -> bool {
    for other in listed {
        if other.place.monitor == place.monitor && other.place.member == place.member {
            return true;
        }
    }
    false
}

// The variable that took the most values, of those of members that aren't listed; none where each took one.
fn most_taken(variables: &[Taken], listed: &[Taken]) -> Option<Taken> {
    let mut found = None;
    let mut most: usize = 1;
    for taken in variables {
        if taken.values > most && !is_listed(listed, taken.place) {
            most = taken.values;
            found = Some(*taken);
        }
    }
    found
}

// Writes which variables took the most values, one of each member at most.
fn write_variables(alloc: Global, out: &mut TextWriter, checked: &Checked, growth: &Growth) {
    let mut listed = Vec::new(alloc);
    for _ in 0..FEW {
        let Some(taken) = most_taken(growth.variables.as_slice(), listed.as_slice()) else {
            return;
        };
        out.text("  ");
        write_name(out, checked, taken.place);
        out.form(" took $ values\n", &[taken.values as u64]);
        out.push(&mut listed, taken);
    }
}

// The place of the process that stood in the most ways, of those that aren't listed; none where each stood in one.
fn most_stood(processes: &[usize], listed: &[usize]) -> Option<usize> {
    let mut found = None;
    let mut most: usize = 1;
    for place in 0..processes.len() {
        if processes[place] > most && !listed.contains(&place) {
            most = processes[place];
            found = Some(place);
        }
    }
    found
}

// Writes which processes stood in the most ways.
fn write_processes(alloc: Global, out: &mut TextWriter, processes: &[usize]) {
    let mut listed = Vec::new(alloc);
    for _ in 0..FEW {
        let Some(place) = most_stood(processes, listed.as_slice()) else {
            return;
        };
        let ways = processes.get(place).copied().unwrap_or(0) as u64;
        out.form(
            "  process $ stood in up to $ ways, by its place and its locals\n",
            &[(place as u64).saturating_add(1), ways],
        );
        out.push(&mut listed, place);
    }
}

// The lines of what grew.
fn growth_lines(
    alloc: Global,
    checked: &Checked,
    bound: Bound,
    growth: &Option<Growth>,
) -> Result<String, AllocError> {
    let mut out = TextWriter::new(alloc);
    out.text(words_of(bound));
    if let Some(growth) = growth {
        let processes = growth.processes.as_slice();
        write_variables(alloc, &mut out, checked, growth);
        write_processes(alloc, &mut out, processes);
        out.form("  $ processes were made\n", &[processes.len() as u64]);
    }
    out.finish()
}

/// Appends which bound the search of a text met and what grew in it, where it met one and hints are wanted.
pub(crate) fn tell_growth(
    alloc: Global,
    told: &mut String,
    text: &SourceText<'_>,
    explored: &ExploredText<'_>,
) {
    if !text.hints {
        return;
    }
    if let Some(bound) = explored.exploration.bound {
        append_told(
            told,
            growth_lines(
                alloc,
                &explored.checked,
                bound,
                &explored.exploration.growth,
            ),
        );
    }
}
