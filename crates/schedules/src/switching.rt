ghost use Rattle.std.specs.Prelude.{◌≡◌, ◌≤◌};
ghost use Rattle.schedules.specs.Switches.{goes_on, switch_at, switches};

use runner::Turn;

/// How many context switches a schedule has: places where a turn and the next one are not steps of one thread. A stray
/// wake or a kill is no step, so that there is one before it and one behind it.
pub fn switches(schedule: &[Turn]) -> usize
    ensures { result ≡ switches schedule.now }
{
    let mut last = None;
    let mut count: usize = 0;
    for turn in schedule {
        count += switch_at(last, *turn);
        last = Some(*turn);
    }
    count
}

// 1 where there is a switch between a turn and the one before it, if there is one; else 0.
fn switch_at(before: Option<Turn>, turn: Turn) -> usize
    ensures value { result ≡ switch_at before turn }
    ensures few { result ≤ 1 }
{
    match before {
        Some(before) if !goes_on(before, turn) => 1,
        _ => 0,
    }
}

/// Whether two turns are steps of one thread.
pub(crate) fn goes_on(before: Turn, turn: Turn) -> bool
    ensures { result ≡ goes_on before turn }
{
    match (before, turn) {
        (Turn::Step(a), Turn::Step(b)) => a == b,
        _ => false,
    }
}
