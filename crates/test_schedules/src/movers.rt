ghost use Rattle.std.specs.Prelude.{◌≡◌, MatchOption, true, ⊤};
ghost use Rattle.piece_machine.specs.PieceConcrete.{can_take};
ghost use Rattle.piece_machine.specs.PieceViews.{parts};

use crate::sequence::Sequence;
use machine::Machine;
use piece_machine::PieceMachine;

fn count_movers(machine: &PieceMachine) -> u32 {
    let mut movers: u32 = 0;
    for before in 0..machine.machine().threads() {
        if machine.can_move(before + 1) {
            movers = movers.saturating_add(1);
        }
    }
    movers
}

// The thread at a place, from 0, among those that can take a step, by rising number.
fn mover_at(machine: &PieceMachine, place: u32) -> Option<u32>
    ensures { MatchOption result ⊤ (λ t. can_take machine.now.view.program (parts machine.now) t ≡ true) }
{
    let mut left = place;
    for before in 0..machine.machine().threads() {
        let thread = before + 1;
        if machine.can_move(thread) {
            if left == 0 {
                return Some(thread);
            }
            left -= 1;
        }
    }
    None
}

/// The thread that is drawn among those that can take a step; None where none can.
pub fn draw_mover(machine: &PieceMachine, sequence: &mut Sequence) -> Option<u32>
    ensures { MatchOption result ⊤ (λ t. can_take machine.now.view.program (parts machine.now) t ≡ true) }
{
    let movers = count_movers(machine);
    if movers == 0 {
        return None;
    }
    mover_at(machine, sequence.draw() % movers)
}

fn count_sleepers(machine: &Machine) -> u32 {
    let mut sleepers: u32 = 0;
    for before in 0..machine.threads() {
        if machine.asleep(before + 1).is_some() {
            sleepers = sleepers.saturating_add(1);
        }
    }
    sleepers
}

// The thread at a place, from 0, among those that sleep, by rising number.
fn sleeper_at(machine: &Machine, place: u32) -> Option<u32> {
    let mut left = place;
    for before in 0..machine.threads() {
        let thread = before + 1;
        if machine.asleep(thread).is_some() {
            if left == 0 {
                return Some(thread);
            }
            left -= 1;
        }
    }
    None
}

/// The thread that is drawn among those that sleep; None where none does, and then no number is drawn.
pub fn draw_sleeper(machine: &Machine, sequence: &mut Sequence) -> Option<u32> {
    let sleepers = count_sleepers(machine);
    if sleepers == 0 {
        return None;
    }
    sleeper_at(machine, sequence.draw() % sleepers)
}
