//! Where threads have committed to sleep.
ghost use Rattle.std.specs.Prelude.{◌≡◌};
ghost use Rattle.machine.specs.PieceStates.{committed};
ghost use Rattle.machine.specs.Views.{address_of};
ghost use Rattle.piece_machine.specs.PieceViews.{pieces};

use crate::piece_machine::PieceMachine;
use futexcalls::{FutexCall, FutexPhase};
use words::Addr;

impl PieceMachine {
    /// Where thread `t` has committed to sleep, if it has: its wait has found the word as expected, and is still to act.
    /// With whole calls it sleeps there already.
    pub fn committed(&self, t: u32) -> Option<Addr>
        ensures { address_of result ≡ committed self.now.view.program (pieces self.now) t }
    {
        if !self.machine.is_made(t) {
            return None;
        }
        if !matches!(self.phases.at(t), FutexPhase::Act) {
            return None;
        }
        match self.call_at(t) {
            Some(FutexCall::Wait { address, .. }) => Some(address),
            _ => None,
        }
    }
}
