ghost use Rattle.std.specs.Prelude.{[], ◌≡◌, ◌<◌, ◌+◌, ◌^◌, List, Option, length};
ghost use Rattle.meaning.specs.Labels.{Kind};
ghost use Rattle.proof_simulation.specs.Deferred.{deferred_then};
ghost use Rattle.log_simulation.specs.Deferred.{Says, deferral_of};

use crate::deferral::Deferral;

/// What is deferred of a process: how many actions, and whether a fault is among them.
#[derive(Clone, Copy, PartialEq, Eq, Debug)]
pub struct Deferred {
    /// How many.
    pub count: u32,
    /// Whether a fault is among them.
    pub has_failed: bool,
}

impl Deferred {
    /// Nothing.
    pub fn none() -> Deferred
        ensures { Says result [] }
    {
        Deferred {
            count: 0,
            has_failed: false,
        }
    }

    /// With what a step adds. A fault is deferred once, though the step that writes it has it again.
    pub fn behind(self, deferral: Deferral) -> Deferred
        ensures { (ks : List Kind) (o : Option Kind) → Says self ks → deferral ≡ deferral_of o
            → length ks + 1 < 2 ^ 32
            → Says result (deferred_then o ks) }
    {
        let count = self.count.saturating_add(1);
        match deferral {
            Deferral::Nothing => self,
            Deferral::Fault if self.has_failed => self,
            Deferral::Fault => Deferred {
                count,
                has_failed: true,
            },
            Deferral::Action => Deferred {
                count,
                has_failed: self.has_failed,
            },
        }
    }
}
