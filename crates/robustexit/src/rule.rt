ghost use Rattle.std.specs.Prelude.{◌≡◌};
ghost use Rattle.robustexit.specs.ExitRules as rules;

use words::{ImageVersion, has_waiters, tid};

/// Whom an exit wakes at its pending entry, where the dying thread doesn't own the lock.
#[derive(Clone, Copy, PartialEq, Eq, Debug)]
pub enum ExitRule {
    /// One sleeper, whatever the word holds.
    WakesAlways,
    /// One sleeper where the word names no owner, else nobody (Linux from 6.2 on).
    WakesUnowned,
    /// One sleeper where no owner is going to wake one: the word names none, or has no waiters bit (Linux of 2026).
    WakesUncovered,
}

impl ExitRule {
    /// The rule by which the threads of an image of this version exit: a machine of its own for versions one and two, Linux
    /// from 6.2 on for its layout.
    pub fn of(version: ImageVersion) -> ExitRule
        ensures { result ≡ rules.exit_of version }
    {
        match version {
            ImageVersion::One | ImageVersion::Two => ExitRule::WakesAlways,
            ImageVersion::Linux => ExitRule::WakesUnowned,
        }
    }

    /// Whether one sleeper is woken at this lock word.
    pub fn wakes(self, word: u32) -> bool
        ensures { result ≡ rules.wakes self word }
    {
        match self {
            ExitRule::WakesAlways => true,
            ExitRule::WakesUnowned => tid(word) == 0,
            ExitRule::WakesUncovered => tid(word) == 0 || !has_waiters(word),
        }
    }
}
