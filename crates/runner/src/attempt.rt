ghost use Rattle.std.specs.Prelude.{◌≡◌, ◌⊎◌, ℕ, true, false};
ghost use Rattle.isa.specs.Programs.{Program};
ghost use Rattle.piece_machine.specs.PieceConcrete.{PieceConcrete};
ghost use Rattle.runner.specs.Attempts.{TriedSo, WantsIf, is_made};
ghost use Rattle.runner.specs.declared.attempt.Attempt;

/// The held bucket that is in the way of a thread's next entry.
#[derive(Clone, Copy)]
pub enum Obstacle {
    /// This one: the thread's call takes it first, and another thread holds it.
    First(u32),
    /// Another one: the second of its call, or one on which its exit would wake.
    Other,
}

/// What came of a try to make a thread's next entry. Its one number has room in a register beside its kind.
#[derive(Clone, Copy)]
pub enum Attempt {
    /// It was made, and ended with an access to a word: the thread can move still, and nobody else was concerned.
    Accessed,
    /// It was made, and isn't known to have taken a bucket.
    Made,
    /// It was made, and took this bucket.
    Took(u32),
    /// This held bucket is in its way, which its call takes first.
    Wants(u32),
    /// Another held bucket is in its way.
    HeldUp,
    /// It would pass the limit, or the thread can't move.
    Refused,
}

impl Attempt {
    /// Whether the entry was made, and isn't known to have taken a bucket.
    pub fn takes_none(self) -> bool
        ensures { result ≡ true → (self ≡ Attempt.Accessed) ⊎ (self ≡ Attempt.Made) }
    {
        matches!(self, Attempt::Accessed | Attempt::Made)
    }

    /// Whether the entry was made.
    pub fn is_made(self) -> bool
        ensures { result ≡ is_made self }
    {
        matches!(self, Attempt::Accessed | Attempt::Made | Attempt::Took(_))
    }
}

impl Obstacle {
    /// What came of the try that met it.
    pub fn attempt(self) -> Attempt
        ensures made { is_made result ≡ false }
        ensures tried { (p : Program) (k k' : PieceConcrete) (t : ℕ) → WantsIf p k' t self → TriedSo p k t result k' }
    {
        match self {
            Obstacle::First(bucket) => Attempt::Wants(bucket),
            Obstacle::Other => Attempt::HeldUp,
        }
    }
}
