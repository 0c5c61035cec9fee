ghost use Rattle.std.specs.Prelude.{◌≡◌, ◌≤◌, ◌+◌, MatchBool};
ghost use Rattle.words.specs.Limits.{most_threads};
ghost use Rattle.words.specs.Process.{process_word};
ghost use Rattle.words.specs.Versions.{most_of, base_of, IsProcess};

/// The version of an image, which says how many processes there can be, and so where the words of its monitors begin. It
/// also says how locks are given up and whom the exit of a thread wakes.
#[derive(Clone, Copy, PartialEq, Eq, PartialOrd, Ord, Debug, Hash)]
pub enum ImageVersion {
    /// 64 processes, monitors from word 385.
    One,
    /// 1,000 processes, monitors from word 6,001.
    Two,
    /// The layout of version two, with a release and an exit as Linux has them (from 6.2 on). No image in bytes is of it.
    Linux,
}

impl ImageVersion {
    /// The most processes of a program, and so the most threads of a machine.
    pub fn most_processes(self) -> u32
        ensures { result ≡ most_of self }
    {
        match self {
            ImageVersion::One => 64,
            ImageVersion::Two | ImageVersion::Linux => 1000,
        }
    }

    /// The first word of the monitors: the one behind the words of the last process.
    #[tactic(auto, using(crate::proofs::Versions::most_few))]
    pub fn monitors_base(self) -> u32
        ensures { result ≡ base_of self }
    {
        1 + 6 * self.most_processes()
    }

    /// Whether there can be a process of this number: they are numbered from 1.
    #[tactic(auto, using(crate::proofs::Versions::most_few))]
    pub fn has_process(self, number: u32) -> bool
        ensures { MatchBool result (IsProcess self number) (IsProcess self number → ⊥) }
    {
        (1..=self.most_processes()).contains(&number)
    }
}

/// How many processes a version has at the least and at the most, which a machine can run as threads, and what follows
/// their words.
#[tactic(auto, using(crate::proofs::Versions::most_few, crate::proofs::Versions::most_some))]
pub fn version_laws()
    ensures some { (v : ImageVersion) → 64 ≤ most_of v }
    ensures fits { (v : ImageVersion) → most_of v ≤ most_threads }

    // The words of the last process are followed by the monitors.
    ensures base { (v : ImageVersion) → process_word (most_of v) 5 + 1 ≡ base_of v }
{}
