ghost use Rattle.std.specs.Prelude.{◌≡◌};
ghost use Rattle.devices.specs.Failures.{HaveFailed, failed_files};

/// Counts the files that couldn't be opened, read or written.
#[derive(Drop)]
pub struct FileFailures {
    count: u64,
}

impl FileFailures {
    /// Counts from here on.
    pub fn new() -> FileFailures
        ensures { failed_files result ≡ 0 }
    {
        FileFailures { count: 0 }
    }

    /// How many, at most `u64::MAX`.
    pub fn count(&self) -> u64
        ensures { result ≡ failed_files self.now }
    {
        self.count
    }

    /// One more.
    pub(crate) fn add(&mut self)
        ensures { HaveFailed self.new }
    {
        self.count = self.count.saturating_add(1);
    }
}
