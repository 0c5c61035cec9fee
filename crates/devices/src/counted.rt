ghost use Rattle.std.specs.Prelude.{◌≡◌, ◌<◌, MatchResult, Ok, length};
ghost use Rattle.std.specs.Io.{ReadsAtMost, WritesAtMost};
ghost use Rattle.std.specs.Io.KnownBytes.{Keeps, ReadConsumes, WriteAppends};
ghost use Rattle.devices.specs.Counting.{HasFailed, failures_of, inner_of};

use std::io;
use std::io::{Read, Write};

/// A reader or a writer that counts its calls that failed, those too that a signal interrupted.
#[derive(Drop)]
pub struct Counted<X> {
    inner: X,
    failures: u64,
}

impl<X> Counted<X> {
    /// Counts the calls of this one from here on.
    pub fn new(inner: X) -> Counted<X>
        ensures inner { inner_of result ≡ inner }
        ensures failures { failures_of result ≡ 0 }
    {
        Counted { inner, failures: 0 }
    }

    /// How many calls have failed, at most `u64::MAX`.
    pub fn failures(&self) -> u64
        ensures { result ≡ failures_of self.now }
    {
        self.failures
    }

    /// The reader or writer itself.
    pub fn into_inner(self) -> X
        ensures { result ≡ inner_of self }
    {
        let Counted { inner, failures: _ } = self;
        inner
    }

    fn count_failure(&mut self)
        ensures inner { inner_of self.new ≡ inner_of self.old }
        ensures failed { HasFailed self.old self.new }
    {
        self.failures = self.failures.saturating_add(1);
    }
}

impl<R: Read> Read for Counted<R> {
    ghost remaining = { λ c. R.remaining (inner_of c) };

    fn read(&mut self, buf: &mut [u8]) -> io::Result<usize>
        ensures bound { ReadsAtMost result buf.new }
        ensures bytes { ReadConsumes (R.remaining (inner_of self.old)) (R.remaining (inner_of self.new)) result buf.new }
        ensures counted { MatchResult result (λ _. failures_of self.new ≡ failures_of self.old)
            (λ _. HasFailed self.old self.new) }
    {
        let read = self.inner.read(buf);
        if read.is_err() {
            self.count_failure();
        }
        read
    }
}

impl<W: Write> Write for Counted<W> {
    ghost contents = { λ c. W.contents (inner_of c) };

    /// A call that takes no byte, where there are some, has failed too.
    fn write(&mut self, buf: &[u8]) -> io::Result<usize>
        ensures bound { WritesAtMost result buf.now }
        ensures bytes { WriteAppends (W.contents (inner_of self.old)) (W.contents (inner_of self.new)) result buf.now }
        ensures counted { MatchResult result
            (λ n. 0 < n → failures_of self.new ≡ failures_of self.old)
            (λ _. HasFailed self.old self.new) }
        ensures none { 0 < length buf.now → result ≡ Ok 0 → HasFailed self.old self.new }
    {
        let written = self.inner.write(buf);
        let failed = match &written {
            Ok(count) => *count == 0 && !buf.is_empty(),
            Err(_) => true,
        };
        if failed {
            self.count_failure();
        }
        written
    }

    fn flush(&mut self) -> io::Result<()>
        ensures bytes { Keeps (W.contents (inner_of self.old)) (W.contents (inner_of self.new)) }
        ensures counted { MatchResult result (λ _. failures_of self.new ≡ failures_of self.old)
            (λ _. HasFailed self.old self.new) }
    {
        let flushed = self.inner.flush();
        if flushed.is_err() {
            self.count_failure();
        }
        flushed
    }
}
