ghost use Rattle.std.specs.Prelude.{◌≡◌};

use std::io;
use std::io::{ErrorKind, Write};

/// A writer that notes whether a call failed since nobody reads what it writes, as of a pipe whose reader has ended.
#[derive(Drop)]
pub struct Piped<W> {
    inner: W,
    left: bool,
}

impl<W> Piped<W> {
    /// Notes the calls of this one from here on.
    pub fn new(inner: W) -> Piped<W> {
        Piped { inner, left: false }
    }

    /// Whether the reader has gone.
    pub fn is_left(&self) -> bool {
        self.left
    }

    fn note(&mut self, error: &io::Error)
        ensures { self.new.inner ≡ self.old.inner }
    {
        if error.kind() == ErrorKind::BrokenPipe {
            self.left = true;
        }
    }
}

impl<W: Write> Write for Piped<W> {
    ghost contents = { λ p. W.contents p.inner };

    fn write(&mut self, buf: &[u8]) -> io::Result<usize> {
        let written = self.inner.write(buf);
        if let Err(error) = &written {
            self.note(error);
        }
        written
    }

    fn flush(&mut self) -> io::Result<()> {
        let flushed = self.inner.flush();
        if let Err(error) = &flushed {
            self.note(error);
        }
        flushed
    }
}
