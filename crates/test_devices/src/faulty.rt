use crate::failure::Failure;
use std::alloc::{AllocError, Global};
use std::io;
use std::io::{ErrorKind, Read, Write};

/// How a call goes wrong.
#[derive(Clone, Copy, PartialEq, Eq)]
pub enum Wrong {
    /// It fails.
    Broken,
    /// A signal interrupts it.
    Interrupted,
    /// It reads or writes no byte.
    Nothing,
}

impl Wrong {
    /// The way that a row calls so.
    pub fn called(word: &str) -> Result<Wrong, Failure> {
        match word {
            "broken" => Ok(Wrong::Broken),
            "interrupted" => Ok(Wrong::Interrupted),
            "nothing" => Ok(Wrong::Nothing),
            _ => Err(Failure::Row),
        }
    }

    // What the call comes to.
    fn outcome(self) -> io::Result<()> {
        match self {
            Wrong::Broken => Err(io::Error::from(ErrorKind::Other)),
            Wrong::Interrupted => Err(io::Error::from(ErrorKind::Interrupted)),
            Wrong::Nothing => Ok(()),
        }
    }
}

/// A reader of bytes, or a writer, one byte a call, of which at most one call goes wrong.
#[derive(Drop)]
pub struct Faulty {
    /// What is left to read, or was written.
    pub bytes: Vec<u8>,
    // How many calls go well before the wrong one, if that is still to come.
    before: Option<usize>,
    wrong: Wrong,
}

impl Faulty {
    /// A reader of these bytes, or a writer that has them, of which so many calls go well, and the next one wrong.
    pub fn new(
        alloc: Global,
        bytes: &[u8],
        before: Option<usize>,
        wrong: Wrong,
    ) -> Result<Faulty, AllocError> {
        Ok(Faulty {
            bytes: Vec::from_slice(alloc, bytes)?,
            before,
            wrong,
        })
    }

    // Whether this call goes wrong.
    fn goes_wrong(&mut self) -> bool {
        let now = self.before == Some(0);
        self.before = if now {
            None
        } else {
            self.before.map(|n| n.saturating_sub(1))
        };
        now
    }
}

impl Read for Faulty {
    fn read(&mut self, buf: &mut [u8]) -> io::Result<usize> {
        if self.goes_wrong() {
            self.wrong.outcome()?;
            return Ok(0);
        }
        if self.bytes.is_empty() || buf.is_empty() {
            return Ok(0);
        }
        buf[0] = self.bytes.remove(0);
        Ok(1)
    }
}

impl Write for Faulty {
    fn write(&mut self, buf: &[u8]) -> io::Result<usize> {
        if self.goes_wrong() {
            self.wrong.outcome()?;
            return Ok(0);
        }
        if buf.is_empty() {
            return Ok(0);
        }
        self.bytes.push(buf[0])?;
        Ok(1)
    }

    fn flush(&mut self) -> io::Result<()> {
        if self.goes_wrong() {
            self.wrong.outcome()?;
        }
        Ok(())
    }
}
