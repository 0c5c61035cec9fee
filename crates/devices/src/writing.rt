ghost use Rattle.std.specs.Prelude.{◌<◌, ◌≤◌, IfOk, OnOk, OnErr, length, take};
ghost use Rattle.std.specs.Io.{WritesAtMost};
ghost use Rattle.std.specs.Io.KnownBytes.{Keeps};
ghost use Rattle.devices.specs.Counting.{HasFailed, failures_of, inner_of};
ghost use Rattle.devices.specs.Writing.{HasAll, HasFront};

use crate::counted::Counted;
use std::io;
use std::io::{ErrorKind, Write};

// How often a call is made that a signal interrupts each time.
const MOST_TRIES: u32 = 1 << 20;

/// Writes all of these bytes, and hands on what the writer itself has kept back.
///
/// A call that a signal interrupts is made again; one that takes no byte is a failure.
pub fn write_bytes<W: Write>(writer: &mut Counted<W>, bytes: &[u8]) -> io::Result<()>
    ensures ok { OnOk result (HasAll W.contents writer.old writer.new bytes.now) }
    ensures err { OnErr result (HasFront W.contents writer.old writer.new bytes.now) }
{
    let mut rest = bytes;
    while !rest.is_empty() {
        let count = write_some(writer, rest)?;
        rest = &rest[count..];
    }
    flush(writer)
}

// Writes a front of these bytes, of one byte at least.
fn write_some<W: Write>(writer: &mut Counted<W>, bytes: &[u8]) -> io::Result<usize>
    requires { 0 < length bytes.now }
    ensures bound { WritesAtMost result bytes.now }
    ensures some { IfOk result (λ n. 0 < n) }
    ensures ok { IfOk result (λ n. HasAll W.contents writer.old writer.new (take n bytes.now)) }
    ensures err { OnErr result (Keeps (W.contents (inner_of writer.old)) (W.contents (inner_of writer.new))) }
    ensures counted { failures_of writer.old ≤ failures_of writer.new }
    ensures failed { OnErr result (HasFailed writer.old writer.new) }
{
    for _ in 0..MOST_TRIES {
        match writer.write(bytes) {
            Ok(0) => return Err(io::Error::from(ErrorKind::WriteZero)),
            Ok(count) => return Ok(count),
            Err(error) => {
                if error.kind() != ErrorKind::Interrupted {
                    return Err(error);
                }
            }
        }
    }
    Err(io::Error::from(ErrorKind::Interrupted))
}

fn flush<W: Write>(writer: &mut Counted<W>) -> io::Result<()>
    ensures kept { Keeps (W.contents (inner_of writer.old)) (W.contents (inner_of writer.new)) }
    ensures failed { OnErr result (HasFailed writer.old writer.new) }
{
    for _ in 0..MOST_TRIES {
        match writer.flush() {
            Ok(()) => return Ok(()),
            Err(error) => {
                if error.kind() != ErrorKind::Interrupted {
                    return Err(error);
                }
            }
        }
    }
    Err(io::Error::from(ErrorKind::Interrupted))
}
