ghost use Rattle.std.specs.Prelude.{◌≡◌, ◌≤◌, ◌+◌, ◌^◌, MatchResult, IfSome, take};
ghost use Rattle.devices.specs.Counting.{inner_of};
ghost use Rattle.devices.specs.Reading.{IsReadFault};
ghost use Rattle.devices.specs.declared.reading.ReadFault.TheVariants.{Memory};

use crate::counted::Counted;
use scanner::MOST_BYTES;
use std::alloc::{AllocError, Global};
use std::io::{ErrorKind, Read};
use thiserror::Error;

// How many bytes are asked for at once.
const PIECE: usize = 1 << 13;

// How many bytes are read at most where all are wanted, which is more than there is memory for.
const MOST_WANTED: usize = 1 << 62;

/// Why a source isn't read.
#[derive(Clone, Copy, PartialEq, Eq, Debug, Error)]
pub enum ReadFault {
    /// A call of the reader failed.
    #[error("device")]
    Device,
    /// There is no memory for the bytes.
    #[error("memory")]
    Memory,
}

impl From<AllocError> for ReadFault {
    ghost from_gives = { λ _ f. f ≡ Memory };

    fn from(_error: AllocError) -> ReadFault {
        ReadFault::Memory
    }
}

/// The bytes that a reader gives up to its end, or the first `MOST_BYTES + 1` where there are more: a text of so many is
/// refused as too long.
///
/// A call that a signal interrupts is made again. What was read before a call that failed is lost.
pub fn read_source<R: Read>(alloc: Global, reader: &mut Counted<R>) -> Result<Vec<u8>, ReadFault>
    ensures { MatchResult result
        (λ bytes. IfSome (R.remaining (inner_of reader.old)) (λ xs. bytes.items
        ≡ take (MOST_BYTES + 1) xs))
        (λ fault. IsReadFault reader.old reader.new fault) }
{
    read_front(alloc, reader, MOST_BYTES + 1)
}

/// The bytes that a reader gives up to its end, of which there may be 2^62, as `read_source` reads them.
pub fn read_whole<R: Read>(alloc: Global, reader: &mut Counted<R>) -> Result<Vec<u8>, ReadFault>
    ensures { MatchResult result
        (λ bytes. IfSome (R.remaining (inner_of reader.old)) (λ xs. bytes.items ≡ take (2 ^ 62) xs))
        (λ fault. IsReadFault reader.old reader.new fault) }
{
    read_front(alloc, reader, MOST_WANTED)
}

/// The bytes that a reader gives up to its end, or the first so many where there are more, as `read_source` reads them.
///
/// With one byte in each call, every second call may have been interrupted.
pub fn read_front<R: Read>(
    alloc: Global,
    reader: &mut Counted<R>,
    wanted: usize,
) -> Result<Vec<u8>, ReadFault>
    requires { (1 ≤ wanted) × (wanted ≤ 2 ^ 62) }
    ensures { MatchResult result
        (λ bytes. IfSome (R.remaining (inner_of reader.old)) (λ xs. bytes.items ≡ take wanted xs))
        (λ fault. IsReadFault reader.old reader.new fault) }
{
    let mut bytes = Vec::new(alloc);
    let mut piece = [0; PIECE];
    for _ in 0..2 * wanted {
        let most = PIECE.min(wanted - bytes.len());
        if most == 0 {
            return Ok(bytes);
        }
        match reader.read(&mut piece[..most]) {
            Ok(0) => return Ok(bytes),
            Ok(count) => bytes.extend_from_slice(&piece[..count])?,
            Err(error) => {
                if error.kind() != ErrorKind::Interrupted {
                    return Err(ReadFault::Device);
                }
            }
        }
    }
    Err(ReadFault::Device)
}
