ghost use Rattle.std.specs.Prelude.{◌≡◌, IfErr, IfOk};
ghost use Rattle.isa.specs.Spelling.{HasByte, IsSpelled, spelling};
ghost use Rattle.answers.specs.Causes.{IsNoImage};
ghost use Rattle.answers.specs.Failures.{OrMemory};

use crate::failure::Failure;
use isa::{Image, decode};
use std::alloc::Global;

/// The image that these bytes spell.
pub fn image_of<'a>(alloc: Global, bytes: &[u8]) -> Result<Image, Failure<'a>>
    ensures image { IfOk result
        (λ i. HasByte i.version × IsSpelled i × (spelling i ≡ bytes.now)) }
    ensures failed { IfErr result (OrMemory (IsNoImage bytes.now)) }
{
    Ok(decode(alloc, bytes)?)
}
