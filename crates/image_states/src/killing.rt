ghost use Rattle.std.specs.Prelude.{◌<◌, IfNone, IfOk, IfSome, OnOk, length};
ghost use Rattle.words.specs.declared.outcome.Cause.TheVariants.{Killed};
ghost use Rattle.locals.specs.Threads.{Dies};
ghost use Rattle.image_states.specs.Packed.{IsGrown, IsOutOfNumbers};
ghost use Rattle.image_states.specs.Nexts.{IsBase};

use crate::packed::Packed;
use crate::parts::Parts;
use crate::running::Scratch;
use isa::Image;
use std::alloc::{AllocError, Global};

impl Parts {
    // The state in which the thread behind `k` others begins to die by a kill; None where there are too many local states.
    // The local state that is looked at isn't used: where it runs its code, it would have to be made anew for the next one.
    pub(crate) fn stand_killed(
        &mut self,
        alloc: Global,
        image: &Image,
        packed: &Packed,
        k: usize,
        t: u32,
        scratch: &mut Scratch,
    ) -> Result<Option<Packed>, AllocError>
        requires made { k < length packed.now.parts.items }
        ensures grown { OnOk result (IsGrown self.old self.new) }
        ensures full { IfOk result (λ o. IfNone o (IsOutOfNumbers self.new)) }
        ensures stands { IfOk result (λ o. IfSome o
            (IsBase image.now self.new packed.now k packed.now.memory (Dies Killed))) }
    {
        scratch.killed.kill();
        match self.local_number(alloc, image, t, &scratch.killed)? {
            None => Ok(None),
            Some(part) => Ok(Some(packed.moved(alloc, k, packed.memory, part)?)),
        }
    }
}
