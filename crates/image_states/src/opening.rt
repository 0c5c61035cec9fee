ghost use Rattle.std.specs.Prelude.{◌≡◌, ◌<◌, [], Some, None, IfNone, IfOk, IfSome, OnOk, replicate, slice_set};
ghost use Rattle.std.specs.List.{slice_get};
ghost use Rattle.isa.specs.Programs.{memory_size};
ghost use Rattle.machine.specs.States.{opening_state};
ghost use Rattle.image_states.specs.Packed.{IsFor, IsGrown, IsOutOfNumbers, IsWithin};
ghost use Rattle.image_states.specs.Nexts.{Covers};
ghost use Rattle.image_states.specs.Opening.{IsAlone, IsOpening};

use crate::packed::Packed;
use crate::parts::Parts;
use crate::room::memory_len;
use crate::running::Scratch;
use isa::Image;
use locals::opening_local;
use sparse_memory::SparseMemory;
use std::alloc::{AllocError, Global};
use words::{ProcessWord, block};

// The words at the start of an image.
fn opening_words(alloc: Global, image: &Image) -> Result<SparseMemory, AllocError>
    ensures { IfOk result (λ words. words ≡ slice_set (replicate (memory_size image.now) 0) 3 1) }
{
    let words = SparseMemory::new(alloc, memory_len(image));
    let opened = words.with_word(alloc, block(1, ProcessWord::Id), 1)?;
    Ok(opened)
}

// A state of one thread, which is awake.
fn alone(alloc: Global, memory: u32, part: u32) -> Result<Packed, AllocError>
    ensures { IfOk result (λ x. IsAlone x memory part) }
{
    let mut parts = Vec::new(alloc);
    parts.push(part)?;
    let mut places = Vec::new(alloc);
    places.push(0)?;
    Ok(Packed {
        memory,
        killed: 0,
        parts,
        places,
    })
}

impl Parts {
    /// The state in which an image begins, with thread 1 taken on by local steps; None where there are too many parts.
    pub fn opening(
        &mut self,
        alloc: Global,
        image: &Image,
        scratch: &mut Scratch,
    ) -> Result<Option<Packed>, AllocError>
        requires { IsFor image.now self.old }
        ensures grown { OnOk result (IsGrown self.old self.new) }
        ensures full { IfOk result (λ o. IfNone o (IsOutOfNumbers self.new)) }
        ensures within { IfOk result (λ o. IfSome o (IsWithin self.new)) }
        ensures covers { IfOk result (λ o. IfSome o
            (λ x. Covers image.now self.new x (opening_state image.now) 0)) }
    {
        let words = opening_words(alloc, image)?;
        match self.keep_memory(alloc, words, 0)? {
            None => Ok(None),
            Some(memory) => self.open(alloc, image, memory, scratch),
        }
    }

    // The same with the memory of this number.
    fn open(
        &mut self,
        alloc: Global,
        image: &Image,
        memory: u32,
        scratch: &mut Scratch,
    ) -> Result<Option<Packed>, AllocError>
        requires { slice_get self.old.memories.items memory
            ≡ Some (slice_set (replicate (memory_size image.now) 0) 3 1) }
        ensures grown { OnOk result (IsGrown self.old self.new) }
        ensures full { IfOk result (λ o. IfNone o (IsOutOfNumbers self.new)) }
        ensures opens { IfOk result (λ o. IfSome o (IsOpening image.now self.new)) }
    {
        scratch.look_at(&opening_local(image.start(), &[]));
        scratch.run_on(image, 1);
        match self.local_number(alloc, image, 1, &scratch.here)? {
            None => Ok(None),
            Some(part) => Ok(Some(alone(alloc, memory, part)?)),
        }
    }
}
