ghost use Rattle.std.specs.Prelude.{◌≡◌};
ghost use Rattle.locals.specs.Sequences.{AreSequences};

use isa::Image;
use locals::Sequences;
use runner::RunName;
use std::alloc::{AllocError, Global};
use std::marker::{Model, PhantomData};

/// A reference to the image of run `J`, for its workers.
#[derive(Drop)]
pub struct ImageRef<'a, J: RunName> {
    /// The image.
    pub image: &'a Image,
    /// The frequent sequences of its instructions.
    pub sequences: RunSequences<J>,
    /// How many words its memory has.
    pub memory: usize,
    ghost is: { image.now ≡ J.program },
}

/// The frequent sequences of instructions of the program of run `J`. Contracts see the list.
#[derive(Drop)]
pub struct RunSequences<J: RunName> {
    list: Sequences,
    of: PhantomData<J>,
}

impl<J: RunName> Model for RunSequences<J> {
    ghost use Rattle.std.specs.Prelude.{List};
    ghost use Rattle.locals.specs.declared.sequence.Sequence.{Sequence};
    ghost use Rattle.locals.specs.Sequences.{AreSequences};

    ghost Value = { List Sequence };

    ghost view = { λ s. s.list };

    ghost invariant = { λ s. AreSequences J.program.code s.list };
}

impl<J: RunName> RunSequences<J> {
    /// Those of the run's image.
    pub fn new(alloc: Global, image: &Image) -> Result<RunSequences<J>, AllocError>
        requires { image.now ≡ J.program }
    {
        Ok(RunSequences {
            list: Sequences::new(alloc, image)?,
            of: PhantomData,
        })
    }

    /// The list, which is the program's.
    pub fn list(&self) -> &Sequences
        ensures value { result.now ≡ self.now }
        ensures noted { AreSequences J.program.code result.now }
    {
        &self.list
    }
}
