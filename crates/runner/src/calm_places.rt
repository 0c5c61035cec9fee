//! Places of code from which a thread comes to no futex call before it takes another shared step: no held bucket can be in
//! the way of its next entry there. So that entry is made in its place though a bucket is held, and nothing is copied.
ghost use Rattle.std.specs.Prelude.{◌≡◌, ◌<◌, length, vec_len};
ghost use Rattle.runner.specs.CalmCode.{IsClosed, is_calm, leads_calmly};

use crate::naming::RunName;
use isa::{Image, Instr};
use std::alloc::{AllocError, Global};
use std::marker::{Model, PhantomData};

// How often the code is gone over: what a jump back leads to is noted before it from the second time on.
const PASSES: u32 = 2;

/// Such places of the code of run `J`, noted once for all: not each of them is, as where a return leads isn't known.
#[derive(Drop)]
pub struct CalmPlaces<J: RunName> {
    places: Vec<bool>,
    of: PhantomData<J>,
}

impl<J: RunName> Model for CalmPlaces<J> {
    ghost use Rattle.std.specs.Prelude.{Bool, List};
    ghost use Rattle.runner.specs.CalmCode.{IsClosed};

    ghost Value = { List Bool };

    ghost view = { λ c. c.places.items };

    ghost invariant = { λ c. IsClosed J.program.code c.places.items };
}

impl<J: RunName> CalmPlaces<J> {
    /// Those of the run's image.
    pub fn new(alloc: Global, image: &Image) -> Result<CalmPlaces<J>, AllocError>
        requires { image.now ≡ J.program }
    {
        let mut places = vec![in alloc; false; image.code().len()]?;
        for _pass in 0..PASSES {
            note(&mut places, image.code());
        }
        Ok(CalmPlaces {
            places,
            of: PhantomData,
        })
    }

    /// Whether a place is one of them.
    pub fn contains(&self, place: u32) -> bool
        ensures value { result ≡ is_calm self.now place }
        ensures closed { IsClosed J.program.code self.now }
    {
        is_noted(self.places.as_slice(), place as usize)
    }
}

// Notes, from the last place of the code to the first, each whose instruction leads to noted places alone.
fn note(places: &mut Vec<bool>, code: &[Instr])
    requires length { vec_len places.old ≡ length code.now }
    requires closed { IsClosed code.now places.old.items }
    ensures length { vec_len places.new ≡ length code.now }
    ensures closed { IsClosed code.now places.new.items }
{
    let mut at = code.len();
    while at > 0 {
        at -= 1;
        if leads_calmly(places.as_slice(), at, &code[at]) {
            places[at] = true;
        }
    }
}

// Whether the instruction at a place leads to noted places alone, or is a shared step other than a futex call.
fn leads_calmly(places: &[bool], at: usize, instr: &Instr) -> bool
    requires { at < length places.now }
    ensures { result ≡ leads_calmly places.now at instr.now }
{
    match *instr {
        Instr::Push(_)
        | Instr::GetLocal(_)
        | Instr::SetLocal(_)
        | Instr::Pop
        | Instr::Operate(_)
        | Instr::Negate
        | Instr::Not
        | Instr::Index(..)
        | Instr::OwnNumber
        | Instr::ProcessAddress(_) => is_noted(places, at + 1),
        Instr::Jump(to) | Instr::Call(to) => is_noted(places, to as usize),
        Instr::JumpIfZero(to) => is_noted(places, to as usize) && is_noted(places, at + 1),
        Instr::Raise(_)
        | Instr::Load
        | Instr::Store
        | Instr::Swap
        | Instr::CompareSwap
        | Instr::FetchOr
        | Instr::FetchAdd
        | Instr::Fork(..)
        | Instr::Print => true,
        Instr::Ret | Instr::RetValue | Instr::FutexWait | Instr::FutexWake | Instr::FutexRequeue =>
            false,
    }
}

// Whether a place is noted.
fn is_noted(places: &[bool], at: usize) -> bool
    ensures { result ≡ is_calm places.now at }
{
    matches!(places.get(at), Some(true))
}
