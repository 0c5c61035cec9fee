//! What the next step of an activation is, and what it asks the shared part of the machine for.
ghost use Rattle.std.specs.Prelude.{◌≡◌, ◌∷◌, ℕ, List, Some, slice_get};
ghost use Rattle.words.specs.Versions.{most_of};
ghost use Rattle.isa.specs.declared.instr.Instr.TheVariants.{Fork, RetValue};
ghost use Rattle.locals.specs.declared.request.NextStep.TheVariants as next;
ghost use Rattle.locals.specs.Threads.{Locals as LocalsOf, Frame as FrameOf};
ghost use Rattle.locals.specs.Looks.{Request as RequestOf, look_at, return_look};
ghost use Rattle.locals.specs.Requests.{call_in, next_step_of, request_step};
ghost use Rattle.locals.specs.Views.{shared_where, local_where, looks, IsRequest, TakesTwo};

use crate::activation::{Activation, MOST_OPERANDS};
use crate::request::{NextStep, Request};
use isa::{Image, Instr};
use words::{Addr, ImageVersion};

impl Activation {
    /// What the next step of thread `t` is.
    pub fn next_step(&self, image: &Image, t: u32) -> NextStep
        ensures { result ≡ next_step_of
            (looks (most_of image.now.version) t (slice_get image.now.code self.now.place) self.now) }
    {
        match image.at(self.place) {
            Some(instr) => self.next(instr, image.version(), t),
            None => NextStep::Broken,
        }
    }

    /// The wait or wake that comes next, if one does. Who takes pieces of these asks for them first, and needn't tell all steps
    /// apart.
    #[inline(always)]
    pub fn call_ahead(&self, image: &Image) -> Option<Request>
        ensures { (t : ℕ) → result ≡ call_in (next_step_of
            (looks (most_of image.now.version) t (slice_get image.now.code self.now.place) self.now)) }
    {
        match image.code().get(self.place as usize)? {
            Instr::FutexWait => {
                let (address, expected) = self.operands.top_two()?;
                Some(Request::Wait {
                    address: Addr(address),
                    expected,
                })
            }
            Instr::FutexWake => {
                let (address, count) = self.operands.top_two()?;
                Some(Request::Wake {
                    address: Addr(address),
                    count,
                })
            }
            _ => None,
        }
    }

    fn next(&self, instr: Instr, version: ImageVersion, t: u32) -> NextStep
        ensures { result ≡ next_step_of (looks (most_of version) t (Some instr) self.now) }
    {
        match instr {
            Instr::Push(_) | Instr::GetLocal(_) | Instr::OwnNumber => local_where(
                self.operands.has_room(),
            ),
            Instr::SetLocal(_)
            | Instr::Pop
            | Instr::Negate
            | Instr::Not
            | Instr::JumpIfZero(_)
            | Instr::Index(..) => match self.operands.top() {
                Some(_) => NextStep::Local,
                None => NextStep::Broken,
            },
            Instr::Operate(_) => match self.operands.top_two() {
                Some(_) => NextStep::Local,
                None => NextStep::Broken,
            },
            Instr::ProcessAddress(_) => match self.operands.top() {
                Some(h) if version.has_process(h) => NextStep::Local,
                Some(_) | None => NextStep::Broken,
            },
            Instr::Jump(_) | Instr::Raise(_) => NextStep::Local,
            Instr::Call(_) => local_where(self.callers.has_room()),
            Instr::Ret => self.leaving(Request::Return),
            Instr::RetValue => self.leaving_with_value(),
            Instr::Fork(entry, count) => self.forking(entry, count),
            Instr::Load
            | Instr::Store
            | Instr::Swap
            | Instr::CompareSwap
            | Instr::FetchOr
            | Instr::FetchAdd
            | Instr::Print
            | Instr::FutexWait
            | Instr::FutexWake
            | Instr::FutexRequeue => self.asking(instr),
        }
    }

    // A return, which is local where there is a caller.
    fn leaving(&self, request: Request) -> NextStep
        ensures { (r : RequestOf) → request_step r ≡ next.Shared request
            → result ≡ next_step_of (return_look r self.now.operands self.now.callers) }
    {
        if self.callers.is_empty() {
            NextStep::Shared(request)
        } else {
            NextStep::Local
        }
    }

    fn leaving_with_value(&self) -> NextStep
        ensures { result ≡ next_step_of (looks 0 0 (Some RetValue) self.now) }
    {
        match self.operands.top() {
            Some(value) => self.leaving(Request::ReturnValue(value)),
            None => NextStep::Broken,
        }
    }

    // A new thread takes its arguments before the answer comes.
    fn forking(&self, entry: u32, count: u32) -> NextStep
        ensures { result ≡ next_step_of (looks 0 0 (Some (Fork entry count)) self.now) }
    {
        let operands = self.operands.len();
        if (count as usize) > operands {
            return NextStep::Broken;
        }
        NextStep::Fork {
            entry,
            count,
            has_room: operands - (count as usize) < MOST_OPERANDS,
        }
    }

    fn asking(&self, instr: Instr) -> NextStep
        requires { IsRequest instr }
        ensures { (most t : ℕ) → result ≡ next_step_of (looks most t (Some instr) self.now) }
    {
        match self.request(instr) {
            Some(request) => NextStep::Shared(request),
            None => NextStep::Broken,
        }
    }

    // What the instruction asks for with the operands that it takes, where there are so many.
    fn request(&self, instr: Instr) -> Option<Request>
        requires { IsRequest instr }
        ensures { (most t : ℕ) → next_step_of (looks most t (Some instr) self.now)
            ≡ shared_where result }
    {
        match instr {
            Instr::Load => Some(Request::Load(Addr(self.operands.top()?))),
            Instr::Print => Some(Request::Print(self.operands.top()?)),
            Instr::CompareSwap => {
                let (address, expected, new) = self.operands.top_three()?;
                Some(Request::CompareSwap {
                    address: Addr(address),
                    expected,
                    new,
                })
            }
            Instr::FutexRequeue => {
                let (from, to, wake, moves, expected) = self.operands.top_five()?;
                Some(Request::Requeue {
                    from: Addr(from),
                    to: Addr(to),
                    wake,
                    moves,
                    expected,
                })
            }
            _ => {
                let (a, number) = self.operands.top_two()?;
                Some(request_of_two(instr, Addr(a), number))
            }
        }
    }
}

// The request of an instruction that takes an address and a number.
fn request_of_two(instr: Instr, address: Addr, number: u32) -> Request
    requires { TakesTwo instr }
    ensures { (most t place : ℕ) (rest : List ℕ) (locals : LocalsOf) (callers : List FrameOf)
        → next_step_of (look_at most t (Some instr) place (number ∷ address.0 ∷ rest) locals callers)
        ≡ shared_where (Some result) }
{
    match instr {
        Instr::Store => Request::Store(address, number),
        Instr::Swap => Request::Swap(address, number),
        Instr::FetchOr => Request::FetchOr(address, number),
        Instr::FetchAdd => Request::FetchAdd(address, number),
        Instr::FutexWait => Request::Wait {
            address,
            expected: number,
        },
        Instr::FutexWake => Request::Wake {
            address,
            count: number,
        },
        _ => unreachable!(),
    }
}

// A local step where it may be.
fn local_where(may_be: bool) -> NextStep
    ensures { result ≡ local_where may_be }
{
    if may_be {
        NextStep::Local
    } else {
        NextStep::Broken
    }
}
