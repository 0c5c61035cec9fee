//! How an activation goes on with the answer to what it asked for.
ghost use Rattle.std.specs.Prelude.{◌≡◌, ◌<◌, ◌∷◌, ℕ, Some, None, slice_get, MatchBool, MatchOption};
ghost use Rattle.words.specs.Versions.{most_of};
ghost use Rattle.isa.specs.Limits.{most_instructions};
ghost use Rattle.isa.specs.declared.instr.Instr.TheVariants.{Fork, Store, Print};
ghost use Rattle.locals.specs.Looks.{Request as RequestOf, Asking, return_look, on_one, on_two, on_three, on_five};
ghost use Rattle.locals.specs.Requests.{after_answer, fork_child, CanBeAnswered};
ghost use Rattle.locals.specs.Views.{running, looks, at_its_place, Follows};

use crate::activation::Activation;
use crate::progress::Answered;
use isa::{Image, Instr};
use robustexit::phase_at;
use words::{Fault, ImageVersion};

impl Activation {
    /// Goes on with the answer to the wait or wake that it makes, if it makes one, as most do that go on with an answer. Says
    /// whether it does; else nothing has changed.
    #[inline(always)]
    pub fn answer_call(&mut self, image: &Image, answer: u32) -> bool
        ensures { (t : ℕ) → MatchBool result
            (Follows Answered.GoesOn (after_answer
            (looks (most_of image.now.version) t (slice_get image.now.code self.old.place) self.old)
            answer (running self.old)) self.new)
            (self.new ≡ self.old) }
    {
        match image.code().get(self.place as usize) {
            Some(Instr::FutexWait | Instr::FutexWake) if self.operands.len() > 1 => {
                self.operands.drop_top(2);
                self.operands.push(answer);
                self.place += 1;
                true
            }
            _ => false,
        }
    }

    /// Goes on with the answer to the request that it makes, if it makes one.
    pub fn go_on(&mut self, image: &Image, t: u32, answer: u32) -> Answered
        requires { CanBeAnswered
            (looks (most_of image.now.version) t (slice_get image.now.code self.old.place) self.old)
            answer }
        ensures { Follows result
            (after_answer
            (looks (most_of image.now.version) t (slice_get image.now.code self.old.place) self.old)
            answer (running self.old)) self.new }
    {
        match image.at(self.place) {
            Some(instr) => self.answer(instr, image.version(), t, answer),
            None => Answered::GoesOn,
        }
    }

    fn answer(&mut self, instr: Instr, version: ImageVersion, t: u32, answer: u32) -> Answered
        requires place { self.old.place < most_instructions }
        requires fits { CanBeAnswered (looks (most_of version) t (Some instr) self.old) answer }
        ensures { Follows result
            (after_answer (looks (most_of version) t (Some instr) self.old) answer (running self.old)) self.new }
    {
        match instr {
            Instr::Load => self.replace_one(answer),
            Instr::Swap | Instr::FetchOr | Instr::FetchAdd | Instr::FutexWait | Instr::FutexWake =>
                { self.replace_two(answer) }
            Instr::CompareSwap => self.replace_three(answer),
            Instr::FutexRequeue => self.replace_five(answer),
            Instr::Store => self.stored(),
            Instr::Print => self.printed(),
            Instr::Fork(entry, count) => self.answer_fork(entry, count, answer),
            Instr::Ret => self.answer_return(answer),
            Instr::RetValue => {
                if self.operands.is_empty() {
                    Answered::GoesOn
                } else {
                    self.answer_return(answer)
                }
            }
            _ => Answered::GoesOn,
        }
    }

    fn replace_one(&mut self, answer: u32) -> Answered
        requires { self.old.place < most_instructions }
        ensures { (asks : ℕ → RequestOf)
            → Follows result (after_answer
            (at_its_place self.old (on_one self.old.operands
            (λ a rest. Asking (asks a) (λ v. v ∷ rest)))) answer
            (running self.old)) self.new }
    {
        if self.operands.pop().is_some() {
            self.operands.push(answer);
            self.place += 1;
        }
        Answered::GoesOn
    }

    fn replace_two(&mut self, answer: u32) -> Answered
        requires { self.old.place < most_instructions }
        ensures { (asks : ℕ → ℕ → RequestOf)
            → Follows result (after_answer
            (at_its_place self.old (on_two self.old.operands
            (λ a b rest. Asking (asks a b) (λ v. v ∷ rest)))) answer
            (running self.old)) self.new }
    {
        if self.operands.pop_two().is_some() {
            self.operands.push(answer);
            self.place += 1;
        }
        Answered::GoesOn
    }

    fn replace_three(&mut self, answer: u32) -> Answered
        requires { self.old.place < most_instructions }
        ensures { (asks : ℕ → ℕ → ℕ → RequestOf)
            → Follows result (after_answer
            (at_its_place self.old (on_three self.old.operands
            (λ a b c rest. Asking (asks a b c) (λ v. v ∷ rest))))
            answer (running self.old)) self.new }
    {
        if self.operands.top_three().is_some() {
            self.operands.drop_top(3);
            self.operands.push(answer);
            self.place += 1;
        }
        Answered::GoesOn
    }

    fn replace_five(&mut self, answer: u32) -> Answered
        requires { self.old.place < most_instructions }
        ensures { (asks : ℕ → ℕ → ℕ → ℕ → ℕ → RequestOf)
            → Follows result (after_answer
            (at_its_place self.old (on_five self.old.operands
            (λ a b c d e rest. Asking (asks a b c d e)
            (λ v. v ∷ rest)))) answer (running self.old)) self.new }
    {
        if self.operands.top_five().is_some() {
            self.operands.drop_top(5);
            self.operands.push(answer);
            self.place += 1;
        }
        Answered::GoesOn
    }

    fn stored(&mut self) -> Answered
        requires { self.old.place < most_instructions }
        ensures { (answer : ℕ) → Follows result
            (after_answer (looks 0 0 (Some Store) self.old) answer (running self.old)) self.new }
    {
        if self.operands.pop_two().is_some() {
            self.place += 1;
        }
        Answered::GoesOn
    }

    fn printed(&mut self) -> Answered
        requires { self.old.place < most_instructions }
        ensures { (answer : ℕ) → Follows result
            (after_answer (looks 0 0 (Some Print) self.old) answer (running self.old)) self.new }
    {
        if self.operands.pop().is_some() {
            self.place += 1;
        }
        Answered::GoesOn
    }

    fn answer_fork(&mut self, entry: u32, count: u32, answer: u32) -> Answered
        requires place { self.old.place < most_instructions }
        requires fits { CanBeAnswered (looks 0 0 (Some (Fork entry count)) self.old) answer }
        ensures { Follows result
            (after_answer (looks 0 0 (Some (Fork entry count)) self.old) answer (running self.old))
            self.new }
    {
        let count = count as usize;
        if count > self.operands.len() {
            return Answered::GoesOn;
        }
        if answer == 0 {
            return Answered::Fails(Fault::ProcessTableFull);
        }
        self.operands.drop_top(count);
        self.operands.push(answer);
        self.place += 1;
        Answered::GoesOn
    }

    fn answer_return(&mut self, answer: u32) -> Answered
        ensures { (request : RequestOf)
            → Follows result
            (after_answer (return_look request self.old.operands self.old.callers) answer
            (running self.old)) self.new }
    {
        if self.callers.is_empty() {
            Answered::Leaves(phase_at(answer, 0))
        } else {
            Answered::GoesOn
        }
    }

    /// The thread that it forks, where that is what it asks for.
    pub fn child(&self, image: &Image, t: u32) -> Option<Activation>
        ensures { let look = looks (most_of image.now.version) t
            (slice_get image.now.code self.now.place) self.now in
            MatchOption result (fork_child look ≡ None)
            (λ child. fork_child look ≡ Some (running child)) }
    {
        match image.at(self.place) {
            Some(Instr::Fork(entry, count)) if count as usize <= self.operands.len() => {
                Some(Activation::start(entry, self.operands.uppermost(count as usize)))
            }
            _ => None,
        }
    }
}
