//! The beginnings and ends of threads, and what they print.
ghost use Rattle.std.specs.Prelude.{◌≡◌, ◌<◌, ◌≤◌, ℕ, Ok, length};
ghost use Rattle.words.specs.Process.{process_word};
ghost use Rattle.buckets.specs.Sleepers.{thread_count};
ghost use Rattle.locals.specs.Looks.{AskPrint, AskReturn, AskReturnValue, AskFault};
ghost use Rattle.machine.specs.ConcreteServing.{serve, set_word};
ghost use Rattle.machine.specs.RequestMeanings.{with_common};
ghost use Rattle.machine.specs.Views.{common};

use crate::common::Common;
use crate::event::{Event, EventName};
use words::{Cause, ENDED, ProcessWord, block, signed};

impl Common {
    /// Prints a number, given as its word.
    pub fn print(&mut self, number: u32, event: &mut Event) -> u32
        requires { length self.old.output < self.old.capacity }
        ensures gives { (made t : ℕ)
            → serve made t (AskPrint number) (common self.old)
            ≡ with_common (Ok result) event.new (common self.new) }
        ensures capacity { self.new.capacity ≡ self.old.capacity }
        ensures holders { self.new.sleepers.holders ≡ self.old.sleepers.holders }
    {
        self.output.push_reserved(signed(number));
        event.put(EventName::Print, number);
        0
    }

    /// Thread `t` ends by the return of its last frame. The answer is the first entry of its robust list.
    pub fn end(&mut self, t: u32, event: &mut Event) -> u32
        requires { (1 ≤ t) × (t ≤ thread_count self.old.sleepers) }
        ensures gives { (made : ℕ)
            → serve made t AskReturn (common self.old) ≡ with_common (Ok result) event.new (common self.new) }
        ensures capacity { self.new.capacity ≡ self.old.capacity }
        ensures holders { self.new.sleepers.holders ≡ self.old.sleepers.holders }
    {
        let head = self.words.load(block(t, ProcessWord::Head));
        self.words.store(block(t, ProcessWord::Outcome), ENDED);
        event.put(EventName::Ret, ENDED);
        head
    }

    /// Thread `t` ends by the return of its last frame with a value. The answer is the first entry of its robust list.
    pub fn end_with(&mut self, t: u32, value: u32, event: &mut Event) -> u32
        requires { (1 ≤ t) × (t ≤ thread_count self.old.sleepers) }
        ensures gives { (made : ℕ)
            → serve made t (AskReturnValue value) (common self.old)
            ≡ with_common (Ok result) event.new (common self.new) }
        ensures capacity { self.new.capacity ≡ self.old.capacity }
        ensures holders { self.new.sleepers.holders ≡ self.old.sleepers.holders }
    {
        self.words.store(block(t, ProcessWord::Result), value);
        let head = self.words.load(block(t, ProcessWord::Head));
        self.words.store(block(t, ProcessWord::Outcome), ENDED);
        event.put(EventName::RetValue, value);
        head
    }

    /// Thread `t` dies of this cause. The answer is the first entry of its robust list.
    pub fn die(&mut self, t: u32, cause: Cause, event: &mut Event) -> u32
        requires { (1 ≤ t) × (t ≤ thread_count self.old.sleepers) }
        ensures gives { (made : ℕ)
            → serve made t (AskFault cause) (common self.old)
            ≡ with_common (Ok result) event.new (common self.new) }
        ensures capacity { self.new.capacity ≡ self.old.capacity }
        ensures holders { self.new.sleepers.holders ≡ self.old.sleepers.holders }
    {
        let head = self.words.load(block(t, ProcessWord::Head));
        self.words
            .store(block(t, ProcessWord::Outcome), cause.number());
        event.put(EventName::Die, cause.number());
        head
    }

    /// Thread `t` begins: its id word is its number.
    pub fn open_thread(&mut self, t: u32)
        requires { (1 ≤ t) × (t ≤ thread_count self.old.sleepers) }
        ensures gives { common self.new ≡ set_word (common self.old) (process_word t 2) t }
        ensures capacity { self.new.capacity ≡ self.old.capacity }
        ensures holders { self.new.sleepers.holders ≡ self.old.sleepers.holders }
    {
        self.words.store(block(t, ProcessWord::Id), t);
    }
}
