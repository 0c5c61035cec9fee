use crate::answer::Answer;
use crate::failure::Failure;
use crate::walk::walk;
use buckets::{Buckets, ThreadList};
use futexcalls::{FutexLists, cmp_requeue, wait, wake};
use robustexit::ExitRule;
use std::alloc::Global;
use std::marker::Model;
use words::{Addr, Mem};

// How many words there are.
const WORDS: usize = 512;

// How many threads.
const THREADS: u32 = 64;

/// 512 words, and who of 64 threads sleeps.
#[derive(Drop)]
pub struct Layers {
    mem: Mem,
    buckets: Buckets,
}

impl Model for Layers {
    ghost use Rattle.std.specs.Prelude.{◌≡◌, List, ℕ, length};
    ghost use Rattle.buckets.specs.Sleepers.{thread_count};

    ghost Value = { List ℕ };

    ghost view = { λ l. l.mem };

    ghost invariant = { λ l. (length l.mem ≡ 512) × (thread_count l.buckets ≡ 64) };
}

/// The numbers of a call.
pub fn numbers(alloc: Global, text: &str) -> Result<Vec<u32>, Failure> {
    let mut numbers = Vec::new(alloc);
    for word in text.split_whitespace() {
        match word.parse::<u32>() {
            Ok(number) => numbers.push(number)?,
            Err(_) => return Err(Failure::Row),
        }
    }
    Ok(numbers)
}

impl Layers {
    /// Words of 0, and nobody asleep, in so many buckets.
    pub fn new(alloc: Global, buckets: u32) -> Result<Layers, Failure> {
        if !Buckets::allowed(buckets) {
            return Err(Failure::Outside);
        }
        Ok(Layers {
            mem: Mem::new(alloc, WORDS)?,
            buckets: Buckets::new(alloc, buckets, THREADS)?,
        })
    }

    /// The call of this name with the numbers of a text.
    pub fn call(&mut self, alloc: Global, name: &str, text: &str) -> Result<Answer, Failure> {
        let numbers = numbers(alloc, text)?;
        match numbers.as_slice() {
            [a] => self.call_one(alloc, name, *a),
            [a, b] => self.call_two(alloc, name, *a, *b),
            [a, b, c] => self.call_three(alloc, name, *a, *b, *c),
            [a, b, wake, moves, expected] if name == "requeue" => self.requeue(
                alloc,
                [*a, *b],
                *wake,
                *moves,
                *expected,
            ),
            _ => Err(Failure::Row),
        }
    }

    fn call_one(&mut self, alloc: Global, name: &str, a: u32) -> Result<Answer, Failure> {
        match name {
            "buckets" => self.renew(alloc, a),
            "load" => self.load(a),
            "exit" => self.exit(alloc, ExitRule::WakesAlways, a),
            "exit_unowned" => self.exit(alloc, ExitRule::WakesUnowned, a),
            "exit_uncovered" => self.exit(alloc, ExitRule::WakesUncovered, a),
            "asleep" => self.asleep(a),
            "drop" => self.drop_out(a),
            "list" => self.list(alloc, a),
            _ => Err(Failure::Row),
        }
    }

    fn call_two(&mut self, alloc: Global, name: &str, a: u32, b: u32) -> Result<Answer, Failure> {
        match name {
            "store" => self.store(a, b),
            "swap" | "or" | "add" => self.replace(name, a, b),
            "sleep" => self.sleep(a, b),
            "take" => self.take(alloc, a, b),
            "wake" => self.wake(alloc, a, b),
            _ => Err(Failure::Row),
        }
    }

    fn call_three(
        &mut self,
        alloc: Global,
        name: &str,
        a: u32,
        b: u32,
        c: u32,
    ) -> Result<Answer, Failure> {
        match name {
            "compare_swap" => self.compare_swap(a, b, c),
            "shift" => self.shift(alloc, a, b, c),
            "wait" => self.wait(a, b, c),
            _ => Err(Failure::Row),
        }
    }

    fn renew(&mut self, alloc: Global, buckets: u32) -> Result<Answer, Failure> {
        *self = Layers::new(alloc, buckets)?;
        Ok(Answer::Done)
    }

    fn load(&self, a: u32) -> Result<Answer, Failure> {
        if a as usize >= WORDS {
            return Err(Failure::Outside);
        }
        Ok(Answer::Word(self.mem.load(Addr(a))))
    }

    fn store(&mut self, a: u32, v: u32) -> Result<Answer, Failure> {
        if a as usize >= WORDS {
            return Err(Failure::Outside);
        }
        self.mem.store(Addr(a), v);
        Ok(Answer::Done)
    }

    fn replace(&mut self, name: &str, a: u32, v: u32) -> Result<Answer, Failure> {
        if a as usize >= WORDS {
            return Err(Failure::Outside);
        }
        let before = match name {
            "swap" => self.mem.swap(Addr(a), v),
            "or" => self.mem.fetch_or(Addr(a), v),
            _ => self.mem.fetch_add(Addr(a), v),
        };
        Ok(Answer::Word(before))
    }

    fn compare_swap(&mut self, a: u32, expected: u32, new: u32) -> Result<Answer, Failure> {
        if a as usize >= WORDS {
            return Err(Failure::Outside);
        }
        Ok(Answer::Word(self.mem.compare_swap(Addr(a), expected, new)))
    }

    fn sleep(&mut self, t: u32, a: u32) -> Result<Answer, Failure> {
        if t == 0 || t > THREADS || self.buckets.asleep(t).is_some() {
            return Err(Failure::Outside);
        }
        self.buckets.enqueue(t, Addr(a));
        Ok(Answer::Done)
    }

    fn asleep(&self, t: u32) -> Result<Answer, Failure> {
        if t > THREADS {
            return Err(Failure::Outside);
        }
        Ok(Answer::Place(self.buckets.asleep(t)))
    }

    fn drop_out(&mut self, t: u32) -> Result<Answer, Failure> {
        if t > THREADS {
            return Err(Failure::Outside);
        }
        self.buckets.drop_out(t);
        Ok(Answer::Done)
    }

    fn list(&self, alloc: Global, a: u32) -> Result<Answer, Failure> {
        let mut threads = ThreadList::new(alloc)?;
        self.buckets.sleepers(Addr(a), &mut threads);
        Ok(Answer::Threads(threads))
    }

    fn take(&mut self, alloc: Global, a: u32, n: u32) -> Result<Answer, Failure> {
        let mut taken = ThreadList::new(alloc)?;
        self.buckets.take(Addr(a), n, &mut taken);
        Ok(Answer::Threads(taken))
    }

    fn shift(&mut self, alloc: Global, a: u32, b: u32, n: u32) -> Result<Answer, Failure> {
        let mut moved = ThreadList::new(alloc)?;
        self.buckets.shift(Addr(a), Addr(b), n, &mut moved);
        Ok(Answer::Threads(moved))
    }

    fn wake(&mut self, alloc: Global, a: u32, n: u32) -> Result<Answer, Failure> {
        let mut woken = ThreadList::new(alloc)?;
        wake(&mut self.buckets, Addr(a), n, &mut woken);
        Ok(Answer::Threads(woken))
    }

    fn wait(&mut self, t: u32, a: u32, expected: u32) -> Result<Answer, Failure> {
        if t == 0 || t > THREADS || self.buckets.asleep(t).is_some() {
            return Err(Failure::Outside);
        }
        if a as usize >= WORDS {
            return Err(Failure::Outside);
        }
        Ok(Answer::Waited(wait(&self.mem, &mut self.buckets, t, Addr(a), expected)))
    }

    fn requeue(
        &mut self,
        alloc: Global,
        [a, b]: [u32; 2],
        wake: u32,
        moves: u32,
        expected: u32,
    ) -> Result<Answer, Failure> {
        if a as usize >= WORDS {
            return Err(Failure::Outside);
        }
        let mut lists = FutexLists::new(alloc)?;
        let requeued = cmp_requeue(
            &self.mem,
            &mut self.buckets,
            Addr(a),
            Addr(b),
            wake,
            moves,
            expected,
            &mut lists,
        );
        Ok(Answer::Requeued(requeued.is_ok().then_some(lists)))
    }

    fn exit(&mut self, alloc: Global, rule: ExitRule, t: u32) -> Result<Answer, Failure> {
        if t == 0 || t > THREADS {
            return Err(Failure::Outside);
        }
        let mut woken = ThreadList::new(alloc)?;
        let steps = walk(rule, &mut self.mem, &mut self.buckets, t, &mut woken);
        Ok(Answer::Steps(steps))
    }
}
