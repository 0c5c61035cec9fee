ghost use Rattle.std.specs.Prelude.{◌≡◌, ◌+◌, ◌<◌, ◌≤◌, ◌==◌, [], ◌∷◌, drop, length, reverse, take, nat_lt};
ghost use Rattle.std.specs.Prelude.{slice_get, IfSome, IfNone, MatchBool, option_copied};

use arrayvec::ArrayVec;
use std::marker::Model;

// So many items are few.
const FEW: usize = 2;

/// A stack of at most `N` items, which takes no memory beyond its own. Contracts see its items from the top one down.
#[derive(Drop)]
pub struct Stack<T, const N: usize> {
    pub(crate) items: ArrayVec<T, N>,
}

impl<T, const N: usize> Model for Stack<T, N> {
    ghost use Rattle.std.specs.Prelude.{List, reverse};

    ghost Value = { List T };

    ghost view = { λ s. reverse s.items.items };
}

impl<T: Copy + Default + Drop, const N: usize> Stack<T, N> {
    /// An empty stack.
    pub fn new() -> Stack<T, N>
        ensures { result ≡ [] }
    {
        Stack {
            items: ArrayVec::new(),
        }
    }

    /// The stack of these items, the last one on top.
    pub fn of(items: &[T]) -> Stack<T, N>
        requires { length items.now ≤ N }
        ensures { result ≡ reverse items.now }
    {
        match ArrayVec::try_from(items) {
            Ok(items) => Stack { items },
            Err(_) => unreachable!(),
        }
    }

    /// A copy.
    pub fn copy(&self) -> Stack<T, N>
        ensures { result ≡ self.now }
    {
        match ArrayVec::try_from(self.items.as_slice()) {
            Ok(items) => Stack { items },
            Err(_) => unreachable!(),
        }
    }

    /// Whether it has few items.
    #[inline(always)]
    pub fn is_few(&self) -> bool
        ensures { MatchBool result (length self.now ≤ 2) (2 < length self.now) }
    {
        self.items.len() <= FEW
    }

    /// Becomes a copy of another, in its place, where both have few items: so many are written without a call.
    #[inline(always)]
    pub fn copy_few(&mut self, other: &Stack<T, N>)
        requires { (length self.old ≤ 2) × (length other.now ≤ 2) }
        ensures { self.new ≡ other.now }
    {
        let _upper = self.items.pop();
        let _lower = self.items.pop();
        let from = other.items.as_slice();
        if !from.is_empty() {
            self.items.push(from[0]);
        }
        if from.len() > 1 {
            self.items.push(from[1]);
        }
    }

    /// The same of any number. As many items as it has are written over, and not taken off first.
    pub fn copy_from(&mut self, other: &Stack<T, N>)
        ensures { self.new ≡ other.now }
    {
        let from = other.items.as_slice();
        let kept = self.items.len().min(from.len());
        self.items.truncate(kept);
        self.items.as_mut_slice().copy_from_slice(&from[..kept]);
        if kept < from.len() && self.items.try_extend_from_slice(&from[kept..]).is_err() {
            unreachable!()
        }
    }

    /// How many items it has.
    pub fn len(&self) -> usize
        ensures value { result ≡ length self.now }
        ensures within { result ≤ N }
    {
        self.items.len()
    }

    /// Whether one more item fits.
    pub fn has_room(&self) -> bool
        ensures { result ≡ nat_lt (length self.now) N }
    {
        self.items.len() < N
    }

    /// Whether it has no item.
    pub fn is_empty(&self) -> bool
        ensures { result ≡ (length self.now == 0) }
    {
        self.items.is_empty()
    }

    /// The top item.
    pub fn top(&self) -> Option<T>
        ensures none { IfNone result (self.now ≡ []) }
        ensures some { IfSome result (λ item. self.now ≡ item ∷ drop 1 self.now) }
    {
        self.below_top(0)
    }

    /// The top item, where it stands.
    pub fn top_in_place(&self) -> Option<&T>
        ensures { option_copied result ≡ slice_get self.now 0 }
    {
        self.items.as_slice().last()
    }

    /// The two uppermost items, the lower one first.
    pub fn top_two(&self) -> Option<(T, T)>
        ensures none { IfNone result (length self.now < 2) }
        ensures some { IfSome result (λ items. self.now ≡ items.1 ∷ items.0 ∷ drop 2 self.now) }
    {
        Some((self.below_top(1)?, self.below_top(0)?))
    }

    /// The three uppermost items, from the lowest one up.
    pub fn top_three(&self) -> Option<(T, T, T)>
        ensures none { IfNone result (length self.now < 3) }
        ensures some { IfSome result (λ items. self.now
            ≡ items.2 ∷ items.1 ∷ items.0 ∷ drop 3 self.now) }
    {
        Some((self.below_top(2)?, self.below_top(1)?, self.below_top(0)?))
    }

    /// The five uppermost items, from the lowest one up.
    pub fn top_five(&self) -> Option<(T, T, T, T, T)>
        ensures none { IfNone result (length self.now < 5) }
        ensures some { IfSome result
            (λ items. self.now ≡ items.4 ∷ items.3 ∷ items.2 ∷ items.1 ∷ items.0 ∷ drop 5 self.now) }
    {
        Some((
            self.below_top(4)?,
            self.below_top(3)?,
            self.below_top(2)?,
            self.below_top(1)?,
            self.below_top(0)?,
        ))
    }

    // The item so far below the top one.
    fn below_top(&self, depth: usize) -> Option<T>
        ensures { result ≡ slice_get self.now depth }
    {
        let items = self.items.as_slice();
        if depth < items.len() {
            Some(items[items.len() - 1 - depth])
        } else {
            None
        }
    }

    /// Puts an item on top.
    pub fn push(&mut self, item: T)
        requires { length self.old < N }
        ensures { self.new ≡ item ∷ self.old }
    {
        self.items.push(item);
    }

    /// Takes the top item.
    pub fn pop(&mut self) -> Option<T>
        ensures none { IfNone result ((self.old ≡ []) × (self.new ≡ [])) }
        ensures some { IfSome result (λ item. self.old ≡ item ∷ self.new) }
        ensures room { IfSome result (λ item. length self.new < N) }
    {
        prove!(self.items.len() <= N);
        self.items.pop()
    }

    /// Takes the two uppermost items, the lower one first. Where there is one, it stays.
    pub fn pop_two(&mut self) -> Option<(T, T)>
        ensures none { IfNone result ((length self.old < 2) × (self.new ≡ self.old)) }
        ensures some { IfSome result (λ items. self.old ≡ items.1 ∷ items.0 ∷ self.new) }
        ensures room { IfSome result (λ items. length self.new < N) }
    {
        let upper = self.pop()?;
        match self.pop() {
            Some(lower) => Some((lower, upper)),
            None => {
                self.push(upper);
                None
            }
        }
    }

    /// Takes so many items off the top.
    pub fn drop_top(&mut self, count: usize)
        requires { count ≤ length self.old }
        ensures value { self.new ≡ drop count self.old }
        ensures room { length self.new + count ≤ N }
    {
        prove!(self.items.len() <= N);
        self.items.truncate(self.items.len() - count);
    }

    /// The items from the lowest one up.
    pub fn as_slice(&self) -> &[T]
        ensures { result.now ≡ reverse self.now }
    {
        self.items.as_slice()
    }

    /// So many uppermost items, from the lowest one up.
    pub fn uppermost(&self, count: usize) -> &[T]
        requires { count ≤ length self.now }
        ensures value { result.now ≡ reverse (take count self.now) }
        ensures within { length result.now ≤ N }
    {
        let items = self.items.as_slice();
        &items[items.len() - count..]
    }
}
