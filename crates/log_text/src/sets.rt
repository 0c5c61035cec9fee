ghost use Rattle.std.specs.Prelude.{◌≡◌, ◌<◌, ◌≤◌, ◌++◌, ◌⊎◌, ℕ, List, MatchBool, MatchOption, IfSome, length};
ghost use Rattle.words.specs.Limits.{most_threads};
ghost use Rattle.machine.specs.ThreadSets.{set_of};
ghost use Rattle.machine.specs.declared.thread_set.ThreadSet.{ThreadSet as Set};
ghost use Rattle.log_text.specs.Cuts.{AfterSet, IsRow, IsThreadSet, NoNumber, Rises};
ghost use Rattle.log_text.specs.LogLines.{numbers_text, set_text};

use crate::numbers::spaced_number;
use crate::parts::past_word;
use arrayvec::ArrayVec;
use machine::{MOST_THREADS, ThreadSet};

// How many threads there can be.
const PLACES: usize = MOST_THREADS as usize;

/// The set that stands behind this word at the front of a text, and what follows it; the empty set, and the text, where
/// the word isn't there. None where no rising threads stand behind the word.
pub fn set_after<'a>(text: &'a [u8], word: &[u8]) -> Option<(ThreadSet, &'a [u8])>
    ensures small { IfSome result (λ p. IsThreadSet p.0) }
    ensures read { IfSome result (λ p. text.now ≡ set_text word.now p.0 ++ p.1.now) }
    ensures reads { (set : Set) (rest : List ℕ) → IsThreadSet set → AfterSet word.now rest
        → text.now ≡ set_text word.now set ++ rest
        → MatchOption result ⊥ (λ p. (p.0 ≡ set) × (p.1.now ≡ rest)) }
{
    match past_word(text, word) {
        Some(threads) => threads_of(threads),
        None => Some((ThreadSet::new(), text)),
    }
}

// The set of the rising threads at the front of a text, each behind a space, and what follows them; None where there is
// none, or one that doesn't rise.
fn threads_of(text: &[u8]) -> Option<(ThreadSet, &[u8])>
    ensures read { IfSome result (λ p. IsRow text.now p.0 p.1.now) }
    ensures reads { (ts : List ℕ) (rest : List ℕ) → Rises 0 ts → 0 < length ts → NoNumber rest
        → text.now ≡ numbers_text ts ++ rest
        → MatchOption result ⊥ (λ p. (p.0 ≡ set_of ts) × (p.1.now ≡ rest)) }
{
    let mut threads: ArrayVec<u32, PLACES> = ArrayVec::new();
    let mut last = 0;
    let mut rest = text;
    'walk: while let Some((thread, after)) = spaced_number(rest) {
        if !rises(last, thread) {
            return None;
        }
        threads.push(thread);
        last = thread;
        rest = after;
    }
    if last == 0 {
        return None;
    }
    Some((ThreadSet::of(threads.as_slice()), rest))
}

// Whether this is the number of a thread above the last one.
fn rises(last: u32, thread: u32) -> bool
    ensures { MatchBool result ((last < thread) × (thread ≤ most_threads)) ((thread ≤ last) ⊎ (most_threads < thread)) }
{
    last < thread && thread <= MOST_THREADS
}
