ghost use Rattle.std.specs.Prelude.{◌≡◌, ◌≤◌, ◌+◌, IfSome, if◌then◌else◌, true};
ghost use Rattle.image_states.specs.Nexts.{may_of};
ghost use Rattle.image_search.specs.Found.{AreNamedTurns, AreTurnsFrom, IsNamedTurn, kills_of, one_kill};

use image_states::Outside;
use runner::Turn;

// Whether a turn is searched, but for how many kills there are.
fn is_named(turn: &Turn, outside: Outside) -> bool
    ensures { result ≡ true → IsNamedTurn (may_of outside) turn.now }
{
    match turn {
        Turn::Stray(_) => outside.strays,
        _ => true,
    }
}

// Whether all of these are, but for how many kills there are.
fn are_named(turns: &[Turn], outside: Outside) -> bool
    ensures { result ≡ true → AreNamedTurns (may_of outside) turns.now }
{
    for turn in turns {
        if !is_named(turn, outside) {
            return false;
        }
    }
    true
}

// Whether a turn is a kill.
fn is_kill(turn: &Turn) -> bool
    ensures { one_kill turn.now ≡ (if result then 1 else 0) }
{
    matches!(turn, Turn::Kill(_))
}

// How many kills may be left behind a turn, of so many before it; None where it is one too many.
fn left_behind(turn: &Turn, left: u32) -> Option<u32>
    ensures { IfSome result (λ n. n + one_kill turn.now ≡ left) }
{
    if !is_kill(turn) {
        return Some(left);
    }
    if left == 0 {
        return None;
    }
    Some(left - 1)
}

// Whether no more of these are kills than this number.
fn are_few_kills(turns: &[Turn], most: u32) -> bool
    ensures { result ≡ true → kills_of turns.now ≤ most }
{
    let mut left = most;
    for turn in turns {
        let Some(behind) = left_behind(turn, left) else {
            return false;
        };
        left = behind;
    }
    true
}

/// Whether no more comes from outside in these turns than may be.
pub(crate) fn are_from(turns: &[Turn], outside: Outside) -> bool
    ensures { result ≡ true → AreTurnsFrom (may_of outside) turns.now }
{
    are_named(turns, outside) && are_few_kills(turns, outside.kills)
}
