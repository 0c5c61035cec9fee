ghost use Rattle.std.specs.Prelude.{◌≡◌, MatchOption, option_map};
ghost use Rattle.program.specs.Trees.{Block, Done, Then};
ghost use Rattle.program.specs.Views.{statement_of};
ghost use Rattle.source_offers.specs.Rests.{IsTaken, rest_in};

use program::Statement;

/// The next statement; None where nothing is left.
pub fn upcoming<'a>(rest: &[&'a [Statement]]) -> Option<&'a Statement>
    ensures { MatchOption result (rest_in rest.now ≡ Done)
        (λ s. (later : Block) × (rest_in rest.now ≡ Then (statement_of s.now) later)) }
{
    match rest {
        [] => None,
        [below @ .., top] => match *top {
            [] => upcoming(below),
            [first, ..] => Some(first),
        },
    }
}

/// Takes the next statement, which is the first of the answer; None where nothing is left.
pub fn take_first<'a>(rest: &mut Vec<&'a [Statement]>) -> Option<&'a [Statement]>
    ensures { IsTaken (option_map (λ s. s.now) result) (rest_in rest.old.items)
        (rest_in rest.new.items) }
{
    let Some(top) = rest.last_mut() else {
        return None;
    };
    let position = *top;
    match position {
        [] => {
            let _empty = rest.pop();
            take_first(rest)
        }
        [_] => {
            let _taken = rest.pop();
            Some(position)
        }
        [_, later @ ..] => {
            *top = later;
            Some(position)
        }
    }
}
