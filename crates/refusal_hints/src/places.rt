// What helps with a statement or a procedure where it isn't allowed.

use crate::lexeme::Lexeme;
use crate::scopes::walk_over;
use crate::spot::Spot;
use scanner::Keyword;

const INTERNAL: &str =
    "an INTERNAL procedure is called in its own monitor alone, without a dot, and is not forked";

const OUTSIDE: &str = "WAIT, NOTIFY and BROADCAST stand in the procedures of monitors alone";

const RECOVER: &str = "a RECOVER part has no WAIT, FORK, JOIN, CALL and RETURN";

/// What is said of what stands at a wrong place.
pub(crate) fn wrong_place_slip(spot: &Spot<'_, '_>) -> &'static str {
    let scope = walk_over(spot.before).scope;
    match spot.here() {
        Lexeme::Name => INTERNAL,
        Lexeme::Word(Keyword::Wait | Keyword::Notify | Keyword::Broadcast) if scope.monitor == 0 =>
            { OUTSIDE }
        _ => RECOVER,
    }
}
