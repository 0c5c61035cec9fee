// Monitors.

ghost use Rattle.std.specs.Prelude.{◌≤◌, ◌<◌, length, map, [], ◌∷◌, IfOk, IfErr, OnOk, OnSome};
ghost use Rattle.syntax.specs.View.{recover_of, monitor_of};
ghost use Rattle.grammar.specs.Machine.{ARecover, Monitors};
ghost use Rattle.grammar.specs.Reading.{Passes, Fails};
ghost use Rattle.token_cursor.specs.Ahead.{ahead};
ghost use Rattle.parser.specs.Steps.{ReadsNext, add_monitor};

use crate::declaration::members;
use crate::procedure::{body, monitor_procedures};
use scanner::{Keyword, Refusal, Sign};
use syntax::{Monitor, Recover};
use token_cursor::{Parser, refused};

// The recover part, if there is one.
fn recover<'a>(parser: &mut Parser<'_, 'a>) -> Result<Option<Recover<'a>>, Refusal>
    ensures ok { IfOk result
        (λ r. Passes 0 (ARecover ∷ []) (recover_of r, tt) (ahead parser.old) (ahead parser.new)) }
    ensures err { IfErr result (λ e. Fails 0 (ARecover ∷ []) (ahead parser.old) e) }
    ensures within { OnOk result (length (ahead parser.new) ≤ length (ahead parser.old)) }
{
    let Some(place) = parser.eat_placed(Keyword::Recover) else {
        return Ok(None);
    };
    let body = body(parser)?;
    match parser.expect_sign(Sign::Semicolon) {
        Ok(()) => Ok(Some(Recover { place, body })),
        Err(refusal) => refused(body, refusal),
    }
}

// A monitor, if one begins.
fn monitor<'a>(parser: &mut Parser<'_, 'a>) -> Result<Option<Monitor<'a>>, Refusal>
    ensures ok { IfOk result
        (λ m. ReadsNext 0 Monitors add_monitor [] m (ahead parser.old) (ahead parser.new)) }
    ensures err { IfErr result (λ e. Fails 0 (Monitors ∷ []) (ahead parser.old) e) }
    ensures within { OnOk result (length (ahead parser.new) ≤ length (ahead parser.old)) }
    ensures shorter { IfOk result
        (λ m. OnSome m (length (ahead parser.new) < length (ahead parser.old))) }
{
    let Some(place) = parser.eat_placed(Keyword::Monitor) else {
        return Ok(None);
    };
    let name = parser.expect_name()?;
    parser.expect_sign(Sign::Semicolon)?;
    let members = members(parser)?;
    let procedures = match monitor_procedures(parser) {
        Ok(procedures) => procedures,
        Err(refusal) => return refused(members, refusal),
    };
    let recover = match recover(parser) {
        Ok(recover) => recover,
        Err(refusal) => return refused((members, procedures), refusal),
    };
    let monitor = Monitor {
        place,
        name,
        members,
        procedures,
        recover,
    };
    match parser.expect_keyword(Keyword::End) {
        Ok(()) => {}
        Err(refusal) => return refused(monitor, refusal),
    }
    match parser.expect_sign(Sign::Semicolon) {
        Ok(()) => Ok(Some(monitor)),
        Err(refusal) => refused(monitor, refusal),
    }
}

/// Monitors, as many as there are.
pub fn monitors<'a>(parser: &mut Parser<'_, 'a>) -> Result<Vec<Monitor<'a>>, Refusal>
    ensures ok { IfOk result (λ v.
        Passes 0 (Monitors ∷ []) (map monitor_of v.items, tt) (ahead parser.old) (ahead parser.new)) }
    ensures err { IfErr result (λ e. Fails 0 (Monitors ∷ []) (ahead parser.old) e) }
    ensures within { OnOk result (length (ahead parser.new) ≤ length (ahead parser.old)) }
{
    let mut monitors = Vec::new(parser.alloc);
    'monitors: while let Some(monitor) = monitor(parser)? {
        monitors.push(monitor)?;
    }
    Ok(monitors)
}
