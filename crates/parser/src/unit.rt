// A whole unit.

ghost use Rattle.std.specs.Prelude.{◌≡◌, ◌≤◌, ◌⊎◌, [], ◌∷◌, IfOk, IfErr, MatchResult, OnOk};
ghost use Rattle.scanner.specs.declared.refusal.RefusalKind.TheVariants.{Memory};
ghost use Rattle.scanner.specs.declared.token.Keyword.TheVariants as K;
ghost use Rattle.scanner.specs.declared.token.Sign.TheVariants as S;
ghost use Rattle.scanner.specs.Refusals.{out_of_memory};
ghost use Rattle.scanner.specs.Tokens.{EndsOnce, views};
ghost use Rattle.syntax.specs.Lexeme.{lexemes};
ghost use Rattle.syntax.specs.Limits.{most_nestings};
ghost use Rattle.syntax.specs.Tree.{UnitTree};
ghost use Rattle.syntax.specs.Spelling.{unit_text};
ghost use Rattle.syntax.specs.Nesting.{unit_nesting};
ghost use Rattle.syntax.specs.View.{name_of, body_of};
ghost use Rattle.syntax.specs.Whole.{unit_of};
ghost use Rattle.grammar.specs.Accepts.{IsRefusalOf};
ghost use Rattle.grammar.specs.Machine.{AWord, AMark, AName, AWordAt, body as a_body, unit as a_unit};
ghost use Rattle.grammar.specs.Machine.{reads, unit_trees, Read, Refused};
ghost use Rattle.grammar.specs.Reading.{Passes, Fails};
ghost use Rattle.token_cursor.specs.Ahead.{ahead};
ghost use Rattle.parser.specs.Steps.{body_trees};

use crate::monitor::monitors;
use crate::procedure::{body, procedures};
use scanner::{Keyword, Refusal, RefusalKind, Sign, Token};
use std::alloc::Global;
use syntax::{Main, Name, Unit};
use token_cursor::{Parser, refused};

// PROGRAM, and the program's name.
fn heading<'a>(parser: &mut Parser<'_, 'a>) -> Result<Name<'a>, Refusal>
    ensures ok { IfOk result (λ n.
        Passes 0 (AWord K.Program ∷ AName ∷ AMark S.Semicolon ∷ []) (tt, (name_of n, (tt, tt)))
        (ahead parser.old) (ahead parser.new)) }
    ensures err { IfErr result
        (λ e. Fails 0 (AWord K.Program ∷ AName ∷ AMark S.Semicolon ∷ []) (ahead parser.old) e) }
{
    parser.expect_keyword(Keyword::Program)?;
    let name = parser.expect_name()?;
    parser.expect_sign(Sign::Semicolon)?;
    Ok(name)
}

// What process 1 runs.
fn main_part<'a>(parser: &mut Parser<'_, 'a>) -> Result<Main<'a>, Refusal>
    ensures ok { IfOk result (λ m.
        Passes 0 (AWordAt K.Main ∷ a_body []) (m.place, body_trees (body_of m.body))
        (ahead parser.old) (ahead parser.new)) }
    ensures err { IfErr result (λ e. Fails 0 (AWordAt K.Main ∷ a_body []) (ahead parser.old) e) }
{
    let place = parser.expect_placed(Keyword::Main)?;
    let body = body(parser)?;
    Ok(Main { place, body })
}

// The last sign, and the end of the text.
fn finish(parser: &mut Parser<'_, '_>) -> Result<(), Refusal>
    ensures ok { OnOk result (reads most_nestings (ahead parser.old) (AMark S.Dot ∷ [])
        ≡ Read (tt, tt)) }
    ensures err { IfErr result (λ e. reads most_nestings (ahead parser.old) (AMark S.Dot ∷ [])
        ≡ Refused e) }
{
    parser.expect_sign(Sign::Dot)?;
    parser.expect_end()?;
    Ok(())
}

// A whole unit, and the end of the text.
fn unit<'a>(parser: &mut Parser<'_, 'a>) -> Result<Unit<'a>, Refusal>
    ensures ok { IfOk result (λ u. reads most_nestings (ahead parser.old) a_unit
        ≡ Read (unit_trees (unit_of u))) }
    ensures err { IfErr result (λ e. (e.kind ≡ Memory)
        ⊎ (reads most_nestings (ahead parser.old) a_unit ≡ Refused e)) }
{
    let name = heading(parser)?;
    let monitors = monitors(parser)?;
    let procedures = match procedures(parser) {
        Ok(procedures) => procedures,
        Err(refusal) => return refused(monitors, refusal),
    };
    let main = match main_part(parser) {
        Ok(main) => main,
        Err(refusal) => return refused((monitors, procedures), refusal),
    };
    match finish(parser) {
        Ok(()) => Ok(Unit {
            name,
            monitors,
            procedures,
            main,
        }),
        Err(refusal) => refused((monitors, (procedures, main)), refusal),
    }
}

/// The tree of a whole program, from its tokens as `scan` gives them. It borrows their names.
///
/// Each name, number and keyword that the tree keeps the place of has the place of its token.
///
/// # Errors
///
/// - `Expected` at the first token that can't follow what stands before it in any program. Where the
///   tokens end too early that is their end.
/// - `Limit` at a token that opens a nesting where 64 are open. A nesting is opened by `IF`, `WHILE`,
///   `ABORTED`, by `(` and `[` in an expression or a target, and by `-` and `NOT` before a factor.
/// - `Memory` at 1:1 where memory runs out.
pub fn parse<'a>(alloc: Global, tokens: &[Token<'a>]) -> Result<Unit<'a>, Refusal>
    requires ends { EndsOnce (views tokens.now) }
    ensures tree { IfOk result (λ u. unit_text (unit_of u) ≡ lexemes tokens.now) }
    ensures within { IfOk result (λ u. unit_nesting (unit_of u) ≤ most_nestings) }
    // The tokens of a program are refused for memory alone.
    ensures only { (t : UnitTree) → unit_text t ≡ lexemes tokens.now
        → unit_nesting t ≤ most_nestings
        → MatchResult result (λ u. unit_of u ≡ t) (λ e. e ≡ out_of_memory) }
    ensures refusal { IfErr result (λ e. (e ≡ out_of_memory) ⊎ IsRefusalOf tokens.now e) }
{
    let mut parser = Parser::new(alloc, tokens);
    match unit(&mut parser) {
        Ok(unit) => Ok(unit),
        // Memory that runs out has one place, wherever it did.
        Err(refusal) if refusal.kind == RefusalKind::Memory => Err(Refusal::memory()),
        Err(refusal) => Err(refusal),
    }
}
