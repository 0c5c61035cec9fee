// An expression and the keyword behind it.

ghost use Rattle.std.specs.Prelude.{◌≡◌, ◌≤◌, ◌<◌, [], ◌∷◌, IfOk, IfErr, length, OnOk};
ghost use Rattle.scanner.specs.declared.token.Place.{Place as PlaceOf};
ghost use Rattle.syntax.specs.Lexeme.{keyword_lexeme, Word};
ghost use Rattle.syntax.specs.Limits.{most_nestings};
ghost use Rattle.syntax.specs.View.{expression_of};
ghost use Rattle.grammar.specs.Machine.{AWord, expression as an_expression};
ghost use Rattle.grammar.specs.Reading.{Passes, Fails};
ghost use Rattle.token_cursor.specs.Ahead.{ahead};
ghost use Rattle.parser.specs.Steps.{condition_trees};

use expression_parser::expression;
use scanner::{Keyword, Refusal};
use syntax::Expression;
use token_cursor::Parser;

/// A condition, and the keyword that ends it.
pub fn condition<'a>(
    parser: &mut Parser<'_, 'a>,
    depth: u8,
    word: Keyword,
) -> Result<Expression<'a>, Refusal>
    requires depth { depth ≤ most_nestings }
    requires word { (place : PlaceOf) → keyword_lexeme word place ≡ Word word }
    ensures ok { IfOk result (λ x. Passes depth (an_expression (AWord word ∷ []))
        (condition_trees word (expression_of x)) (ahead parser.old) (ahead parser.new)) }
    ensures err { IfErr result
        (λ e. Fails depth (an_expression (AWord word ∷ [])) (ahead parser.old) e) }
    ensures shorter { OnOk result (length (ahead parser.new) < length (ahead parser.old)) }
{
    let condition = expression(parser, depth)?;
    parser.expect_keyword(word)?;
    Ok(condition)
}
