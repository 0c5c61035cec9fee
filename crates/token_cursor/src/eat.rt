// Passing what stands first, if it is what is asked for.

ghost use Rattle.std.specs.Prelude.{◌≡◌};
ghost use Rattle.scanner.specs.declared.token.Place.{Place as PlaceOf};
ghost use Rattle.syntax.specs.Lexeme.{keyword_lexeme, sign_lexeme, Word, WordAt, Mark};
ghost use Rattle.token_cursor.specs.Ahead.{ahead};
ghost use Rattle.token_cursor.specs.Taking.{Eats, EatsAt};

use crate::parser::Parser;
use scanner::{Keyword, Kind, Place, Sign};

impl Parser<'_, '_> {
    /// Passes a keyword whose place no tree keeps if it stands first, and says whether it did.
    pub fn eat_keyword(&mut self, word: Keyword) -> bool
        requires { (place : PlaceOf) → keyword_lexeme word place ≡ Word word }
        ensures { Eats (Word word) result (ahead self.old) (ahead self.new) }
    {
        match self.peek().kind {
            Kind::Keyword(found) if found == word => {
                self.pass();
                true
            }
            _ => false,
        }
    }

    /// Passes a sign whose place no tree keeps if it stands first, and says whether it did.
    pub fn eat_sign(&mut self, sign: Sign) -> bool
        requires { (place : PlaceOf) → sign_lexeme sign place ≡ Mark sign }
        ensures { Eats (Mark sign) result (ahead self.old) (ahead self.new) }
    {
        if self.peek().kind != Kind::Sign(sign) {
            return false;
        }
        self.pass();
        true
    }

    /// Passes a keyword if it stands first, and gives its place then.
    pub fn eat_placed(&mut self, word: Keyword) -> Option<Place>
        requires { (place : PlaceOf) → keyword_lexeme word place ≡ WordAt word place }
        ensures { EatsAt word result (ahead self.old) (ahead self.new) }
    {
        let token = self.peek();
        match token.kind {
            Kind::Keyword(found) if found == word => {
                self.pass();
                Some(token.place)
            }
            _ => None,
        }
    }
}
