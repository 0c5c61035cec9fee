// Passing what has to stand first, or refusing what stands there in its place. A refusal passes nothing.

ghost use Rattle.std.specs.Prelude.{◌≡◌, [], IfOk, IfErr, OnErr, OnOk};
ghost use Rattle.scanner.specs.declared.token.Place.{Place as PlaceOf};
ghost use Rattle.syntax.specs.Limits.{most_nestings};
ghost use Rattle.syntax.specs.Lexeme.{keyword_lexeme, sign_lexeme, Word, WordAt, Mark};
ghost use Rattle.syntax.specs.View.{name_of};
ghost use Rattle.grammar.specs.Machine.{AWord, AMark, AWordAt, AnOpening, AName, ANumber, reads, Read, Refused};
ghost use Rattle.token_cursor.specs.Ahead.{ahead};
ghost use Rattle.token_cursor.specs.Taking.{Takes, Rejects};

use crate::parser::Parser;
use scanner::{Keyword, Kind, Place, Refusal, RefusalKind, Sign};
use syntax::{Name, Number};

impl<'a> Parser<'_, 'a> {
    /// Passes a keyword whose place no tree keeps, or it is Expected there.
    pub fn expect_keyword(&mut self, word: Keyword) -> Result<(), Refusal>
        requires { (place : PlaceOf) → keyword_lexeme word place ≡ Word word }
        ensures ok { OnOk result (Takes (AWord word) tt (ahead self.old) (ahead self.new)) }
        ensures err { IfErr result (λ e. Rejects (AWord word) (ahead self.old) e) }
        ensures same { OnErr result (ahead self.new ≡ ahead self.old) }
    {
        if self.eat_keyword(word) {
            Ok(())
        } else {
            Err(self.refusal(RefusalKind::Expected))
        }
    }

    /// Passes a sign whose place no tree keeps, or it is Expected there.
    pub fn expect_sign(&mut self, sign: Sign) -> Result<(), Refusal>
        requires { (place : PlaceOf) → sign_lexeme sign place ≡ Mark sign }
        ensures ok { OnOk result (Takes (AMark sign) tt (ahead self.old) (ahead self.new)) }
        ensures err { IfErr result (λ e. Rejects (AMark sign) (ahead self.old) e) }
        ensures same { OnErr result (ahead self.new ≡ ahead self.old) }
    {
        if self.eat_sign(sign) {
            Ok(())
        } else {
            Err(self.refusal(RefusalKind::Expected))
        }
    }

    /// Passes a keyword and gives its place, or it is Expected there.
    pub fn expect_placed(&mut self, word: Keyword) -> Result<Place, Refusal>
        requires { (place : PlaceOf) → keyword_lexeme word place ≡ WordAt word place }
        ensures ok { IfOk result
            (λ place. Takes (AWordAt word) place (ahead self.old) (ahead self.new)) }
        ensures err { IfErr result (λ e. Rejects (AWordAt word) (ahead self.old) e) }
        ensures same { OnErr result (ahead self.new ≡ ahead self.old) }
    {
        match self.eat_placed(word) {
            Some(place) => Ok(place),
            None => Err(self.refusal(RefusalKind::Expected)),
        }
    }

    /// Passes the parenthesis before parameters or arguments and gives its place, or it is Expected there.
    pub fn expect_opening(&mut self) -> Result<Place, Refusal>
        ensures ok { IfOk result (λ place. Takes AnOpening place (ahead self.old) (ahead self.new)) }
        ensures err { IfErr result (λ e. Rejects AnOpening (ahead self.old) e) }
        ensures same { OnErr result (ahead self.new ≡ ahead self.old) }
    {
        let token = self.peek();
        if token.kind != Kind::Sign(Sign::OpenParen) {
            return Err(self.refusal(RefusalKind::Expected));
        }
        self.pass();
        Ok(token.place)
    }

    /// Passes a name, or it is Expected there.
    pub fn expect_name(&mut self) -> Result<Name<'a>, Refusal>
        ensures ok { IfOk result (λ n. Takes AName (name_of n) (ahead self.old) (ahead self.new)) }
        ensures err { IfErr result (λ e. Rejects AName (ahead self.old) e) }
        ensures same { OnErr result (ahead self.new ≡ ahead self.old) }
    {
        let token = self.peek();
        if token.kind != Kind::Name {
            return Err(self.refusal(RefusalKind::Expected));
        }
        self.pass();
        Ok(Name {
            text: token.text,
            place: token.place,
        })
    }

    /// Passes a number, or it is Expected there.
    pub fn expect_number(&mut self) -> Result<Number, Refusal>
        ensures ok { IfOk result (λ n. Takes ANumber n (ahead self.old) (ahead self.new)) }
        ensures err { IfErr result (λ e. Rejects ANumber (ahead self.old) e) }
        ensures same { OnErr result (ahead self.new ≡ ahead self.old) }
    {
        let token = self.peek();
        let Kind::Number(value) = token.kind else {
            return Err(self.refusal(RefusalKind::Expected));
        };
        self.pass();
        Ok(Number {
            value,
            place: token.place,
        })
    }

    /// Passes nothing where the end of the text stands first, or it is Expected there.
    pub fn expect_end(&self) -> Result<(), Refusal>
        ensures ok { OnOk result (reads most_nestings (ahead self.now) [] ≡ Read tt) }
        ensures err { IfErr result (λ e. reads most_nestings (ahead self.now) [] ≡ Refused e) }
    {
        match self.rest {
            [token, ..] if token.kind == Kind::End => Ok(()),
            _ => Err(self.refusal(RefusalKind::Expected)),
        }
    }
}
