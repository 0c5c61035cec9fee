ghost use Rattle.std.specs.Prelude.{◌≡◌, ◌<◌, length, IsTrue, OnOk, OnSome, IfOk, IfErr, IfSome, IfNone, ◌≢◌};
ghost use Rattle.scanner.specs.Gaps.{IsLastGap};
ghost use Rattle.scanner.specs.Lexemes.{is_word, Spells};
ghost use Rattle.scanner.specs.Places.{place_after};
ghost use Rattle.scanner.specs.Steps.{front_of, SourceFits, IsWrongAt, TakesToken};
ghost use Rattle.scanner.specs.Tokens.{StandsFirst, view};

use crate::front::{Front, digits_length, word_length};
use crate::number::value_of;
use crate::refusal::{Refusal, RefusalKind};
use crate::signs::sign_at;
use crate::source::Source;
use crate::token::{Keyword, Kind, Token};

fn kind_of_word(word: &[u8]) -> Kind
    requires { IsTrue (is_word word.now) }
    ensures { Spells result word.now }
{
    match Keyword::from_text(word) {
        Some(keyword) => Kind::Keyword(keyword),
        None => Kind::Name,
    }
}

impl<'a> Source<'a> {
    // Passes a keyword or a name.
    fn word(&mut self) -> Token<'a>
        requires fits { SourceFits self.old }
        requires first { front_of self.old.rest.now ≡ Front.Word }
        ensures token { TakesToken self.old result self.new }
        ensures fits { SourceFits self.new }
    {
        let place = self.place;
        let text = self.take(word_length(self.rest));
        Token {
            kind: kind_of_word(text),
            text,
            place,
        }
    }

    // Passes a number.
    fn number(&mut self) -> Result<Token<'a>, Refusal>
        requires fits { SourceFits self.old }
        requires first { front_of self.old.rest.now ≡ Front.Digits }
        ensures token { IfOk result (λ t. TakesToken self.old t self.new) }
        ensures fits { OnOk result (SourceFits self.new) }
        ensures wrong { IfErr result (λ e. IsWrongAt self.old e) }
    {
        let place = self.place;
        let text = self.take(digits_length(self.rest));
        match value_of(text) {
            Some(value) => Ok(Token {
                kind: Kind::Number(value),
                text,
                place,
            }),
            None => Err(Refusal {
                kind: RefusalKind::BadToken,
                place,
            }),
        }
    }

    // Passes a sign.
    fn sign(&mut self) -> Result<Token<'a>, Refusal>
        requires fits { SourceFits self.old }
        requires first { front_of self.old.rest.now ≡ Front.Other }
        ensures token { IfOk result (λ t. TakesToken self.old t self.new) }
        ensures fits { OnOk result (SourceFits self.new) }
        ensures wrong { IfErr result (λ e. IsWrongAt self.old e) }
    {
        let place = self.place;
        let Some(sign) = sign_at(self.rest) else {
            return Err(Refusal {
                kind: RefusalKind::BadToken,
                place,
            });
        };
        let text = self.take(sign.text().len());
        Ok(Token {
            kind: Kind::Sign(sign),
            text,
            place,
        })
    }

    // Passes the token that stands first, where `front` says what its first bytes are.
    fn token(&mut self, front: Front) -> Result<Token<'a>, Refusal>
        requires fits { SourceFits self.old }
        requires front { front ≡ front_of self.old.rest.now }
        requires no_gap { (front ≢ Front.White) × (front ≢ Front.Comment) × (front ≢ Front.Finish) }
        ensures token { IfOk result (λ t. TakesToken self.old t self.new) }
        ensures fits { OnOk result (SourceFits self.new) }
        ensures wrong { IfErr result (λ e. IsWrongAt self.old e) }
    {
        match front {
            Front::Word => Ok(self.word()),
            Front::Digits => self.number(),
            Front::Other => self.sign(),
            Front::PastAscii => Err(Refusal {
                kind: RefusalKind::NotAscii,
                place: self.place,
            }),
            Front::Finish | Front::White | Front::Comment => unreachable!(),
        }
    }

    /// Passes a gap and the token behind it, or the gap alone where the text ends with it.
    pub fn next_token(&mut self) -> Result<Option<Token<'a>>, Refusal>
        requires { SourceFits self.old }
        ensures end { IfOk result (λ next. IfNone next (IsLastGap self.old.rest.now
            × (self.new.place ≡ place_after self.old.place self.old.rest.now))) }
        ensures token { IfOk result (λ next. IfSome next (λ t.
            StandsFirst self.old.place self.old.rest.now (view t) self.new.rest.now
            × (self.new.place ≡ place_after t.place t.text.now))) }
        ensures fits { OnOk result (SourceFits self.new) }
        ensures shorter { IfOk result
            (λ next. OnSome next (length self.new.rest.now < length self.old.rest.now)) }
        ensures wrong { IfErr result (λ e. IsWrongAt self.old e) }
    {
        let front = self.pass_gap()?;
        if front == Front::Finish {
            return Ok(None);
        }
        Ok(Some(self.token(front)?))
    }
}
