// The tokens that are still to come.

ghost use Rattle.std.specs.Prelude.{◌≡◌, ◌≤◌, ◌+◌, ◌-◌, length, IfOk, IfErr, OnErr, OnOk};
ghost use Rattle.scanner.specs.declared.refusal.RefusalKind.TheVariants.{Limit as ALimit};
ghost use Rattle.syntax.specs.Limits.{most_nestings};
ghost use Rattle.syntax.specs.Lexeme.{lexeme_of};
ghost use Rattle.grammar.specs.Machine.{items_of, place_at, refusal_at};
ghost use Rattle.grammar.specs.Reading.{lexeme_at, rest_after};
ghost use Rattle.token_cursor.specs.Ahead.{ahead};

use scanner::{Kind, Place, Refusal, RefusalKind, Token};
use std::alloc::Global;
use syntax::MOST_NESTINGS;

/// The tokens that are still to come, and the memory that trees are made in.
///
/// A step that refuses what stands first passes nothing. What is read by several steps is passed up to the refused
/// token, and the parser is of no further use then.
#[derive(Drop)]
pub struct Parser<'t, 'a> {
    /// Where the trees are made.
    pub alloc: Global,
    pub(crate) rest: &'t [Token<'a>],
}

impl<'t, 'a> Parser<'t, 'a> {
    /// A parser that stands before the first of the tokens.
    pub fn new(alloc: Global, tokens: &'t [Token<'a>]) -> Parser<'t, 'a>
        ensures { ahead result ≡ items_of tokens.now }
    {
        Parser {
            alloc,
            rest: tokens,
        }
    }

    /// The token that stands first. Behind the last token that is an end at 1:1.
    pub fn peek(&self) -> Token<'a>
        ensures lexeme { lexeme_of result ≡ lexeme_at (ahead self.now) }
        ensures place { result.place ≡ place_at (ahead self.now) }
    {
        match self.rest {
            [token, ..] => *token,
            [] => Token {
                kind: Kind::End,
                text: &[],
                place: Place::START,
            },
        }
    }

    /// Passes the token that stands first.
    pub fn pass(&mut self)
        ensures rest { ahead self.new ≡ rest_after (ahead self.old) }
        ensures shorter { length (ahead self.new) ≡ length (ahead self.old) - 1 }
    {
        if let [_, rest @ ..] = self.rest {
            self.rest = rest;
        }
    }

    /// The refusal of the token that stands first, of a kind.
    pub fn refusal(&self, kind: RefusalKind) -> Refusal
        ensures { result ≡ refusal_at kind (ahead self.now) }
    {
        Refusal {
            kind,
            place: self.peek().place,
        }
    }

    /// Passes the token that stands first, which opens a nesting where so many are open.
    ///
    /// Gives how many are open then. It is a Limit at that token where `MOST_NESTINGS` are open already, and nothing
    /// is passed then.
    pub fn open(&mut self, depth: u8) -> Result<u8, Refusal>
        ensures ok { IfOk result (λ d. (d ≡ depth + 1) × (d ≤ most_nestings)) }
        ensures rest { OnOk result (ahead self.new ≡ rest_after (ahead self.old)) }
        ensures shorter { OnOk result (length (ahead self.new) ≡ length (ahead self.old) - 1) }
        ensures err { IfErr result (λ e. (most_nestings ≤ depth)
            × (e ≡ refusal_at ALimit (ahead self.old))) }
        ensures same { OnErr result (ahead self.new ≡ ahead self.old) }
    {
        if depth >= MOST_NESTINGS {
            return Err(self.refusal(RefusalKind::Limit));
        }
        self.pass();
        Ok(depth + 1)
    }
}
