ghost use Rattle.std.specs.Prelude.{◌≡◌, ◌≤◌, ◌<◌, length, take, drop};
ghost use Rattle.scanner.specs.Places.{start, place_after};
ghost use Rattle.scanner.specs.Steps.{SourceFits, OnOneLine};
ghost use Rattle.scanner.specs.declared.text.TheConstants.{MOST_BYTES};

use crate::text::MOST_BYTES;
use crate::token::Place;

/// What is left of a text, and the place of its first byte.
#[derive(Drop)]
pub struct Source<'a> {
    /// The bytes that are left.
    pub rest: &'a [u8],
    /// The place of the first of them.
    pub place: Place,
}

impl<'a> Source<'a> {
    /// The whole of a text.
    pub fn new(text: &'a [u8]) -> Source<'a>
        requires { length text.now ≤ MOST_BYTES }
        ensures rest { result.rest.now ≡ text.now }
        ensures place { result.place ≡ start }
        ensures fits { SourceFits result }
    {
        Source {
            rest: text,
            place: Place::START,
        }
    }

    /// Passes the first byte.
    pub fn pass(&mut self)
        requires fits { SourceFits self.old }
        requires more { 0 < length self.old.rest.now }
        ensures rest { self.new.rest.now ≡ drop 1 self.old.rest.now }
        ensures place { self.new.place ≡ place_after self.old.place (take 1 self.old.rest.now) }
        ensures fits { SourceFits self.new }
    {
        if let [first, rest @ ..] = self.rest {
            if *first == b'\n' {
                self.place.line += 1;
                self.place.column = 1;
            } else {
                self.place.column += 1;
            }
            self.rest = rest;
        }
    }

    /// Splits off the first `count` bytes, none of which is a line feed.
    pub fn take(&mut self, count: usize) -> &'a [u8]
        requires fits { SourceFits self.old }
        requires line { OnOneLine self.old.rest.now count }
        ensures taken { result.now ≡ take count self.old.rest.now }
        ensures rest { self.new.rest.now ≡ drop count self.old.rest.now }
        ensures place { self.new.place
            ≡ place_after self.old.place (take count self.old.rest.now) }
        ensures fits { SourceFits self.new }
    {
        let (taken, rest) = self.rest.split_at(count);
        self.rest = rest;
        self.place.column += count as u32;
        taken
    }
}
