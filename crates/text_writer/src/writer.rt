ghost use Rattle.std.specs.Prelude.{◌≡◌, [], ◌∷◌, ◌++◌, ℕ, List, length, encode_utf8, None, Some, map, IfSome, IsSomeAnd, MatchResult};
ghost use Rattle.std.specs.Fmt.{decimal, signed_decimal};
ghost use Rattle.std.specs.String.{string_bytes};
ghost use Rattle.text_writer.specs.Writing.{filled, shown, Fills, IsJoined, IsWritten};

use itoa::Buffer;
use std::alloc::{AllocError, Global};
use std::marker::Model;

/// A text while it is written. No call fails: where memory runs out nothing more is written, and the end tells so.
/// Contracts see the bytes that were written, or None once memory ran out.
#[derive(Drop)]
pub struct TextWriter {
    text: String,
    failed: bool,
}

impl Model for TextWriter {
    ghost use Rattle.std.specs.Prelude.{List, Option, None, Some, ℕ, if◌then◌else◌};
    ghost use Rattle.std.specs.String.{string_bytes};

    ghost Value = { Option (List ℕ) };

    ghost view = { λ w. if w.failed then None else Some (string_bytes w.text) };
}

impl TextWriter {
    /// A text with nothing written.
    pub fn new(alloc: Global) -> TextWriter
        ensures { result ≡ Some [] }
    {
        TextWriter {
            text: String::new(alloc),
            failed: false,
        }
    }

    /// Memory ran out elsewhere, for a part of what the text tells: so it has no end.
    pub fn fail(&mut self)
        ensures { self.new ≡ None }
    {
        self.failed = true;
    }

    /// Appends an item to a list of what the text tells, or where memory runs out keeps that.
    pub fn push<T: Drop>(&mut self, list: &mut Vec<T>, item: T)
        ensures { IfSome self.new (λ text. (self.old ≡ Some text)
            × (list.new.items ≡ list.old.items ++ item ∷ [])) }
    {
        if list.push(item).is_err() {
            self.failed = true;
        }
    }

    /// How many bytes were written: 0 or more of them where memory ran out.
    pub fn len(&self) -> usize
        ensures { IfSome self.now (λ text. result ≡ length text) }
    {
        self.text.len()
    }

    /// Writes a text.
    pub fn text(&mut self, text: &str)
        ensures { IsWritten self.old self.new text.now }
    {
        if !self.failed {
            self.failed = self.text.push_str(text).is_err();
        }
    }

    /// Writes a text, and a line feed.
    pub fn line(&mut self, text: &str)
        ensures { IsWritten self.old self.new (text.now ++ 10 ∷ []) }
    {
        self.text(text);
        self.text("\n")
    }

    /// Writes a number in decimal digits.
    pub fn number(&mut self, number: u64)
        ensures { IsWritten self.old self.new (decimal number) }
    {
        self.text(Buffer::new().format(number))
    }

    /// Writes a number in decimal digits, behind a minus where it is less than 0.
    pub fn signed(&mut self, number: i64)
        ensures { IsWritten self.old self.new (signed_decimal number) }
    {
        self.text(Buffer::new().format(number))
    }

    /// Writes a sign.
    pub fn sign(&mut self, sign: char)
        ensures { IsWritten self.old self.new (encode_utf8 sign) }
    {
        if !self.failed {
            self.failed = self.text.push(sign).is_err();
        }
    }

    // Writes a byte as it is shown.
    fn shown_byte(&mut self, byte: u8)
        ensures { IsWritten self.old self.new (shown byte ∷ []) }
    {
        self.sign(if (b' '..=b'~').contains(&byte) {
            char::from(byte)
        } else {
            '?'
        })
    }

    /// Writes bytes as they are shown: each as itself, or where no terminal shows it as one sign as a question mark.
    pub fn shown(&mut self, bytes: &[u8])
        ensures { IsWritten self.old self.new (map shown bytes.now) }
    {
        for byte in bytes {
            self.shown_byte(*byte);
        }
    }

    // Writes a byte of a form, or in place of a `$` the first of the numbers that are left; those that are left then.
    fn form_byte<'n>(&mut self, byte: u8, left: &'n [u64]) -> &'n [u64]
        ensures { Fills self.old self.new byte left.now result.now }
    {
        match left {
            [number, rest @ ..] if byte == b'$' => {
                self.number(*number);
                rest
            }
            _ => {
                self.sign(char::from(byte));
                left
            }
        }
    }

    /// Writes a form of ASCII, with the next of the numbers in place of each `$`.
    pub fn form(&mut self, form: &str, numbers: &[u64])
        ensures { IsWritten self.old self.new (filled form.now numbers.now) }
    {
        let mut left = numbers;
        for byte in form.as_bytes() {
            left = self.form_byte(*byte, left);
        }
    }

    /// Writes what another has.
    pub fn append(&mut self, other: &TextWriter)
        ensures { IsJoined self.old self.new other.now }
    {
        if other.failed {
            self.failed = true;
        }
        self.text(other.text.as_str())
    }

    /// The whole text.
    ///
    /// # Errors
    ///
    /// Where memory ran out for a part of it, and for nothing else.
    pub fn finish(self) -> Result<String, AllocError>
        ensures { MatchResult result (λ s. self ≡ Some (string_bytes s)) (λ _. self ≡ None) }
    {
        if self.failed {
            return Err(AllocError);
        }
        Ok(self.text)
    }
}
