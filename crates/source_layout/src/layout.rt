// A text while it is laid out, token by token.

use crate::spaces::{begins_head, closes, ends_line, may_part, opens, stand_apart};
use scanner::{Kind, Sign, Token};
use std::alloc::{AllocError, Global};
use text_writer::TextWriter;

// A line that would be longer is broken at a blank.
const MOST_COLUMNS: usize = 100;

// How many levels deeper the rest of a statement stands that goes on in another line.
const DEEPER: usize = 2;

/// A text, as far as it is laid out.
#[derive(Drop)]
pub(crate) struct Layout {
    out: TextWriter,
    // How long the text is up to its last line.
    start: usize,
    // How deep the next statement is nested.
    level: usize,
    // The last token.
    last: Kind,
    // Whether the head of a MONITOR or a PROCEDURE has begun.
    in_head: bool,
    // Whether the next token begins a statement, a declaration, or their end.
    fresh: bool,
    // Whether a comment ends the line.
    commented: bool,
    // Whether an empty line of the text comes next.
    empty: bool,
}

// How long what stands first is up to where a long line may end. Where it fills a line no more is counted.
fn row_length(tokens: &[Token<'_>]) -> usize {
    let mut length = 0;
    let mut last = Kind::End;
    for (index, token) in tokens.iter().enumerate() {
        if (index > 0 && may_part(last, token.kind)) || length > MOST_COLUMNS {
            return length;
        }
        if index > 0 && stand_apart(last, token.kind) {
            length += 1;
        }
        length = token.text.len().saturating_add(length);
        last = token.kind;
    }
    length
}

// Writes bytes of ASCII as they are.
fn write_bytes(out: &mut TextWriter, bytes: &[u8]) {
    for byte in bytes {
        out.sign(char::from(*byte));
    }
}

impl Layout {
    /// A text in which nothing stands.
    pub fn new(alloc: Global) -> Layout {
        Layout {
            out: TextWriter::new(alloc),
            start: 0,
            level: 0,
            last: Kind::End,
            in_head: false,
            fresh: true,
            commented: false,
            empty: false,
        }
    }

    // Begins a line at a level, behind an empty one where the text has one.
    fn begin_line(&mut self, level: usize) {
        if self.out.len() > 0 {
            self.out.text("\n");
            if self.empty {
                self.out.text("\n");
            }
        }
        self.start = self.out.len();
        self.commented = false;
        self.empty = false;
        for _ in 0..level {
            self.out.text("  ");
        }
    }

    // The level of a line in which the last one goes on, or where the next token begins a statement its level.
    fn next_level(&self) -> usize {
        if self.fresh {
            self.level
        } else {
            self.level.saturating_add(DEEPER)
        }
    }

    // Whether the line has no more room for what these tokens begin with.
    fn is_full(&self, tokens: &[Token<'_>]) -> bool {
        let column = self.out.len().saturating_sub(self.start);
        row_length(tokens).saturating_add(column) >= MOST_COLUMNS
    }

    // Writes what stands before a token, which these tokens begin with.
    fn write_before(&mut self, kind: Kind, tokens: &[Token<'_>]) {
        if closes(kind) {
            self.level = self.level.saturating_sub(1);
        }
        if self.fresh || self.commented {
            return self.begin_line(self.next_level());
        }
        self.empty = false;
        if !stand_apart(self.last, kind) {
            return;
        }
        if may_part(self.last, kind) && self.is_full(tokens) {
            self.begin_line(self.next_level());
        } else {
            self.out.text(" ");
        }
    }

    // A token was written.
    fn pass(&mut self, kind: Kind) {
        let ends_head = self.in_head && kind == Kind::Sign(Sign::Semicolon);
        if ends_head || opens(kind) {
            self.level = self.level.saturating_add(1);
        }
        self.in_head = begins_head(kind) || (self.in_head && !ends_head);
        self.fresh = ends_line(self.last, kind);
        self.last = kind;
    }

    /// Writes the first of these tokens.
    pub fn write_token(&mut self, tokens: &[Token<'_>]) {
        let [token, ..] = tokens else {
            return;
        };
        self.write_before(token.kind, tokens);
        write_bytes(&mut self.out, token.text);
        self.pass(token.kind);
    }

    /// Writes a comment, behind a token of its line or in a line of its own.
    pub fn write_comment(&mut self, comment: &[u8], is_behind: bool) {
        if is_behind {
            self.out.text("  ");
        } else {
            self.begin_line(self.next_level());
        }
        write_bytes(&mut self.out, comment);
        self.commented = true;
    }

    /// The text has an empty line here.
    pub fn pass_empty(&mut self) {
        self.empty = true;
    }

    /// The whole text.
    ///
    /// # Errors
    ///
    /// Where memory ran out.
    pub fn finish(mut self) -> Result<Vec<u8>, AllocError> {
        self.out.text("\n");
        let Layout { out, .. } = self;
        Ok(out.finish()?.into_bytes())
    }
}
