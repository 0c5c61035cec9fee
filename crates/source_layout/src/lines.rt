// The lines of a text: the tokens in each, and the comment behind them.

use crate::bare::is_white;
use crate::layout::Layout;
use scanner::{Kind, Token};
use std::alloc::{AllocError, Global};

// A comment without the white space at its end.
fn trimmed(comment: &[u8]) -> &[u8] {
    let mut end = 0;
    for (index, byte) in comment.iter().enumerate() {
        if !is_white(*byte) {
            end = index + 1;
        }
    }
    comment.get(..end).unwrap_or(comment)
}

// The comment of a line. No token has two minus signs in a row.
fn comment_of(line: &[u8]) -> Option<&[u8]> {
    let mut minus = false;
    for (index, byte) in line.iter().enumerate() {
        if minus && *byte == b'-' {
            return line.get(index.saturating_sub(1)..).map(trimmed);
        }
        minus = *byte == b'-';
    }
    None
}

// Writes the tokens of a line, and says how many they are.
fn write_tokens(layout: &mut Layout, tokens: &[Token<'_>], number: usize) -> usize {
    for (index, token) in tokens.iter().enumerate() {
        if token.place.line as usize != number || token.kind == Kind::End {
            return index;
        }
        layout.write_token(tokens.get(index..).unwrap_or(&[]));
    }
    tokens.len()
}

// Writes a line, which has this number, and says how many of the tokens are in it.
fn write_line(layout: &mut Layout, tokens: &[Token<'_>], line: &[u8], number: usize) -> usize {
    let count = write_tokens(layout, tokens, number);
    match comment_of(line) {
        Some(comment) => layout.write_comment(comment, count > 0),
        None if count == 0 => layout.pass_empty(),
        None => {}
    }
    count
}

// Writes the lines of a text.
fn write_lines(layout: &mut Layout, text: &[u8], tokens: &[Token<'_>]) {
    let mut left = tokens;
    let mut number = 0usize;
    for line in text.split(|byte| *byte == b'\n') {
        number = number.saturating_add(1);
        let count = write_line(layout, left, line, number);
        left = left.get(count..).unwrap_or(&[]);
    }
}

/// A text laid out anew, which has these tokens.
///
/// # Errors
///
/// Where memory runs out.
pub(crate) fn laid_out(
    alloc: Global,
    text: &[u8],
    tokens: &[Token<'_>],
) -> Result<Vec<u8>, AllocError> {
    let mut layout = Layout::new(alloc);
    write_lines(&mut layout, text, tokens);
    layout.finish()
}
