use crate::failure::Failure;
use scanner::{Token, scan};

// Prints a token: its line and column, its kind and its text.
fn show_token(rt: &HostRuntime, token: &Token) -> Result<(), Failure> {
    let text = str::from_utf8(token.text).map_err(|_| Failure::Row)?;
    let kind = token.kind;
    let place = token.place;
    println!(rt; "  {}:{} {kind:?} {text}", place.line, place.column)?;
    Ok(())
}

/// Prints the tokens of a text, each in a line of its own.
pub fn show_tokens(rt: &HostRuntime, text: &[u8]) -> Result<(), Failure> {
    let tokens = scan(rt.alloc(), text)?;
    for token in &tokens {
        show_token(rt, token)?;
    }
    Ok(())
}

/// Prints the tokens of the text that these hexadecimal digits spell.
pub fn show_spelled(rt: &HostRuntime, digits: &str) -> Result<(), Failure> {
    let text = hex::decode(rt.alloc(), digits).map_err(|_| Failure::Row)?;
    show_tokens(rt, text.as_slice())
}

/// Prints the tokens of a text of so many blanks.
pub fn show_blanks(rt: &HostRuntime, count: &str) -> Result<(), Failure> {
    let count: u32 = count.parse().map_err(|_| Failure::Row)?;
    let text = vec![in rt.alloc(); b' '; count as usize]?;
    show_tokens(rt, text.as_slice())
}
