// The grammar's machine: a stack of what is expected, the next of it on top, which each lexeme leads on.

use crate::behind::{UNIT, behind_factor};
use crate::lexeme::Lexeme;
use crate::symbol::Symbol;
use scanner::Token;
use std::alloc::{AllocError, Global};

// Puts symbols on the stack, the first of them on top.
fn push_all(stack: &mut Vec<Symbol>, symbols: &[Symbol]) -> Result<(), AllocError> {
    for symbol in symbols.iter().rev() {
        stack.push(*symbol)?;
    }
    Ok(())
}

// Begins a part with a lexeme that it accepts.
fn begin(stack: &mut Vec<Symbol>, symbol: Symbol, first: Lexeme) -> Result<(), AllocError> {
    push_all(stack, symbol.behind(first))?;
    if symbol.begins_as_factor() {
        push_all(stack, behind_factor(first))?;
    }
    Ok(())
}

// Passes a lexeme: what is left out before it comes off the stack. One that can't stand there leads nowhere.
fn pass(stack: &mut Vec<Symbol>, lexeme: Lexeme) -> Result<(), AllocError> {
    while let Some(symbol) = stack.pop() {
        if symbol.accepts(lexeme) {
            return begin(stack, symbol, lexeme);
        }
        if !symbol.is_optional() {
            return Ok(());
        }
    }
    Ok(())
}

// Passes tokens.
fn pass_all(stack: &mut Vec<Symbol>, tokens: &[Token]) -> Result<(), AllocError> {
    for token in tokens {
        pass(stack, Lexeme::of(token.kind))?;
    }
    Ok(())
}

// How many symbols stand on a stack up to the uppermost that may not be left out, that one too.
fn height_of_needed(stack: &[Symbol]) -> usize {
    let mut height = stack.len();
    for symbol in stack.iter().rev() {
        if !symbol.is_optional() {
            return height;
        }
        height = height.saturating_sub(1);
    }
    0
}

// Appends the lexemes that a stack accepts. What may not be left out comes first.
fn append_accepted(found: &mut Vec<Lexeme>, stack: &[Symbol]) -> Result<(), AllocError> {
    let height = height_of_needed(stack);
    if height == 0 {
        found.push(Lexeme::Finish)?;
    }
    for symbol in stack.get(height.saturating_sub(1)..).unwrap_or(stack) {
        symbol.append_firsts(found)?;
    }
    Ok(())
}

/// The lexemes that may stand behind tokens with which a text may begin.
pub(crate) fn accepted_behind(alloc: Global, tokens: &[Token]) -> Result<Vec<Lexeme>, AllocError> {
    let mut stack = Vec::new(alloc);
    push_all(&mut stack, UNIT)?;
    pass_all(&mut stack, tokens)?;
    let mut found = Vec::new(alloc);
    append_accepted(&mut found, stack.as_slice())?;
    Ok(found)
}
