ghost use Rattle.std.specs.Prelude.{◌≡◌, OnOk, OnErr, IfOk, IfErr, Err, None, false, true, map, replicate};
ghost use Rattle.scanner.specs.Refusals.{out_of_memory};
ghost use Rattle.codegen.specs.Generated.{piece_of};
ghost use Rattle.linker.specs.Collecting.{added, collected, has_gap, slot_of, IsFree};
ghost use Rattle.linker.specs.Failures.{stray};

use crate::linking::refuse_stray;
use codegen::CodePiece;
use lowering::Marked;
use scanner::Refusal;
use std::alloc::{AllocError, Global};
use std::marker::Model;

/// The pieces of a program, which may come in any order. Contracts see a place for each number: the code of its piece,
/// once it has come.
#[derive(Drop)]
pub struct Collector {
    slots: Vec<Option<Vec<Marked>>>,
}

impl Model for Collector {
    ghost use Rattle.std.specs.Prelude.{List, Option, map};
    ghost use Rattle.lowering.specs.declared.mark.Marked.{Marked};
    ghost use Rattle.linker.specs.Collecting.{slot_of};

    ghost Value = { List (Option (List Marked)) };

    ghost view = { λ c. map slot_of c.slots.items };
}

impl Collector {
    /// A collector of pieces with the numbers below this count, none of which has come.
    pub fn new(alloc: Global, pieces: usize) -> Result<Collector, Refusal>
        ensures empty { IfOk result (λ c. c ≡ replicate pieces None) }
        ensures refusal { IfErr result (λ e. e ≡ out_of_memory) }
    {
        let slots = empty_slots(alloc, pieces)?;
        Ok(Collector { slots })
    }

    /// Takes in a piece.
    ///
    /// `StrayPiece` at 1:1 where one of its number is there already, or its number isn't below the count. Then nothing
    /// changes.
    pub fn add(&mut self, piece: CodePiece) -> Result<(), Refusal>
        ensures added { OnOk result (IsFree self.old piece.number
            × (self.new ≡ added self.old (piece_of piece))) }
        ensures stray { OnErr result ((IsFree self.old piece.number → ⊥) × (self.new ≡ self.old)) }
        ensures refusal { IfErr result (λ e. e ≡ stray) }
    {
        let CodePiece { number, code } = piece;
        if number >= self.slots.len() || self.slots[number].is_some() {
            return Err(refuse_stray());
        }
        self.slots[number] = Some(code);
        Ok(())
    }

    /// All pieces, by rising number.
    ///
    /// `StrayPiece` at 1:1 where the piece of some number hasn't come, and there alone; else at most `Memory`.
    pub fn finish(self, alloc: Global) -> Result<Vec<CodePiece>, Refusal>
        ensures whole { IfOk result (λ pieces. map piece_of pieces.items ≡ collected 0 self) }
        ensures gap { has_gap self ≡ true → result ≡ Err stray }
        ensures no_gap { has_gap self ≡ false → IfErr result (λ e. e ≡ out_of_memory) }
    {
        let Collector { slots } = self;
        if lacks_piece(slots.as_slice()) {
            return Err(refuse_stray());
        }
        let pieces = pieces_in(alloc, slots)?;
        Ok(pieces)
    }
}

// So many empty places.
fn empty_slots(alloc: Global, pieces: usize) -> Result<Vec<Option<Vec<Marked>>>, AllocError>
    ensures { IfOk result (λ v. map slot_of v.items ≡ replicate pieces None) }
{
    let mut slots = Vec::with_capacity(alloc, pieces)?;
    while slots.len() < pieces {
        slots.push(None)?;
    }
    Ok(slots)
}

// Whether a place is empty.
fn lacks_piece(slots: &[Option<Vec<Marked>>]) -> bool
    ensures { result ≡ has_gap (map slot_of slots.now) }
{
    for slot in slots {
        if slot.is_none() {
            return true;
        }
    }
    false
}

// The pieces in these places, none of which is empty.
fn pieces_in(alloc: Global, slots: Vec<Option<Vec<Marked>>>) -> Result<Vec<CodePiece>, AllocError>
    requires { has_gap (map slot_of slots.items) ≡ false }
    ensures { IfOk result (λ pieces. map piece_of pieces.items
        ≡ collected 0 (map slot_of slots.items)) }
{
    let mut pieces = Vec::with_capacity(alloc, slots.len())?;
    let mut number = 0;
    for slot in slots {
        let Some(code) = slot else { unreachable!() };
        pieces.push(CodePiece { number, code })?;
        number += 1;
    }
    Ok(pieces)
}
