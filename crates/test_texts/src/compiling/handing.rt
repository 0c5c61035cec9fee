use crate::failure::Failure;
use codegen::CodePiece;
use linker::Collector;
use std::alloc::Global;
use std::str::SplitWhitespace;

/// Hands empty pieces to a collector, and prints which were taken and which were refused, and the numbers of the pieces
/// that it finishes with.
pub fn show_pieces<R: AllocGlobal + Print>(rt: &R, said: &str) -> Result<(), Failure> {
    let mut words = said.split_whitespace();
    let count = number_of(words.next())?;
    let mut collector = Collector::new(rt.alloc(), count)?;
    hand_in(rt, &mut collector, words)?;
    let pieces = collector.finish(rt.alloc())?;
    for piece in &pieces {
        let number = piece.number;
        print!(rt; "{number} ")?;
    }
    println!(rt; "finished")?;
    Ok(())
}

fn number_of(word: Option<&str>) -> Result<usize, Failure> {
    word.ok_or(Failure::Row)?.parse().map_err(|_| Failure::Row)
}

// Hands in pieces of these numbers.
fn hand_in<R: AllocGlobal + Print>(
    rt: &R,
    collector: &mut Collector,
    numbers: SplitWhitespace,
) -> Result<(), Failure> {
    for word in numbers {
        let number = number_of(Some(word))?;
        let taken = is_taken(rt.alloc(), collector, number);
        let answer = if taken { "taken" } else { "stray" };
        print!(rt; "{answer} ")?;
    }
    Ok(())
}

fn is_taken(alloc: Global, collector: &mut Collector, number: usize) -> bool {
    let code = Vec::new(alloc);
    collector.add(CodePiece { number, code }).is_ok()
}
