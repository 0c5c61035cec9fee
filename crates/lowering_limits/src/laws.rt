ghost use Rattle.std.specs.Prelude.{◌≤◌, ◌<◌, length};
ghost use Rattle.isa.specs.Limits.{most_instructions};
ghost use Rattle.isa.specs.Programs.{IsProgram, memory_size};
ghost use Rattle.program.specs.Trees.{Program};
ghost use Rattle.program.specs.WellFormed.{WellFormed};
ghost use Rattle.lowering.specs.Cells.{Cell, IsCell, address};
ghost use Rattle.lowering.specs.Pieces.{code_of};

/// The image of a checked program is within all limits of an image where its code has no more instructions than an
/// image may have: its locals, its arguments, the places that it names and its monitors. Each word of the program lies
/// in the memory that the image runs in.
pub fn image_laws()
    ensures within { (p : Program) → WellFormed p → length (code_of p).code ≤ most_instructions
        → IsProgram (code_of p) }
    ensures inside { (p : Program) (c : Cell) → IsCell p c → address p c < memory_size (code_of p) }
{}
