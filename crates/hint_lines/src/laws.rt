ghost use Rattle.std.specs.Prelude.{◌≡◌, ℕ};
ghost use Rattle.hint_lines.specs.HintLines.{IsPrintable, shown};

/// What a line of hints shows of a byte is printable, and the byte itself where that is.
pub fn shown_laws()
    ensures printable { (b : ℕ) → IsPrintable (shown b) }
    ensures same { (b : ℕ) → IsPrintable b → shown b ≡ b }
{}
