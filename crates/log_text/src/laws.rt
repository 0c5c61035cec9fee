ghost use Rattle.log_text.specs.Spelled.{LinesOnce, NoBadLine};

/// A text is the lines of one list of entries at most, and where it is, no line of it is none of an entry.
pub fn log_text_laws()
    ensures once { LinesOnce }
    ensures good { NoBadLine }
{}
