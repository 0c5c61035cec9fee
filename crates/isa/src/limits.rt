ghost use Rattle.std.specs.Prelude.{◌≡◌};
ghost use Rattle.isa.specs.Limits.{most_monitors, most_member_words, most_instructions, most_locals, most_arguments};

/// The most monitors of an image.
pub const MOST_MONITORS: usize = 64;

/// The most member words of all monitors of an image together.
pub const MOST_MEMBER_WORDS: u32 = 1024;

/// The most instructions of an image.
pub const MOST_INSTRUCTIONS: usize = 65536;

/// The most locals of a frame, besides the one of the templates, whose number is the next.
pub const MOST_LOCALS: u32 = 64;

/// The most arguments that an instruction hands to a new thread.
pub const MOST_ARGUMENTS: u32 = 16;

/// The limits in code are those of the contracts.
pub fn limit_laws()
    ensures monitors { MOST_MONITORS ≡ most_monitors }
    ensures member_words { MOST_MEMBER_WORDS ≡ most_member_words }
    ensures instructions { MOST_INSTRUCTIONS ≡ most_instructions }
    ensures locals { MOST_LOCALS ≡ most_locals }
    ensures arguments { MOST_ARGUMENTS ≡ most_arguments }
{}
