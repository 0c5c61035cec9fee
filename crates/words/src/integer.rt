ghost use Rattle.std.specs.Prelude.{◌≡◌, ◌^◌, ◌<◌, ℕ, FitsSigned, ℤ};
ghost use Rattle.std.specs.Int.{w32};
ghost use Rattle.words.specs.Signed.{signed_of, word_of};

/// The number from -2147483648 to 2147483647 that a word stands for, in two's complement.
pub fn signed(word: u32) -> i32
    ensures { result ≡ signed_of word }
{
    word.cast_signed()
}

/// The word that stands for a number.
pub fn word(value: i32) -> u32
    ensures { result ≡ word_of value }
{
    value.cast_unsigned()
}

/// Each word stands for one number, and each number has one word.
pub fn signed_laws()
    ensures there { (w : ℕ) → w < 2 ^ 32 → word_of (signed_of w) ≡ w }
    ensures back { (z : ℤ) → FitsSigned w32 z → signed_of (word_of z) ≡ z }
{}
