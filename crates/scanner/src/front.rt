ghost use Rattle.std.specs.Prelude.{◌≡◌};
ghost use Rattle.std.specs.Char.{is_ascii_alphanumeric, is_ascii_digit};
ghost use Rattle.std.specs.List.{prefix_len};
ghost use Rattle.scanner.specs.Bytes.{is_comment_byte};
ghost use Rattle.scanner.specs.Steps.{front_of, OnOneLine};

/// What the first bytes of a text begin.
#[derive(Clone, Copy)]
pub enum Front {
    /// The text has no byte.
    Finish,
    /// A blank, a tab, or a byte that ends a line.
    White,
    /// Two minus signs.
    Comment,
    /// A letter.
    Word,
    /// A digit.
    Digits,
    /// Any other byte of ASCII.
    Other,
    /// A byte past 127.
    PastAscii,
}

/// What a text begins with.
pub fn front_of(bytes: &[u8]) -> Front
    ensures { result ≡ front_of bytes.now }
{
    match bytes {
        [] => Front::Finish,
        [b' ' | b'\t' | b'\n' | b'\r', ..] => Front::White,
        [b'-', b'-', ..] => Front::Comment,
        [first, ..] if first.is_ascii_alphabetic() => Front::Word,
        [first, ..] if first.is_ascii_digit() => Front::Digits,
        [first, ..] if first.is_ascii() => Front::Other,
        _ => Front::PastAscii,
    }
}

/// How many letters and digits stand first.
#[tactic(auto, using(crate::proofs::LineLaws::prefix_on_line))]
pub fn word_length(bytes: &[u8]) -> usize
    ensures count { result ≡ prefix_len is_ascii_alphanumeric bytes.now }
    ensures line { OnOneLine bytes.now result }
{
    bytes
        .iter()
        .take_while(|b| b.is_ascii_alphanumeric())
        .count()
}

/// How many digits stand first.
#[tactic(auto, using(crate::proofs::LineLaws::prefix_on_line))]
pub fn digits_length(bytes: &[u8]) -> usize
    ensures count { result ≡ prefix_len is_ascii_digit bytes.now }
    ensures line { OnOneLine bytes.now result }
{
    bytes.iter().take_while(|b| b.is_ascii_digit()).count()
}

/// How many bytes stand first with which a comment goes on.
#[tactic(auto, using(crate::proofs::LineLaws::prefix_on_line))]
pub fn comment_length(bytes: &[u8]) -> usize
    ensures count { result ≡ prefix_len is_comment_byte bytes.now }
    ensures line { OnOneLine bytes.now result }
{
    bytes
        .iter()
        .take_while(|b| b.is_ascii() && **b != b'\n')
        .count()
}
