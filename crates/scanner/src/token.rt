/// A word in capitals that the grammar uses. None of them is a name. Hints write it by its Debug, in capitals.
#[derive(Clone, Copy, PartialEq, Eq, Debug)]
pub enum Keyword {
    Program,
    Monitor,
    Var,
    Condition,
    Array,
    Of,
    Integer,
    Boolean,
    Process,
    Entry,
    Internal,
    Procedure,
    End,
    Recover,
    Main,
    If,
    Then,
    Else,
    Endif,
    While,
    Do,
    Endloop,
    Call,
    Into,
    Fork,
    Join,
    Aborted,
    Return,
    Wait,
    Notify,
    Broadcast,
    Print,
    Abort,
    Or,
    And,
    Mod,
    Not,
    True,
    False,
}

/// A sign of one or two bytes.
#[derive(Clone, Copy, PartialEq, Eq, Debug)]
pub enum Sign {
    /// `:=`
    Assign,
    /// `:`
    Colon,
    /// `;`
    Semicolon,
    /// `,`
    Comma,
    /// `.`
    Dot,
    /// `(`
    OpenParen,
    /// `)`
    CloseParen,
    /// `[`
    OpenBracket,
    /// `]`
    CloseBracket,
    /// `=`
    Equal,
    /// `#`
    NotEqual,
    /// `<`
    Less,
    /// `<=`
    LessEqual,
    /// `>`
    Greater,
    /// `>=`
    GreaterEqual,
    /// `+`
    Plus,
    /// `-`
    Minus,
    /// `*`
    Times,
    /// `/`
    Divide,
}

/// What a token is.
#[derive(Clone, Copy, PartialEq, Eq, Debug)]
pub enum Kind {
    Keyword(Keyword),
    Sign(Sign),
    /// A letter followed by letters and digits, and no keyword.
    Name,
    /// Digits, with their value, from 0 to 2147483647.
    Number(u32),
    /// The end of the text, which is the last token of each list.
    End,
}

/// Where a byte stands: its line and its column, both from 1.
///
/// A line feed ends a line. Every other byte is one column.
#[derive(Clone, Copy, PartialEq, Eq, Debug)]
pub struct Place {
    /// The line, from 1.
    pub line: u32,
    /// The column in its line, from 1.
    pub column: u32,
}

impl Place {
    /// The place of a text's first byte.
    pub const START: Place = Place { line: 1, column: 1 };
}

/// A token: what it is, its bytes in the source text, and the place of its first byte.
///
/// The bytes of the end are none, and its place is just after the last byte of the text.
#[derive(Clone, Copy)]
pub struct Token<'a> {
    /// What it is.
    pub kind: Kind,
    /// Its bytes in the source text.
    pub text: &'a [u8],
    /// The place of its first byte.
    pub place: Place,
}
