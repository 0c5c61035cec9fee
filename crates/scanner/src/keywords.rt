ghost use Rattle.std.specs.Prelude.{◌≡◌, ◌≢◌, MatchOption, Contains, slice_index};
ghost use Rattle.scanner.specs.Lexemes.{keyword_text};
ghost use Rattle.scanner.specs.declared.token.Keyword.{Keyword as Word};

use crate::token::Keyword;

impl Keyword {
    // How the keyword is written.
    fn text(self) -> &'static [u8]
        ensures { result.now ≡ keyword_text self }
    {
        match self {
            Keyword::Program => b"PROGRAM",
            Keyword::Monitor => b"MONITOR",
            Keyword::Var => b"VAR",
            Keyword::Condition => b"CONDITION",
            Keyword::Array => b"ARRAY",
            Keyword::Of => b"OF",
            Keyword::Integer => b"INTEGER",
            Keyword::Boolean => b"BOOLEAN",
            Keyword::Process => b"PROCESS",
            Keyword::Entry => b"ENTRY",
            Keyword::Internal => b"INTERNAL",
            Keyword::Procedure => b"PROCEDURE",
            Keyword::End => b"END",
            Keyword::Recover => b"RECOVER",
            Keyword::Main => b"MAIN",
            Keyword::If => b"IF",
            Keyword::Then => b"THEN",
            Keyword::Else => b"ELSE",
            Keyword::Endif => b"ENDIF",
            Keyword::While => b"WHILE",
            Keyword::Do => b"DO",
            Keyword::Endloop => b"ENDLOOP",
            Keyword::Call => b"CALL",
            Keyword::Into => b"INTO",
            Keyword::Fork => b"FORK",
            Keyword::Join => b"JOIN",
            Keyword::Aborted => b"ABORTED",
            Keyword::Return => b"RETURN",
            Keyword::Wait => b"WAIT",
            Keyword::Notify => b"NOTIFY",
            Keyword::Broadcast => b"BROADCAST",
            Keyword::Print => b"PRINT",
            Keyword::Abort => b"ABORT",
            Keyword::Or => b"OR",
            Keyword::And => b"AND",
            Keyword::Mod => b"MOD",
            Keyword::Not => b"NOT",
            Keyword::True => b"TRUE",
            Keyword::False => b"FALSE",
        }
    }

    // The keywords that begin with a byte.
    fn beginning_with(first: u8) -> &'static [Keyword]
        ensures { (k : Word) → slice_index (keyword_text k) 0 ≡ first → Contains result.now k }
    {
        match first {
            b'A' => &[
                Keyword::Array,
                Keyword::Aborted,
                Keyword::Abort,
                Keyword::And,
            ],
            b'B' => &[Keyword::Boolean, Keyword::Broadcast],
            b'C' => &[Keyword::Condition, Keyword::Call],
            b'D' => &[Keyword::Do],
            b'E' => &[
                Keyword::Entry,
                Keyword::End,
                Keyword::Else,
                Keyword::Endif,
                Keyword::Endloop,
            ],
            b'F' => &[Keyword::Fork, Keyword::False],
            b'I' => &[
                Keyword::Integer,
                Keyword::Internal,
                Keyword::If,
                Keyword::Into,
            ],
            b'J' => &[Keyword::Join],
            b'M' => &[Keyword::Monitor, Keyword::Main, Keyword::Mod],
            b'N' => &[Keyword::Notify, Keyword::Not],
            b'O' => &[Keyword::Of, Keyword::Or],
            b'P' => &[
                Keyword::Program,
                Keyword::Process,
                Keyword::Procedure,
                Keyword::Print,
            ],
            b'R' => &[Keyword::Recover, Keyword::Return],
            b'T' => &[Keyword::Then, Keyword::True],
            b'V' => &[Keyword::Var],
            b'W' => &[Keyword::While, Keyword::Wait],
            _ => &[],
        }
    }

    // The keyword that is written so, or `None` where no keyword is.
    pub(crate) fn from_text(text: &[u8]) -> Option<Keyword>
        ensures { MatchOption result ((k : Word) → text.now ≢ keyword_text k)
            (λ k. text.now ≡ keyword_text k) }
    {
        let [first, ..] = text else {
            return None;
        };
        for keyword in Keyword::beginning_with(*first) {
            if text == keyword.text() {
                return Some(*keyword);
            }
        }
        None
    }
}
