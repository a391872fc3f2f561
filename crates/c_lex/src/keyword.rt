//! Keywords.

ghost use Rattle.std.specs.Prelude.{◌≡◌};
ghost use Rattle.std.specs.Str.{bytes_eq};
ghost use Rattle.c_lex.specs.Keywords.{spelling, keyword_of};

/// Keywords: those of C that the language has (C11, 6.4.1), those of structured exception handling,
/// and the one intrinsic that the grammar names (Microsoft C reference, "try-except statement" and
/// "try-finally statement").
#[derive(Clone, Copy, Debug, PartialEq, Eq)]
pub enum Keyword {
    Break,
    Char,
    Continue,
    Do,
    Else,
    For,
    If,
    Int,
    Long,
    Return,
    Short,
    Signed,
    Unsigned,
    Void,
    While,
    Try,
    Except,
    Finally,
    Leave,
    GetExceptionInformation,
}

/// All keywords.
const KEYWORDS: [Keyword; 20] = [
    Keyword::Break,
    Keyword::Char,
    Keyword::Continue,
    Keyword::Do,
    Keyword::Else,
    Keyword::For,
    Keyword::If,
    Keyword::Int,
    Keyword::Long,
    Keyword::Return,
    Keyword::Short,
    Keyword::Signed,
    Keyword::Unsigned,
    Keyword::Void,
    Keyword::While,
    Keyword::Try,
    Keyword::Except,
    Keyword::Finally,
    Keyword::Leave,
    Keyword::GetExceptionInformation,
];

impl Keyword {
    /// The bytes of the keyword.
    pub fn spelling(self) -> &'static [u8]
        ensures { result.now ≡ spelling self }
    {
        match self {
            Keyword::Break => b"break",
            Keyword::Char => b"char",
            Keyword::Continue => b"continue",
            Keyword::Do => b"do",
            Keyword::Else => b"else",
            Keyword::For => b"for",
            Keyword::If => b"if",
            Keyword::Int => b"int",
            Keyword::Long => b"long",
            Keyword::Return => b"return",
            Keyword::Short => b"short",
            Keyword::Signed => b"signed",
            Keyword::Unsigned => b"unsigned",
            Keyword::Void => b"void",
            Keyword::While => b"while",
            Keyword::Try => b"__try",
            Keyword::Except => b"__except",
            Keyword::Finally => b"__finally",
            Keyword::Leave => b"__leave",
            Keyword::GetExceptionInformation => b"GetExceptionInformation",
        }
    }

    /// Whether a word is spelled so. Most words have another length, which is looked at first.
    fn is_spelled(self, word: &[u8]) -> bool
        ensures { result ≡ bytes_eq (spelling self) word.now }
    {
        let spelling = self.spelling();
        if spelling.len() != word.len() {
            return false;
        }
        spelling == word
    }

    /// The keyword that a word is.
    #[tactic(auto, unfolding(crate::specs::Keywords::keyword_of))]
    pub(crate) fn of(word: &[u8]) -> Option<Keyword>
        ensures { result ≡ keyword_of word.now }
    {
        KEYWORDS
            .iter()
            .copied()
            .find(|keyword| keyword.is_spelled(word))
    }
}
