//! Words that C reserves and that no rule of the language uses.

ghost use Rattle.std.specs.Prelude.{◌≡◌};
ghost use Rattle.c_lex.specs.ReservedWords.{spelling, reserved_of};

/// Keywords of C (C11, 6.4.1) that are no keywords here: no name is spelled so, and no rule has
/// them.
#[derive(Clone, Copy, Debug, PartialEq, Eq)]
pub enum Reserved {
    Auto,
    Case,
    Const,
    Default,
    Double,
    Enum,
    Extern,
    Float,
    Goto,
    Inline,
    Register,
    Restrict,
    Sizeof,
    Static,
    Struct,
    Switch,
    Typedef,
    Union,
    Volatile,
}

/// All reserved words.
const RESERVED: [Reserved; 19] = [
    Reserved::Auto,
    Reserved::Case,
    Reserved::Const,
    Reserved::Default,
    Reserved::Double,
    Reserved::Enum,
    Reserved::Extern,
    Reserved::Float,
    Reserved::Goto,
    Reserved::Inline,
    Reserved::Register,
    Reserved::Restrict,
    Reserved::Sizeof,
    Reserved::Static,
    Reserved::Struct,
    Reserved::Switch,
    Reserved::Typedef,
    Reserved::Union,
    Reserved::Volatile,
];

impl Reserved {
    /// The bytes of the word.
    pub fn spelling(self) -> &'static [u8]
        ensures { result.now ≡ spelling self }
    {
        match self {
            Reserved::Auto => b"auto",
            Reserved::Case => b"case",
            Reserved::Const => b"const",
            Reserved::Default => b"default",
            Reserved::Double => b"double",
            Reserved::Enum => b"enum",
            Reserved::Extern => b"extern",
            Reserved::Float => b"float",
            Reserved::Goto => b"goto",
            Reserved::Inline => b"inline",
            Reserved::Register => b"register",
            Reserved::Restrict => b"restrict",
            Reserved::Sizeof => b"sizeof",
            Reserved::Static => b"static",
            Reserved::Struct => b"struct",
            Reserved::Switch => b"switch",
            Reserved::Typedef => b"typedef",
            Reserved::Union => b"union",
            Reserved::Volatile => b"volatile",
        }
    }

    /// The reserved word that a word is.
    #[tactic(auto, unfolding(crate::specs::ReservedWords::reserved_of))]
    pub(crate) fn of(word: &[u8]) -> Option<Reserved>
        ensures { result ≡ reserved_of word.now }
    {
        RESERVED
            .iter()
            .copied()
            .find(|reserved| reserved.spelling() == word)
    }
}
