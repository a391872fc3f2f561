//! Punctuators.

ghost use Rattle.std.specs.Prelude.{◌≡◌, ℕ, List, [], ◌∷◌};
ghost use Rattle.c_lex.specs.Longest.{IsLongest};
ghost use Rattle.c_lex.specs.Readers as readers;
ghost use Rattle.c_lex.specs.Punctuators.{spelling, IsOperator, punctuator_of};
ghost use Rattle.c_lex.specs.Words.{lone, punctuator};

use crate::token::Kind;
use crate::word::{Fault, Word};

/// Punctuators of the language (C11, 6.4.6), each named by how it looks.
#[derive(Clone, Copy, Debug, PartialEq, Eq)]
pub enum Punctuator {
    /// `(`
    OpenParenthesis,
    /// `)`
    CloseParenthesis,
    /// `[`
    OpenBracket,
    /// `]`
    CloseBracket,
    /// `{`
    OpenBrace,
    /// `}`
    CloseBrace,
    /// `;`
    Semicolon,
    /// `,`
    Comma,
    /// `?`
    Question,
    /// `:`
    Colon,
    /// `->`
    Arrow,
    /// `=`
    Assign,
    /// `+=`
    PlusAssign,
    /// `-=`
    MinusAssign,
    /// `*=`
    StarAssign,
    /// `/=`
    SlashAssign,
    /// `%=`
    PercentAssign,
    /// `&=`
    AmpersandAssign,
    /// `|=`
    BarAssign,
    /// `^=`
    CaretAssign,
    /// `<<=`
    ShiftLeftAssign,
    /// `>>=`
    ShiftRightAssign,
    /// `||`
    BarBar,
    /// `&&`
    AmpersandAmpersand,
    /// `|`
    Bar,
    /// `^`
    Caret,
    /// `&`
    Ampersand,
    /// `==`
    Equal,
    /// `!=`
    NotEqual,
    /// `<`
    Less,
    /// `>`
    Greater,
    /// `<=`
    LessEqual,
    /// `>=`
    GreaterEqual,
    /// `<<`
    ShiftLeft,
    /// `>>`
    ShiftRight,
    /// `+`
    Plus,
    /// `-`
    Minus,
    /// `*`
    Star,
    /// `/`
    Slash,
    /// `%`
    Percent,
    /// `!`
    Exclamation,
    /// `~`
    Tilde,
    /// `++`
    PlusPlus,
    /// `--`
    MinusMinus,
}

impl Punctuator {
    /// The bytes of an operator that isn't an assignment.
    fn operator_spelling(self) -> &'static [u8]
        requires { IsOperator self }
        ensures { result.now ≡ spelling self }
    {
        match self {
            Punctuator::BarBar => b"||",
            Punctuator::AmpersandAmpersand => b"&&",
            Punctuator::Bar => b"|",
            Punctuator::Caret => b"^",
            Punctuator::Ampersand => b"&",
            Punctuator::Equal => b"==",
            Punctuator::NotEqual => b"!=",
            Punctuator::Less => b"<",
            Punctuator::Greater => b">",
            Punctuator::LessEqual => b"<=",
            Punctuator::GreaterEqual => b">=",
            Punctuator::ShiftLeft => b"<<",
            Punctuator::ShiftRight => b">>",
            Punctuator::Plus => b"+",
            Punctuator::Minus => b"-",
            Punctuator::Star => b"*",
            Punctuator::Slash => b"/",
            Punctuator::Percent => b"%",
            Punctuator::Exclamation => b"!",
            Punctuator::Tilde => b"~",
            Punctuator::PlusPlus => b"++",
            Punctuator::MinusMinus => b"--",
            _ => unreachable!(),
        }
    }

    /// The bytes of the punctuator.
    pub fn spelling(self) -> &'static [u8]
        ensures { result.now ≡ spelling self }
    {
        match self {
            Punctuator::OpenParenthesis => b"(",
            Punctuator::CloseParenthesis => b")",
            Punctuator::OpenBracket => b"[",
            Punctuator::CloseBracket => b"]",
            Punctuator::OpenBrace => b"{",
            Punctuator::CloseBrace => b"}",
            Punctuator::Semicolon => b";",
            Punctuator::Comma => b",",
            Punctuator::Question => b"?",
            Punctuator::Colon => b":",
            Punctuator::Arrow => b"->",
            Punctuator::Assign => b"=",
            Punctuator::PlusAssign => b"+=",
            Punctuator::MinusAssign => b"-=",
            Punctuator::StarAssign => b"*=",
            Punctuator::SlashAssign => b"/=",
            Punctuator::PercentAssign => b"%=",
            Punctuator::AmpersandAssign => b"&=",
            Punctuator::BarAssign => b"|=",
            Punctuator::CaretAssign => b"^=",
            Punctuator::ShiftLeftAssign => b"<<=",
            Punctuator::ShiftRightAssign => b">>=",
            _ => self.operator_spelling(),
        }
    }
}

/// The punctuator that a byte is.
#[tactic(auto, unfolding(crate::specs::Punctuators::punctuator_of))]
fn one(byte: u8) -> Option<Punctuator>
    ensures { result ≡ punctuator_of (byte ∷ []) }
{
    Some(match byte {
        b'(' => Punctuator::OpenParenthesis,
        b')' => Punctuator::CloseParenthesis,
        b'[' => Punctuator::OpenBracket,
        b']' => Punctuator::CloseBracket,
        b'{' => Punctuator::OpenBrace,
        b'}' => Punctuator::CloseBrace,
        b';' => Punctuator::Semicolon,
        b',' => Punctuator::Comma,
        b'?' => Punctuator::Question,
        b':' => Punctuator::Colon,
        b'=' => Punctuator::Assign,
        b'|' => Punctuator::Bar,
        b'^' => Punctuator::Caret,
        b'&' => Punctuator::Ampersand,
        b'<' => Punctuator::Less,
        b'>' => Punctuator::Greater,
        b'+' => Punctuator::Plus,
        b'-' => Punctuator::Minus,
        b'*' => Punctuator::Star,
        b'/' => Punctuator::Slash,
        b'%' => Punctuator::Percent,
        b'!' => Punctuator::Exclamation,
        b'~' => Punctuator::Tilde,
        _ => return None,
    })
}

/// The punctuator that two bytes are.
#[tactic(auto, unfolding(crate::specs::Punctuators::punctuator_of))]
fn two(first: u8, second: u8) -> Option<Punctuator>
    ensures { result ≡ punctuator_of (first ∷ second ∷ []) }
{
    Some(match (first, second) {
        (b'-', b'>') => Punctuator::Arrow,
        (b'+', b'=') => Punctuator::PlusAssign,
        (b'-', b'=') => Punctuator::MinusAssign,
        (b'*', b'=') => Punctuator::StarAssign,
        (b'/', b'=') => Punctuator::SlashAssign,
        (b'%', b'=') => Punctuator::PercentAssign,
        (b'&', b'=') => Punctuator::AmpersandAssign,
        (b'|', b'=') => Punctuator::BarAssign,
        (b'^', b'=') => Punctuator::CaretAssign,
        (b'|', b'|') => Punctuator::BarBar,
        (b'&', b'&') => Punctuator::AmpersandAmpersand,
        (b'=', b'=') => Punctuator::Equal,
        (b'!', b'=') => Punctuator::NotEqual,
        (b'<', b'=') => Punctuator::LessEqual,
        (b'>', b'=') => Punctuator::GreaterEqual,
        (b'<', b'<') => Punctuator::ShiftLeft,
        (b'>', b'>') => Punctuator::ShiftRight,
        (b'+', b'+') => Punctuator::PlusPlus,
        (b'-', b'-') => Punctuator::MinusMinus,
        _ => return None,
    })
}

/// The punctuator that three bytes are.
#[tactic(auto, unfolding(crate::specs::Punctuators::punctuator_of))]
fn three(first: u8, second: u8, third: u8) -> Option<Punctuator>
    ensures { result ≡ punctuator_of (first ∷ second ∷ third ∷ []) }
{
    Some(match (first, second, third) {
        (b'<', b'<', b'=') => Punctuator::ShiftLeftAssign,
        (b'>', b'>', b'=') => Punctuator::ShiftRightAssign,
        _ => return None,
    })
}

/// What a byte alone is, if it is a punctuator or else begins no word.
fn lone(first: u8) -> Word
    ensures { result ≡ lone (punctuator_of (first ∷ [])) }
{
    match one(first) {
        Some(punctuator) => Word::Lexeme(Kind::Punctuator(punctuator)),
        None => Word::Bad(Fault::BadByte),
    }
}

/// The longest punctuator of a byte and at most one more, and what follows it.
#[tactic(auto, unfolding(crate::specs::Words::punctuator))]
fn up_to_two(first: u8, text: &[u8]) -> (Word, &[u8])
    ensures { (result.0, result.1.now)
        ≡ readers.one (punctuator first) (lone (punctuator_of (first ∷ []))) text.now }
{
    match text {
        [] => (lone(first), text),
        [second, rest @ ..] => match two(first, *second) {
            Some(punctuator) => (Word::Lexeme(Kind::Punctuator(punctuator)), rest),
            None => (lone(first), text),
        },
    }
}

/// The longest punctuator of a byte and at most two more, and what follows it.
#[tactic(auto, unfolding(crate::specs::Words::punctuator))]
fn up_to_three(first: u8, text: &[u8]) -> (Word, &[u8])
    ensures { (result.0, result.1.now)
        ≡ readers.two (punctuator first) (lone (punctuator_of (first ∷ []))) text.now }
{
    match text {
        [second, third, rest @ ..] => match three(first, *second, *third) {
            Some(punctuator) => (Word::Lexeme(Kind::Punctuator(punctuator)), rest),
            None => up_to_two(first, text),
        },
        _ => up_to_two(first, text),
    }
}

/// What a byte is that begins a punctuator or no word, with what belongs to it, and what follows.
pub(crate) fn longest_punctuator(first: u8, text: &[u8]) -> (Word, &[u8])
    ensures { (w : List ℕ) × IsLongest (punctuator first) text.now w result.1.now result.0 }
{
    up_to_three(first, text)
}
