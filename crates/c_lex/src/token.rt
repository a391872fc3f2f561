use crate::keyword::Keyword;
use crate::punctuator::Punctuator;
use crate::reserved::Reserved;

/// Types of integer literals, by their size.
#[derive(Clone, Copy, Debug, PartialEq, Eq)]
pub enum IntegerType {
    /// 32 bits, signed.
    Int,
    /// 32 bits, unsigned.
    Unsigned,
    /// 64 bits, signed.
    LongLong,
    /// 64 bits, unsigned.
    UnsignedLongLong,
}

/// What a token is.
#[derive(Clone, Copy, Debug, PartialEq, Eq)]
pub enum Kind {
    /// A name that is no keyword and not reserved.
    Identifier,
    /// A keyword of the language.
    Keyword(Keyword),
    /// A word that C reserves and that no rule of the language uses.
    Reserved(Reserved),
    /// An integer literal: its value, and the first of its types that holds it.
    Integer { value: u64, of: IntegerType },
    /// A character: its value as a signed char, of type int.
    CharacterConstant(i8),
    /// A punctuator.
    Punctuator(Punctuator),
}

/// A token (C11, 6.4).
#[derive(Clone, Copy, Debug, PartialEq, Eq)]
pub struct Token {
    /// What it is.
    pub kind: Kind,
    /// The place in the text of its first byte.
    pub start: u64,
    /// The place after its last byte.
    pub end: u64,
}
