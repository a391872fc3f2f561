//! Why tokens are no program.

ghost use Rattle.std.specs.Prelude.{◌≡◌};
ghost use Rattle.c_syntax.specs.Faults as faults;
ghost use Rattle.c_parse_expr.specs.declared.refusal.ParseErr.TheVariants.{Unexpected, TooDeep, Memory};

use c_lex::token::Token;
use c_syntax::limit::Count;
use std::alloc::{AllocError, AllocFailed};

/// Why tokens are no program within the limits. `at` is the place of the first token with which no
/// such program continues, in bytes from the text's begin; the text's length where the text ends
/// too early.
#[derive(Clone, Copy, Debug, PartialEq, Eq)]
pub enum ParseErr {
    /// No program continues so.
    Unexpected { at: u64 },
    /// Programs continue so, but none within the limit of nesting.
    TooDeep { at: u64 },
    /// Programs continue so, but none with so few of these.
    TooMany { at: u64, what: Count },
    /// No memory was left.
    Memory,
}

impl From<AllocError> for ParseErr {
    ghost from_gives = { λ _ e. e ≡ Memory };

    fn from(_e: AllocError) -> ParseErr {
        ParseErr::Memory
    }
}

impl<T: Drop> From<AllocFailed<T>> for ParseErr {
    ghost from_gives = { λ _ e. e ≡ Memory };

    fn from(_e: AllocFailed<T>) -> ParseErr {
        ParseErr::Memory
    }
}

/// The place of the first token; the text's length where there is none.
pub fn place(text: &[u8], tokens: &[Token]) -> u64
    ensures { result ≡ faults.place text.now tokens.now }
{
    match tokens {
        [] => text.len() as u64,
        [first, ..] => first.start,
    }
}

/// The refusal of the first token, with which no program continues.
pub fn unexpected(text: &[u8], tokens: &[Token]) -> ParseErr
    ensures { result ≡ Unexpected (faults.place text.now tokens.now) }
{
    ParseErr::Unexpected {
        at: place(text, tokens),
    }
}

/// The refusal of the first token, after which nothing is within the limits of nesting.
pub fn too_deep(text: &[u8], tokens: &[Token]) -> ParseErr
    ensures { result ≡ TooDeep (faults.place text.now tokens.now) }
{
    ParseErr::TooDeep {
        at: place(text, tokens),
    }
}
