//! A text as a list of tokens.

ghost use Rattle.std.specs.Prelude.{◌≡◌, ℕ, List, ◌⊎◌, IfOk, IfErr, MatchResult};
ghost use Rattle.c_lex.specs.declared.lexing.LexErr.TheVariants.{Memory};
ghost use Rattle.c_lex.specs.declared.token.Token.{Token};
ghost use Rattle.c_lex.specs.declared.word.Fault.{Fault};
ghost use Rattle.c_lex.specs.Answers.{refused};
ghost use Rattle.c_lex.specs.Text.{IsTokens, IsLexicalFault};

use crate::token::Token;
use crate::word::{Fault, Word, longest_word};
use std::alloc::{AllocError, AllocFailed, Global};

/// Why a text has no list of tokens. `at` is the place of the first byte that belongs to no token,
/// no white space and no comment.
#[derive(Clone, Copy, Debug, PartialEq, Eq)]
pub enum LexErr {
    /// A byte begins no token, white space or comment.
    BadByte { at: u64 },
    /// A comment that begins with `/*` has no end.
    OpenComment { at: u64 },
    /// A quote begins no character.
    BadChar { at: u64 },
    /// An integer literal is 2^64 or above.
    BigLiteral { at: u64 },
    /// Memory ran out.
    Memory,
}

impl From<AllocError> for LexErr {
    ghost from_gives = { λ _ e. e ≡ Memory };

    fn from(_error: AllocError) -> LexErr {
        LexErr::Memory
    }
}

impl<T: Drop> From<AllocFailed<T>> for LexErr {
    ghost from_gives = { λ _ e. e ≡ Memory };

    fn from(_error: AllocFailed<T>) -> LexErr {
        LexErr::Memory
    }
}

fn refused(fault: Fault, at: u64) -> LexErr
    ensures { result ≡ refused fault at }
{
    match fault {
        Fault::BadByte => LexErr::BadByte { at },
        Fault::OpenComment => LexErr::OpenComment { at },
        Fault::BadChar => LexErr::BadChar { at },
        Fault::BigLiteral => LexErr::BigLiteral { at },
    }
}

/// The tokens of a text, in its order; or the first place from which the text is no token, no white
/// space and no comment.
pub fn lex(alloc: Global, text: &[u8]) -> Result<Vec<Token>, LexErr>
    // The text is these tokens, white space and comments.
    ensures found { IfOk result (λ v. IsTokens text.now v.items) }
    // What has such a list is not refused, unless memory runs out, and has no other list.
    ensures only { (ts : List Token) → IsTokens text.now ts
        → MatchResult result (λ v. v.items ≡ ts) (λ e. e ≡ Memory) }
    // A refusal names the first fault and its place.
    ensures refused { IfErr result (λ e. (e ≡ Memory)
        ⊎ ((f : Fault) × (at : ℕ) × (e ≡ refused f at) × IsLexicalFault text.now f at)) }
    // What has a fault is refused for it, unless memory runs out.
    ensures first { (f : Fault) (at : ℕ) → IsLexicalFault text.now f at
        → MatchResult result (λ v. ⊥) (λ e. (e ≡ Memory) ⊎ (e ≡ refused f at)) }
{
    let mut tokens = Vec::new(alloc);
    let mut rest = text;
    while let Some((word, after)) = longest_word(rest) {
        let start = (text.len() - rest.len()) as u64;
        match word {
            Word::Lexeme(kind) => {
                let end = (text.len() - after.len()) as u64;
                tokens.push(Token { kind, start, end })?;
            }
            Word::Blank => {}
            Word::Bad(fault) => return Err(refused(fault, start)),
        }
        rest = after;
    }
    Ok(tokens)
}
