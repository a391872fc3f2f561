//! Tables of texts, and what is found of each.
//!
//! A table is one text. Each line after its first is a row, `TEXT => FOUND`: a text, and what its
//! reader finds of it. In a text `$TIMES$PIECE$` is a piece so many times, and `$byte$NUMBER$` is
//! the byte of that number.

ghost use Rattle.c_lex.specs.Text.{IsTokens};

use crate::{atoms, expressions, programs, statements, tokens, types};
use c_lex::lexing::lex;
use c_lex::token::Token;
use std::alloc::{AllocError, Global};
use std::process::Abort;

/// What reads the texts of a table.
#[derive(Clone, Copy)]
pub enum Reader {
    /// The one token that a text is.
    Token,
    /// All tokens of a text.
    Tokens,
    /// A binary operator.
    Binary,
    /// An operator of an assignment, or of one operand.
    Operator,
    /// A literal or a name.
    Operand,
    /// A field of the exception's record.
    Information,
    /// A type, and a token after it.
    Type,
    /// An expression, with room for so many expressions around a part.
    Expression { room: u64 },
    /// Where an expression starts.
    Start,
    /// The items of a block.
    Items,
    /// A program.
    Program,
}

/// A row's text with each piece as often as it is wanted.
fn expanded(rt: &impl Abort, alloc: Global, text: &str) -> Vec<u8> {
    let mut whole = Vec::new(alloc);
    let mut is_byte = false;
    let mut times = 0u32;
    for (number, part) in text.split('$').enumerate() {
        match number % 3 {
            0 => whole
                .extend_from_slice(part.as_bytes())
                .expect(rt, "memory"),
            1 => {
                is_byte = part == "byte";
                times = part.parse().unwrap_or(0);
            }
            _ => {
                if is_byte {
                    whole.push(part.parse().unwrap_or(0)).expect(rt, "memory");
                }
                for _ in 0..times {
                    whole
                        .extend_from_slice(part.as_bytes())
                        .expect(rt, "memory");
                }
            }
        }
    }
    whole
}

/// What is reported of a text with these tokens, and of what is given before it.
fn report(
    rt: &impl Abort,
    alloc: Global,
    reader: Reader,
    given: &str,
    text: &[u8],
    tokens: &[Token],
) -> Result<String, AllocError>
    requires { IsTokens text.now tokens.now }
{
    match reader {
        Reader::Token => tokens::token_of(alloc, text, tokens),
        Reader::Tokens => Ok(tokens::tokens_of(rt, alloc, tokens)),
        Reader::Binary => atoms::binary_operator_of(alloc, tokens),
        Reader::Operator => atoms::operator_of(alloc, tokens),
        Reader::Operand => atoms::operand_of(alloc, tokens),
        Reader::Information => atoms::information_of(alloc, text, tokens),
        Reader::Type => types::type_of(alloc, tokens),
        Reader::Expression { room } => expressions::expression_of(alloc, text, room, tokens),
        Reader::Start => expressions::start_of(alloc, text, tokens),
        Reader::Items => statements::items_of(alloc, given, text, tokens),
        Reader::Program => programs::program_of(alloc, text, tokens),
    }
}

/// What is reported of a row's text. Before the items of a block numbers are given.
fn found_of(rt: &impl Abort, alloc: Global, reader: Reader, row: &str) -> String {
    let (given, text) = match reader {
        Reader::Items => row.split_once(": ").unwrap_or(("", row)),
        _ => ("", row),
    };
    let whole = expanded(rt, alloc, text);
    let found = match lex(alloc, &whole) {
        Ok(tokens) => report(rt, alloc, reader, given, &whole, &tokens),
        Err(refusal) => { format!(in alloc; "{refusal:?}") }
    };
    found.expect(rt, "memory")
}

/// Compares what is reported of a row's text with the row.
fn as_wanted(rt: &impl Abort, alloc: Global, reader: Reader, row: &str) {
    match row.split_once(" => ") {
        None => panic!(rt; "no row: {row}"),
        Some((text, wanted)) => {
            let found = found_of(rt, alloc, reader, text);
            assert_eq!(rt; found.as_str(), wanted, "of {text}");
        }
    }
}

/// Compares what is reported of each text of some tables with its row.
pub fn all_as_wanted(rt: &impl Abort, alloc: Global, reader: Reader, tables: &[&str]) {
    for table in tables {
        for row in table.lines().skip(1) {
            as_wanted(rt, alloc, reader, row);
        }
    }
}
