//! Globals, and where they lie.

ghost use Rattle.std.specs.Prelude.{◌≡◌, ◌≤◌, Some, IfOk, IfErr, map};
ghost use Rattle.c_syntax.specs.declared.level.TheConstants.{ASSIGNMENT};
ghost use Rattle.c_syntax.specs.Follow.{Stops};
ghost use Rattle.c_syntax.specs.Limits as limits;
ghost use Rattle.c_syntax.specs.Program as trees;
ghost use Rattle.c_syntax.specs.Programs.{IsGlobal, AreGlobals};
ghost use Rattle.c_syntax.specs.Statements.{IsLength};
ghost use Rattle.c_syntax.specs.declared.limit.Count.TheVariants as counts;
ghost use Rattle.c_parse_expr.specs.declared.refusal.ParseErr.TheVariants.{TooMany};
ghost use Rattle.c_parse_stmt.specs.Parts.{IsBracketed};
ghost use Rattle.c_parse.specs.Parts as parts;
ghost use Rattle.c_parse.specs.Refused.{RefusesScalar, RefusesBracketed, RefusesLength, RefusesGlobal, RefusesGlobals};

use crate::initialisers::{initialiser, stop};
use c_lex::punctuator::Punctuator;
use c_lex::token::Token;
use c_parse_atom::operands::{integer, name};
use c_parse_expr::refusal::{ParseErr, place, unexpected};
use c_parse_stmt::parts::expect;
use c_parse_stmt::sizes::{end_of, size_of};
use c_parse_type::front::after;
use c_parse_type::specifiers::stars;
use c_syntax::declaration::{Global, Length};
use c_syntax::expression::Base;
use c_syntax::level::POSTFIX;
use c_syntax::limit::{Count, MOST_GLOBALS};
use std::alloc::Global as Allocator;

/// The refusal at a place from which on the program's globals take too many bytes.
fn too_many_bytes(at: u64) -> ParseErr
    ensures { result ≡ TooMany at counts.Globals }
{
    ParseErr::TooMany {
        at,
        what: Count::Globals,
    }
}

/// The refusal of the first token after the name of a scalar that takes too many bytes.
fn no_room(text: &[u8], tokens: &[Token]) -> ParseErr
    ensures { RefusesScalar result text.now tokens.now }
{
    if let Some(_) = after(Punctuator::Semicolon, tokens) {
        return too_many_bytes(place(text, tokens));
    }
    if let Some(_) = after(Punctuator::Comma, tokens) {
        return too_many_bytes(place(text, tokens));
    }
    if let Some(_) = after(Punctuator::Assign, tokens) {
        return too_many_bytes(place(text, tokens));
    }
    unexpected(text, tokens)
}

/// The length of an array after its bracket, where the array ends, and what follows the other
/// bracket.
fn bracketed<'a>(
    text: &[u8],
    base: Base,
    pointers: u64,
    bytes: u64,
    tokens: &'a [Token],
) -> Result<(Length, u64, &'a [Token]), ParseErr>
    requires { bytes ≤ MOST_GLOBALS }
    ensures found { IfOk result (λ x. IsBracketed x.0 tokens.now x.2.now) }
    ensures stops { IfOk result (λ x. Stops POSTFIX x.2.now) }
    ensures end { IfOk result (λ x. x.1 ≡ parts.end_of base pointers (Some x.0) bytes) }
    ensures low { IfOk result (λ x. x.1 ≤ MOST_GLOBALS) }
    ensures refused { IfErr result (λ e.
        RefusesBracketed e base pointers bytes text.now tokens.now) }
{
    match integer(tokens) {
        Some((value, at, following)) => match end_of(
            size_of(base, pointers),
            value,
            bytes,
            MOST_GLOBALS,
        ) {
            Some(end) => {
                let rest = expect(text, Punctuator::CloseBracket, following)?;
                stop(text, POSTFIX, rest)?;
                Ok((Length { at, value }, end, rest))
            }
            None => Err(too_many_bytes(at)),
        },
        None => Err(unexpected(text, tokens)),
    }
}

/// The length of a global after its name, if it is an array (C11, 6.7.6.2), where the global ends
/// that is placed after so many bytes, and what follows the length.
fn length<'a>(
    text: &[u8],
    base: Base,
    pointers: u64,
    bytes: u64,
    tokens: &'a [Token],
) -> Result<(Option<Length>, u64, &'a [Token]), ParseErr>
    requires { bytes ≤ MOST_GLOBALS }
    ensures found { IfOk result (λ x. IsLength x.0 tokens.now x.2.now) }
    ensures stops { IfOk result (λ x. Stops POSTFIX x.2.now) }
    ensures end { IfOk result (λ x. x.1 ≡ parts.end_of base pointers x.0 bytes) }
    ensures low { IfOk result (λ x. x.1 ≤ MOST_GLOBALS) }
    ensures refused { IfErr result (λ e. RefusesLength e base pointers bytes text.now tokens.now) }
{
    match after(Punctuator::OpenBracket, tokens) {
        Some(inner) => {
            let (length, end, rest) = bracketed(text, base, pointers, bytes, inner)?;
            Ok((Some(length), end, rest))
        }
        None => {
            stop(text, POSTFIX, tokens)?;
            match end_of(size_of(base, pointers), 1, bytes, MOST_GLOBALS) {
                Some(end) => Ok((None, end, tokens)),
                None => Err(no_room(text, tokens)),
            }
        }
    }
}

/// The global at the front, where it ends that is placed after so many bytes, and what follows it.
fn global<'a>(
    alloc: Allocator,
    text: &[u8],
    base: Base,
    bytes: u64,
    tokens: &'a [Token],
) -> Result<(Global, u64, &'a [Token]), ParseErr>
    requires { bytes ≤ MOST_GLOBALS }
    ensures found { IfOk result (λ x. IsGlobal (trees.global x.0) tokens.now x.2.now) }
    ensures stops { IfOk result (λ x. Stops ASSIGNMENT x.2.now) }
    ensures end { IfOk result (λ x.
        x.1 ≡ parts.end_of base (trees.global x.0).pointers (trees.global x.0).length bytes) }
    ensures low { IfOk result (λ x. x.1 ≤ MOST_GLOBALS) }
    ensures refused { IfErr result (λ e. RefusesGlobal e base bytes text.now tokens.now) }
{
    let (pointers, declarator) = stars(tokens);
    match name(declarator) {
        Some((name, following)) => {
            let (length, end, following) = length(text, base, pointers, bytes, following)?;
            let (initialiser, rest) = initialiser(alloc, text, following)?;
            let global = Global {
                pointers,
                name,
                length,
                initialiser,
            };
            Ok((global, end, rest))
        }
        None => Err(unexpected(text, declarator)),
    }
}

/// The globals of a declaration after their base, up to the semicolon, where they end that are
/// placed after so many bytes, and what follows the semicolon.
pub fn globals<'a>(
    alloc: Allocator,
    text: &[u8],
    base: Base,
    bytes: u64,
    tokens: &'a [Token],
) -> Result<(Vec<Global>, u64, &'a [Token]), ParseErr>
    requires { bytes ≤ MOST_GLOBALS }
    ensures found { IfOk result (λ x. AreGlobals (map trees.global x.0.items) tokens.now x.2.now) }
    ensures end { IfOk result (λ x.
        x.1 ≡ limits.end_of_globals base (map trees.global x.0.items) bytes) }
    ensures low { IfOk result (λ x. x.1 ≤ MOST_GLOBALS) }
    ensures refused { IfErr result (λ e. RefusesGlobals e base bytes text.now tokens.now) }
{
    let (first, mut end, mut rest) = global(alloc, text, base, bytes, tokens)?;
    let mut found = Vec::new(alloc);
    found.push(first)?;
    while let Some(following) = after(Punctuator::Comma, rest) {
        let (next, further, after) = global(alloc, text, base, end, following)?;
        found.push(next)?;
        end = further;
        rest = after;
    }
    let rest = expect(text, Punctuator::Semicolon, rest)?;
    Ok((found, end, rest))
}
