//! Declarations of locals.

ghost use Rattle.std.specs.Prelude.{◌≡◌, ◌≤◌, ◌+◌, List, Some, IfOk, IfErr, IfNone, map, length, option_map};
ghost use Rattle.c_lex.specs.declared.punctuator.Punctuator.TheVariants.{OpenBracket};
ghost use Rattle.c_lex.specs.declared.token.Token.{Token};
ghost use Rattle.c_syntax.specs.Expression.{expression};
ghost use Rattle.c_syntax.specs.Faults as faults;
ghost use Rattle.c_syntax.specs.Follow.{Stops};
ghost use Rattle.c_syntax.specs.Limits.{height_of, one_over, height_of_locals, one_over_locals, height_of_for_initialiser, locals_of_for_initialiser, end_of_local, end_of_locals, end_of_for_initialiser};
ghost use Rattle.c_syntax.specs.Statement as trees;
ghost use Rattle.c_syntax.specs.Statements.{IsLength, IsInitialiser, IsLocal, AreLocals, IsDeclaration, IsForInitialiser};
ghost use Rattle.c_syntax.specs.Tokens.{HasPunctuator};
ghost use Rattle.c_syntax.specs.declared.limit.Count.TheVariants.{Locals, ArrayBytes};
ghost use Rattle.c_parse_expr.specs.declared.refusal.ParseErr.TheVariants.{TooMany};
ghost use Rattle.c_parse_stmt.specs.ArrayBytes.{bytes_so_far};
ghost use Rattle.c_parse_stmt.specs.Parts.{IsBracketed};
ghost use Rattle.c_parse_stmt.specs.Refused.{RefusesBracketed, RefusesLength, RefusesInitialiser, RefusesLocal, RefusesLocals, RefusesDeclaration, RefusesForInitialiser};

use crate::parts::{expect, optional};
use crate::remaining::Remaining;
use crate::sizes::{end_of, size_of};
use c_lex::punctuator::Punctuator;
use c_lex::token::Token;
use c_parse_atom::operands::{integer, name};
use c_parse_atom::operators::follows;
use c_parse_expr::expressions::expression;
use c_parse_expr::refusal::{ParseErr, place, too_deep, unexpected};
use c_parse_type::front::after;
use c_parse_type::specifiers::{base, stars};
use c_syntax::declaration::Length;
use c_syntax::expression::{Base, Expr};
use c_syntax::level::ASSIGNMENT;
use c_syntax::limit::{Count, MOST_ARRAY_BYTES, MOST_EXPRESSIONS};
use c_syntax::statement::{Declaration, ForInitialiser, Local};
use std::alloc::Global;

/// The refusal of the first token, with which the function has one local too many.
fn too_many_locals(text: &[u8], tokens: &[Token]) -> ParseErr
    ensures { result ≡ TooMany (faults.place text.now tokens.now) Locals }
{
    ParseErr::TooMany {
        at: place(text, tokens),
        what: Count::Locals,
    }
}

/// The refusal of a length at a place, with which the function's arrays take too many bytes.
fn too_many_bytes(at: u64) -> ParseErr
    ensures { result ≡ TooMany at ArrayBytes }
{
    ParseErr::TooMany {
        at,
        what: Count::ArrayBytes,
    }
}

/// The length of an array after its bracket, how many bytes the function's arrays may still take
/// after so many before it, and what follows the other bracket.
fn bracketed<'a>(
    text: &[u8],
    base: Base,
    pointers: u64,
    bytes: u64,
    tokens: &'a [Token],
) -> Result<(Length, u64, &'a [Token]), ParseErr>
    ensures found { IfOk result (λ x. IsBracketed x.0 tokens.now x.2.now) }
    ensures end { IfOk result (λ x.
        bytes_so_far x.1 ≡ end_of_local base pointers (Some x.0) (bytes_so_far bytes)) }
    ensures refused { IfErr result (λ e.
        RefusesBracketed e base pointers (bytes_so_far bytes) text.now tokens.now) }
{
    match integer(tokens) {
        Some((value, at, following)) => {
            let start = MOST_ARRAY_BYTES.saturating_sub(bytes);
            match end_of(size_of(base, pointers), value, start, MOST_ARRAY_BYTES) {
                Some(end) => {
                    let rest = expect(text, Punctuator::CloseBracket, following)?;
                    Ok((Length { at, value }, MOST_ARRAY_BYTES - end, rest))
                }
                None => Err(too_many_bytes(at)),
            }
        }
        None => Err(unexpected(text, tokens)),
    }
}

/// The length of a local after its name, if it is an array (C11, 6.7.6.2), how many bytes the
/// function's arrays may still take after so many before it, and what follows the length.
fn length<'a>(
    text: &[u8],
    base: Base,
    pointers: u64,
    bytes: u64,
    tokens: &'a [Token],
) -> Result<(Option<Length>, u64, &'a [Token]), ParseErr>
    ensures found { IfOk result (λ x. IsLength x.0 tokens.now x.2.now) }
    ensures bare { IfOk result (λ x. IfNone x.0 ((rest : List Token)
        → HasPunctuator OpenBracket tokens.now rest → ⊥)) }
    ensures end { IfOk result (λ x.
        bytes_so_far x.1 ≡ end_of_local base pointers x.0 (bytes_so_far bytes)) }
    ensures refused { IfErr result (λ e.
        RefusesLength e base pointers (bytes_so_far bytes) text.now tokens.now) }
{
    match after(Punctuator::OpenBracket, tokens) {
        Some(inner) => {
            let (length, bytes, rest) = bracketed(text, base, pointers, bytes, inner)?;
            Ok((Some(length), bytes, rest))
        }
        None => Ok((None, bytes, tokens)),
    }
}

/// The initialiser of a local, if there is one, and what follows it: nothing else continues after a
/// local's name but `,` and `;`. At most `room` statements are around it.
fn initialiser<'a>(
    alloc: Global,
    text: &[u8],
    room: u64,
    tokens: &'a [Token],
) -> Result<(Option<Expr>, &'a [Token]), ParseErr>
    ensures found { IfOk result (λ x.
        IsInitialiser text.now (option_map expression x.0) tokens.now x.1.now) }
    ensures stops { IfOk result (λ x. Stops ASSIGNMENT x.1.now) }
    ensures low { IfOk result (λ x. height_of (option_map expression x.0) ≤ MOST_EXPRESSIONS) }
    ensures over { IfOk result (λ x. one_over (option_map expression x.0) ≤ room) }
    ensures refused { IfErr result (λ e. RefusesInitialiser e room text.now tokens.now) }
{
    match after(Punctuator::Assign, tokens) {
        Some(value) => {
            if room == 0 {
                return Err(too_deep(text, tokens));
            }
            let parsed = expression(alloc, text, MOST_EXPRESSIONS, ASSIGNMENT, value)?;
            Ok((Some(parsed.expr), parsed.rest))
        }
        None => {
            if follows(tokens) <= ASSIGNMENT {
                return Err(unexpected(text, tokens));
            }
            Ok((None, tokens))
        }
    }
}

/// The local of a declaration at the front, how many bytes the function's arrays may still take
/// after so many before it, and what follows it.
fn local<'a>(
    alloc: Global,
    text: &[u8],
    base: Base,
    room: u64,
    bytes: u64,
    tokens: &'a [Token],
) -> Result<(Local, u64, &'a [Token]), ParseErr>
    ensures found { IfOk result (λ x. IsLocal text.now (trees.local x.0) tokens.now x.2.now) }
    ensures stops { IfOk result (λ x. Stops ASSIGNMENT x.2.now) }
    ensures low { IfOk result (λ x. height_of (trees.local x.0).initialiser ≤ MOST_EXPRESSIONS) }
    ensures over { IfOk result (λ x. one_over (trees.local x.0).initialiser ≤ room) }
    ensures end { IfOk result (λ x. bytes_so_far x.1
        ≡ end_of_local base (trees.local x.0).pointers (trees.local x.0).length
        (bytes_so_far bytes)) }
    ensures refused { IfErr result (λ e.
        RefusesLocal e base (bytes_so_far bytes) room text.now tokens.now) }
{
    let (pointers, declarator) = stars(tokens);
    match name(declarator) {
        Some((name, following)) => {
            let (length, bytes, following) = length(text, base, pointers, bytes, following)?;
            let (initialiser, rest) = initialiser(alloc, text, room, following)?;
            let local = Local {
                pointers,
                name,
                length,
                initialiser,
            };
            Ok((local, bytes, rest))
        }
        None => Err(unexpected(text, declarator)),
    }
}

/// What is left after one more local, and so many bytes of arrays.
fn after_local(left: Remaining, bytes: u64) -> Remaining
    requires { 1 ≤ left.locals }
    ensures locals { result.locals + 1 ≡ left.locals }
    ensures bytes { result.bytes ≡ bytes }
    ensures funclets { result.funclets ≡ left.funclets }
{
    Remaining {
        locals: left.locals - 1,
        bytes,
        funclets: left.funclets,
    }
}

/// The locals of a declaration after their base, up to the semicolon, what is left of the counts
/// after them, and what follows the semicolon. The function may declare at least one.
fn locals<'a>(
    alloc: Global,
    text: &[u8],
    base: Base,
    room: u64,
    left: Remaining,
    tokens: &'a [Token],
) -> Result<(Vec<Local>, Remaining, &'a [Token]), ParseErr>
    requires { 1 ≤ left.locals }
    ensures found { IfOk result (λ x.
        AreLocals text.now (map trees.local x.0.items) tokens.now x.2.now) }
    ensures low { IfOk result (λ x.
        height_of_locals (map trees.local x.0.items) ≤ MOST_EXPRESSIONS) }
    ensures over { IfOk result (λ x. one_over_locals (map trees.local x.0.items) ≤ room) }
    ensures taken { IfOk result (λ x.
        x.1.locals + length (map trees.local x.0.items) ≡ left.locals) }
    ensures end { IfOk result (λ x. bytes_so_far x.1.bytes
        ≡ end_of_locals base (map trees.local x.0.items) (bytes_so_far left.bytes)) }
    ensures funclets { IfOk result (λ x. x.1.funclets ≡ left.funclets) }
    ensures refused { IfErr result (λ e. RefusesLocals e base room left text.now tokens.now) }
{
    let (first, bytes, mut rest) = local(alloc, text, base, room, left.bytes, tokens)?;
    let mut left = after_local(left, bytes);
    let mut found = Vec::new(alloc);
    found.push(first)?;
    while let Some(following) = after(Punctuator::Comma, rest) {
        if left.locals == 0 {
            return Err(too_many_locals(text, rest));
        }
        let (next, bytes, after) = local(alloc, text, base, room, left.bytes, following)?;
        found.push(next)?;
        left = after_local(left, bytes);
        rest = after;
    }
    let end = expect(text, Punctuator::Semicolon, rest)?;
    Ok((found, left, end))
}

/// The declaration of locals at the front (C11, 6.7), what is left of the counts after it, and what
/// follows it. At most `room` statements are around an initialiser.
pub fn declaration<'a>(
    alloc: Global,
    text: &[u8],
    room: u64,
    left: Remaining,
    tokens: &'a [Token],
) -> Result<(Declaration, Remaining, &'a [Token]), ParseErr>
    ensures found { IfOk result (λ x.
        IsDeclaration text.now x.0.base (map trees.local x.0.locals.items) tokens.now x.2.now) }
    ensures low { IfOk result (λ x.
        height_of_locals (map trees.local x.0.locals.items) ≤ MOST_EXPRESSIONS) }
    ensures over { IfOk result (λ x. one_over_locals (map trees.local x.0.locals.items) ≤ room) }
    ensures taken { IfOk result (λ x.
        x.1.locals + length (map trees.local x.0.locals.items) ≡ left.locals) }
    ensures end { IfOk result (λ x. bytes_so_far x.1.bytes
        ≡ end_of_locals x.0.base (map trees.local x.0.locals.items) (bytes_so_far left.bytes)) }
    ensures funclets { IfOk result (λ x. x.1.funclets ≡ left.funclets) }
    ensures refused { IfErr result (λ e. RefusesDeclaration e room left text.now tokens.now) }
{
    match base(tokens) {
        Some((base, following)) => {
            if left.locals == 0 {
                return Err(too_many_locals(text, tokens));
            }
            let (locals, left, rest) = locals(alloc, text, base, room, left, following)?;
            Ok((Declaration { base, locals }, left, rest))
        }
        None => Err(unexpected(text, tokens)),
    }
}

/// What a `for` does first, up to its semicolon (C11, 6.8.5.3), what is left of the counts after
/// it, and what follows the semicolon.
pub fn for_initialiser<'a>(
    alloc: Global,
    text: &[u8],
    left: Remaining,
    tokens: &'a [Token],
) -> Result<(ForInitialiser, Remaining, &'a [Token]), ParseErr>
    ensures found { IfOk result (λ x.
        IsForInitialiser text.now (trees.first x.0) tokens.now x.2.now) }
    ensures low { IfOk result (λ x.
        height_of_for_initialiser (trees.first x.0) ≤ MOST_EXPRESSIONS) }
    ensures taken { IfOk result (λ x.
        x.1.locals + locals_of_for_initialiser (trees.first x.0) ≡ left.locals) }
    ensures end { IfOk result (λ x. bytes_so_far x.1.bytes
        ≡ end_of_for_initialiser (trees.first x.0) (bytes_so_far left.bytes)) }
    ensures funclets { IfOk result (λ x. x.1.funclets ≡ left.funclets) }
    ensures refused { IfErr result (λ e. RefusesForInitialiser e left text.now tokens.now) }
{
    match base(tokens) {
        Some(_) => {
            let (declaration, left, rest) = declaration(alloc, text, 1, left, tokens)?;
            Ok((ForInitialiser::Declaration(declaration), left, rest))
        }
        None => {
            let (expr, rest) = optional(alloc, text, 1, Punctuator::Semicolon, tokens)?;
            Ok((ForInitialiser::Expression(expr), left, rest))
        }
    }
}
