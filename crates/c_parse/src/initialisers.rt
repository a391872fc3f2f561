//! Initialisers of globals.

ghost use Rattle.std.specs.Prelude.{◌≡◌, ℕ, List, IfOk, IfErr, IfSome, IfNone, option_map};
ghost use Rattle.c_lex.specs.declared.token.Token.{Token};
ghost use Rattle.c_syntax.specs.Follow.{Stops};
ghost use Rattle.c_syntax.specs.Program as trees;
ghost use Rattle.c_syntax.specs.Programs.{IsConstant, AreConstants, IsInitialiser};
ghost use Rattle.c_syntax.specs.Tokens.{IsPunctuator};
ghost use Rattle.c_syntax.specs.Faults as faults;
ghost use Rattle.c_parse_expr.specs.declared.refusal.ParseErr.TheVariants.{Unexpected};
ghost use Rattle.c_parse_expr.specs.Refusals.{IsPlacedRefusal};
ghost use Rattle.c_parse.specs.Parts.{NoConstant, HasConstant, NoConstants, HasConstants, IsGiven, NoneGiven, HasGiven, NoInitialiser, HasInitialiser};

use c_lex::punctuator::Punctuator;
use c_lex::token::Token;
use c_parse_atom::operands::literal;
use c_parse_atom::operators::follows;
use c_parse_expr::refusal::{ParseErr, unexpected};
use c_parse_expr::step::first_punctuator;
use c_parse_stmt::parts::expect;
use c_parse_type::front::after;
use c_syntax::declaration::{Constant, Initialiser};
use c_syntax::level::ASSIGNMENT;
use std::alloc::Global;

/// The place of the wanted punctuator, and what follows it, if that is at the front.
fn punctuator_at(wanted: Punctuator, tokens: &[Token]) -> Option<(u64, &[Token])>
    ensures found { IfSome result (λ x. IsPunctuator wanted x.0 tokens.now x.1.now) }
    ensures none { IfNone result ((at : ℕ) (rest : List Token)
        → IsPunctuator wanted at tokens.now rest → ⊥) }
{
    match first_punctuator(tokens) {
        Some((found, at, rest)) => {
            if found == wanted {
                Some((at, rest))
            } else {
                None
            }
        }
        None => None,
    }
}

/// Refuses the first token where an expression of the level or a tighter one would continue with
/// it.
pub fn stop(text: &[u8], level: u8, tokens: &[Token]) -> Result<(), ParseErr>
    ensures found { IfOk result (λ x. Stops level tokens.now) }
    ensures refused { IfErr result (λ e. e ≡ Unexpected (faults.place text.now tokens.now)) }
    ensures continues { IfErr result (λ _. Stops level tokens.now → ⊥) }
{
    if follows(tokens) <= level {
        return Err(unexpected(text, tokens));
    }
    Ok(())
}

/// The constant at the front, a literal or `-` and a literal, and what follows it.
fn constant<'a>(text: &[u8], tokens: &'a [Token]) -> Result<(Constant, &'a [Token]), ParseErr>
    ensures found { IfOk result (λ x. IsConstant x.0 tokens.now x.1.now) }
    ensures refused { IfErr result (λ e.
        IsPlacedRefusal e NoConstant HasConstant text.now tokens.now) }
{
    match punctuator_at(Punctuator::Minus, tokens) {
        Some((at, following)) => match literal(following) {
            Some((literal, _, rest)) => {
                let constant = Constant {
                    at,
                    negative: true,
                    literal,
                };
                Ok((constant, rest))
            }
            None => Err(unexpected(text, following)),
        },
        None => match literal(tokens) {
            Some((literal, at, rest)) => {
                let constant = Constant {
                    at,
                    negative: false,
                    literal,
                };
                Ok((constant, rest))
            }
            None => Err(unexpected(text, tokens)),
        },
    }
}

/// The constants of a list, up to the brace that ends it, and what follows the brace.
fn constants<'a>(
    alloc: Global,
    text: &[u8],
    tokens: &'a [Token],
) -> Result<(Vec<Constant>, &'a [Token]), ParseErr>
    ensures found { IfOk result (λ x. AreConstants x.0.items tokens.now x.1.now) }
    ensures refused { IfErr result (λ e.
        IsPlacedRefusal e NoConstants HasConstants text.now tokens.now) }
{
    let (first, mut rest) = constant(text, tokens)?;
    let mut found = Vec::new(alloc);
    found.push(first)?;
    while let Some(following) = after(Punctuator::Comma, rest) {
        let (next, after) = constant(text, following)?;
        found.push(next)?;
        rest = after;
    }
    let end = expect(text, Punctuator::CloseBrace, rest)?;
    Ok((found, end))
}

/// What is after `=`: a constant, or constants in braces; and what follows it.
fn given<'a>(
    alloc: Global,
    text: &[u8],
    tokens: &'a [Token],
) -> Result<(Initialiser, &'a [Token]), ParseErr>
    ensures found { IfOk result (λ x. IsGiven (trees.initialiser x.0) tokens.now x.1.now) }
    ensures refused { IfErr result (λ e. IsPlacedRefusal e NoneGiven HasGiven text.now tokens.now) }
{
    match punctuator_at(Punctuator::OpenBrace, tokens) {
        Some((at, inner)) => {
            let (constants, rest) = constants(alloc, text, inner)?;
            Ok((Initialiser::List { at, constants }, rest))
        }
        None => {
            let (constant, rest) = constant(text, tokens)?;
            Ok((Initialiser::Single(constant), rest))
        }
    }
}

/// The initialiser of a global, if there is one (C11, 6.7.9), and what follows it.
pub fn initialiser<'a>(
    alloc: Global,
    text: &[u8],
    tokens: &'a [Token],
) -> Result<(Option<Initialiser>, &'a [Token]), ParseErr>
    ensures found { IfOk result (λ x.
        IsInitialiser (option_map trees.initialiser x.0) tokens.now x.1.now) }
    ensures stops { IfOk result (λ x. Stops ASSIGNMENT x.1.now) }
    ensures refused { IfErr result (λ e.
        IsPlacedRefusal e NoInitialiser HasInitialiser text.now tokens.now) }
{
    match after(Punctuator::Assign, tokens) {
        Some(value) => {
            let (given, rest) = given(alloc, text, value)?;
            stop(text, ASSIGNMENT, rest)?;
            Ok((Some(given), rest))
        }
        None => {
            stop(text, ASSIGNMENT, tokens)?;
            Ok((None, tokens))
        }
    }
}
