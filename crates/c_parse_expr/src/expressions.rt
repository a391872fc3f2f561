//! Expressions by the levels of their operators.

ghost use Rattle.std.specs.Prelude.{◌≡◌, ◌≤◌, ◌<◌, ◌+◌, List, max, map, IfOk, IfErr};
ghost use Rattle.c_lex.specs.declared.punctuator.Punctuator.TheVariants as punctuators;
ghost use Rattle.c_lex.specs.declared.token.Token.{Token};
ghost use Rattle.c_syntax.specs.declared.level.TheConstants.{NEVER};
ghost use Rattle.c_syntax.specs.Expression.{expression, arguments, height, heights};
ghost use Rattle.c_syntax.specs.Expressions.{SpellsArguments, Derives};
ghost use Rattle.c_syntax.specs.Follow.{Stops, punctuator_follows, follows};
ghost use Rattle.c_syntax.specs.Steps as steps;
ghost use Rattle.c_syntax.specs.Tokens.{IsPunctuator, IsIdentifier, HasPunctuator};
ghost use Rattle.c_parse_type.specs.Bases.{NoBase};
ghost use Rattle.c_parse_expr.specs.declared.step.Operation.TheVariants as operations;
ghost use Rattle.c_parse_expr.specs.declared.refusal.ParseErr.TheVariants.{Memory};
ghost use Rattle.c_parse_expr.specs.Readings.{Encloses, IsOperand, IsStep, IsAfterPunctuator};
ghost use Rattle.c_parse_expr.specs.Refused.{RefusesExpression, RefusesEnclosed, RefusesArguments, RefusesOperand, RefusesStep, RefusesAfterPunctuator};
ghost use Rattle.c_parse_expr.specs.Steps as code_steps;

use crate::fault::{begins, departure, opens};
use crate::refusal::{ParseErr, too_deep, unexpected};
use crate::step::{
    Operation, Step, apply, first_punctuator, operation_of, prefix, rank, unary, variable,
};
use c_lex::punctuator::Punctuator;
use c_lex::token::Token;
use c_parse_atom::information::information;
use c_parse_atom::operands::{literal, name};
use c_parse_atom::operators::{follows, increment_of, unary_of};
use c_parse_type::front::after;
use c_parse_type::specifiers::c_type;
use c_syntax::expression::{Expr, Identifier};
use c_syntax::level::{ASSIGNMENT, CAST, COMMA, CONDITIONAL, UNARY};
use c_syntax::limit::MOST_EXPRESSIONS;
use std::alloc::Global;

/// An expression that was read.
#[derive(Drop)]
pub struct Parsed<'a> {
    /// The expression.
    pub expr: Expr,
    /// The most expressions around one of its parts.
    pub over: u64,
    /// What follows it.
    pub rest: &'a [Token],
    ghost exact: { over ≡ height (expression expr) },
}

/// Arguments, the most expressions around a part of one, and what follows them.
#[derive(Drop)]
struct Listed<'a> {
    exprs: Vec<Expr>,
    over: u64,
    rest: &'a [Token],
    ghost exact: { over ≡ heights (arguments (map expression exprs.items)) },
}

/// A step, the most expressions around a part of what it adds, and what follows it.
#[derive(Drop)]
struct ParsedStep<'a> {
    step: Step,
    over: u64,
    rest: &'a [Token],
    ghost exact: { over ≡ code_steps.over (code_steps.step step) },
}

/// The greater of two heights.
fn higher(a: u64, b: u64) -> u64
    ensures { result ≡ max a b }
{
    if a < b { b } else { a }
}

/// The expression of an operand and the step after it.
fn extended<'a>(
    alloc: Global,
    operand: Parsed<'a>,
    following: ParsedStep<'a>,
) -> Result<Parsed<'a>, ParseErr>
    requires operand { operand.over < MOST_EXPRESSIONS }
    requires following { following.over < MOST_EXPRESSIONS }
    ensures made { IfOk result (λ x.
        expression x.expr
        ≡ steps.apply (expression operand.entry.expr) (code_steps.step following.entry.step)) }
    ensures rest { IfOk result (λ x. x.rest.now ≡ following.entry.rest.now) }
    ensures err { IfErr result (λ e. e ≡ Memory) }
{
    let over = higher(operand.over, following.over) + 1;
    let rest = following.rest;
    let expr = apply(alloc, operand.expr, following.step)?;
    Ok(Parsed { expr, over, rest })
}

/// The expression of a level or a tighter one at the front, as far as it goes, with at most `room`
/// expressions around each part. The levels are those of the productions (`c_syntax::level`), from
/// `UNARY` on.
#[cycle(reader)]
pub fn expression<'a>(
    alloc: Global,
    text: &[u8],
    room: u64,
    level: u8,
    tokens: &'a [Token],
) -> Result<Parsed<'a>, ParseErr>
    requires room { room ≤ MOST_EXPRESSIONS }
    requires level { UNARY ≤ level }
    ensures found { IfOk result (λ x.
        Derives text.now level (expression x.expr) tokens.now x.rest.now) }
    ensures stops { IfOk result (λ x. Stops level x.rest.now) }
    ensures low { IfOk result (λ x. x.over ≤ room) }
    ensures refused { IfErr result (λ e. RefusesExpression e level room text.now tokens.now) }
{
    let mut left = operand(alloc, text, room, level, tokens)?;
    while follows(left.rest) <= level {
        let following = step(alloc, text, room, &left)?;
        left = extended(alloc, left, following)?;
    }
    Ok(left)
}

/// The step after an operand, if that may be before it.
#[cycle(reader)]
fn step<'a>(
    alloc: Global,
    text: &[u8],
    room: u64,
    operand: &Parsed<'a>,
) -> Result<ParsedStep<'a>, ParseErr>
    requires { room ≤ MOST_EXPRESSIONS }
    ensures found { IfOk result (λ x.
        IsStep text.now (expression operand.now.expr) (code_steps.step x.step) operand.now.rest.now
        x.rest.now) }
    ensures fits { IfOk result (λ x. operand.now.over < room) }
    ensures low { IfOk result (λ x. x.over < room) }
    ensures refused { IfErr result (λ e.
        RefusesStep e room (expression operand.now.expr) text.now operand.now.rest.now) }
{
    let Some((punctuator, at, rest)) = first_punctuator(operand.rest) else {
        return Err(unexpected(text, operand.rest));
    };
    let Some(operation) = operation_of(punctuator) else {
        return Err(unexpected(text, operand.rest));
    };
    if operation.bound() < rank(&operand.expr) {
        return Err(unexpected(text, operand.rest));
    }
    if room <= operand.over {
        return Err(too_deep(text, operand.rest));
    }
    operated(alloc, text, room - 1, operation, at, rest)
}

/// What follows the punctuator of an operation, and the step that they are. `at` is the
/// punctuator's place.
#[cycle(reader)]
fn operated<'a>(
    alloc: Global,
    text: &[u8],
    room: u64,
    operation: Operation,
    at: u64,
    tokens: &'a [Token],
) -> Result<ParsedStep<'a>, ParseErr>
    requires { room < MOST_EXPRESSIONS }
    ensures found { IfOk result (λ x.
        IsAfterPunctuator text.now operation at (code_steps.step x.step) tokens.now x.rest.now) }
    ensures low { IfOk result (λ x. x.over ≤ room) }
    ensures refused { IfErr result (λ e.
        RefusesAfterPunctuator e room operation at text.now tokens.now) }
{
    match operation {
        Operation::Index => {
            let inner = enclosed(alloc, text, room, Punctuator::CloseBracket, tokens)?;
            let (over, rest) = (inner.over, inner.rest);
            let index = Box::new(alloc, inner.expr)?;
            let step = Step::Index { at, index };
            Ok(ParsedStep { step, over, rest })
        }
        Operation::Postfix(operator) => {
            let step = Step::Postfix { operator, at };
            let (over, rest) = (0, tokens);
            Ok(ParsedStep { step, over, rest })
        }
        Operation::Infix(operator) => {
            let value = expression(alloc, text, room, operator.right(), tokens)?;
            let (over, rest) = (value.over, value.rest);
            let right = Box::new(alloc, value.expr)?;
            let step = Step::Infix {
                at,
                operator,
                right,
            };
            Ok(ParsedStep { step, over, rest })
        }
        Operation::Conditional => chosen(alloc, text, room, at, tokens),
    }
}

/// The two branches after `?`, which is at a place.
#[cycle(reader)]
fn chosen<'a>(
    alloc: Global,
    text: &[u8],
    room: u64,
    at: u64,
    tokens: &'a [Token],
) -> Result<ParsedStep<'a>, ParseErr>
    requires { room < MOST_EXPRESSIONS }
    ensures found { IfOk result (λ x.
        IsAfterPunctuator text.now operations.Conditional at (code_steps.step x.step) tokens.now
        x.rest.now) }
    ensures low { IfOk result (λ x. x.over ≤ room) }
    ensures refused { IfErr result (λ e.
        RefusesAfterPunctuator e room operations.Conditional at text.now tokens.now) }
{
    let first = enclosed(alloc, text, room, Punctuator::Colon, tokens)?;
    let yes = Box::new(alloc, first.expr)?;
    let second = expression(alloc, text, room, CONDITIONAL, first.rest)?;
    let (over, rest) = (higher(first.over, second.over), second.rest);
    let no = Box::new(alloc, second.expr)?;
    let step = Step::Conditional { at, yes, no };
    Ok(ParsedStep { step, over, rest })
}

/// The expression at the front and the punctuator that ends it; what follows the punctuator.
#[cycle(reader)]
fn enclosed<'a>(
    alloc: Global,
    text: &[u8],
    room: u64,
    close: Punctuator,
    tokens: &'a [Token],
) -> Result<Parsed<'a>, ParseErr>
    requires room { room < MOST_EXPRESSIONS }
    requires close { punctuator_follows close ≡ NEVER }
    ensures found { IfOk result (λ x.
        Encloses text.now close (expression x.expr) tokens.now x.rest.now) }
    ensures low { IfOk result (λ x. x.over ≤ room) }
    ensures refused { IfErr result (λ e. RefusesEnclosed e close room text.now tokens.now) }
{
    let inner = expression(alloc, text, room, COMMA, tokens)?;
    match after(close, inner.rest) {
        Some(rest) => {
            let (expr, over) = (inner.expr, inner.over);
            Ok(Parsed { expr, over, rest })
        }
        None => {
            let rest = inner.rest;
            drop(inner.expr);
            Err(unexpected(text, rest))
        }
    }
}

/// The first operand at the front of an expression of a level.
#[cycle(reader)]
fn operand<'a>(
    alloc: Global,
    text: &[u8],
    room: u64,
    level: u8,
    tokens: &'a [Token],
) -> Result<Parsed<'a>, ParseErr>
    requires room { room ≤ MOST_EXPRESSIONS }
    requires level { UNARY ≤ level }
    ensures found { IfOk result (λ x.
        IsOperand text.now level (expression x.expr) tokens.now x.rest.now) }
    ensures low { IfOk result (λ x. x.over ≤ room) }
    ensures refused { IfErr result (λ e. RefusesOperand e level room text.now tokens.now) }
{
    if let Some((literal, at, rest)) = literal(tokens) {
        let expr = Expr::Literal { at, literal };
        return Ok(Parsed {
            expr,
            over: 0,
            rest,
        });
    }
    if let Some((name, rest)) = name(tokens) {
        return named(alloc, text, room, level, name, tokens, rest);
    }
    if let Some((at, field, rest)) = information(text, tokens) {
        let expr = Expr::Information { at, field };
        return Ok(Parsed {
            expr,
            over: 0,
            rest,
        });
    }
    match first_punctuator(tokens) {
        Some((punctuator, at, rest)) => signed(
            alloc, text, room, level, punctuator, at, tokens, rest,
        ),
        None => Err(unexpected(text, departure(text, tokens))),
    }
}

/// A name at the front, with its arguments if it is called.
#[cycle(reader)]
fn named<'a>(
    alloc: Global,
    text: &[u8],
    room: u64,
    level: u8,
    name: Identifier,
    tokens: &'a [Token],
    rest: &'a [Token],
) -> Result<Parsed<'a>, ParseErr>
    requires room { room ≤ MOST_EXPRESSIONS }
    requires name { IsIdentifier name tokens.now rest.now }
    ensures found { IfOk result (λ x.
        IsOperand text.now level (expression x.expr) tokens.now x.rest.now) }
    ensures low { IfOk result (λ x. x.over ≤ room) }
    ensures refused { IfErr result (λ e. RefusesOperand e level room text.now tokens.now) }
{
    match after(Punctuator::OpenParenthesis, rest) {
        Some(rest) => {
            let found = arguments(alloc, text, room, rest)?;
            let (over, rest) = (found.over, found.rest);
            let arguments = found.exprs;
            let expr = Expr::Call { name, arguments };
            Ok(Parsed { expr, over, rest })
        }
        None => Ok(Parsed {
            expr: variable(name),
            over: 0,
            rest,
        }),
    }
}

/// The refusal of the first token where no argument is within the limit.
fn no_argument(text: &[u8], tokens: &[Token]) -> ParseErr
    requires { (rest : List Token) → HasPunctuator punctuators.CloseParenthesis tokens.now rest
        → ⊥ }
    ensures { RefusesArguments result 0 text.now tokens.now }
{
    if begins(tokens) {
        too_deep(text, tokens)
    } else {
        unexpected(text, tokens)
    }
}

/// Arguments and the parenthesis that ends them; what follows it.
#[cycle(reader)]
fn arguments<'a>(
    alloc: Global,
    text: &[u8],
    room: u64,
    tokens: &'a [Token],
) -> Result<Listed<'a>, ParseErr>
    requires { room ≤ MOST_EXPRESSIONS }
    ensures found { IfOk result (λ x.
        SpellsArguments text.now (arguments (map expression x.exprs.items)) tokens.now x.rest.now) }
    ensures low { IfOk result (λ x. x.over ≤ room) }
    ensures refused { IfErr result (λ e. RefusesArguments e room text.now tokens.now) }
{
    let mut exprs = Vec::new(alloc);
    if let Some(rest) = after(Punctuator::CloseParenthesis, tokens) {
        return Ok(Listed {
            exprs,
            over: 0,
            rest,
        });
    }
    if room == 0 {
        return Err(no_argument(text, tokens));
    }
    let first = expression(alloc, text, room - 1, ASSIGNMENT, tokens)?;
    let (mut over, mut rest) = (first.over + 1, first.rest);
    exprs.push(first.expr)?;
    while let Some(following) = after(Punctuator::Comma, rest) {
        let next = expression(alloc, text, room - 1, ASSIGNMENT, following)?;
        over = higher(over, next.over + 1);
        rest = next.rest;
        exprs.push(next.expr)?;
    }
    match after(Punctuator::CloseParenthesis, rest) {
        Some(rest) => Ok(Listed { exprs, over, rest }),
        None => Err(unexpected(text, rest)),
    }
}

/// A punctuator at the front, and the operand that it begins.
#[cycle(reader)]
fn signed<'a>(
    alloc: Global,
    text: &[u8],
    room: u64,
    level: u8,
    punctuator: Punctuator,
    at: u64,
    tokens: &'a [Token],
    rest: &'a [Token],
) -> Result<Parsed<'a>, ParseErr>
    requires room { room ≤ MOST_EXPRESSIONS }
    requires level { UNARY ≤ level }
    requires punctuator { IsPunctuator punctuator at tokens.now rest.now }
    ensures found { IfOk result (λ x.
        IsOperand text.now level (expression x.expr) tokens.now x.rest.now) }
    ensures low { IfOk result (λ x. x.over ≤ room) }
    ensures refused { IfErr result (λ e. RefusesOperand e level room text.now tokens.now) }
{
    if !opens(punctuator) {
        return Err(unexpected(text, tokens));
    }
    if room == 0 {
        return Err(too_deep(text, tokens));
    }
    if let Some(operator) = increment_of(punctuator) {
        let inner = expression(alloc, text, room - 1, UNARY, rest)?;
        let (over, rest) = (inner.over + 1, inner.rest);
        let expr = prefix(alloc, at, operator, inner.expr)?;
        return Ok(Parsed { expr, over, rest });
    }
    if let Some(operator) = unary_of(punctuator) {
        let inner = expression(alloc, text, room - 1, CAST, rest)?;
        let (over, rest) = (inner.over + 1, inner.rest);
        let expr = unary(alloc, at, operator, inner.expr)?;
        return Ok(Parsed { expr, over, rest });
    }
    parenthesised(alloc, text, room - 1, level, at, tokens, rest)
}

/// What `(` at the front begins: a cast, or an expression in parentheses.
#[cycle(reader)]
fn parenthesised<'a>(
    alloc: Global,
    text: &[u8],
    room: u64,
    level: u8,
    at: u64,
    tokens: &'a [Token],
    rest: &'a [Token],
) -> Result<Parsed<'a>, ParseErr>
    requires room { room < MOST_EXPRESSIONS }
    requires level { UNARY ≤ level }
    requires punctuator { IsPunctuator punctuators.OpenParenthesis at tokens.now rest.now }
    ensures found { IfOk result (λ x.
        IsOperand text.now level (expression x.expr) tokens.now x.rest.now) }
    ensures low { IfOk result (λ x. x.over ≤ room + 1) }
    ensures refused { IfErr result (λ e. RefusesOperand e level (room + 1) text.now tokens.now) }
{
    if level == UNARY {
        return grouped(alloc, text, room, level, at, tokens, rest);
    }
    match c_type(rest) {
        Some((to, rest)) => {
            let Some(rest) = after(Punctuator::CloseParenthesis, rest) else {
                return Err(unexpected(text, rest));
            };
            let inner = expression(alloc, text, room, CAST, rest)?;
            let (over, rest) = (inner.over + 1, inner.rest);
            let operand = Box::new(alloc, inner.expr)?;
            let expr = Expr::Cast { at, to, operand };
            Ok(Parsed { expr, over, rest })
        }
        None => grouped(alloc, text, room, level, at, tokens, rest),
    }
}

/// An expression in parentheses, of which the first is at the front.
#[cycle(reader)]
fn grouped<'a>(
    alloc: Global,
    text: &[u8],
    room: u64,
    level: u8,
    at: u64,
    tokens: &'a [Token],
    rest: &'a [Token],
) -> Result<Parsed<'a>, ParseErr>
    requires room { room < MOST_EXPRESSIONS }
    requires level { UNARY ≤ level }
    requires punctuator { IsPunctuator punctuators.OpenParenthesis at tokens.now rest.now }
    requires base { (CAST ≤ level) → NoBase rest.now }
    ensures found { IfOk result (λ x.
        IsOperand text.now level (expression x.expr) tokens.now x.rest.now) }
    ensures low { IfOk result (λ x. x.over ≤ room + 1) }
    ensures refused { IfErr result (λ e. RefusesOperand e level (room + 1) text.now tokens.now) }
{
    let inner = enclosed(alloc, text, room, Punctuator::CloseParenthesis, rest)?;
    let (over, rest) = (inner.over + 1, inner.rest);
    let inner = Box::new(alloc, inner.expr)?;
    let expr = Expr::Parentheses { at, inner };
    Ok(Parsed { expr, over, rest })
}
