//! What is after an operand.

ghost use Rattle.std.specs.Prelude.{◌≡◌, ℕ, List, IfOk, IfErr, IfSome, IfNone};
ghost use Rattle.c_lex.specs.declared.punctuator.Punctuator.{Punctuator};
ghost use Rattle.c_lex.specs.declared.token.Token.{Token};
ghost use Rattle.c_syntax.specs.Expression.{expression, Variable, Prefix, Unary};
ghost use Rattle.c_syntax.specs.Expressions as expressions;
ghost use Rattle.c_syntax.specs.Steps as steps;
ghost use Rattle.c_syntax.specs.Tokens.{IsPunctuator};
ghost use Rattle.c_parse_expr.specs.declared.refusal.ParseErr.TheVariants.{Memory};
ghost use Rattle.c_parse_expr.specs.Operations as operations;
ghost use Rattle.c_parse_expr.specs.Steps.{step};

use crate::refusal::ParseErr;
use c_lex::punctuator::Punctuator;
use c_lex::token::Token;
use c_parse_atom::operators::{assignment_of, binary_of, increment_of, level};
use c_parse_type::front::punctuator;
use c_syntax::expression::{Expr, Identifier};
use c_syntax::level::{ASSIGNMENT, CAST, COMMA, CONDITIONAL, LOGICAL_OR, POSTFIX, PRIMARY, UNARY};
use c_syntax::operator::{Arithmetic, BinaryOperator, Increment, UnaryOperator};
use std::alloc::Global;

/// An operator between two operands.
#[derive(Clone, Copy, Debug, PartialEq, Eq)]
pub enum Infix {
    Binary(BinaryOperator),
    Assign(Option<Arithmetic>),
    Comma,
}

impl Infix {
    /// The loosest level of its left operand (C11, 6.5).
    pub fn left(self) -> u8
        ensures { result ≡ operations.left self }
    {
        match self {
            Infix::Binary(operator) => level(operator),
            Infix::Assign(_) => UNARY,
            Infix::Comma => COMMA,
        }
    }

    /// The loosest level of its right operand (C11, 6.5).
    pub fn right(self) -> u8
        ensures { result ≡ operations.right self }
    {
        match self {
            Infix::Binary(operator) => level(operator) - 1,
            Infix::Assign(_) | Infix::Comma => ASSIGNMENT,
        }
    }
}

/// What a punctuator after an operand begins.
#[derive(Clone, Copy, Debug, PartialEq, Eq)]
pub enum Operation {
    Index,
    Postfix(Increment),
    Infix(Infix),
    Conditional,
}

impl Operation {
    /// The loosest level of the operand before it (C11, 6.5).
    pub fn bound(self) -> u8
        ensures { result ≡ operations.bound self }
    {
        match self {
            Operation::Index | Operation::Postfix(_) => POSTFIX,
            Operation::Infix(operator) => operator.left(),
            Operation::Conditional => LOGICAL_OR,
        }
    }
}

/// The punctuator at the front, its place, and what follows it.
pub fn first_punctuator(tokens: &[Token]) -> Option<(Punctuator, u64, &[Token])>
    ensures found { IfSome result (λ x. IsPunctuator x.0 x.1 tokens.now x.2.now) }
    ensures none { IfNone result ((s : Punctuator) (at : ℕ) (rest : List Token)
        → IsPunctuator s at tokens.now rest → ⊥) }
{
    punctuator(tokens)
}

/// The operator between two operands that a punctuator is.
fn infix_of(punctuator: Punctuator) -> Option<Infix>
    ensures { result ≡ operations.infix_of punctuator }
{
    if let Some(operator) = binary_of(punctuator) {
        return Some(Infix::Binary(operator));
    }
    let operator = assignment_of(punctuator)?;
    Some(Infix::Assign(operator))
}

/// What a punctuator begins after an operand, a call aside.
pub fn operation_of(punctuator: Punctuator) -> Option<Operation>
    ensures { result ≡ operations.operation_of punctuator }
{
    match punctuator {
        Punctuator::OpenBracket => Some(Operation::Index),
        Punctuator::Question => Some(Operation::Conditional),
        Punctuator::Comma => Some(Operation::Infix(Infix::Comma)),
        _ => {
            if let Some(operator) = increment_of(punctuator) {
                return Some(Operation::Postfix(operator));
            }
            let operator = infix_of(punctuator)?;
            Some(Operation::Infix(operator))
        }
    }
}

/// The level of an expression's production (C11, 6.5).
pub fn rank(expr: &Expr) -> u8
    ensures { result ≡ expressions.rank (expression expr.now) }
{
    match expr {
        Expr::Literal { .. }
        | Expr::Variable(_)
        | Expr::Information { .. }
        | Expr::Call { .. }
        | Expr::Parentheses { .. } => PRIMARY,
        Expr::Index { .. } | Expr::Postfix { .. } => POSTFIX,
        Expr::Prefix { .. } | Expr::Unary { .. } => UNARY,
        Expr::Cast { .. } => CAST,
        Expr::Binary { operator, .. } => level(*operator),
        Expr::Conditional { .. } => CONDITIONAL,
        Expr::Assign { .. } => ASSIGNMENT,
        Expr::Comma { .. } => COMMA,
    }
}

/// An operation with what follows its operand; `at` is the place of its punctuator.
#[derive(Drop)]
pub enum Step {
    Index {
        at: u64,
        index: Box<Expr>,
    },
    Postfix {
        operator: Increment,
        at: u64,
    },
    Infix {
        at: u64,
        operator: Infix,
        right: Box<Expr>,
    },
    Conditional {
        at: u64,
        yes: Box<Expr>,
        no: Box<Expr>,
    },
}

/// The expression that a name is.
pub fn variable(name: Identifier) -> Expr
    ensures { expression result ≡ Variable name }
{
    Expr::Variable(name)
}

/// The expression of `++` or `--` before an operand.
pub fn prefix(alloc: Global, at: u64, operator: Increment, operand: Expr) -> Result<Expr, ParseErr>
    ensures made { IfOk result (λ e. expression e ≡ Prefix at operator (expression operand)) }
    ensures err { IfErr result (λ e. e ≡ Memory) }
{
    let operand = Box::new(alloc, operand)?;
    Ok(Expr::Prefix {
        at,
        operator,
        operand,
    })
}

/// The expression of another operator before an operand.
pub fn unary(
    alloc: Global,
    at: u64,
    operator: UnaryOperator,
    operand: Expr,
) -> Result<Expr, ParseErr>
    ensures made { IfOk result (λ e. expression e ≡ Unary at operator (expression operand)) }
    ensures err { IfErr result (λ e. e ≡ Memory) }
{
    let operand = Box::new(alloc, operand)?;
    Ok(Expr::Unary {
        at,
        operator,
        operand,
    })
}

/// The expression of an operator between two operands.
fn between(left: Box<Expr>, at: u64, operator: Infix, right: Box<Expr>) -> Expr
    ensures { expression result ≡ steps.apply (expression left.value)
        (operations.with operator at (expression right.value)) }
{
    match operator {
        Infix::Binary(operator) => Expr::Binary {
            left,
            at,
            operator,
            right,
        },
        Infix::Assign(operator) => Expr::Assign {
            target: left,
            at,
            operator,
            value: right,
        },
        Infix::Comma => Expr::Comma { left, at, right },
    }
}

/// The expression of an operand and a step after it.
pub fn apply(alloc: Global, operand: Expr, following: Step) -> Result<Expr, ParseErr>
    ensures applied { IfOk result (λ e.
        expression e ≡ steps.apply (expression operand) (step following)) }
    ensures err { IfErr result (λ e. e ≡ Memory) }
{
    let operand = Box::new(alloc, operand)?;
    match following {
        Step::Index { at, index } => Ok(Expr::Index {
            array: operand,
            at,
            index,
        }),
        Step::Postfix { operator, at } => Ok(Expr::Postfix {
            operand,
            operator,
            at,
        }),
        Step::Infix {
            at,
            operator,
            right,
        } => Ok(between(operand, at, operator, right)),
        Step::Conditional { at, yes, no } => Ok(Expr::Conditional {
            condition: operand,
            at,
            yes,
            no,
        }),
    }
}
