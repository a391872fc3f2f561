//! Operators by their punctuators.

ghost use Rattle.std.specs.Prelude.{◌≡◌};
ghost use Rattle.c_syntax.specs.Follow as follow;
ghost use Rattle.c_syntax.specs.Operators as operators;
ghost use Rattle.c_syntax.specs.PunctuatorReaders as punctuators;

use c_lex::punctuator::Punctuator;
use c_lex::token::{Kind, Token};
use c_parse_type::front::front;
use c_syntax::level::{
    ADDITIVE, AND, ASSIGNMENT, COMMA, CONDITIONAL, EQUALITY, EXCLUSIVE_OR, INCLUSIVE_OR,
    LOGICAL_AND, LOGICAL_OR, MULTIPLICATIVE, NEVER, POSTFIX, PRIMARY, RELATIONAL, SHIFT,
};
use c_syntax::operator::{Arithmetic, BinaryOperator, Comparison, Increment, UnaryOperator};

/// The operator between two operands that a punctuator is.
pub fn binary_of(punctuator: Punctuator) -> Option<BinaryOperator>
    ensures { result ≡ punctuators.binary_of punctuator }
{
    match punctuator {
        Punctuator::Star => Some(BinaryOperator::Arithmetic(Arithmetic::Multiply)),
        Punctuator::Slash => Some(BinaryOperator::Arithmetic(Arithmetic::Divide)),
        Punctuator::Percent => Some(BinaryOperator::Arithmetic(Arithmetic::Remainder)),
        Punctuator::Plus => Some(BinaryOperator::Arithmetic(Arithmetic::Add)),
        Punctuator::Minus => Some(BinaryOperator::Arithmetic(Arithmetic::Subtract)),
        Punctuator::ShiftLeft => Some(BinaryOperator::Arithmetic(Arithmetic::ShiftLeft)),
        Punctuator::ShiftRight => Some(BinaryOperator::Arithmetic(Arithmetic::ShiftRight)),
        Punctuator::Ampersand => Some(BinaryOperator::Arithmetic(Arithmetic::And)),
        Punctuator::Caret => Some(BinaryOperator::Arithmetic(Arithmetic::ExclusiveOr)),
        Punctuator::Bar => Some(BinaryOperator::Arithmetic(Arithmetic::Or)),
        Punctuator::Less => Some(BinaryOperator::Comparison(Comparison::Less)),
        Punctuator::Greater => Some(BinaryOperator::Comparison(Comparison::Greater)),
        Punctuator::LessEqual => Some(BinaryOperator::Comparison(Comparison::LessEqual)),
        Punctuator::GreaterEqual => Some(BinaryOperator::Comparison(Comparison::GreaterEqual)),
        Punctuator::Equal => Some(BinaryOperator::Comparison(Comparison::Equal)),
        Punctuator::NotEqual => Some(BinaryOperator::Comparison(Comparison::NotEqual)),
        Punctuator::AmpersandAmpersand => Some(BinaryOperator::LogicalAnd),
        Punctuator::BarBar => Some(BinaryOperator::LogicalOr),
        _ => None,
    }
}

/// The assignment that a punctuator is: with an operator or, for `=`, without.
pub fn assignment_of(punctuator: Punctuator) -> Option<Option<Arithmetic>>
    ensures { result ≡ punctuators.assignment_of punctuator }
{
    match punctuator {
        Punctuator::Assign => Some(None),
        Punctuator::StarAssign => Some(Some(Arithmetic::Multiply)),
        Punctuator::SlashAssign => Some(Some(Arithmetic::Divide)),
        Punctuator::PercentAssign => Some(Some(Arithmetic::Remainder)),
        Punctuator::PlusAssign => Some(Some(Arithmetic::Add)),
        Punctuator::MinusAssign => Some(Some(Arithmetic::Subtract)),
        Punctuator::ShiftLeftAssign => Some(Some(Arithmetic::ShiftLeft)),
        Punctuator::ShiftRightAssign => Some(Some(Arithmetic::ShiftRight)),
        Punctuator::AmpersandAssign => Some(Some(Arithmetic::And)),
        Punctuator::CaretAssign => Some(Some(Arithmetic::ExclusiveOr)),
        Punctuator::BarAssign => Some(Some(Arithmetic::Or)),
        _ => None,
    }
}

/// The operator before an operand that a punctuator is, `++` and `--` aside.
pub fn unary_of(punctuator: Punctuator) -> Option<UnaryOperator>
    ensures { result ≡ punctuators.unary_of punctuator }
{
    match punctuator {
        Punctuator::Plus => Some(UnaryOperator::Plus),
        Punctuator::Minus => Some(UnaryOperator::Minus),
        Punctuator::Exclamation => Some(UnaryOperator::LogicalNot),
        Punctuator::Tilde => Some(UnaryOperator::Complement),
        Punctuator::Star => Some(UnaryOperator::Indirection),
        Punctuator::Ampersand => Some(UnaryOperator::AddressOf),
        _ => None,
    }
}

/// Whether a punctuator is `++` or `--`.
pub fn increment_of(punctuator: Punctuator) -> Option<Increment>
    ensures { result ≡ punctuators.increment_of punctuator }
{
    match punctuator {
        Punctuator::PlusPlus => Some(Increment::Increment),
        Punctuator::MinusMinus => Some(Increment::Decrement),
        _ => None,
    }
}

/// How tightly an operator of numbers binds, the tightest level first (C11, 6.5).
fn level_of_arithmetic(operator: Arithmetic) -> u8
    ensures { result ≡ operators.level_of_arithmetic operator }
{
    match operator {
        Arithmetic::Multiply | Arithmetic::Divide | Arithmetic::Remainder => MULTIPLICATIVE,
        Arithmetic::Add | Arithmetic::Subtract => ADDITIVE,
        Arithmetic::ShiftLeft | Arithmetic::ShiftRight => SHIFT,
        Arithmetic::And => AND,
        Arithmetic::ExclusiveOr => EXCLUSIVE_OR,
        Arithmetic::Or => INCLUSIVE_OR,
    }
}

/// How tightly an operator binds (C11, 6.5).
pub fn level(operator: BinaryOperator) -> u8
    ensures { result ≡ operators.level operator }
{
    match operator {
        BinaryOperator::Arithmetic(operator) => level_of_arithmetic(operator),
        BinaryOperator::Comparison(Comparison::Equal | Comparison::NotEqual) => EQUALITY,
        BinaryOperator::Comparison(_) => RELATIONAL,
        BinaryOperator::LogicalAnd => LOGICAL_AND,
        BinaryOperator::LogicalOr => LOGICAL_OR,
    }
}

/// The level of the production in which a punctuator is after an operand.
fn punctuator_follows(punctuator: Punctuator) -> u8
    ensures { result ≡ follow.punctuator_follows punctuator }
{
    match punctuator {
        Punctuator::OpenParenthesis => PRIMARY,
        Punctuator::OpenBracket | Punctuator::PlusPlus | Punctuator::MinusMinus => POSTFIX,
        Punctuator::Star | Punctuator::Slash | Punctuator::Percent => MULTIPLICATIVE,
        Punctuator::Plus | Punctuator::Minus => ADDITIVE,
        Punctuator::ShiftLeft | Punctuator::ShiftRight => SHIFT,
        Punctuator::Less | Punctuator::Greater | Punctuator::LessEqual | Punctuator::GreaterEqual =>
            RELATIONAL,
        Punctuator::Equal | Punctuator::NotEqual => EQUALITY,
        Punctuator::Ampersand => AND,
        Punctuator::Caret => EXCLUSIVE_OR,
        Punctuator::Bar => INCLUSIVE_OR,
        Punctuator::AmpersandAmpersand => LOGICAL_AND,
        Punctuator::BarBar => LOGICAL_OR,
        Punctuator::Question => CONDITIONAL,
        Punctuator::Assign
        | Punctuator::PlusAssign
        | Punctuator::MinusAssign
        | Punctuator::StarAssign
        | Punctuator::SlashAssign
        | Punctuator::PercentAssign
        | Punctuator::AmpersandAssign
        | Punctuator::BarAssign
        | Punctuator::CaretAssign
        | Punctuator::ShiftLeftAssign
        | Punctuator::ShiftRightAssign => ASSIGNMENT,
        Punctuator::Comma => COMMA,
        _ => NEVER,
    }
}

/// The level of the production in which an expression continues with these tokens, `NEVER` where
/// none does.
pub fn follows(tokens: &[Token]) -> u8
    ensures { result ≡ follow.follows tokens.now }
{
    match front(tokens) {
        Some((token, _)) => match token.kind {
            Kind::Punctuator(punctuator) => punctuator_follows(punctuator),
            _ => NEVER,
        },
        None => NEVER,
    }
}
