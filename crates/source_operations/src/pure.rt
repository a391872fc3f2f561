//! Operations without faults.

ghost use Rattle.std.specs.Prelude.{◌≡◌, ◌+◌, ◌-◌, ◌*◌, ◌/◌, ◌^◌, ◌%◌, ◌≤◌, ◌<◌};
ghost use Rattle.seh_num.specs.Widths.{limit, low};
ghost use Rattle.c_operations.specs.Numbers as spec;

use c_operations::operation::{Pure, Relation, Signedness, Size};
use seh_num::extension::{sign_extend, truncate, wrap, zero_extend};
use seh_num::width::Width;

/// The width of a size.
pub fn width(size: Size) -> Width
    ensures { result ≡ spec.width size }
{
    match size {
        Size::Int => Width::W32,
        Size::Long => Width::W64,
    }
}

/// The low bits of a number of one width, zero- or sign-extended to another.
pub fn extended(signedness: Signedness, from: Width, to: Width, number: u64) -> u64
    ensures { result ≡ spec.extended signedness from to number }
{
    match signedness {
        Signedness::Unsigned => zero_extend(to, zero_extend(from, number)),
        Signedness::Signed => wrap(to, i128::from(sign_extend(from, number))),
    }
}

fn complement(width: Width, number: u64) -> u64
    requires { number < limit width }
    ensures { result ≡ limit width - 1 - number }
{
    (width.limit() - 1 - u128::from(number)) as u64
}

fn sum(width: Width, first: u64, second: u64) -> u64
    ensures { result ≡ low width (first + second) }
{
    truncate(width, u128::from(first) + u128::from(second))
}

fn difference(width: Width, first: u64, second: u64) -> u64
    requires { second < limit width }
    ensures { result ≡ low width (first + (limit width - second)) }
{
    truncate(
        width,
        u128::from(first) + (width.limit() - u128::from(second)),
    )
}

fn product(width: Width, first: u64, second: u64) -> u64
    ensures { result ≡ low width (first * second) }
{
    truncate(width, u128::from(first) * u128::from(second))
}

/// A count of bits, modulo those of a size.
fn count_of(size: Size, count: u64) -> u64
    ensures value { result ≡ count % spec.bits size }
    ensures small { result < 64 }
{
    match size {
        Size::Int => count % 32,
        Size::Long => count % 64,
    }
}

fn power(count: u64) -> u128
    requires { count < 64 }
    ensures value { result ≡ 2 ^ count }
    ensures least { 0 < result }
    ensures most { result ≤ 2 ^ 63 }
{
    1 << count
}

fn shifted_left(width: Width, number: u64, count: u64) -> u64
    requires { count < 64 }
    ensures { result ≡ low width (number * 2 ^ count) }
{
    truncate(width, u128::from(number) * power(count))
}

fn shifted_right(signedness: Signedness, width: Width, number: u64, count: u64) -> u64
    requires { count < 64 }
    ensures { result ≡ spec.shifted_right signedness width number count }
{
    let limit = width.limit();
    let divisor = power(count);
    let quotient = u128::from(number) / divisor;
    match signedness {
        Signedness::Unsigned => quotient as u64,
        Signedness::Signed => {
            if u128::from(number) < limit / 2 {
                quotient as u64
            } else {
                truncate(width, quotient + (limit - limit / divisor))
            }
        }
    }
}

fn is_less(signedness: Signedness, width: Width, first: u64, second: u64) -> bool
    ensures { result ≡ spec.is_less signedness width first second }
{
    match signedness {
        Signedness::Unsigned => zero_extend(width, first) < zero_extend(width, second),
        Signedness::Signed => sign_extend(width, first) < sign_extend(width, second),
    }
}

fn are_equal(width: Width, first: u64, second: u64) -> bool
    ensures { result ≡ spec.are_equal width first second }
{
    zero_extend(width, first) == zero_extend(width, second)
}

fn are_related(
    relation: Relation,
    signedness: Signedness,
    width: Width,
    first: u64,
    second: u64,
) -> bool
    ensures { result ≡ spec.are_related relation signedness width first second }
{
    match relation {
        Relation::Equal => are_equal(width, first, second),
        Relation::NotEqual => !are_equal(width, first, second),
        Relation::Less => is_less(signedness, width, first, second),
        Relation::LessOrEqual => !is_less(signedness, width, second, first),
        Relation::Greater => is_less(signedness, width, second, first),
        Relation::GreaterOrEqual => !is_less(signedness, width, first, second),
    }
}

/// The result of an operation without faults on two operands.
pub fn result_of(operation: Pure, first: u64, second: u64) -> u64
    ensures { result ≡ spec.result_of operation first second }
{
    match operation {
        Pure::Constant(value) => zero_extend(Width::W64, value),
        Pure::First => first,
        Pure::Extend {
            signedness,
            from,
            size,
        } => extended(signedness, from, width(size), first),
        Pure::Not(size) => complement(width(size), zero_extend(width(size), first)),
        Pure::Negate(size) => difference(width(size), 0, zero_extend(width(size), first)),
        Pure::Add(size) => sum(width(size), first, second),
        Pure::Subtract(size) => difference(width(size), first, zero_extend(width(size), second)),
        Pure::Multiply(size) => product(
            width(size),
            zero_extend(width(size), first),
            zero_extend(width(size), second),
        ),
        Pure::MultiplyBy(factor) => product(
            Width::W64,
            zero_extend(Width::W64, first),
            zero_extend(Width::W64, factor),
        ),
        Pure::And(size) => zero_extend(width(size), first) & zero_extend(width(size), second),
        Pure::Or(size) => zero_extend(width(size), first) | zero_extend(width(size), second),
        Pure::Xor(size) => zero_extend(width(size), first) ^ zero_extend(width(size), second),
        Pure::ShiftLeft(size) => shifted_left(
            width(size),
            zero_extend(width(size), first),
            count_of(size, second),
        ),
        Pure::ShiftRight(signedness, size) => shifted_right(
            signedness,
            width(size),
            zero_extend(width(size), first),
            count_of(size, second),
        ),
        Pure::Compare {
            relation,
            signedness,
            size,
        } => u64::from(are_related(relation, signedness, width(size), first, second)),
    }
}
