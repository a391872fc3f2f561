//! Values of expressions.

ghost use Rattle.std.specs.Prelude.{◌≡◌, ◌*◌};
ghost use Rattle.seh_num.specs.declared.width.Width.TheVariants.{W64};
ghost use Rattle.seh_num.specs.Widths.{low};
ghost use Rattle.source_meaning.specs.Expressions as model;
ghost use Rattle.source_plans.specs.Views.{exception_of};

use crate::place::Exception;
use c_checked::expression::{Access, Conversion, Fixity};
use c_operations::field::Field;
use c_operations::operation::{Pure, Signedness, Size};
use seh_num::extension::{sign_extend, wrap, zero_extend};
use seh_num::width::Width;
use source_operations::pure::{extended, result_of, width};

/// 1 for true, and 0 for false.
pub fn of_test(holds: bool) -> u64
    ensures { result ≡ model.of_test holds }
{
    u64::from(holds)
}

fn parameter_of(access: Option<(bool, u64)>, index: u64) -> u64
    ensures { result ≡ model.parameter_of access index }
{
    match (access, index) {
        (Some((write, _)), 0) => of_test(write),
        (Some((_, address)), 1) => address,
        _ => 0,
    }
}

/// What a filter reads of an exception.
pub fn field_of(field: Field, exception: Exception) -> u64
    ensures { result ≡ model.field_of field (exception_of exception) }
{
    match field {
        Field::ExceptionCode => u64::from(exception.code),
        Field::ExceptionFlags => of_test(exception.flag),
        Field::NumberParameters => match exception.access {
            None => 0,
            Some(_) => 2,
        },
        Field::ExceptionInformation(index) => parameter_of(exception.access, index),
    }
}

/// A product modulo 2^64.
fn scaled(value: u64, by: u64) -> u64
    ensures { result ≡ low W64 (value * by) }
{
    value.wrapping_mul(by)
}

/// A value as its place asks for it.
pub fn converted(conversion: Conversion, value: u64) -> u64
    ensures { result ≡ model.converted conversion value }
{
    match conversion {
        Conversion::Kept => value,
        Conversion::Extend {
            signedness,
            from,
            size,
        } => extended(signedness, from, width(size), value),
        Conversion::Scale {
            signedness,
            from,
            by,
        } => scaled(extended(signedness, from, Width::W64, value), by),
    }
}

/// The width of the numbers that represent values of a type of a width.
fn value_width(width: Width) -> Width
    ensures { result ≡ model.value_width width }
{
    match width {
        Width::W64 => Width::W64,
        Width::W8 | Width::W16 | Width::W32 => Width::W32,
    }
}

/// Bytes that were read, as a value.
pub fn value_of(access: Access, bytes: u64) -> u64
    ensures { result ≡ model.value_of access bytes }
{
    extended(
        access.signedness,
        access.width,
        value_width(access.width),
        bytes,
    )
}

/// How many things of a size lie between two addresses, towards zero.
pub fn apart(size: u64, left: u64, right: u64) -> u64
    ensures { result ≡ model.apart size left right }
{
    let bytes = sign_extend(
        Width::W64,
        result_of(Pure::Subtract(Size::Long), left, right),
    );
    match i128::from(bytes).checked_div(i128::from(size)) {
        None => 0,
        Some(count) => wrap(Width::W64, count),
    }
}

/// The value of `++` or `--`.
pub fn incremented_value(fixity: Fixity, old: u64, new: u64) -> u64
    ensures { result ≡ model.incremented_value fixity old new }
{
    match fixity {
        Fixity::Postfix => old,
        Fixity::Prefix => new,
    }
}
