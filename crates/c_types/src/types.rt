//! Types, and how values of one become values of another.

ghost use Rattle.std.specs.Prelude.{◌≡◌, IfOk};
ghost use Rattle.c_resolved.specs.Layout.{stored_bytes};
ghost use Rattle.c_resolved.specs.Types.{plain, pointer_to, pointed, is_void_base, is_pointer};
ghost use Rattle.c_resolved.specs.Types.{is_void, is_integer, is_scalar, is_void_pointer};
ghost use Rattle.c_resolved.specs.Types.{is_sized_pointer, same_base, same_type, base_width};
ghost use Rattle.c_resolved.specs.Types.{base_sort, width_of, sort_of, access_of, size_of_width};
ghost use Rattle.c_resolved.specs.Types.{size_of, bytes_in, promoted_base, promoted, wider, common};
ghost use Rattle.c_resolved.specs.Types.{to_width, conversion, index_width, scaled};

use c_checked::expression::{Access, Conversion};
use c_operations::operation::{Signedness, Size};
use c_syntax::expression::{Base, CType};
use seh_num::width::Width;
use std::alloc::AllocError;

/// A type that is no pointer.
pub fn plain(base: Base) -> CType
    ensures { result ≡ plain base }
{
    CType { base, pointers: 0 }
}

/// A pointer to a type. One of 2^64 stars would need a text of as many bytes, so it counts as want
/// of memory.
pub fn pointer_to(t: CType) -> Result<CType, AllocError>
    ensures { IfOk result (λ p. p ≡ pointer_to t) }
{
    if t.pointers == u64::MAX {
        return Err(AllocError);
    }
    Ok(CType {
        base: t.base,
        pointers: t.pointers + 1,
    })
}

/// What a pointer points to.
pub fn pointed(t: CType) -> CType
    ensures { result ≡ pointed t }
{
    CType {
        base: t.base,
        pointers: t.pointers.saturating_sub(1),
    }
}

fn is_void_base(base: Base) -> bool
    ensures { result ≡ is_void_base base }
{
    match base {
        Base::Void => true,
        _ => false,
    }
}

pub fn is_pointer(t: CType) -> bool
    ensures { result ≡ is_pointer t }
{
    0 < t.pointers
}

pub fn is_void(t: CType) -> bool
    ensures { result ≡ is_void t }
{
    is_void_base(t.base) && !is_pointer(t)
}

pub fn is_integer(t: CType) -> bool
    ensures { result ≡ is_integer t }
{
    !is_pointer(t) && !is_void_base(t.base)
}

/// An integer or a pointer.
pub fn is_scalar(t: CType) -> bool
    ensures { result ≡ is_scalar t }
{
    !is_void(t)
}

pub fn is_void_pointer(t: CType) -> bool
    ensures { result ≡ is_void_pointer t }
{
    is_void_base(t.base) && t.pointers == 1
}

/// A pointer to what has a size.
pub fn is_sized_pointer(t: CType) -> bool
    ensures { result ≡ is_sized_pointer t }
{
    is_pointer(t) && !is_void_pointer(t)
}

fn same_base(a: Base, b: Base) -> bool
    ensures { result ≡ same_base a b }
{
    match (a, b) {
        (Base::Void, Base::Void) => true,
        (Base::Char, Base::Char) => true,
        (Base::UnsignedChar, Base::UnsignedChar) => true,
        (Base::Short, Base::Short) => true,
        (Base::UnsignedShort, Base::UnsignedShort) => true,
        (Base::Int, Base::Int) => true,
        (Base::Unsigned, Base::Unsigned) => true,
        (Base::LongLong, Base::LongLong) => true,
        (Base::UnsignedLongLong, Base::UnsignedLongLong) => true,
        _ => false,
    }
}

pub fn same_type(a: CType, b: CType) -> bool
    ensures { result ≡ same_type a b }
{
    a.pointers == b.pointers && same_base(a.base, b.base)
}

fn base_width(base: Base) -> Width
    ensures { result ≡ base_width base }
{
    match base {
        Base::Void | Base::Char | Base::UnsignedChar => Width::W8,
        Base::Short | Base::UnsignedShort => Width::W16,
        Base::Int | Base::Unsigned => Width::W32,
        Base::LongLong | Base::UnsignedLongLong => Width::W64,
    }
}

fn base_sort(base: Base) -> Signedness
    ensures { result ≡ base_sort base }
{
    match base {
        Base::Char | Base::Short | Base::Int | Base::LongLong => Signedness::Signed,
        _ => Signedness::Unsigned,
    }
}

/// How wide a value of the type is in memory; pointers have 64 bits.
pub fn width_of(t: CType) -> Width
    ensures { result ≡ width_of t }
{
    if is_pointer(t) {
        Width::W64
    } else {
        base_width(t.base)
    }
}

/// Which numbers its bits are taken for; pointers are unsigned.
pub fn sort_of(t: CType) -> Signedness
    ensures { result ≡ sort_of t }
{
    if is_pointer(t) {
        Signedness::Unsigned
    } else {
        base_sort(t.base)
    }
}

pub fn access_of(t: CType) -> Access
    ensures { result ≡ access_of t }
{
    Access {
        width: width_of(t),
        signedness: sort_of(t),
    }
}

fn size_of_width(width: Width) -> Size
    ensures { result ≡ size_of_width width }
{
    match width {
        Width::W64 => Size::Long,
        _ => Size::Int,
    }
}

/// The size of the numbers in which values of the type are computed.
pub fn size_of(t: CType) -> Size
    ensures { result ≡ size_of t }
{
    size_of_width(width_of(t))
}

/// How many bytes a value of the type has in memory.
pub fn bytes_in(t: CType) -> u64
    ensures { result ≡ bytes_in t }
{
    width_of(t).bytes()
}

/// How many bytes a variable of a type takes. One of type void, which is refused, takes none.
pub fn stored_bytes(t: CType) -> u64
    ensures { result ≡ stored_bytes t }
{
    if is_scalar(t) { bytes_in(t) } else { 0 }
}

fn promoted_base(base: Base) -> Base
    ensures { result ≡ promoted_base base }
{
    match base {
        Base::Char | Base::UnsignedChar | Base::Short | Base::UnsignedShort => Base::Int,
        other => other,
    }
}

/// The type of an integer after the integer promotions (C11, 6.3.1.1).
pub fn promoted(t: CType) -> CType
    ensures { result ≡ promoted t }
{
    plain(promoted_base(t.base))
}

fn wider(a: Base, b: Base) -> Base
    ensures { result ≡ wider a b }
{
    match (a, b) {
        (Base::UnsignedLongLong, _) => a,
        (Base::LongLong, Base::UnsignedLongLong) => b,
        (Base::LongLong, _) => a,
        (Base::Unsigned, Base::UnsignedLongLong | Base::LongLong) => b,
        (Base::Unsigned, _) => a,
        _ => b,
    }
}

/// The type in which two integers are computed together (C11, 6.3.1.8).
pub fn common(a: CType, b: CType) -> CType
    ensures { result ≡ common a b }
{
    plain(wider(promoted_base(a.base), promoted_base(b.base)))
}

fn to_width(from: Width, s: Signedness, to: Width, t: Signedness) -> Conversion
    ensures { result ≡ to_width from s to t }
{
    match (from, to) {
        (_, Width::W8) => Conversion::Extend {
            signedness: t,
            from: Width::W8,
            size: Size::Int,
        },
        (_, Width::W16) => Conversion::Extend {
            signedness: t,
            from: Width::W16,
            size: Size::Int,
        },
        (Width::W64, Width::W32) => Conversion::Extend {
            signedness: Signedness::Unsigned,
            from: Width::W32,
            size: Size::Int,
        },
        (_, Width::W32) => Conversion::Kept,
        (Width::W64, Width::W64) => Conversion::Kept,
        (_, Width::W64) => Conversion::Extend {
            signedness: s,
            from: Width::W32,
            size: Size::Long,
        },
    }
}

/// How a value of one type becomes one of another, between integers and pointers.
pub fn conversion(from: CType, to: CType) -> Conversion
    ensures { result ≡ conversion from to }
{
    if same_type(from, to) {
        Conversion::Kept
    } else {
        to_width(width_of(from), sort_of(from), width_of(to), sort_of(to))
    }
}

fn index_width(width: Width) -> Width
    ensures { result ≡ index_width width }
{
    match width {
        Width::W64 => Width::W64,
        _ => Width::W32,
    }
}

/// How an index of a type becomes the distance of elements of so many bytes.
pub fn scaled(from: CType, by: u64) -> Conversion
    ensures { result ≡ scaled from by }
{
    Conversion::Scale {
        signedness: sort_of(from),
        from: index_width(width_of(from)),
        by,
    }
}
