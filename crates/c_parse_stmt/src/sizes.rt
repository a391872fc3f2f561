//! Sizes of types, and where elements end.

ghost use Rattle.std.specs.Prelude.{◌≡◌, ◌≤◌, ◌<◌, ◌+◌, ◌*◌, IfSome, IfNone};
ghost use Rattle.c_syntax.specs.Limits as limits;

use c_syntax::expression::Base;
use c_syntax::limit::MOST_GLOBALS;

/// How many bytes a type has: those of its base, or 8 of a pointer. `void` has none.
pub fn size_of(base: Base, pointers: u64) -> u64
    ensures size { result ≡ limits.size base pointers }
    ensures small { result ≤ 8 }
{
    match pointers {
        0 => match base {
            Base::Void => 0,
            Base::Char | Base::UnsignedChar => 1,
            Base::Short | Base::UnsignedShort => 2,
            Base::Int | Base::Unsigned => 4,
            Base::LongLong | Base::UnsignedLongLong => 8,
        },
        _ => 8,
    }
}

/// Where `count` elements of a size end that are placed after `at` bytes, at a multiple of the
/// size; none where that is beyond the most.
pub fn end_of(size: u64, count: u64, at: u64, most: u64) -> Option<u64>
    requires size { size ≤ 8 }
    requires at { at ≤ most }
    requires most { most ≤ MOST_GLOBALS }
    ensures found { IfSome result (λ end. end ≡ limits.aligned at size + size * count) }
    ensures low { IfSome result (λ end. end ≤ most) }
    ensures none { IfNone result (most < limits.aligned at size + size * count) }
{
    if size == 0 {
        return Some(at);
    }
    let start = (at + (size - 1)) / size * size;
    if start > most || count > (most - start) / size {
        return None;
    }
    Some(start + size * count)
}
