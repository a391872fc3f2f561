//! Operations on two operands.

use seh_num::width::Width;

/// The sizes in which C computes: those of `int` and of `long long` (C11, 6.3.1.1).
#[derive(Clone, Copy)]
pub enum Size {
    /// 32 bits.
    Int,
    /// 64 bits.
    Long,
}

/// Whether bits are read as an unsigned number or in two's complement (C11, 6.2.6.2).
#[derive(Clone, Copy)]
pub enum Signedness {
    Unsigned,
    Signed,
}

/// The relations of the relational and equality operators (C11, 6.5.8 and 6.5.9).
#[derive(Clone, Copy)]
pub enum Relation {
    Equal,
    NotEqual,
    Less,
    LessOrEqual,
    Greater,
    GreaterOrEqual,
}

/// An operation that has a result for all operands. Overflow of signed numbers wraps modulo 2^32 or
/// 2^64 (own: C11, 6.5, leaves it undefined).
#[derive(Clone, Copy)]
pub enum Pure {
    /// This number, whatever the operands are.
    Constant(u64),
    /// The first operand.
    First,
    /// The low bits of the first operand, zero- or sign-extended to a size.
    Extend {
        signedness: Signedness,
        from: Width,
        size: Size,
    },
    /// Bitwise complement (C11, 6.5.3.3).
    Not(Size),
    /// The negative (C11, 6.5.3.3).
    Negate(Size),
    Add(Size),
    Subtract(Size),
    Multiply(Size),
    /// The first operand times this number, in 64 bits.
    MultiplyBy(u64),
    And(Size),
    Or(Size),
    Xor(Size),
    /// `<<` (C11, 6.5.7), by the second operand modulo the size in bits (own).
    ShiftLeft(Size),
    /// `>>` by the second operand modulo the size in bits (own); arithmetic where signed, as the
    /// standard leaves to an implementation.
    ShiftRight(Signedness, Size),
    /// 1 where the relation holds of the operands, else 0.
    Compare {
        relation: Relation,
        signedness: Signedness,
        size: Size,
    },
}

/// An operation on two operands, which may fault.
#[derive(Clone, Copy)]
pub enum Operation {
    Pure(Pure),
    /// The quotient, truncated toward zero (C11, 6.5.5). A zero divisor, and a signed quotient out
    /// of range, are faults.
    Divide(Signedness, Size),
    /// The remainder of that division, with its faults.
    Remainder(Signedness, Size),
    /// The number of this width at the address that the first operand is, zero-extended.
    Load(Width),
    /// Stores the second operand's low bits at the address that the first operand is; the result is
    /// the second operand.
    Store(Width),
    /// The data stack's pointer, which becomes larger by so many bytes.
    Allocate(u64),
    /// The data stack's pointer becomes the first operand and so many bytes; the result is the
    /// first operand.
    SetPointer(u64),
    /// Stores the second operand's low bits so many bytes above the first operand, where a variable
    /// stands; the result is the second operand.
    Place { width: Width, offset: u64 },
    /// Sets an element of an array to 0, which begins so many bytes above the first operand: the
    /// one before as many bytes of it as the second operand says. The result is how many bytes are
    /// before that element.
    Clear { width: Width, offset: u64 },
}
