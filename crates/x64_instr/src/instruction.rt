//! The instructions.

use crate::operand::{MemRef, Operand, RegisterOrMemory};
use crate::register::Reg;
use seh_num::width::Width;

/// What an arithmetic instruction computes of its operands.
#[derive(Clone, Copy, Debug, PartialEq, Eq)]
pub enum Operation {
    Add,
    Or,
    And,
    Sub,
    Xor,
    /// A difference of which the flags alone are kept.
    Compare,
}

/// What is computed of one operand.
#[derive(Clone, Copy, Debug, PartialEq, Eq)]
pub enum Unary {
    /// Each bit turned.
    Not,
    /// The negative, modulo 2 to the width.
    Negate,
}

/// How a number is made wider.
#[derive(Clone, Copy, Debug, PartialEq, Eq)]
pub enum Extension {
    /// By copies of its top bit.
    Sign,
    /// By zeros.
    Zero,
}

/// Which numbers a division takes its operands for.
#[derive(Clone, Copy, Debug, PartialEq, Eq)]
pub enum Division {
    Unsigned,
    Signed,
}

/// Where the bits of a shift go, and what comes in after them.
#[derive(Clone, Copy, Debug, PartialEq, Eq)]
pub enum Direction {
    /// To the top; zeros come in.
    Left,
    /// To the bottom; zeros come in.
    Right,
    /// To the bottom; copies of the top bit come in.
    ArithmeticRight,
}

/// How far a shift goes.
#[derive(Clone, Copy, Debug, PartialEq, Eq)]
pub enum Count {
    /// By a number of 8 bits.
    Immediate(u64),
    /// By CL.
    Cl,
}

/// What is asked of the flags (Intel manual, volume 1, appendix B "EFLAGS Condition Codes"). The
/// two conditions on PF aren't among them.
#[derive(Clone, Copy, Debug, PartialEq, Eq)]
pub enum Condition {
    Overflow,
    NotOverflow,
    Below,
    AboveOrEqual,
    Equal,
    NotEqual,
    BelowOrEqual,
    Above,
    Sign,
    NotSign,
    Less,
    GreaterOrEqual,
    LessOrEqual,
    Greater,
}

/// Where a jump or a call goes.
#[derive(Clone, Copy, Debug, PartialEq, Eq)]
pub enum Target {
    /// So far from the next instruction: a signed number of 32 bits, sign-extended to 64.
    Relative(u64),
    /// To the address in the operand, of 64 bits.
    Indirect(RegisterOrMemory),
}

/// An instruction (Intel manual, volume 2). Not each value has a spelling: `is_encodable` says so.
#[derive(Clone, Copy, Debug, Default, PartialEq, Eq)]
pub enum Instr {
    /// MOV.
    Move {
        width: Width,
        to: RegisterOrMemory,
        from: Operand,
    },
    /// MOVZX, MOVSX, MOVSXD.
    Extend {
        extension: Extension,
        /// The width of `to`.
        width: Width,
        to: Reg,
        /// The width of `from`.
        narrow: Width,
        from: RegisterOrMemory,
    },
    /// LEA: the address itself goes to `to`.
    LoadAddress {
        width: Width,
        to: Reg,
        from: MemRef,
    },
    /// ADD, OR, AND, SUB, XOR, CMP: `to` is the first operand, and takes the result, but of CMP.
    Arithmetic {
        operation: Operation,
        width: Width,
        to: RegisterOrMemory,
        from: Operand,
    },
    /// TEST: the flags of AND.
    Test {
        width: Width,
        first: RegisterOrMemory,
        second: Operand,
    },
    /// IMUL with two operands: `to` is one of them, and takes the low half of the product.
    Multiply {
        width: Width,
        to: Reg,
        from: RegisterOrMemory,
    },
    /// IMUL with three operands: `to` takes the low half of the product of the other two.
    MultiplyBy {
        width: Width,
        to: Reg,
        from: RegisterOrMemory,
        /// A number of the width, sign-extended from 32 bits.
        by: u64,
    },
    /// NOT, NEG.
    Unary {
        operation: Unary,
        width: Width,
        to: RegisterOrMemory,
    },
    /// DIV, IDIV: of RDX and RAX together, RDX the high half; RAX takes the quotient, RDX the
    /// remainder.
    Divide {
        division: Division,
        width: Width,
        by: RegisterOrMemory,
    },
    /// CDQ, CQO: RDX takes copies of the top bit of RAX.
    ExtendRax {
        width: Width,
    },
    /// SHL, SHR, SAR.
    Shift {
        direction: Direction,
        width: Width,
        to: RegisterOrMemory,
        by: Count,
    },
    /// SETcc: a byte of 1 where the condition holds, else of 0.
    Set {
        condition: Condition,
        to: RegisterOrMemory,
    },
    /// Jcc: so far from the next instruction where the condition holds.
    JumpIf {
        condition: Condition,
        /// A signed number of 32 bits, sign-extended to 64.
        displacement: u64,
    },
    /// JMP.
    Jump(Target),
    /// CALL.
    Call(Target),
    /// PUSH, of 64 bits.
    Push(Reg),
    /// POP, of 64 bits.
    Pop(Reg),
    /// RET.
    Return,
    /// NOP, which is also the default.
    #[default]
    NoOperation,
    /// INT3.
    Breakpoint,
    /// UD2.
    Undefined,
}
