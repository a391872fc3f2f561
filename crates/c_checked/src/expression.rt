//! Expressions.

use c_operations::built_in::BuiltIn;
use c_operations::field::Field;
use c_operations::operation::{Operation, Pure, Signedness, Size};
use seh_num::width::Width;

/// The conversion of an expression's value for its use (C11, 6.3, and 6.5.6 for pointers). It
/// counts no step.
#[derive(Clone, Copy)]
pub enum Conversion {
    /// None: the number stays the same.
    Kept,
    /// The low bits, zero- or sign-extended to a size.
    Extend {
        signedness: Signedness,
        from: Width,
        size: Size,
    },
    /// An index, extended to 64 bits, times the size of an element in bytes.
    Scale {
        signedness: Signedness,
        from: Width,
        by: u64,
    },
}

/// The width of an object in memory, and the signedness of its type.
#[derive(Clone, Copy)]
pub struct Access {
    /// How many bits it has.
    pub width: Width,
    /// Whether its highest bit is a sign.
    pub signedness: Signedness,
}

/// Postfix or prefix `++` and `--` (C11, 6.5.2.4 and 6.5.3.1).
#[derive(Clone, Copy)]
pub enum Fixity {
    /// `e++`: the value before the change.
    Postfix,
    /// `++e`: the value after the change.
    Prefix,
}

/// An lvalue: what can be read and assigned to (C11, 6.3.2.1).
#[derive(Drop)]
#[cycle(tree)]
pub enum Lvalue {
    /// A local by its index: parameters first, then the others in the order of their declarators.
    Local(u64),
    /// A global variable by its address.
    Global {
        access: Access,
        address: u64,
    },
    /// A variable on the data stack, by the local that has its function's base, and how many bytes
    /// it stands above the base.
    Stacked {
        access: Access,
        base: u64,
        offset: u64,
    },
    /// `*pointer` (C11, 6.5.3.2)
    Indirection {
        access: Access,
        pointer: Box<Expr>,
    },
    /// `array[index]` (C11, 6.5.2.1); the index is scaled by its conversion.
    Element {
        access: Access,
        array: Box<Expr>,
        index: Box<Expr>,
    },
}

/// An expression with the conversion of its value.
#[derive(Drop)]
#[cycle(tree)]
pub struct Expr {
    /// What computes the value.
    pub node: Node,
    /// What the value becomes then.
    pub conversion: Conversion,
}

/// An expression without the conversion of its value. Each node counts one step.
#[derive(Drop)]
#[cycle(tree)]
pub enum Node {
    /// A constant, the name of a built-in constant, or the address of a global array's first
    /// element.
    Constant {
        size: Size,
        value: u64,
    },
    /// The name of a local array: the address of its first element, so many bytes above what the
    /// local of this number has.
    StackedArray {
        base: u64,
        offset: u64,
    },
    Read(Lvalue),
    /// `&lvalue` (C11, 6.5.3.2)
    AddressOf(Lvalue),
    /// `target = value` (C11, 6.5.16.1)
    Assign {
        target: Lvalue,
        value: Box<Expr>,
    },
    /// `target operation= value` (C11, 6.5.16.2): the target's value is converted by `before` for
    /// the operation, and its result by `after` to the target's type.
    CompoundAssign {
        target: Lvalue,
        before: Conversion,
        operation: Operation,
        value: Box<Expr>,
        after: Conversion,
    },
    /// `++` and `--`: the operation with the amount as its second operand.
    Increment {
        fixity: Fixity,
        target: Lvalue,
        before: Conversion,
        operation: Operation,
        amount: u64,
        after: Conversion,
    },
    /// `-` and `~`, and with `First` unary `+` and casts (C11, 6.5.3.3 and 6.5.4).
    Unary {
        operation: Pure,
        operand: Box<Expr>,
    },
    /// A binary operator that evaluates both operands, the left one first.
    Binary {
        operation: Operation,
        left: Box<Expr>,
        right: Box<Expr>,
    },
    /// `left - right` of pointers to elements of this size in bytes (C11, 6.5.6).
    PointerDifference {
        size: u64,
        left: Box<Expr>,
        right: Box<Expr>,
    },
    /// `!operand` (C11, 6.5.3.3)
    Not(Box<Expr>),
    /// `left && right` (C11, 6.5.13)
    And(Box<Expr>, Box<Expr>),
    /// `left || right` (C11, 6.5.14)
    Or(Box<Expr>, Box<Expr>),
    /// `condition ? yes : no` (C11, 6.5.15)
    Conditional {
        condition: Box<Expr>,
        yes: Box<Expr>,
        no: Box<Expr>,
    },
    /// `left, right` (C11, 6.5.17)
    Comma(Box<Expr>, Box<Expr>),
    /// A call of a function by its index in the program (C11, 6.5.2.2).
    Call {
        function: u64,
        arguments: Vec<Expr>,
    },
    /// A call of a built-in function.
    CallBuiltIn {
        function: BuiltIn,
        arguments: Vec<Expr>,
    },
    /// `GetExceptionCode()`, of the innermost filter or `__except` block in the text.
    ExceptionCode,
    /// `GetExceptionInformation()->ExceptionRecord->field`, in a filter.
    Information(Field),
    /// `AbnormalTermination()`, of the innermost `__finally` block in the text.
    AbnormalTermination,
}
