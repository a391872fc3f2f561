//! Which operands an operation reads, and which registers it needs.

ghost use Rattle.std.specs.Prelude.{◌≡◌};
ghost use Rattle.template_code.specs.Operands as spec;

use c_operations::operation::{Operation, Pure};

/// Whether an operation reads its first operand: all but a constant and the data stack's pointer
/// do.
pub fn has_first(operation: Operation) -> bool
    ensures { result ≡ spec.has_first operation }
{
    match operation {
        Operation::Pure(Pure::Constant(_)) | Operation::Allocate(_) => false,
        _ => true,
    }
}

/// Whether an operation reads its second operand.
pub fn has_second(operation: Operation) -> bool
    ensures { result ≡ spec.has_second operation }
{
    match operation {
        Operation::Pure(
            Pure::Constant(_)
            | Pure::First
            | Pure::Extend { .. }
            | Pure::Not(_)
            | Pure::Negate(_)
            | Pure::MultiplyBy(_),
        )
        | Operation::Load(_)
        | Operation::Allocate(_)
        | Operation::SetPointer(_) => false,
        _ => true,
    }
}

/// Whether the instructions of an operation write RAX alone.
pub fn needs_rax_alone(operation: Operation) -> bool
    ensures { result ≡ spec.needs_rax_alone operation }
{
    match operation {
        Operation::Pure(
            Pure::Constant(_) | Pure::First | Pure::Extend { .. } | Pure::Not(_) | Pure::Negate(_),
        )
        | Operation::Load(_) => true,
        _ => false,
    }
}
